// The places of the live documents of parts that are there already.
ghost use Rattle.std.specs.Prelude.{◌≡◌, ◌<◌, ◌++◌, ◌∷◌, [], List, None, false, length, is_some, slice_index_or, IsTrue, IfOk, IfSome, MatchResult};
ghost use Rattle.std.specs.Map.{lookup};
ghost use Rattle.std.specs.Str.{bytes_eq};
ghost use Rattle.disk_index.specs.Parts.{size, source_of};
ghost use Rattle.disk_index.specs.Snapshots.{Marked};
ghost use Rattle.holdings.specs.Kept.{ArePlaced};
ghost use Rattle.holdings.specs.MarkedParts.{docnos_in, filled};
ghost use Rattle.holdings.specs.Placing.{PlacesOne, Repeats};

use crate::places::insert;
use crate::spot::Spot;
use disk_index::{MarkedPart, Part};
use indexmap::IndexMap;
use ri_base::{Docno, NoMemory};
use std::alloc::Global;

/// Notes the place of a docno, where it isn't there yet, and answers whether that is so.
fn place(
    alloc: Global,
    places: &mut IndexMap<Docno, Spot>,
    docno: &Docno,
    spot: Spot,
) -> Result<bool, NoMemory>
    ensures fresh { IfOk result (λ fresh. IsTrue fresh → PlacesOne places.old.entries places.new.entries false docno.now spot) }
    ensures there { IfOk result (λ fresh. fresh ≡ false → IsTrue (is_some (lookup (bytes_eq docno.now) places.old.entries))) }
{
    if places.contains_key(docno) {
        return Ok(false);
    }
    let docno = docno.clone_in(alloc)?;
    places.reserve(1)?;
    insert(places, docno, spot);
    Ok(true)
}

/// The docno of a document.
fn docno_of(part: &Part, id: u32) -> &Docno
    requires { id < size (source_of part.now) }
    ensures { result.now ≡ slice_index_or (docnos_in (source_of part.now)) id [] }
{
    part.docno(id)
}

/// Notes the place of the document with this id, unless it is marked. The answer is false where its docno is there already.
fn place_one(
    alloc: Global,
    places: &mut IndexMap<Docno, Spot>,
    part: &MarkedPart,
    spot: Spot,
) -> Result<bool, NoMemory>
    requires { spot.id < length part.now.marks }
    ensures places { IfOk result (λ fresh. IsTrue fresh → PlacesOne places.old.entries places.new.entries
        (slice_index_or part.now.marks spot.id false) (slice_index_or (docnos_in part.now.source) spot.id []) spot) }
    ensures unmarked { IfOk result (λ fresh. fresh ≡ false → slice_index_or part.now.marks spot.id false ≡ false) }
    ensures there { IfOk result (λ fresh. fresh ≡ false → IsTrue (is_some (lookup (bytes_eq (slice_index_or (docnos_in part.now.source) spot.id [])) places.old.entries))) }
{
    if part.marks().is_marked(spot.id) {
        return Ok(true);
    }
    place(alloc, places, docno_of(part.part(), spot.id), spot)
}

/// Notes the places of the documents of a part that aren't marked, or answers the id of the first whose docno is there already.
fn place_part(
    alloc: Global,
    places: &mut IndexMap<Docno, Spot>,
    part: &MarkedPart,
    number: usize,
) -> Result<Option<u32>, NoMemory>
    ensures places { IfOk result (λ found. found ≡ None → (front : List Marked) → length front ≡ number
        → ArePlaced places.old.entries (front ++ filled [] [] ∷ []) → ArePlaced places.new.entries (front ++ part.now ∷ [])) }
    ensures repeats { IfOk result (λ found. IfSome found (λ id. (front : List Marked) → length front ≡ number
        → ArePlaced places.old.entries (front ++ filled [] [] ∷ []) → Repeats (front ++ part.now ∷ []) (record { part = number; id = id }))) }
{
    for id in 0..part.marks().len() {
        let spot = Spot { part: number, id };
        if !place_one(alloc, places, part, spot)? {
            return Ok(Some(id));
        }
    }
    Ok(None)
}

/// The places of the live documents of these parts, or the place of the first whose docno an earlier one has.
pub fn place_all(
    alloc: Global,
    parts: &[MarkedPart],
) -> Result<Result<IndexMap<Docno, Spot>, Spot>, NoMemory>
    ensures { IfOk result (λ found. MatchResult found (λ places. ArePlaced places.entries (parts.now ++ filled [] [] ∷ [])) (λ spot. (spot.part < length parts.now) × Repeats parts.now spot)) }
{
    let mut places = IndexMap::new(alloc);
    let mut number = 0;
    for part in parts {
        match place_part(alloc, &mut places, part, number)? {
            Some(id) => return Ok(Err(Spot { part: number, id })),
            None => number += 1,
        }
    }
    Ok(Ok(places))
}
