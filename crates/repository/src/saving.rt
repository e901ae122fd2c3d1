// Parts that are in memory alone are written.
ghost use Rattle.std.specs.Prelude.{◌≡◌, ◌≤◌, ◌<◌, ◌^◌, ◌++◌, ◌≢◌, [], Some, Err, length, slice_index_or, IfOk, IfErr, OnOk};
ghost use Rattle.std.specs.List.{All};
ghost use Rattle.std.specs.Option.{option_map};
ghost use Rattle.ri_base.specs.Collection.{name_count};
ghost use Rattle.ri_base.specs.Faults.{IsOutside};
ghost use Rattle.ri_base.specs.Keeps.{Rose};
ghost use Rattle.ri_base.specs.declared.limits.TheConstants.{MAX_PART_DOCS, MAX_PART_NAMES};
ghost use Rattle.store_ends.specs.Files.{AnyState, GoesOn, Leaves, SameWhere, with_file};
ghost use Rattle.manifest.specs.Listing.{AreNumbered, prior_numbers};
ghost use Rattle.seg_codec.specs.Part.{IsPart};
ghost use Rattle.seg_codec.specs.Segment.{segment};
ghost use Rattle.disk_index.specs.Kept.{kept_of};
ghost use Rattle.disk_index.specs.Names.{segment_name};
ghost use Rattle.holdings.specs.MarkedParts.{filled};
ghost use Rattle.repository.specs.Entries.{IsOnDisk};
ghost use Rattle.repository.specs.Saved.{AllSaved, IsUnlisted, Saves};
ghost use Rattle.repository.specs.States.{part_numbers};
ghost use Rattle.repository.specs.Writes.{IsOther};

use crate::files::put_file;
use crate::numbers::Numbers;
use disk_index::{DiskIndex, Part, segment_name};
use holdings::Holdings;
use manifest::PriorEntry;
use ri_base::{Sealed, SegFault};
use seg_codec::seg_bytes;
use std::alloc::{AllocError, Global};
use std::rc::Rc;
use store_ends::Store;

/// Writes documents as the segment of this number, and answers the part that has them there. Nothing is read of the file.
#[tactic(auto, using(crate::proofs::NameLemmas::segment_ascii, crate::proofs::NameLemmas::segment_short))]
fn write_segment<T: Store>(
    alloc: Global,
    store: &mut T,
    sealed: &Sealed,
    number: u64,
) -> Result<Rc<DiskIndex>, SegFault>
    requires few { length sealed.now ≤ MAX_PART_DOCS }
    requires named { name_count sealed.now ≤ MAX_PART_NAMES }
    ensures kept { IfOk result (λ index. index.value ≡ kept_of number sealed.now) }
    ensures part { OnOk result (IsPart sealed.now) }
    ensures small { OnOk result (length (segment sealed.now) < 2 ^ 64) }
    ensures done { OnOk result (T.files store.new ≡ option_map (with_file (segment_name number) (Some (segment sealed.now))) (T.files store.old)) }
    ensures changed { AnyState (segment_name number) (T.files store.old) (T.files store.new) }
    ensures stops { Leaves (T.since store.old) (T.since store.new) (AnyState (segment_name number) (T.files store.old)) }
    ensures goes_on { GoesOn T.layers T.clock T.longest T.held store.old store.new }
    ensures outside { IfErr result IsOutside }
    ensures later { T.faults store.old ≤ T.faults store.new }
    ensures store { result ≡ Err SegFault.Store → Rose (T.faults store.old) (T.faults store.new) }
    ensures none { result ≢ Err SegFault.Store → T.faults store.new ≡ T.faults store.old }
{
    let bytes = seg_bytes(alloc, sealed)?;
    // they are in memory, so their number is one of 64 bits
    let _size = bytes.len();
    let index = DiskIndex::of_bytes(alloc, bytes.as_slice(), number)?;
    let shared = Rc::new(alloc, index).map_err(AllocError::from)?;
    let name = segment_name(number);
    put_file(store, &name, bytes.as_slice())?;
    Ok(shared)
}

/// Writes the closed part at this place, where it is in memory alone.
fn write_part<T: Store>(
    alloc: Global,
    store: &mut T,
    held: &mut Holdings,
    numbers: &mut Numbers,
    place: usize,
) -> Result<(), SegFault>
    requires { place < length held.old.parts.closed }
    ensures saved { OnOk result (Saves (T.files store.new) numbers.old numbers.new held.old held.new) }
    ensures on_disk { OnOk result (IsOnDisk (slice_index_or held.new.parts.closed place (filled [] [])).source) }
    ensures same { SameWhere (IsOther (IsUnlisted numbers.old.numbers)) (T.files store.old) (T.files store.new) }
    ensures stops { Leaves (T.since store.old) (T.since store.new) (SameWhere (IsOther (IsUnlisted numbers.old.numbers)) (T.files store.old)) }
    ensures goes_on { GoesOn T.layers T.clock T.longest T.held store.old store.new }
    ensures outside { IfErr result IsOutside }
    ensures later { T.faults store.old ≤ T.faults store.new }
    ensures store { result ≡ Err SegFault.Store → Rose (T.faults store.old) (T.faults store.new) }
    ensures none { result ≢ Err SegFault.Store → T.faults store.new ≡ T.faults store.old }
{
    let parts = held.closed_parts();
    match parts[place].part() {
        Part::Disk(_) => Ok(()),
        Part::Memory(sealed) => {
            let number = numbers.take()?;
            let index = write_segment(alloc, store, sealed, number)?;
            held.store_part(place, index);
            Ok(())
        }
    }
}

/// Writes each closed part that is in memory alone.
fn write_parts<T: Store>(
    alloc: Global,
    store: &mut T,
    held: &mut Holdings,
    numbers: &mut Numbers,
) -> Result<(), SegFault>
    ensures saved { OnOk result (Saves (T.files store.new) numbers.old numbers.new held.old held.new) }
    ensures on_disk { OnOk result (All (λ m. IsOnDisk m.source) held.new.parts.closed) }
    ensures same { SameWhere (IsOther (IsUnlisted numbers.old.numbers)) (T.files store.old) (T.files store.new) }
    ensures stops { Leaves (T.since store.old) (T.since store.new) (SameWhere (IsOther (IsUnlisted numbers.old.numbers)) (T.files store.old)) }
    ensures goes_on { GoesOn T.layers T.clock T.longest T.held store.old store.new }
    ensures outside { IfErr result IsOutside }
    ensures later { T.faults store.old ≤ T.faults store.new }
    ensures store { result ≡ Err SegFault.Store → Rose (T.faults store.old) (T.faults store.new) }
    ensures none { result ≢ Err SegFault.Store → T.faults store.new ≡ T.faults store.old }
{
    for place in 0..held.closed_parts().len() {
        write_part(alloc, store, held, numbers, place)?;
    }
    Ok(())
}

/// Writes all that is in memory alone, the part that is being filled once it is closed, and answers the number of the next file.
/// The files of parts, stale ones and those of priors stay as they are.
pub fn save<T: Store>(
    alloc: Global,
    store: &mut T,
    held: &mut Holdings,
    next: u64,
    stale: &[u64],
    priors: &[PriorEntry],
) -> Result<u64, SegFault>
    requires some { 1 ≤ next }
    requires numbered { AreNumbered next (part_numbers held.old.parts.closed ++ (stale.now ++ prior_numbers priors.now)) }
    ensures saved { IfOk result (λ after. AllSaved (T.files store.new) (stale.now ++ prior_numbers priors.now) next after held.old held.new) }
    ensures same { SameWhere (IsOther (IsUnlisted (part_numbers held.old.parts.closed ++ (stale.now ++ prior_numbers priors.now)))) (T.files store.old) (T.files store.new) }
    ensures stops { Leaves (T.since store.old) (T.since store.new)
        (SameWhere (IsOther (IsUnlisted (part_numbers held.old.parts.closed ++ (stale.now ++ prior_numbers priors.now)))) (T.files store.old)) }
    ensures goes_on { GoesOn T.layers T.clock T.longest T.held store.old store.new }
    ensures outside { IfErr result IsOutside }
    ensures later { T.faults store.old ≤ T.faults store.new }
    ensures store { result ≡ Err SegFault.Store → Rose (T.faults store.old) (T.faults store.new) }
    ensures none { result ≢ Err SegFault.Store → T.faults store.new ≡ T.faults store.old }
{
    held.seal(alloc)?;
    let mut numbers = Numbers::of(alloc, next, held.closed_parts(), stale, priors)?;
    write_parts(alloc, store, held, &mut numbers)?;
    Ok(numbers.next())
}
