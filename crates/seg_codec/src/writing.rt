// The bytes of postings: blocks, and the dictionary's entry of a term.
ghost use Rattle.std.specs.Prelude.{◌≡◌, ◌<◌, ◌≤◌, ◌+◌, ◌*◌, ◌++◌, ◌∷◌, [], length, map, IfOk, IsTrue, OnOk, IfSome, IfNone};
ghost use Rattle.std.specs.Int.{w32, w64, to_le_bytes};
ghost use Rattle.std.specs.List.{flat_map};
ghost use Rattle.ri_base.specs.Text.{is_term};
ghost use Rattle.seg_codec.specs.Segment.{block_entry_of, block_of, blocks_of, cut, id_of, placed, range_of, run, first, term_blocks_of, term_size};
ghost use Rattle.seg_codec.specs.Spelling.{spelled_block_entry, spelled_place, spelled_term, block_bytes};

use crate::dictionary::BlockPlace;
use ri_base::file_fields::{put_term, put_u32, put_u64};
use ri_base::{NoMemory, Place, Term};
use std::alloc::{AllocError, Global};

/// How many postings at the front are of this document.
#[tactic(auto, using(crate::proofs::CutLemmas::run_within))]
fn id_run(postings: &[Place], id: u32) -> usize
    ensures exact { result ≡ run id_of id postings.now }
    ensures most { result ≤ length postings.now }
{
    let mut count = 0;
    for p in postings {
        if p.id != id {
            return count;
        }
        count += 1;
    }
    count
}

/// How many postings at the front are of this range.
#[tactic(auto, using(crate::proofs::CutLemmas::run_within))]
fn range_run(postings: &[Place], range: u32) -> usize
    ensures exact { result ≡ run range_of range postings.now }
    ensures most { result ≤ length postings.now }
{
    let mut count = 0;
    for p in postings {
        if p.id / 64 != range {
            return count;
        }
        count += 1;
    }
    count
}

/// The postings of the first document, with its id, and those behind.
fn next_document(postings: &[Place]) -> Option<(u32, &[Place], &[Place])>
    ensures end { IfNone result (postings.now ≡ []) }
    ensures front { IfSome result (λ x. cut id_of postings.now ≡ x.1.now ∷ cut id_of x.2.now) }
    ensures id { IfSome result (λ x. x.0 ≡ first id_of x.1.now) }
    ensures less { IfSome result (λ x. length x.2.now < length postings.now) }
{
    if postings.len() == 0 {
        return None;
    }
    let id = postings[0].id;
    let count = id_run(postings, id);
    let (front, behind) = postings.split_at(count);
    Some((id, front, behind))
}

/// The postings of the first range, with its number, and those behind.
fn next_range(postings: &[Place]) -> Option<(u32, &[Place], &[Place])>
    ensures end { IfNone result (postings.now ≡ []) }
    ensures front { IfSome result (λ x. cut range_of postings.now ≡ x.1.now ∷ cut range_of x.2.now) }
    ensures range { IfSome result (λ x. x.0 ≡ first range_of x.1.now) }
    ensures less { IfSome result (λ x. length x.2.now < length postings.now) }
{
    if postings.len() == 0 {
        return None;
    }
    let range = postings[0].id / 64;
    let count = range_run(postings, range);
    let (front, behind) = postings.split_at(count);
    Some((range, front, behind))
}

/// The number of documents that the postings are of.
#[tactic(auto, unfolding(crate::specs::Segment::cut))]
fn count_ids(postings: &[Place]) -> usize
    ensures { result ≡ length (cut id_of postings.now) }
{
    let mut count = 0;
    let mut rest = postings;
    while let Some((_id, _front, behind)) = next_document(rest) {
        count += 1;
        rest = behind;
    }
    count
}

/// The number of ranges that the postings are of.
#[tactic(auto, unfolding(crate::specs::Segment::cut))]
pub fn count_ranges(postings: &[Place]) -> usize
    ensures exact { result ≡ length (cut range_of postings.now) }
    ensures most { result ≤ length postings.now }
{
    let mut count = 0;
    let mut rest = postings;
    while let Some((_range, _front, behind)) = next_range(rest) {
        count += 1;
        rest = behind;
    }
    count
}

fn put_places(out: &mut Vec<u8>, postings: &[Place]) -> Result<(), NoMemory>
    ensures { OnOk result (out.new.items ≡ out.old.items ++ flat_map (to_le_bytes w32) (map (λ p. p.at) postings.now)) }
{
    for p in postings {
        put_u32(out, p.at)?;
    }
    Ok(())
}

/// The bytes of a document in a block.
fn put_block_entry(
    out: &mut Vec<u8>,
    range: u32,
    id: u32,
    postings: &[Place],
) -> Result<(), NoMemory>
    ensures { OnOk result (out.new.items ≡ out.old.items ++ spelled_block_entry range (record { id = id; positions = map (λ p. p.at) postings.now })) }
{
    let local = u64::from(id).saturating_sub(64 * u64::from(range));
    let (Ok(local), Ok(count)) = (u8::try_from(local), u32::try_from(postings.len())) else {
        return Err(AllocError);
    };
    out.push(local)?;
    put_u32(out, count)?;
    put_places(out, postings)
}

/// The block of these postings, which are of one range.
#[tactic(auto, unfolding(crate::specs::Segment::cut))]
fn put_block(out: &mut Vec<u8>, range: u32, postings: &[Place]) -> Result<(), NoMemory>
    ensures { OnOk result (out.new.items ≡ out.old.items ++ block_bytes range (map block_entry_of (cut id_of postings.now))) }
{
    let Ok(count) = u8::try_from(count_ids(postings)) else {
        return Err(AllocError);
    };
    out.push(count)?;
    let mut rest = postings;
    while let Some((id, front, behind)) = next_document(rest) {
        put_block_entry(out, range, id, front)?;
        rest = behind;
    }
    Ok(())
}

fn put_block_place(out: &mut Vec<u8>, block: BlockPlace) -> Result<(), NoMemory>
    ensures { OnOk result (out.new.items ≡ out.old.items ++ spelled_place block) }
{
    put_u32(out, block.range)?;
    put_u64(out, block.place)?;
    put_u32(out, block.length)?;
    Ok(())
}

/// The block of a range, whose place goes into the dictionary; and the place behind it.
fn put_placed_block(
    dictionary: &mut Vec<u8>,
    blocks: &mut Vec<u8>,
    range: u32,
    place: u64,
    postings: &[Place],
) -> Result<u64, NoMemory>
    ensures dictionary { OnOk result (dictionary.new.items ≡ dictionary.old.items ++ spelled_place (record { range = range; place = place; length = length (block_bytes range (map block_entry_of (cut id_of postings.now))) })) }
    ensures blocks { OnOk result (blocks.new.items ≡ blocks.old.items ++ block_bytes range (map block_entry_of (cut id_of postings.now))) }
    ensures behind { IfOk result (λ n. n ≡ place + length (block_bytes range (map block_entry_of (cut id_of postings.now)))) }
{
    let before = blocks.len();
    put_block(blocks, range, postings)?;
    let Ok(length) = u32::try_from(blocks.len() - before) else {
        return Err(AllocError);
    };
    let Some(behind) = place.checked_add(u64::from(length)) else {
        return Err(AllocError);
    };
    put_block_place(
        dictionary,
        BlockPlace {
            range,
            place,
            length,
        },
    )?;
    Ok(behind)
}

/// The blocks of postings, from a place on, with their places in the dictionary; and the place behind them.
#[tactic(auto, unfolding(crate::specs::Segment::cut))]
fn put_blocks(
    dictionary: &mut Vec<u8>,
    blocks: &mut Vec<u8>,
    place: u64,
    postings: &[Place],
) -> Result<u64, NoMemory>
    ensures dictionary { OnOk result (dictionary.new.items ≡ dictionary.old.items ++ flat_map spelled_place (placed place (cut range_of postings.now))) }
    ensures blocks { OnOk result (blocks.new.items ≡ blocks.old.items ++ blocks_of postings.now) }
    ensures behind { IfOk result (λ n. n ≡ place + length (blocks_of postings.now)) }
{
    let mut at = place;
    let mut rest = postings;
    while let Some((range, front, behind)) = next_range(rest) {
        at = put_placed_block(dictionary, blocks, range, at, front)?;
        rest = behind;
    }
    Ok(at)
}

/// The dictionary's entry of a term, and its blocks, from a place on; and the place behind them.
pub fn put_term_blocks(
    dictionary: &mut Vec<u8>,
    blocks: &mut Vec<u8>,
    place: u64,
    term: &Term,
    postings: &[Place],
) -> Result<u64, NoMemory>
    ensures dictionary { OnOk result (dictionary.new.items ≡ dictionary.old.items ++ spelled_term (term_blocks_of place term.now postings.now)) }
    ensures blocks { OnOk result (blocks.new.items ≡ blocks.old.items ++ blocks_of postings.now) }
    ensures behind { IfOk result (λ n. n ≡ place + length (blocks_of postings.now)) }
    ensures form { OnOk result (IsTrue (is_term term.now)) }
{
    let Ok(count) = u32::try_from(count_ranges(postings)) else {
        return Err(AllocError);
    };
    put_term(dictionary, term)?;
    put_u32(dictionary, count)?;
    put_blocks(dictionary, blocks, place, postings)
}
