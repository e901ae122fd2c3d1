// The dictionary of a segment.
ghost use Rattle.std.specs.Prelude.{◌≡◌, ◌<◌, ◌==◌, ◌+◌, ◌*◌, ◌&&◌, [], ℕ, length, IfOk, nat_lt, nat_le};
ghost use Rattle.std.specs.Int.{w32, w64};
ghost use Rattle.ri_base.specs.FieldAnswers.{Gives};
ghost use Rattle.ri_base.specs.Fields.{number, ruled};
ghost use Rattle.ri_base.specs.Reading.{repeat};
ghost use Rattle.seg_codec.specs.Dictionary.{block_place, block_places, behind, end_of, term_blocks, behind_term, end_of_all, dictionary, terms};

use crate::header::Header;
use ri_base::file_fields::{Broken, kept, term_behind_at, u32_at, u64_at};
use ri_base::{List, Term};
use std::alloc::Global;

/// Where a block stands: its range of 64 ids, its place in the file, and its length.
#[derive(Clone, Copy, Debug, PartialEq, Eq)]
pub struct BlockPlace {
    pub range: u32,
    pub place: u64,
    pub length: u32,
}

/// Places of blocks, seen as their list.
pub type BlockPlaces = List<BlockPlace>;

/// A term with the places of its blocks.
#[derive(Debug, Drop)]
pub struct TermBlocks {
    pub term: Term,
    pub blocks: BlockPlaces,
}

/// The terms of a segment by rising bytes, each with the places of its blocks by rising range, seen as their list.
pub type Dictionary = List<TermBlocks>;

#[tactic(auto, unfolding(ri_base::specs::Fields::ruled))]
fn range_at(docs: u32, low: u64, bytes: &[u8]) -> Result<(u32, &[u8]), Broken>
    ensures { Gives (λ x. (x.0, x.1.now)) result (ruled w32 (λ r. nat_le low r && nat_lt (64 * r) docs) bytes.now) }
{
    let (range, rest) = u32_at(bytes)?;
    kept(
        low <= u64::from(range) && 64 * u64::from(range) < u64::from(docs),
        range,
        rest,
        bytes,
    )
}

#[tactic(auto, unfolding(ri_base::specs::Fields::ruled))]
fn place_at(at: u128, bytes: &[u8]) -> Result<(u64, &[u8]), Broken>
    ensures { Gives (λ x. (x.0, x.1.now)) result (ruled w64 (λ p. p == at) bytes.now) }
{
    let (place, rest) = u64_at(bytes)?;
    kept(u128::from(place) == at, place, rest, bytes)
}

#[tactic(auto, unfolding(crate::specs::Dictionary::block_place))]
fn block_place_at(
    docs: u32,
    low: u64,
    at: u128,
    bytes: &[u8],
) -> Result<(BlockPlace, &[u8]), Broken>
    ensures { Gives (λ x. (x.0, x.1.now)) result (block_place docs (record { low = low; at = at }) bytes.now) }
{
    let (range, rest) = range_at(docs, low, bytes)?;
    let (place, rest) = place_at(at, rest)?;
    let (length, rest) = u32_at(rest)?;
    Ok((
        BlockPlace {
            range,
            place,
            length,
        },
        rest,
    ))
}

fn block_places_from(
    alloc: Global,
    docs: u32,
    at: u128,
    count: u32,
    bytes: &[u8],
) -> Result<(Vec<BlockPlace>, &[u8]), Broken>
    ensures { Gives (λ x. (x.0.items, x.1.now)) result (repeat (block_place docs) (λ _ b. behind b) count (record { low = 0; at = at }) bytes.now) }
{
    let mut places = Vec::with_capacity(alloc, (count as usize).min(bytes.len() / 16))?;
    let mut low = 0u64;
    let mut next = at;
    let mut rest = bytes;
    for _ in 0..count {
        let (block, after) = block_place_at(docs, low, next, rest)?;
        places.push(block)?;
        low = u64::from(block.range) + 1;
        next = u128::from(block.place) + u128::from(block.length);
        rest = after;
    }
    Ok((places, rest))
}

#[tactic(auto, unfolding(ri_base::specs::Fields::ruled))]
fn count_at(bytes: &[u8]) -> Result<(u32, &[u8]), Broken>
    ensures { Gives (λ x. (x.0, x.1.now)) result (ruled w32 (λ n. nat_le 1 n) bytes.now) }
{
    let (count, rest) = u32_at(bytes)?;
    kept(1 <= count, count, rest, bytes)
}

#[tactic(auto, unfolding(crate::specs::Dictionary::block_places))]
fn block_places_at(
    alloc: Global,
    docs: u32,
    at: u128,
    bytes: &[u8],
) -> Result<(Vec<BlockPlace>, &[u8]), Broken>
    ensures { Gives (λ x. (x.0.items, x.1.now)) result (block_places docs at bytes.now) }
{
    let (count, rest) = count_at(bytes)?;
    block_places_from(alloc, docs, at, count, rest)
}

/// Where the last of some blocks ends; where there is none, this place.
fn end_of(at: u128, blocks: &[BlockPlace]) -> u128
    ensures { result ≡ end_of at blocks.now }
{
    let mut end = at;
    for b in blocks {
        end = u128::from(b.place) + u128::from(b.length);
    }
    end
}

/// A term with its blocks, and the bytes of the term that stand there.
#[tactic(auto, unfolding(crate::specs::Dictionary::term_blocks))]
fn term_blocks_at<'a>(
    alloc: Global,
    docs: u32,
    before: &[u8],
    at: u128,
    bytes: &'a [u8],
) -> Result<(TermBlocks, &'a [u8], &'a [u8]), Broken>
    ensures read { Gives (λ x. (x.0, x.2.now)) result (term_blocks docs (record { before = before.now; at = at }) bytes.now) }
    ensures same { IfOk result (λ x. x.1.now ≡ x.0.term) }
{
    let (term, text, rest) = term_behind_at(alloc, before, bytes)?;
    let (blocks, rest) = block_places_at(alloc, docs, at, rest)?;
    Ok((
        TermBlocks {
            term,
            blocks: BlockPlaces::of(blocks),
        },
        text,
        rest,
    ))
}

fn terms_from(
    alloc: Global,
    docs: u32,
    at: u128,
    count: u32,
    bytes: &[u8],
) -> Result<(Vec<TermBlocks>, &[u8]), Broken>
    ensures { Gives (λ x. (x.0.items, x.1.now)) result (repeat (term_blocks docs) behind_term count (record { before = []; at = at }) bytes.now) }
{
    let mut terms = Vec::with_capacity(alloc, (count as usize).min(bytes.len() / 22))?;
    let mut before: &[u8] = &[];
    let mut next = at;
    let mut rest = bytes;
    for _ in 0..count {
        let (term, text, after) = term_blocks_at(alloc, docs, before, next, rest)?;
        next = end_of(next, term.blocks.as_slice());
        terms.push(term)?;
        before = text;
        rest = after;
    }
    Ok((terms, rest))
}

fn end_of_all(at: u128, terms: &[TermBlocks]) -> u128
    ensures { result ≡ end_of_all at terms.now }
{
    let mut end = at;
    for t in terms {
        end = end_of(end, t.blocks.as_slice());
    }
    end
}

/// The dictionary, all of these bytes.
pub fn dictionary_of(alloc: Global, header: &Header, bytes: &[u8]) -> Result<Dictionary, Broken>
    ensures { Gives (λ d. d) result (dictionary header.now bytes.now) }
{
    let at = u128::from(header.blocks_at);
    let (terms, rest) = terms_from(alloc, header.docs, at, header.terms, bytes)?;
    if rest.len() > 0 {
        return Err(Broken::At(rest.len()));
    }
    if end_of_all(at, &terms) == u128::from(header.length) {
        Ok(List::of(terms))
    } else {
        Err(Broken::At(0))
    }
}
