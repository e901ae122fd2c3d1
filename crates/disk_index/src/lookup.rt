// Looking a term and a range up in a dictionary, and a range in the documents.
ghost use Rattle.std.specs.Prelude.{◌≡◌, ◌<◌, ◌*◌, ◌==◌, Some, None, is_some, length, IfSome, IfNone};
ghost use Rattle.std.specs.Cmp.Lexicographic.{slice_cmp};
ghost use Rattle.std.specs.Ordering.{nat_cmp};
ghost use Rattle.std.specs.List.{All, AllPairs, find};
ghost use Rattle.std.specs.Option.{option_map, option_copied};
ghost use Rattle.std.specs.Str.{bytes_eq};
ghost use Rattle.ri_base.specs.Vocabulary.{IsTermBefore};
ghost use Rattle.disk_index.specs.Blocks.{of_range};
ghost use Rattle.disk_index.specs.Kept.{ArePlaces, place_of};
ghost use Rattle.disk_index.specs.Presence.{IsNext};
ghost use Rattle.disk_index.specs.Ranks.{term_of};

use ri_base::{NoMemory, Term};
use seg_codec::{BlockPlace, Entry, TermBlocks};
use std::alloc::Global;
use std::cmp::Ordering;

/// How many bytes of a term tell where it is looked for first.
const FRONT_BYTES: usize = 8;

/// The first bytes of a term as a number. Rising terms have numbers that don't fall.
fn front_of(term: &Term) -> u64 {
    let bytes = term.as_bytes();
    let count = bytes.len().min(FRONT_BYTES);
    let mut front = [0; FRONT_BYTES];
    front[..count].copy_from_slice(&bytes[..count]);
    u64::from_be_bytes(front)
}

/// The fronts of all terms of a dictionary. They lie close together, so that few places of memory are looked at for a term.
pub(crate) fn fronts_of(alloc: Global, dictionary: &[TermBlocks]) -> Result<Vec<u64>, NoMemory> {
    let mut fronts = Vec::with_capacity(alloc, dictionary.len())?;
    for entry in dictionary {
        fronts.push(front_of(&entry.term))?;
    }
    Ok(fronts)
}

/// The rank of a term, if it is there and no other has its front.
fn rank_by_front(fronts: &[u64], term: &Term) -> usize {
    let front = front_of(term);
    fronts.partition_point(|other| *other < front)
}

/// The term with its blocks. It is looked for first at its rank by these fronts.
fn blocks_of<'a>(
    dictionary: &'a [TermBlocks],
    fronts: &[u64],
    term: &Term,
) -> Option<&'a TermBlocks>
    requires { AllPairs (λ a b. IsTermBefore a.term b.term) dictionary.now }
    ensures { option_copied result ≡ find (λ t. bytes_eq t.term term.now) dictionary.now }
{
    let rank = rank_by_front(fronts, term);
    if rank < dictionary.len() && dictionary[rank].term == *term {
        return Some(&dictionary[rank]);
    }
    blocks_by_term(dictionary, term)
}

/// The term with its blocks, by a search over all terms.
fn blocks_by_term<'a>(dictionary: &'a [TermBlocks], term: &Term) -> Option<&'a TermBlocks>
    requires { AllPairs (λ a b. IsTermBefore a.term b.term) dictionary.now }
    ensures { option_copied result ≡ find (λ t. bytes_eq t.term term.now) dictionary.now }
{
    match dictionary.binary_search_by(
        |t: &TermBlocks| -> Ordering
            ensures { result ≡ slice_cmp nat_cmp t.now.term term.entry.now }
        { t.term.cmp(term) },
    ) {
        Ok(rank) => Some(&dictionary[rank]),
        Err(_) => None,
    }
}

/// The block of the range.
fn block_in(blocks: &[BlockPlace], range: u32) -> Option<BlockPlace>
    requires { AllPairs (λ a b. a.range < b.range) blocks.now }
    ensures { result ≡ find (λ b. b.range == range) blocks.now }
{
    match blocks.binary_search_by(
        |b: &BlockPlace| -> Ordering
            ensures { result ≡ nat_cmp b.now.range range }
        { b.range.cmp(&range) },
    ) {
        Ok(rank) => Some(blocks[rank]),
        Err(_) => None,
    }
}

/// Where the block of the term for the range stands.
pub(crate) fn place_of(
    dictionary: &[TermBlocks],
    fronts: &[u64],
    term: &Term,
    range: u32,
) -> Option<BlockPlace>
    requires terms { AllPairs (λ a b. IsTermBefore a.term b.term) dictionary.now }
    requires places { All ArePlaces dictionary.now }
    ensures { result ≡ place_of dictionary.now term.now range }
{
    match blocks_of(dictionary, fronts, term) {
        Some(found) => block_in(found.blocks.as_slice(), range),
        None => None,
    }
}

/// The first range from this one on of which there is a block.
fn next_in(blocks: &[BlockPlace], from: u32) -> Option<u32>
    requires { AllPairs (λ a b. a.range < b.range) blocks.now }
    ensures { IsNext (λ range. is_some (find (λ b. b.range == range) blocks.now)) from result }
{
    let first = blocks.partition_point(|b| b.range < from);
    if first < blocks.len() {
        return Some(blocks[first].range);
    }
    None
}

/// The first range from this one on for which the term has a block.
pub(crate) fn next_place(
    dictionary: &[TermBlocks],
    fronts: &[u64],
    term: &Term,
    from: u32,
) -> Option<u32>
    requires terms { AllPairs (λ a b. IsTermBefore a.term b.term) dictionary.now }
    requires places { All ArePlaces dictionary.now }
    ensures { IsNext (λ range. is_some (place_of dictionary.now term.now range)) from result }
{
    match blocks_of(dictionary, fronts, term) {
        Some(found) => next_in(found.blocks.as_slice(), from),
        None => None,
    }
}

/// Where the block of the term of this rank for the range stands.
pub(crate) fn ranked_place(dictionary: &[TermBlocks], rank: usize, range: u32) -> Option<BlockPlace>
    requires inside { rank < length dictionary.now }
    requires terms { AllPairs (λ a b. IsTermBefore a.term b.term) dictionary.now }
    requires places { All ArePlaces dictionary.now }
    ensures { result ≡ place_of dictionary.now (term_of dictionary.now rank) range }
{
    block_in(dictionary[rank].blocks.as_slice(), range)
}

/// Of documents by id those of the range.
#[tactic(auto, using(crate::proofs::LookupLemmas::all_taken))]
pub(crate) fn of_range(outlines: &[Entry], range: u32) -> &[Entry]
    requires { 64 * range < length outlines.now }
    ensures { result.now ≡ of_range range outlines.now }
{
    let (_before, behind) = outlines.split_at(64 * range as usize);
    if behind.len() <= 64 {
        return behind;
    }
    let (front, _rest) = behind.split_at(64);
    front
}
