// Whether a term may stand in a range of documents.
ghost use Rattle.std.specs.Prelude.{◌≡◌, ◌/◌, ◌==◌, Option, false, is_some};
ghost use Rattle.std.specs.List.{list_any};
ghost use Rattle.std.specs.List.Sorted.{IsNonDecreasingBy};
ghost use Rattle.ri_base.specs.Places.{postings_of};
ghost use Rattle.store_ends.specs.Files.{Files};
ghost use Rattle.disk_index.specs.Kept.{place_of};
ghost use Rattle.disk_index.specs.Parts.{IsPartBacked, reads, source_of};
ghost use Rattle.disk_index.specs.Presence.{IsNext, IsNowhere, may_have};

use crate::{DiskIndex, Part};
use ri_base::{Place, Sealed, Term};

impl DiskIndex {
    /// Whether the dictionary has a block of the term for the range. No file is read.
    pub fn has_block(&self, term: &Term, range: u32) -> bool
        ensures { result ≡ is_some (place_of self.now.dictionary term.now range) }
    {
        self.key(term, range).is_some()
    }
}

impl Part {
    /// Whether the term may stand in a document with an id from `64 * range` on, 64 at most. No file is read.
    pub fn may_have(&self, term: &Term, range: u32) -> bool
        ensures exact { result ≡ may_have (source_of self.now) range term.now }
        ensures nowhere { (told : Option Files) → IsPartBacked told (source_of self.now) → result ≡ false
            → IsNowhere range term.now (reads told (source_of self.now)) }
    {
        match self {
            Part::Memory(sealed) => has_term(sealed, term, range),
            Part::Disk(index) => index.has_block(term, range),
        }
    }

    /// The first range from this one on of which a document may have the term. No file is read.
    pub fn next_with(&self, term: &Term, from: u32) -> Option<u32>
        ensures { IsNext (λ range. may_have (source_of self.now) range term.now) from result }
    {
        match self {
            Part::Memory(sealed) => next_in_memory(sealed, term, from),
            Part::Disk(index) => index.next_block(term, from),
        }
    }
}

/// The postings of a term, by rising id: none where no document has it.
pub fn term_postings<'a>(sealed: &'a Sealed, term: &Term) -> &'a [Place]
    ensures same { result.now ≡ postings_of term.now sealed.now }
    ensures rising { IsNonDecreasingBy (λ p. p.id) result.now }
{
    match sealed.vocabulary().as_slice().binary_search(term) {
        Ok(rank) => sealed.postings(rank).as_slice(),
        Err(_) => &[],
    }
}

/// Whether a document of the range has the term.
fn has_term(sealed: &Sealed, term: &Term, range: u32) -> bool
    ensures { result ≡ list_any (λ p. p.id / 64 == range) (postings_of term.now sealed.now) }
{
    has_posting(term_postings(sealed, term), range)
}

/// Whether there is a posting in the range, of postings by rising id.
fn has_posting(postings: &[Place], range: u32) -> bool
    requires { IsNonDecreasingBy (λ p. p.id) postings.now }
    ensures { result ≡ list_any (λ p. p.id / 64 == range) postings.now }
{
    let first = postings.partition_point(|p| p.id / 64 < range);
    first < postings.len() && postings[first].id / 64 == range
}

/// The first range from this one on of which a document of the index has the term.
pub fn next_in_memory(sealed: &Sealed, term: &Term, from: u32) -> Option<u32>
    ensures { IsNext (λ range. list_any (λ p. p.id / 64 == range) (postings_of term.now sealed.now)) from result }
{
    next_posting(term_postings(sealed, term), from)
}

/// The range of the first posting that isn't before this range, of postings by rising id.
fn next_posting(postings: &[Place], from: u32) -> Option<u32>
    requires { IsNonDecreasingBy (λ p. p.id) postings.now }
    ensures { IsNext (λ range. list_any (λ p. p.id / 64 == range) postings.now) from result }
{
    let first = postings.partition_point(|p| p.id / 64 < from);
    if first < postings.len() {
        return Some(postings[first].id / 64);
    }
    None
}
