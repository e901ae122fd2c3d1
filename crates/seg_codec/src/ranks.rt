// The ranks of the terms that stand at the places of documents.
ghost use Rattle.std.specs.Prelude.{◌≡◌, ◌<◌, ◌^◌, ℕ, List, true, false, length, map, replicate, slice_index_or, slice_set, IfOk, IfSome, IfNone, OnSome, []};
ghost use Rattle.std.specs.List.{All};
ghost use Rattle.ri_base.specs.declared.places.Place.{Place};
ghost use Rattle.seg_codec.specs.Held.{AreAgreed, AreFilled, AreOfPostings, Clash, Differs, Gap, IsClashing, IsWithin, Untold, lengths, lengths_of, rank_at, told};

use crate::documents::Entry;
use ri_base::{NoMemory, Place, Places};
use std::alloc::Global;
use std::marker::Model;

/// The rank of the term at each place of a document; where none is told yet, the number of terms. Seen as its list.
#[derive(Debug, Drop)]
pub struct Ranks {
    ranks: Vec<u32>,
}

impl Model for Ranks {
    ghost use Rattle.std.specs.Prelude.{ℕ, List};

    ghost Value = { List ℕ };

    ghost view = { λ r. r.ranks.items };
}

impl Ranks {
    /// None is told yet.
    fn untold(alloc: Global, tokens: u32, terms: u32) -> Result<Ranks, NoMemory>
        ensures { IfOk result (λ r. r ≡ replicate tokens terms) }
    {
        Ok(Ranks {
            ranks: vec![in alloc; terms; tokens as usize]?,
        })
    }

    fn put(&mut self, at: u32, rank: u32)
        requires { at < length self.old }
        ensures { self.new ≡ slice_set self.old at rank }
    {
        self.ranks[at as usize] = rank;
    }

    pub fn as_slice(&self) -> &[u32]
        ensures { result.now ≡ self.now }
    {
        self.ranks.as_slice()
    }
}

/// None is told yet of any document.
fn untold(alloc: Global, documents: &[Entry], terms: u32) -> Result<Vec<Ranks>, NoMemory>
    ensures { IfOk result (λ v. v.items ≡ map (λ e. replicate e.tokens terms) documents.now) }
{
    let mut ranks = Vec::with_capacity(alloc, documents.len())?;
    for entry in documents {
        ranks.push(Ranks::untold(alloc, entry.tokens, terms)?)?;
    }
    Ok(ranks)
}

/// Tells the rank of the term at a place.
fn tell(ranks: &mut Vec<Ranks>, place: &Place, rank: u32)
    requires { IsWithin (lengths ranks.old.items) place.now }
    ensures { ranks.new.items ≡ told ranks.old.items place.now rank }
{
    ranks[place.id as usize].put(place.at, rank);
}

/// Tells the rank at each posting of its term.
fn tell_term(ranks: &mut Vec<Ranks>, postings: &[Places], rank: u32)
    requires known { rank < length postings.now }
    requires within { All (IsWithin (lengths ranks.old.items)) (slice_index_or postings.now rank []) }
    requires only { AreOfPostings postings.now ranks.old.items }
    ensures shape { lengths ranks.new.items ≡ lengths ranks.old.items }
    ensures only { AreOfPostings postings.now ranks.new.items }
    ensures filled { AreFilled (length postings.now) ranks.new.items (slice_index_or postings.now rank []) }
    ensures kept { (p : Place) → rank_at (length postings.now) ranks.old.items p < length postings.now → rank_at (length postings.now) ranks.new.items p < length postings.now }
{
    let own = postings[rank as usize].as_slice();
    for place in own {
        tell(ranks, place, rank);
    }
}

/// Tells the ranks at all postings.
fn tell_all(ranks: &mut Vec<Ranks>, postings: &[Places])
    requires few { length postings.now < 2 ^ 32 }
    requires within { All (All (IsWithin (lengths ranks.old.items))) postings.now }
    requires only { AreOfPostings postings.now ranks.old.items }
    ensures shape { lengths ranks.new.items ≡ lengths ranks.old.items }
    ensures only { AreOfPostings postings.now ranks.new.items }
    ensures filled { All (AreFilled (length postings.now) ranks.new.items) postings.now }
{
    for rank in 0..postings.len() as u32 {
        tell_term(ranks, postings, rank);
    }
}

/// The rank that is told at a place.
fn rank_of(ranks: &[Ranks], place: &Place) -> u32
    requires { IsWithin (lengths ranks.now) place.now }
    ensures { (none : ℕ) → result ≡ rank_at none ranks.now place.now }
{
    ranks[place.id as usize].as_slice()[place.at as usize]
}

/// Whether this rank is told at each of these places.
fn is_told(ranks: &[Ranks], postings: &[Place], rank: u32) -> bool
    requires { All (IsWithin (lengths ranks.now)) postings.now }
    ensures yes { result ≡ true → (none : ℕ) → All (λ p. rank_at none ranks.now p ≡ rank) postings.now }
    ensures no { result ≡ false → (none : ℕ) → Differs none ranks.now postings.now rank }
{
    for place in postings {
        if rank_of(ranks, place) != rank {
            return false;
        }
    }
    true
}

/// Whether at each posting the rank of its term is told.
fn are_agreed(ranks: &[Ranks], postings: &[Places]) -> bool
    requires few { length postings.now < 2 ^ 32 }
    requires within { All (All (IsWithin (lengths ranks.now))) postings.now }
    ensures yes { result ≡ true → AreAgreed postings.now ranks.now }
    ensures no { result ≡ false → Clash postings.now ranks.now }
{
    for rank in 0..postings.len() as u32 {
        if !is_told(ranks, postings[rank as usize].as_slice(), rank) {
            return false;
        }
    }
    true
}

/// The ranks of the terms at these postings, where no two terms stand at one place.
pub fn ranks_at(
    alloc: Global,
    documents: &[Entry],
    postings: &[Places],
) -> Result<Option<Vec<Ranks>>, NoMemory>
    requires few { length postings.now < 2 ^ 32 }
    requires within { All (All (IsWithin (lengths_of documents.now))) postings.now }
    ensures shape { IfOk result (λ o. IfSome o (λ v. lengths v.items ≡ lengths_of documents.now)) }
    ensures only { IfOk result (λ o. IfSome o (λ v. AreOfPostings postings.now v.items)) }
    ensures each { IfOk result (λ o. IfSome o (λ v. AreAgreed postings.now v.items)) }
    ensures none { IfOk result (λ o. IfNone o (IsClashing postings.now)) }
{
    let mut ranks = untold(alloc, documents, postings.len() as u32)?;
    tell_all(&mut ranks, postings);
    if are_agreed(&ranks, postings) {
        Ok(Some(ranks))
    } else {
        Ok(None)
    }
}

/// Whether each rank is that of one of so many terms.
fn is_full(ranks: &[u32], terms: usize) -> bool
    ensures yes { result ≡ true → All (λ r. r < terms) ranks.now }
    ensures no { result ≡ false → Untold terms ranks.now }
{
    for rank in ranks {
        if *rank as usize >= terms {
            return false;
        }
    }
    true
}

/// Whether a rank of one of so many terms is told at each place.
fn are_full(ranks: &[Ranks], terms: usize) -> bool
    ensures yes { result ≡ true → All (λ (rs : List ℕ). All (λ r. r < terms) rs) ranks.now }
    ensures no { result ≡ false → Gap terms ranks.now }
{
    for row in ranks {
        if !is_full(row.as_slice(), terms) {
            return false;
        }
    }
    true
}

/// The ranks, where one of so many terms is told at each place.
pub fn full_ranks(ranks: Vec<Ranks>, terms: usize) -> Option<Vec<Ranks>>
    ensures same { IfSome result (λ v. v.items ≡ ranks.items) }
    ensures full { OnSome result (All (λ (rs : List ℕ). All (λ r. r < terms) rs) ranks.items) }
    ensures none { IfNone result (Gap terms ranks.items) }
{
    if are_full(&ranks, terms) {
        Some(ranks)
    } else {
        None
    }
}
