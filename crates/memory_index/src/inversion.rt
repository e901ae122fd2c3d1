// The inversion of documents whose tokens are numbers.
ghost use Rattle.std.specs.Prelude.{◌≡◌, ◌<◌, ◌≤◌, ◌^◌, ℕ, [], Some, length, map, replicate, slice_get, IfOk, OnOk};
ghost use Rattle.std.specs.List.{All, IsDistinct};
ghost use Rattle.std.specs.Str.{bytes_eq};
ghost use Rattle.ri_base.specs.Inversion.{AreNumbers, by_number};
ghost use Rattle.memory_index.specs.Inverts.{AreAllSpread, AreSorted, AreSpread, Inverts, ranks_at, terms_of};
ghost use Rattle.ri_base.specs.declared.limits.TheConstants.{MAX_HELD_TOKENS, MAX_PART_DOCS};

use crate::numbered::Numbered;
use ri_base::{Held, NoMemory, Place, Places, Term, Terms};
use std::alloc::Global;

/// The terms in order, the rank of each number, and the places of each term.
#[derive(Drop)]
pub struct Inverted {
    pub vocabulary: Terms,
    pub ranks: Vec<u32>,
    pub postings: Vec<Places>,
}

/// The inversion of documents.
pub fn invert(alloc: Global, terms: &[Term], docs: &[Held]) -> Result<Inverted, NoMemory>
    requires few_terms { length terms.now < 2 ^ 31 }
    requires few_docs { length docs.now ≤ MAX_PART_DOCS }
    requires apart { IsDistinct bytes_eq terms.now }
    requires numbers { AreNumbers (length terms.now) docs.now }
    requires short { All (λ h. length h.tokens.items ≤ MAX_HELD_TOKENS) docs.now }
    ensures { IfOk result (λ r. Inverts terms.now docs.now r.vocabulary r.ranks.items r.postings.items) }
{
    let sorted = sorted(alloc, terms)?;
    let ranks = ranks_of(alloc, terms, &sorted)?;
    let counts = counted(alloc, &ranks, docs)?;
    let mut postings = empty_places(alloc, &counts)?;
    spread(&mut postings, &ranks, docs)?;
    Ok(Inverted {
        vocabulary: vocabulary_of(alloc, sorted)?,
        ranks,
        postings,
    })
}

/// The terms with their numbers, in order.
fn sorted(alloc: Global, terms: &[Term]) -> Result<Vec<Numbered>, NoMemory>
    requires few { length terms.now < 2 ^ 31 }
    requires apart { IsDistinct bytes_eq terms.now }
    ensures { IfOk result (λ v. AreSorted terms.now v.items) }
{
    let mut out = Vec::with_capacity(alloc, terms.len())?;
    let mut number = 0u32;
    for t in terms {
        out.push(Numbered {
            term: t.clone_in(alloc)?,
            number,
        })?;
        number += 1;
    }
    out.sort_unstable();
    Ok(out)
}

/// The rank of each number.
fn ranks_of(alloc: Global, terms: &[Term], sorted: &[Numbered]) -> Result<Vec<u32>, NoMemory>
    requires few { length terms.now < 2 ^ 31 }
    requires are_sorted { AreSorted terms.now sorted.now }
    ensures named { IfOk result (λ v. by_number (terms_of sorted.now) v.items ≡ terms.now) }
    ensures ranked { IfOk result (λ v. All (λ r. r < length sorted.now) v.items) }
{
    let mut ranks = vec![in alloc; 0u32; terms.len()]?;
    let mut rank = 0u32;
    for s in sorted {
        ranks[s.number as usize] = rank;
        rank += 1;
    }
    Ok(ranks)
}

fn vocabulary_of(alloc: Global, sorted: Vec<Numbered>) -> Result<Terms, NoMemory>
    ensures { IfOk result (λ v. v ≡ terms_of sorted.items) }
{
    let mut items = Vec::with_capacity(alloc, sorted.len())?;
    for s in sorted {
        items.push(s.term)?;
    }
    Ok(Terms::of(items))
}

/// How many places each rank has, for the room that they take.
fn counted(alloc: Global, ranks: &[u32], docs: &[Held]) -> Result<Vec<u32>, NoMemory>
    ensures { IfOk result (λ v. length v.items ≡ length ranks.now) }
{
    let mut counts = vec![in alloc; 0u32; ranks.len()]?;
    for d in docs {
        count_one(&mut counts, ranks, &d.tokens);
    }
    Ok(counts)
}

fn count_one(counts: &mut [u32], ranks: &[u32], tokens: &[u32]) {
    for n in tokens {
        if let Some(r) = ranks.get(*n as usize) {
            if let Some(c) = counts.get_mut(*r as usize) {
                *c = c.saturating_add(1);
            }
        }
    }
}

/// An empty list for each, with room for so many places.
fn empty_places(alloc: Global, counts: &[u32]) -> Result<Vec<Places>, NoMemory>
    ensures { IfOk result (λ v. v.items ≡ replicate (length counts.now) []) }
{
    let mut out = Vec::with_capacity(alloc, counts.len())?;
    for c in counts {
        out.push(Places::with_capacity(alloc, *c as usize)?)?;
    }
    Ok(out)
}

/// Puts each token's place into its rank's list.
fn spread(postings: &mut Vec<Places>, ranks: &[u32], docs: &[Held]) -> Result<(), NoMemory>
    requires few { length docs.now ≤ MAX_PART_DOCS }
    requires empty { postings.old.items ≡ replicate (length postings.old.items) [] }
    requires numbers { AreNumbers (length ranks.now) docs.now }
    requires ranked { All (λ r. r < length postings.old.items) ranks.now }
    requires short { All (λ h. length h.tokens.items ≤ MAX_HELD_TOKENS) docs.now }
    ensures { OnOk result (AreAllSpread postings.new.items (length postings.old.items) ranks.now docs.now) }
{
    let mut id = 0u32;
    for d in docs {
        spread_one(postings, ranks, &d.tokens, id)?;
        id += 1;
    }
    Ok(())
}

fn spread_one(
    postings: &mut Vec<Places>,
    ranks: &[u32],
    tokens: &[u32],
    id: u32,
) -> Result<(), NoMemory>
    requires numbers { All (λ n. n < length ranks.now) tokens.now }
    requires ranked { All (λ r. r < length postings.old.items) ranks.now }
    requires short { length tokens.now ≤ MAX_HELD_TOKENS }
    ensures { OnOk result (AreSpread postings.old.items postings.new.items id (ranks_at ranks.now tokens.now)) }
{
    let mut at = 0u32;
    for n in tokens {
        let rank = ranks[*n as usize] as usize;
        postings[rank].push(Place { id, at })?;
        at += 1;
    }
    Ok(())
}
