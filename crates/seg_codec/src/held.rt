// The documents that the parts of a file hold.
ghost use Rattle.std.specs.Prelude.{◌≡◌, ◌<◌, ℕ, List, length, sum_by, nat_le, IfOk, IfSome, IfNone};
ghost use Rattle.std.specs.List.{All};
ghost use Rattle.ri_base.specs.Documents.{Document};
ghost use Rattle.ri_base.specs.Inversion.{by_number};
ghost use Rattle.seg_codec.specs.Held.{AreRanked, Holds, IsKept, lengths, lengths_of, rebuilt, terms_of};
ghost use Rattle.seg_codec.specs.Whole.{IsSound};

use crate::dictionary::{Dictionary, TermBlocks};
use crate::documents::Entry;
use crate::ranks::{Ranks, full_ranks, ranks_at};
use crate::whole::Whole;
use ri_base::{Doc, List, NoMemory, Places, Term, Terms};
use std::alloc::Global;

/// Whether there are so many postings.
fn are_enough(postings: &[Places], tokens: u64) -> bool
    ensures { result ≡ nat_le tokens (sum_by (λ ps. length ps) postings.now) }
{
    let mut left = tokens;
    for places in postings {
        left = left.saturating_sub(places.len() as u64);
    }
    left == 0
}

/// The rank of the term at each place of the documents, where their postings tell just one of each.
pub fn ranks_held(alloc: Global, whole: &Whole) -> Result<Option<Vec<Ranks>>, NoMemory>
    requires { IsKept whole.now }
    ensures found { IfOk result (λ o. IfSome o (λ v. AreRanked whole.now v.items)) }
    ensures none { IfOk result (λ o. IfNone o ((docs : List Document) → Holds docs whole.now → ⊥)) }
{
    let documents = whole.documents.as_slice();
    let postings = whole.postings.as_slice();
    if !are_enough(postings, whole.header.tokens) {
        return Ok(None);
    }
    match ranks_at(alloc, documents, postings)? {
        Some(ranks) => Ok(full_ranks(ranks, postings.len())),
        None => Ok(None),
    }
}

/// The terms, whose blocks are given back.
fn terms_alone(alloc: Global, terms: Dictionary) -> Result<Vec<Term>, NoMemory>
    ensures { IfOk result (λ v. v.items ≡ terms_of terms) }
{
    let mut found = Vec::with_capacity(alloc, terms.len())?;
    for entry in terms.into_vec() {
        let TermBlocks { term, blocks: _ } = entry;
        found.push(term)?;
    }
    Ok(found)
}

/// The terms of these ranks.
fn terms_at(alloc: Global, terms: &[Term], ranks: &[u32]) -> Result<Terms, NoMemory>
    requires { All (λ r. r < length terms.now) ranks.now }
    ensures { IfOk result (λ ts. ts ≡ by_number terms.now ranks.now) }
{
    let mut found = Vec::with_capacity(alloc, ranks.len())?;
    for rank in ranks {
        found.push(terms[*rank as usize].clone_in(alloc)?)?;
    }
    Ok(List::of(found))
}

fn document_of(alloc: Global, entry: Entry, tokens: Terms) -> Result<Doc, NoMemory>
    requires sound { IsSound entry }
    requires count { length tokens ≡ entry.tokens }
    ensures { IfOk result (λ d. d ≡ record { docno = entry.docno; tokens = tokens; fields = entry.fields }) }
{
    let Entry {
        docno,
        tokens: _,
        fields,
    } = entry;
    Doc::new(alloc, docno, tokens, fields)
}

/// The documents with the terms of these ranks.
fn rebuilt(
    alloc: Global,
    terms: &[Term],
    documents: Vec<Entry>,
    ranks: &[Ranks],
) -> Result<List<Doc>, NoMemory>
    requires shape { lengths ranks.now ≡ lengths_of documents.items }
    requires sound { All IsSound documents.items }
    requires known { All (λ (rs : List ℕ). All (λ r. r < length terms.now) rs) ranks.now }
    ensures { IfOk result (λ docs. docs ≡ rebuilt terms.now documents.items ranks.now) }
{
    let mut found = Vec::with_capacity(alloc, documents.len())?;
    let mut id = 0usize;
    for entry in documents {
        let tokens = terms_at(alloc, terms, ranks[id].as_slice())?;
        found.push(document_of(alloc, entry, tokens)?)?;
        id += 1;
    }
    Ok(List::of(found))
}

/// The documents that the parts of a file hold, with the terms of these ranks. Postings and blocks are given back first.
pub fn documents_held(alloc: Global, whole: Whole, ranks: &[Ranks]) -> Result<List<Doc>, NoMemory>
    requires kept { IsKept whole }
    requires ranked { AreRanked whole ranks.now }
    ensures { IfOk result (λ docs. Holds docs whole) }
{
    let Whole {
        header: _,
        documents,
        terms,
        postings,
    } = whole;
    drop(postings);
    let terms = terms_alone(alloc, terms)?;
    rebuilt(alloc, &terms, documents.into_entries(), ranks)
}
