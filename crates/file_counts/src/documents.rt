// Documents that are made by their numbers, and their inversion.
ghost use Rattle.std.specs.Prelude.{◌<◌, ◌≤◌, length, IfSome};
ghost use Rattle.std.specs.Bool.{OnTrue};
ghost use Rattle.ri_base.specs.Collection.{name_count};
ghost use Rattle.ri_base.specs.Documents.{AreFields};
ghost use Rattle.ri_base.specs.declared.limits.TheConstants.{MAX_PART_DOCS, MAX_PART_NAMES};

use memory_index::MemIndex;
use ri_base::limits::{MAX_HELD_TOKENS, MAX_PART_DOCS, MAX_PART_NAMES};
use ri_base::{Doc, Docno, FieldSpan, Name, Sealed, Spans, Term, Terms};
use std::alloc::Global;

/// How many tokens a document has.
const TOKENS: u32 = 400;

/// The next number of a sequence without visible order.
fn next(state: u64) -> u64 {
    state
        .wrapping_mul(6_364_136_223_846_793_005)
        .wrapping_add(1_442_695_040_888_963_407)
}

/// The number of a word, from one of the last `spread` octaves below 2^16, which are as likely as one another. In the
/// octave k are the numbers from 2^k to 2^(k+1) - 1. So of 16 octaves the word n comes about one n-th as often as the word
/// 1, as it is in texts, and of one octave all words are as likely.
fn word_number(state: u64, spread: u64) -> u64 {
    let mut first = 32_768u64;
    for _ in 0..(state >> 40).checked_rem(spread).unwrap_or(0) {
        first /= 2;
    }
    let behind = (state >> 20).checked_rem(first).unwrap_or(0);
    first.wrapping_add(behind)
}

fn term_of(alloc: Global, number: u64) -> Option<Term> {
    let text = format!(in alloc; "w{number}").ok()?;
    Term::new(alloc, text.as_bytes()).ok()?
}

fn terms_of(alloc: Global, seed: u64, spread: u64) -> Option<Terms> {
    let mut terms = Terms::with_capacity(alloc, TOKENS as usize).ok()?;
    let mut state = seed;
    for _ in 0..TOKENS {
        state = next(state);
        terms
            .push(term_of(alloc, word_number(state, spread))?)
            .ok()?;
    }
    Some(terms)
}

/// One field of all tokens, of which there are so many.
fn text_field(alloc: Global, tokens: u32) -> Option<Spans>
    requires { 0 < tokens }
    ensures { IfSome result (AreFields tokens) }
{
    let name = Name::new(alloc, b"text").ok()??;
    let mut fields = Vec::new(alloc);
    fields.push(FieldSpan::new(name, 0, tokens)).ok()?;
    Some(Spans::of(fields))
}

fn docno_of(alloc: Global, number: u32) -> Option<Docno> {
    let text = format!(in alloc; "DOC-{number}").ok()?;
    Docno::new(alloc, text.as_bytes()).ok()?
}

fn doc_of(alloc: Global, number: u32, spread: u64) -> Option<Doc> {
    let tokens = terms_of(alloc, u64::from(number), spread)?;
    let count = tokens.len();
    if count == 0 || count > 1000 {
        return None;
    }
    let fields = text_field(alloc, count as u32)?;
    let docno = docno_of(alloc, number)?;
    Doc::new(alloc, docno, tokens, fields).ok()
}

/// Whether the index has taken the document.
fn put(alloc: Global, index: &mut MemIndex, doc: &Doc) -> bool
    ensures { OnTrue result (name_count index.new.documents ≤ MAX_PART_NAMES) }
{
    if index.token_count() + u64::from(doc.len()) > MAX_HELD_TOKENS
        || index.names_with(doc) > MAX_PART_NAMES as u64
    {
        return false;
    }
    index.add(alloc, doc).is_ok()
}

fn put_number(alloc: Global, index: &mut MemIndex, number: u32, spread: u64) -> bool
    ensures { OnTrue result (name_count index.new.documents ≤ MAX_PART_NAMES) }
{
    match doc_of(alloc, number, spread) {
        Some(doc) => put(alloc, index, &doc),
        None => false,
    }
}

/// The inversion of so many documents.
pub fn sealed_of(alloc: Global, documents: u32, spread: u64) -> Option<Sealed>
    ensures few { IfSome result (λ s. length s ≤ MAX_PART_DOCS) }
    ensures named { IfSome result (λ s. name_count s ≤ MAX_PART_NAMES) }
{
    let mut index = MemIndex::new(alloc, MAX_PART_DOCS as u32).ok()?;
    for number in 0..documents {
        if !put_number(alloc, &mut index, number, spread) {
            return None;
        }
    }
    if index.len() as usize > MAX_PART_DOCS {
        return None;
    }
    index.seal(alloc).ok()
}
