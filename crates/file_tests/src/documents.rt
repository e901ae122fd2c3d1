// Documents by their numbers, and the bytes of segments.
ghost use Rattle.std.specs.Prelude.{◌<◌, ◌≤◌, length, IfSome};
ghost use Rattle.std.specs.Bool.{OnTrue};
ghost use Rattle.ri_base.specs.Collection.{name_count};
ghost use Rattle.ri_base.specs.Documents.{AreFields};
ghost use Rattle.ri_base.specs.declared.limits.TheConstants.{MAX_PART_DOCS, MAX_PART_NAMES};

use memory_index::MemIndex;
use ri_base::{Bytes, Doc, Docno, FieldSpan, List, Name, Sealed, Spans, Term, Terms};
use seg_codec::seg_bytes;
use std::alloc::Global;

/// The lengths of words. Up to 14 bytes are kept without an allocation.
static LENGTHS: [usize; 4] = [3, 14, 15, 128];

/// The word of a number below 100.
fn word(alloc: Global, number: u32) -> Option<Term> {
    let mut text = format!(in alloc; "w{number}").ok()?.into_bytes();
    let length = LENGTHS[(number % 4) as usize];
    text.resize(length.max(text.len()), b'x').ok()?;
    Term::new(alloc, &text).ok()?
}

/// Twenty words, and before and behind them the word `a`.
fn words(alloc: Global, number: u32) -> Option<Terms> {
    let mut words = Terms::new(alloc);
    words.push(Term::new(alloc, b"a").ok()??).ok()?;
    for i in 0..20u32 {
        words
            .push(word(alloc, number.saturating_mul(i) % 97)?)
            .ok()?;
    }
    words.push(Term::new(alloc, b"a").ok()??).ok()?;
    Some(words)
}

/// A field of the tokens from a place on.
fn field(alloc: Global, name: &[u8], begin: u32, tokens: u32) -> Option<Spans>
    requires { begin < tokens }
    ensures { IfSome result (AreFields tokens) }
{
    let name = Name::new(alloc, name).ok()??;
    let mut fields = Vec::new(alloc);
    fields.push(FieldSpan::new(name, begin, tokens)).ok()?;
    Some(Spans::of(fields))
}

/// The document of at most 100 words, of which those from a place on are a field of this name.
fn document(alloc: Global, docno: &[u8], words: Terms, name: &[u8], begin: u32) -> Option<Doc> {
    let count = words.len();
    if count > 100 || count as u32 <= begin {
        return None;
    }
    let fields = field(alloc, name, begin, count as u32)?;
    let docno = Docno::new(alloc, docno).ok()??;
    Doc::new(alloc, docno, words, fields).ok()
}

fn numbered(alloc: Global, number: u32) -> Option<Doc> {
    let words = words(alloc, number)?;
    let docno = format!(in alloc; "the-document-{number}").ok()?;
    let name = format!(in alloc; "field{}", number % 7).ok()?;
    document(alloc, docno.as_bytes(), words, name.as_bytes(), number % 5)
}

/// The documents of the first numbers.
pub fn all_numbered(alloc: Global, count: u32) -> Option<List<Doc>> {
    let mut documents = List::new(alloc);
    for number in 0..count {
        documents.push(numbered(alloc, number)?).ok()?;
    }
    Some(documents)
}

/// A document whose docno, word and field's name are the longest.
pub fn longest(alloc: Global) -> Option<Doc> {
    let mut words = Terms::new(alloc);
    words.push(Term::new(alloc, &[b't'; 128]).ok()??).ok()?;
    document(alloc, &[b'd'; 255], words, &[b'n'; 32], 0)
}

/// Whether the index has taken the document.
fn put(alloc: Global, index: &mut MemIndex, doc: &Doc) -> bool
    ensures { OnTrue result (name_count index.new.documents ≤ MAX_PART_NAMES) }
{
    if index.token_count() + u64::from(doc.len()) > 67_108_864 || index.names_with(doc) > 65_536 {
        return false;
    }
    index.add(alloc, doc).is_ok()
}

fn sealed(alloc: Global, documents: &[Doc]) -> Option<Sealed>
    ensures few { IfSome result (λ s. length s ≤ MAX_PART_DOCS) }
    ensures named { IfSome result (λ s. name_count s ≤ MAX_PART_NAMES) }
{
    let mut index = MemIndex::new(alloc, 1000).ok()?;
    for doc in documents {
        if !put(alloc, &mut index, doc) {
            return None;
        }
    }
    if index.len() > 1000 {
        return None;
    }
    index.seal(alloc).ok()
}

/// The bytes of the segment of at most 1,000 documents.
pub fn segment_of(alloc: Global, documents: &[Doc]) -> Option<Bytes> {
    let sealed = sealed(alloc, documents)?;
    seg_bytes(alloc, &sealed).ok()
}
