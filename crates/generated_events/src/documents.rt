// The documents of a generated collection.
ghost use Rattle.std.specs.Prelude.{◌≡◌, IfOk};
ghost use Rattle.generated_events.specs.Documents.{docno_of, generated, is_deleted, word, words_of};

use ri_base::{Doc, Docno, NoMemory, Spans, Term, Terms};
use std::alloc::Global;

/// The docno of the document with this number: `g` and the number.
#[tactic(auto, using(crate::proofs::DocnoLemmas::docno_is))]
pub(crate) fn docno_of(alloc: Global, number: u32) -> Result<Docno, NoMemory>
    ensures { IfOk result (λ docno. docno ≡ docno_of number) }
{
    let digits = number.to_string(alloc)?;
    let mut bytes = b"g".to_vec(alloc)?;
    bytes.extend_from_slice(digits.as_bytes())?;
    match Docno::new(alloc, &bytes)? {
        Some(docno) => Ok(docno),
        None => unreachable!(),
    }
}

/// One of the words `w0` to `w4`, which go round.
fn word(alloc: Global, number: u64) -> Result<Term, NoMemory>
    ensures { IfOk result (λ term. term ≡ word number) }
{
    let digit = b'0' + (number % 5) as u8;
    match Term::new(alloc, &[b'w', digit])? {
        Some(term) => Ok(term),
        None => unreachable!(),
    }
}

/// The words of a document.
#[tactic(auto, using(crate::proofs::DocnoLemmas::words_more))]
fn words_of(alloc: Global, number: u32) -> Result<Terms, NoMemory>
    ensures { IfOk result (λ terms. terms ≡ words_of number) }
{
    let mut words = Terms::new(alloc);
    for place in 0..2 + number % 3 {
        words.push(word(alloc, u64::from(number) + u64::from(place))?)?;
    }
    Ok(words)
}

/// The document with this number, counted from 0.
#[tactic(auto, using(crate::proofs::DocnoLemmas::document_is))]
pub fn generated(alloc: Global, number: u32) -> Result<Doc, NoMemory>
    ensures { IfOk result (λ doc. doc ≡ generated number) }
{
    let docno = docno_of(alloc, number)?;
    let words = words_of(alloc, number)?;
    Doc::new(alloc, docno, words, Spans::new(alloc))
}

/// Whether the document with this number is deleted again.
pub(crate) fn is_deleted(number: u32) -> bool
    ensures { result ≡ is_deleted number }
{
    number % 3 == 1
}
