// Documents by their numbers. Their docnos come in the other order than they do, and many have the same words.
ghost use Rattle.std.specs.Prelude.{◌<◌, ◌≤◌, length, IfSome};
ghost use Rattle.ri_base.specs.Documents.{AreFields};

use crate::made::{SIZE, made_terms};
use ri_base::{Doc, Docno, FieldSpan, Name, Spans, Term, Terms};
use std::alloc::Global;

static WORDS: [&str; 9] = [
    "a b c",
    "a b",
    "c a a b",
    "b c",
    "a b c",
    "c c a",
    "c",
    "b a c a b",
    "a",
];

/// Of the first 130 documents two have the word `e`, in later ranges than the first. Those from 200 on have all the same words, and those
/// from 1000 on have others.
fn words_of(number: u32) -> &'static str {
    if number >= 200 {
        return "a b";
    }
    if number == 69 || number == 129 {
        return "a e";
    }
    WORDS[(number % 9) as usize]
}

/// Every third document is dead.
pub fn is_dead(number: u32) -> bool {
    number % 3 == 1
}

/// Words with one space between them, at most a hundred.
fn terms(alloc: Global, words: &str) -> Option<Terms>
    ensures { IfSome result (λ terms. length terms ≤ 100) }
{
    let mut terms = Terms::new(alloc);
    for word in words.split(' ') {
        let term = Term::new(alloc, word.as_bytes()).ok()??;
        terms.push(term).ok()?;
    }
    if terms.len() <= 100 {
        Some(terms)
    } else {
        None
    }
}

/// The words of a document, at most a hundred.
fn terms_of(alloc: Global, number: u32) -> Option<Terms>
    ensures { IfSome result (λ terms. length terms ≤ 100) }
{
    if number < 1000 {
        terms(alloc, words_of(number))
    } else {
        made_terms(alloc, number)
    }
}

/// A field `t` of the first of so many words.
fn first_word(alloc: Global, words: u32) -> Option<Spans>
    requires { 0 < words }
    ensures { IfSome result (AreFields words) }
{
    let name = Name::new(alloc, b"t").ok()??;
    let mut fields = Vec::new(alloc);
    fields.push(FieldSpan::new(name, 0, 1)).ok()?;
    Some(Spans::of(fields))
}

pub fn docno(alloc: Global, number: u32) -> Option<Docno> {
    let size = if number < 1000 { 1000 } else { SIZE };
    let text = format!(in alloc; "d{}", size - number % size).ok()?;
    Docno::new(alloc, text.as_bytes()).ok()?
}

pub fn doc(alloc: Global, number: u32) -> Option<Doc> {
    let terms = terms_of(alloc, number)?;
    let count = terms.len();
    if count == 0 {
        return None;
    }
    let fields = first_word(alloc, count as u32)?;
    let docno = docno(alloc, number)?;
    Doc::new(alloc, docno, terms, fields).ok()
}
