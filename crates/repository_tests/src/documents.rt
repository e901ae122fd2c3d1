// Documents of a few words.
ghost use Rattle.std.specs.Prelude.{◌≤◌, length, IfSome};

use ri_base::{Doc, Docno, Spans, Term, Terms};
use std::alloc::Global;

pub fn docno(alloc: Global, text: &str) -> Option<Docno> {
    Docno::new(alloc, text.as_bytes()).ok()?
}

static LETTERS: [u8; 10] = *b"abcdefghij";

/// So many words, at most ten, each a letter.
fn words(alloc: Global, count: usize) -> Option<Terms>
    ensures { IfSome result (λ words. length words ≤ 10) }
{
    let mut words = Terms::new(alloc);
    for letter in &LETTERS[..count.min(10)] {
        let word = Term::new(alloc, &[*letter]).ok()??;
        words.push(word).ok()?;
    }
    if words.len() <= 10 { Some(words) } else { None }
}

/// The document of this docno with so many words, at most ten.
pub fn doc(alloc: Global, name: &str, count: usize) -> Option<Doc> {
    let words = words(alloc, count)?;
    let docno = docno(alloc, name)?;
    Doc::new(alloc, docno, words, Spans::new(alloc)).ok()
}
