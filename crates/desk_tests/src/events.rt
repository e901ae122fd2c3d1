// Events by the lines of a script.
ghost use Rattle.std.specs.Prelude.{◌≤◌, length, IfSome};
ghost use Rattle.session_events.specs.Events.{IsSessionEvent};

use ri_base::{Doc, Docno, Spans, Term, Terms};
use script_lines::{Asked, read_line};
use session_events::Event;
use std::alloc::Global;

/// These words, at most twenty.
fn terms(alloc: Global, text: &str) -> Option<Terms>
    ensures { IfSome result (λ terms. length terms ≤ 20) }
{
    let mut terms = Terms::new(alloc);
    for word in text.split(' ') {
        terms.push(Term::new(alloc, word.as_bytes()).ok()??).ok()?;
    }
    if terms.len() <= 20 { Some(terms) } else { None }
}

/// The document of a text: its docno, and its words.
fn document(alloc: Global, text: &str) -> Option<Doc> {
    let (docno, words) = text.split_once(' ')?;
    let docno = Docno::new(alloc, docno.as_bytes()).ok()??;
    let terms = terms(alloc, words)?;
    Doc::new(alloc, docno, terms, Spans::new(alloc)).ok()
}

/// The event of a line of a script.
fn event_of_line(alloc: Global, line: &str) -> Option<Event>
    ensures { IfSome result IsSessionEvent }
{
    match read_line(alloc, line.as_bytes()).ok()? {
        Asked::Event(event) => Some(event),
        Asked::End => Some(Event::End),
        _ => None,
    }
}

/// The event of a line: `add DOCNO WORDS` for a document, and else as in a script.
pub fn event_of(alloc: Global, line: &str) -> Option<Event>
    ensures { IfSome result IsSessionEvent }
{
    match line.strip_prefix("add ") {
        Some(text) => Some(Event::Document(document(alloc, text)?)),
        None => event_of_line(alloc, line),
    }
}
