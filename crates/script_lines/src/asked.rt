// What a line asks for.
ghost use Rattle.std.specs.Prelude.{◌≡◌, IfOk};
ghost use Rattle.script_lines.specs.Asked.{asked, asked_bare, asked_delete, asked_explain, asked_named, asked_open, asked_scan, asked_step, asked_with, with_part};
ghost use Rattle.line_parts.specs.Digits.{number_to};
ghost use Rattle.session_events.specs.declared.event.TheConstants.{MAX_ADD_BYTES, MAX_TURN_DOCS};
ghost use Rattle.script_lines.specs.Table.{IsInTable};
ghost use Rattle.std.specs.Str.{bytes_eq};

use crate::utf8::is_utf8;
use line_parts::{number_to, split};
use ri_base::{Bytes, Docno, Name, NoMemory};
use session_events::{Event, MAX_ADD_BYTES, MAX_RESULTS, MAX_TURN_DOCS};
use std::alloc::Global;

/// What a line of a script asks for.
#[derive(Debug, Drop)]
pub enum Asked {
    /// The line is empty.
    Nothing,
    /// The line isn't one of the table.
    Unknown,
    Event(Event),
    /// So many bytes behind the line are documents.
    Add(u64),
    End,
}

fn read_delete(alloc: Global, rest: &[u8]) -> Result<Asked, NoMemory>
    ensures { IfOk result (λ a. a ≡ asked_delete rest.now) }
{
    match Docno::new(alloc, rest)? {
        Some(docno) => Ok(Asked::Event(Event::Delete(docno))),
        None => Ok(Asked::Unknown),
    }
}

#[tactic(auto, unfolding(crate::specs::Asked::asked_open))]
fn read_open(alloc: Global, rest: &[u8]) -> Result<Asked, NoMemory>
    ensures { IfOk result (λ a. a ≡ asked_open rest.now) }
{
    let Some((name, rest)) = split(b' ', rest) else {
        return Ok(Asked::Unknown);
    };
    let Some((k, text)) = split(b' ', rest) else {
        return Ok(Asked::Unknown);
    };
    let Some(k) = number_to(u64::from(MAX_RESULTS), k) else {
        return Ok(Asked::Unknown);
    };
    if !is_utf8(text) {
        return Ok(Asked::Unknown);
    }
    match Name::new(alloc, name)? {
        Some(name) => {
            let text = Bytes::copy_of(alloc, text)?;
            Ok(Asked::Event(Event::Open {
                name,
                k: k as u32,
                text,
            }))
        }
        None => Ok(Asked::Unknown),
    }
}

#[tactic(auto, unfolding(crate::specs::Asked::asked_step))]
fn read_step(alloc: Global, rest: &[u8]) -> Result<Asked, NoMemory>
    ensures { IfOk result (λ a. a ≡ asked_step rest.now) }
{
    let Some((name, docs)) = split(b' ', rest) else {
        return Ok(Asked::Unknown);
    };
    let Some(docs) = number_to(MAX_TURN_DOCS, docs) else {
        return Ok(Asked::Unknown);
    };
    match Name::new(alloc, name)? {
        Some(name) => Ok(Asked::Event(Event::Step { name, docs })),
        None => Ok(Asked::Unknown),
    }
}

#[tactic(auto, unfolding(crate::specs::Asked::asked_explain))]
fn read_explain(alloc: Global, rest: &[u8]) -> Result<Asked, NoMemory>
    ensures { IfOk result (λ a. a ≡ asked_explain rest.now) }
{
    let Some((name, rank)) = split(b' ', rest) else {
        return Ok(Asked::Unknown);
    };
    let Some(rank) = number_to(u64::from(MAX_RESULTS), rank) else {
        return Ok(Asked::Unknown);
    };
    match Name::new(alloc, name)? {
        Some(name) => Ok(Asked::Event(Event::Explain {
            name,
            rank: rank as u32,
        })),
        None => Ok(Asked::Unknown),
    }
}

fn read_scan(alloc: Global, rest: &[u8]) -> Result<Asked, NoMemory>
    ensures { IfOk result (λ a. a ≡ asked_scan rest.now) }
{
    if is_utf8(rest) {
        Ok(Asked::Event(Event::Scan(Bytes::copy_of(alloc, rest)?)))
    } else {
        Ok(Asked::Unknown)
    }
}

fn read_show(alloc: Global, rest: &[u8]) -> Result<Asked, NoMemory>
    ensures { IfOk result (λ a. a ≡ asked_named Event.Show rest.now) }
{
    match Name::new(alloc, rest)? {
        Some(name) => Ok(Asked::Event(Event::Show(name))),
        None => Ok(Asked::Unknown),
    }
}

fn read_close(alloc: Global, rest: &[u8]) -> Result<Asked, NoMemory>
    ensures { IfOk result (λ a. a ≡ asked_named Event.Close rest.now) }
{
    match Name::new(alloc, rest)? {
        Some(name) => Ok(Asked::Event(Event::Close(name))),
        None => Ok(Asked::Unknown),
    }
}

fn read_add(rest: &[u8]) -> Asked
    ensures { result ≡ with_part (number_to MAX_ADD_BYTES rest.now) (λ n. Asked.Add n) }
{
    match number_to(MAX_ADD_BYTES, rest) {
        Some(count) => Asked::Add(count),
        None => Asked::Unknown,
    }
}

fn read_turn(rest: &[u8]) -> Asked
    ensures { result ≡ with_part (number_to MAX_TURN_DOCS rest.now) (λ n. Asked.Event (Event.Turn n)) }
{
    match number_to(MAX_TURN_DOCS, rest) {
        Some(docs) => Asked::Event(Event::Turn(docs)),
        None => Asked::Unknown,
    }
}

/// Whether these bytes are this word.
fn is_word(bytes: &[u8], word: &[u8]) -> bool
    ensures { result ≡ bytes_eq bytes.now word.now }
{
    bytes == word
}

/// Reads a line of a word behind which a space and further parts stand.
#[tactic(auto, unfolding(crate::specs::Asked::asked_with))]
fn read_with(alloc: Global, word: &[u8], rest: &[u8]) -> Result<Asked, NoMemory>
    ensures { IfOk result (λ a. a ≡ asked_with word.now rest.now) }
{
    if is_word(word, b"add") {
        Ok(read_add(rest))
    } else if is_word(word, b"delete") {
        read_delete(alloc, rest)
    } else if is_word(word, b"turn") {
        Ok(read_turn(rest))
    } else if is_word(word, b"open") {
        read_open(alloc, rest)
    } else if is_word(word, b"step") {
        read_step(alloc, rest)
    } else if is_word(word, b"show") {
        read_show(alloc, rest)
    } else if is_word(word, b"explain") {
        read_explain(alloc, rest)
    } else if is_word(word, b"scan") {
        read_scan(alloc, rest)
    } else if is_word(word, b"close") {
        read_close(alloc, rest)
    } else {
        Ok(Asked::Unknown)
    }
}

/// Reads a line of a word alone.
#[tactic(auto, unfolding(crate::specs::Asked::asked_bare))]
fn read_bare(word: &[u8]) -> Asked
    ensures { result ≡ asked_bare word.now }
{
    if is_word(word, b"flush") {
        Asked::Event(Event::Flush)
    } else if is_word(word, b"merge") {
        Asked::Event(Event::Merge)
    } else if is_word(word, b"end") {
        Asked::End
    } else {
        Asked::Unknown
    }
}

/// What a line of a script asks for.
#[tactic(auto, using(crate::proofs::TableLemmas::asked_in), unfolding(crate::specs::Asked::asked))]
pub fn read_line(alloc: Global, text: &[u8]) -> Result<Asked, NoMemory>
    ensures asked { IfOk result (λ a. a ≡ asked text.now) }
    ensures form { IsInTable (asked text.now) }
{
    if text.is_empty() {
        return Ok(Asked::Nothing);
    }
    match split(b' ', text) {
        Some((word, rest)) => read_with(alloc, word, rest),
        None => Ok(read_bare(text)),
    }
}
