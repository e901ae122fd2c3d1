// Items as text.
use ri_ends::MemSource;
use script_reader::{Item, Unread, read_items};
use session_events::Event;
use std::alloc::Global;

/// What is told of an item: a word, and a name, a number and a text where it has them.
#[derive(Clone, Copy)]
pub struct Told<'a> {
    word: &'static str,
    name: Option<&'a [u8]>,
    number: Option<u64>,
    text: Option<&'a [u8]>,
}

/// A word alone.
fn alone<'a>(word: &'static str) -> Told<'a> {
    Told {
        word,
        name: None,
        number: None,
        text: None,
    }
}

pub fn numbered<'a>(word: &'static str, number: u64) -> Told<'a> {
    Told {
        word,
        name: None,
        number: Some(number),
        text: None,
    }
}

pub fn named<'a>(word: &'static str, name: &'a [u8], number: Option<u64>) -> Told<'a> {
    Told {
        word,
        name: Some(name),
        number,
        text: None,
    }
}

fn of_event(event: &Event) -> Told<'_> {
    match event {
        Event::Document(doc) => named("doc", doc.docno().as_bytes(), Some(u64::from(doc.len()))),
        Event::Delete(docno) => named("delete", docno.as_bytes(), None),
        Event::Flush => alone("flush"),
        Event::Merge => alone("merge"),
        Event::Turn(docs) => numbered("turn", *docs),
        Event::Open { name, k, text } => Told {
            word: "open",
            name: Some(name.as_bytes()),
            number: Some(u64::from(*k)),
            text: Some(text.as_slice()),
        },
        Event::Step { name, docs } => named("step", name.as_bytes(), Some(*docs)),
        Event::Show(name) => named("show", name.as_bytes(), None),
        Event::Explain { name, rank } => named("explain", name.as_bytes(), Some(u64::from(*rank))),
        Event::Scan(text) => Told {
            word: "scan",
            name: None,
            number: None,
            text: Some(text.as_slice()),
        },
        Event::Close(name) => named("close", name.as_bytes(), None),
        Event::End => alone("end"),
    }
}

/// Puts bytes behind a text, as the text that they are.
pub fn put(out: &mut String, bytes: &[u8]) -> Option<()> {
    match std::str::from_utf8(bytes) {
        Ok(text) => out.push_str(text).ok(),
        Err(_) => out.push('?').ok(),
    }
}

fn put_name(out: &mut String, name: Option<&[u8]>) -> Option<()> {
    match name {
        Some(name) => {
            out.push(' ').ok()?;
            put(out, name)
        }
        None => Some(()),
    }
}

fn put_number(out: &mut String, number: Option<u64>) -> Option<()> {
    match number {
        Some(number) => write!(out, " {number}").ok(),
        None => Some(()),
    }
}

/// Puts a text in brackets behind the others. Of a long one only its length is told.
fn put_text(out: &mut String, text: &[u8]) -> Option<()> {
    if text.len() > 1000 {
        return write!(out, " [{} bytes]", text.len()).ok();
    }
    out.push_str(" [").ok()?;
    put(out, text)?;
    out.push(']').ok()
}

pub fn put_told(out: &mut String, told: Told<'_>) -> Option<()> {
    out.push_str(told.word).ok()?;
    put_name(out, told.name)?;
    put_number(out, told.number)?;
    match told.text {
        Some(text) => put_text(out, text),
        None => Some(()),
    }
}

fn kind_name(kind: Unread) -> &'static str {
    match kind {
        Unread::BadEvent => "BadEvent",
        Unread::LineTooLong => "LineTooLong",
        Unread::ShortAdd => "ShortAdd",
    }
}

/// Puts an item behind a text.
fn put_item(out: &mut String, item: &Item) -> Option<()> {
    match item {
        Item::Event(event) => put_told(out, of_event(event)),
        Item::Unread { kind, place } => put_told(out, numbered(kind_name(*kind), *place)),
        Item::Trec(refusal) => write!(out, "{refusal:?}").ok(),
        Item::Token(_) => put_told(out, alone("Token")),
    }
}

/// The items as text, with `; ` between them.
fn shown(alloc: Global, items: &[Item]) -> Option<String> {
    let mut out = String::new(alloc);
    for item in items {
        if !out.is_empty() {
            out.push_str("; ").ok()?;
        }
        put_item(&mut out, item)?;
    }
    Some(out)
}

fn read(alloc: Global, script: Vec<u8>, piece: usize) -> Option<Vec<Item>> {
    let mut source = MemSource::new(script, piece.max(1), Vec::new(alloc));
    read_items(alloc, &mut source).ok()
}

/// The items of a script that comes in pieces of so many bytes, as text.
pub fn items_of(alloc: Global, script: Vec<u8>, piece: usize) -> Option<String> {
    let items = read(alloc, script, piece)?;
    shown(alloc, &items)
}
