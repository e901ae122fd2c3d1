// Documents of pieces, and their refusals.
use ri_base::{Bytes, Doc, Docno, FieldSpan, Name, Term};
use std::alloc::Global;
use tokens::{TokenRefusal, doc_of};
use trec_reader::{Piece, Pieces, RawDoc};

fn text(alloc: Global, bytes: &[u8]) -> Option<Piece> {
    let bytes = Bytes::copy_of(alloc, bytes).ok()?;
    Some(Piece::Text(bytes))
}

fn name(alloc: Global, bytes: &[u8]) -> Option<Name> {
    Name::new(alloc, bytes).ok()?
}

/// A piece in short: `<` and a name, `>` and a name, `|` for a break, `!` for a text with a byte that no UTF-8 has, and
/// any other first byte for text.
fn piece_of(alloc: Global, short: &[u8]) -> Option<Piece> {
    match short {
        [b'<', tag @ ..] => Some(Piece::Open(name(alloc, tag)?)),
        [b'>', tag @ ..] => Some(Piece::Close(name(alloc, tag)?)),
        [b'|', ..] => Some(Piece::Break),
        [b'!', ..] => text(alloc, b"a\xffb"),
        _ => text(alloc, short),
    }
}

/// The pieces in short, with one `;` between them.
fn pieces_of(alloc: Global, short: &str) -> Option<Vec<Piece>> {
    let mut pieces = Vec::new(alloc);
    for one in short.split(';') {
        let piece = piece_of(alloc, one.as_bytes())?;
        pieces.push(piece).ok()?;
    }
    Some(pieces)
}

fn raw_of(alloc: Global, pieces: Vec<Piece>) -> Option<RawDoc> {
    let docno = Docno::new(alloc, b"d1").ok()??;
    Some(RawDoc {
        docno,
        offset: 0,
        pieces: Pieces::of(pieces),
    })
}

/// The document of pieces in short.
fn read(alloc: Global, short: &str) -> Option<Doc> {
    let pieces = pieces_of(alloc, short)?;
    let raw = raw_of(alloc, pieces)?;
    doc_of(alloc, raw).ok()
}

/// Whether these are the words.
pub fn are_tokens(tokens: &[Term], wanted: &[&str]) -> bool {
    let mut are_so = tokens.len() == wanted.len();
    for (token, word) in tokens.iter().zip(wanted) {
        are_so &= token.as_bytes() == word.as_bytes();
    }
    are_so
}

/// A field: its name, its begin and its end.
type Field = (&'static str, u32, u32);

fn are_fields(fields: &[FieldSpan], wanted: &[Field]) -> bool {
    let mut are_so = fields.len() == wanted.len();
    for (field, (name, begin, end)) in fields.iter().zip(wanted) {
        are_so &= field.name().as_bytes() == name.as_bytes();
        are_so &= field.begin() == *begin && field.end() == *end;
    }
    are_so
}

/// Pieces, and the tokens and fields of their document.
type Row = (&'static str, &'static [&'static str], &'static [Field]);

static ROWS: [Row; 13] = [
    (
        "<title;Caf;|; au Lait;>title;>b;<text;one ;|; two",
        &["caf", "au", "lait", "one", "two"],
        &[("title", 0, 3), ("text", 3, 5)],
    ),
    ("", &[], &[]),
    (
        "<a;x;<a;y;>a;z;>a",
        &["x", "y", "z"],
        &[("a", 0, 3), ("a", 1, 2)],
    ),
    ("<a;<a;x;>a;>a", &["x"], &[("a", 0, 1)]),
    ("<a;>a;x", &["x"], &[]),
    (
        "<a;x;<b;y;>a;z;>b",
        &["x", "y", "z"],
        &[("a", 0, 2), ("b", 1, 3)],
    ),
    ("x;<a;y", &["x", "y"], &[("a", 1, 2)]),
    ("<b;<a;x;>a;y", &["x", "y"], &[("a", 0, 1), ("b", 0, 2)]),
    ("<b;<a;x", &["x"], &[("a", 0, 1), ("b", 0, 1)]),
    (">a;x;<a;y;>a;>a", &["x", "y"], &[("a", 1, 2)]),
    ("!", &["a", "b"], &[]),
    ("ab;|;cd;<a;...", &["ab", "cd"], &[]),
    // a word of 129 bytes takes no place, and a field around it has no token
    (
        "<a;aaaaaaaaaaaaaaaaaaaaaaaaaaaaaaaaaaaaaaaaaaaaaaaaaaaaaaaaaaaaaaaaaaaaaaaaaaaaaaaaaaaaaaaaaaaaaaaaaaaaaaaaaaaaaaaaaaaaaaaaaaaaaaaaa;>a;b",
        &["b"],
        &[],
    ),
];

/// Whether the pieces of a row have these tokens and fields.
fn is_read_so(alloc: Global, row: &Row) -> bool {
    let (short, tokens, fields) = row;
    match read(alloc, short) {
        Some(doc) => {
            are_tokens(doc.tokens().as_slice(), tokens)
                && are_fields(doc.fields().as_slice(), fields)
        }
        None => false,
    }
}

#[test]
fn tokens_and_fields(rt: HostRuntime) {
    for row in &ROWS {
        assert!(rt; is_read_so(rt.alloc(), row), "{}", row.0);
    }
}

/// The pieces of so many fields of one token each.
fn fields_of(alloc: Global, count: usize) -> Option<Vec<Piece>> {
    let mut pieces = Vec::new(alloc);
    for _ in 0..count {
        for short in [b"<f", b"x ", b">f"] {
            let piece = piece_of(alloc, short)?;
            pieces.push(piece).ok()?;
        }
    }
    Some(pieces)
}

/// A text of so many tokens.
fn words(alloc: Global, count: usize) -> Option<Piece> {
    let words = "a ".repeat(alloc, count).ok()?;
    text(alloc, words.as_bytes())
}

/// Fields of one token each, and further tokens up to so many.
fn many(alloc: Global, tokens: usize, fields: usize) -> Option<RawDoc> {
    let others = words(alloc, tokens.saturating_sub(fields))?;
    let mut pieces = fields_of(alloc, fields)?;
    pieces.push(others).ok()?;
    raw_of(alloc, pieces)
}

/// Of what a document has too many.
fn refused(alloc: Global, raw: RawDoc) -> &'static str {
    match doc_of(alloc, raw) {
        Ok(_) => "none",
        Err(TokenRefusal::TooManyTokens { .. }) => "tokens",
        Err(TokenRefusal::TooManyFields { .. }) => "fields",
        Err(TokenRefusal::Memory) => "memory",
    }
}

/// Of what the document of so many tokens and fields has too many.
fn too_many(alloc: Global, tokens: usize, fields: usize) -> &'static str {
    match many(alloc, tokens, fields) {
        Some(raw) => refused(alloc, raw),
        None => "memory",
    }
}

/// Tokens, fields, and of which there are too many.
static LIMITS: [(usize, usize, &str); 5] = [
    (1_048_576, 0, "none"),
    (1_048_577, 0, "tokens"),
    (65_535, 65_535, "none"),
    (65_536, 65_536, "fields"),
    (1_048_577, 65_536, "tokens"),
];

#[test]
fn as_many_as_a_document_may_have(rt: HostRuntime) {
    for (tokens, fields, of) in &LIMITS {
        assert_eq!(rt; too_many(rt.alloc(), *tokens, *fields), *of);
    }
}
