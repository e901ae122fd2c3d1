// The pieces of texts, as the text of a document whose docno stands in front.
use ri_ends::MemSource;
use std::alloc::Global;
use trec_reader::{Piece, Pieces, RawDoc, TrecReader};

/// Text in brackets, tags in angles, and a bar for a break.
fn shown(alloc: Global, pieces: &Pieces) -> Option<String> {
    let mut shown = String::new(alloc);
    for piece in pieces.as_slice() {
        let (front, bytes, back): (&str, &[u8], &str) = match piece {
            Piece::Text(bytes) => ("[", bytes.as_slice(), "]"),
            Piece::Open(name) => ("<", name.as_bytes(), ">"),
            Piece::Close(name) => ("</", name.as_bytes(), ">"),
            Piece::Break => ("|", b"", ""),
        };
        shown.push_str(front).ok()?;
        for byte in bytes {
            shown.push(char::from(*byte)).ok()?;
        }
        shown.push_str(back).ok()?;
    }
    Some(shown)
}

static ROWS: [(&[u8], &str); 9] = [
    (b"", ""),
    (b"a < b & c > d", "[a < b & c > d]"),
    (
        b"a<B x>c</b/>&amp;<!-- <i> --><i/>&x<!--->--><?x?><a.b>",
        "[a]<b>[c]</b>|||[&x]|||",
    ),
    (b"<!--<!--<b>&#233;", "[<!--<!--]<b>|"),
    (b"<!-->x<!a>", "|[x]|"),
    (b"<!--x--><!--y-->z<!--", "||[z<!--]"),
    (b"&12345678901234567890123456789012;", "|"),
    (
        b"&123456789012345678901234567890123;",
        "[&123456789012345678901234567890123;]",
    ),
    (
        b"<a1234567890123456789012345678901></a12345678901234567890123456789012>",
        "<a1234567890123456789012345678901>|",
    ),
];

/// The document with this text.
fn input(alloc: Global, text: &[u8]) -> Option<Vec<u8>> {
    let mut input = b"<DOC><DOCNO>d</DOCNO>".to_vec(alloc).ok()?;
    input.extend_from_slice(text).ok()?;
    input.extend_from_slice(b"</DOC>").ok()?;
    Some(input)
}

fn read(alloc: Global, text: &[u8]) -> Option<RawDoc> {
    let input = input(alloc, text)?;
    let source = MemSource::new(input, 100, Vec::new(alloc));
    let mut reader = TrecReader::new(alloc, source).ok()?;
    reader.next_doc().ok()?
}

/// Whether the pieces of a text are shown so.
fn is_shown(alloc: Global, text: &[u8], wanted: &str) -> Option<bool> {
    let raw = read(alloc, text)?;
    let found = shown(alloc, &raw.pieces)?;
    Some(found.as_str() == wanted)
}

#[test]
fn pieces_of_texts(rt: HostRuntime) {
    for (text, wanted) in &ROWS {
        assert!(rt;
            is_shown(rt.alloc(), text, wanted) == Some(true),
            "{wanted}"
        );
    }
}
