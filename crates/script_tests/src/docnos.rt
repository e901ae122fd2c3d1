// Docnos, one on each line.
use crate::pieces::{Reading, first_wrong};
use crate::shown::{numbered, put, put_told};
use docno_lines::{DocnoLine, next_docno};
use line_reader::LineReader;
use ri_ends::{MemSource, Source};
use std::alloc::Global;

fn put_read(out: &mut String, line: &DocnoLine) -> Option<()> {
    match line {
        DocnoLine::Docno(docno) => put(out, docno.as_bytes()),
        DocnoLine::BadEvent { place } => put_told(out, numbered("BadEvent", *place)),
        DocnoLine::LineTooLong { place } => put_told(out, numbered("LineTooLong", *place)),
    }
}

fn put_line(out: &mut String, line: DocnoLine) -> Option<()> {
    put_read(out, &line)?;
    out.push_str("; ").ok()
}

/// Puts what the lines of a source are read as behind a text.
fn put_lines<S: Source>(out: &mut String, alloc: Global, source: &mut S) -> Option<()> {
    let mut lines = LineReader::new(alloc).ok()?;
    'lines: for _ in 0..u64::MAX {
        match next_docno(alloc, &mut lines, source) {
            Ok(Some(line)) => put_line(out, line)?,
            Ok(None) => return Some(()),
            Err(_) => return None,
        }
    }
    None
}

/// What the lines of a text are read as that comes in pieces of so many bytes.
pub fn docnos_of(alloc: Global, text: Vec<u8>, piece: usize) -> Option<String> {
    let mut source = MemSource::new(text, piece.max(1), Vec::new(alloc));
    let mut out = String::new(alloc);
    put_lines(&mut out, alloc, &mut source)?;
    Some(out)
}

static ROWS: [(&[u8], &str); 7] = [
    (b"", ""),
    (b"\n \r\n\t\x0c \n", ""),
    (b"d1", "d1; "),
    (b" d1\t\r\n\r\n  d2\x0c\nd3 \r", "d1; d2; d3; "),
    (
        b"d1 d2\nd3\n\xff\n<\n*",
        "BadEvent 0; d3; BadEvent 9; BadEvent 11; *; ",
    ),
    (b"d\r1\nd\x0b\n~\n", "BadEvent 0; BadEvent 4; ~; "),
    (b"\n\n x y \n", "BadEvent 2; "),
];

#[test]
fn docnos_of_lines(rt: HostRuntime) {
    assert_eq!(rt; first_wrong(rt.alloc(), Reading::Docnos, &ROWS), None);
}
