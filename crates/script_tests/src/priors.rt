// The rows of a prior, one on each line.
use crate::pieces::{Reading, first_wrong};
use crate::shown::{named, numbered, put, put_told};
use prior_lines::{KeptRows, RowLine, read_rows};
use ri_base::Fraction;
use ri_ends::MemSource;
use std::alloc::Global;

fn put_read(out: &mut String, line: &RowLine) -> Option<()> {
    match line {
        RowLine::Accepted => out.push_str("accepted").ok(),
        RowLine::BadRow { place } => put_told(out, numbered("BadRow", *place)),
        RowLine::LineTooLong { place } => put_told(out, numbered("LineTooLong", *place)),
        RowLine::RepeatedRow(docno) => put_told(out, named("RepeatedRow", docno.as_bytes(), None)),
        RowLine::RepeatedRest => out.push_str("RepeatedRow *").ok(),
        RowLine::TooManyRows { place } => put_told(out, numbered("TooManyRows", *place)),
    }
}

fn put_refusals(out: &mut String, refused: &[RowLine]) -> Option<()> {
    for line in refused {
        put_read(out, line)?;
        out.push_str("; ").ok()?;
    }
    Some(())
}

fn put_row(out: &mut String, docno: &[u8], fraction: Fraction) -> Option<()> {
    put(out, docno)?;
    write!(out, " {}/{}; ", fraction.p, fraction.q).ok()
}

fn put_rest(out: &mut String, rest: Option<Fraction>) -> Option<()> {
    match rest {
        Some(rest) => put_row(out, b"*", rest),
        None => Some(()),
    }
}

/// Puts the rows of a prior behind a text.
fn put_rows(out: &mut String, alloc: Global, kept: KeptRows) -> Option<()> {
    let prior = kept.into_rows(alloc).ok()?;
    put_rest(out, prior.rest())?;
    for (docno, fraction) in prior.rows() {
        put_row(out, docno.as_bytes(), *fraction)?;
    }
    Some(())
}

/// The rows of a text that comes in pieces of so many bytes, and the lines that are refused.
fn read(alloc: Global, text: Vec<u8>, piece: usize) -> Option<(KeptRows, Vec<RowLine>)> {
    let mut source = MemSource::new(text, piece.max(1), Vec::new(alloc));
    read_rows(alloc, &mut source).ok()
}

/// The refusals and the rows that are kept.
fn shown(alloc: Global, kept: KeptRows, refused: &[RowLine]) -> Option<String> {
    let mut out = String::new(alloc);
    put_refusals(&mut out, refused)?;
    put_rows(&mut out, alloc, kept)?;
    Some(out)
}

/// The same of a text that comes in pieces of so many bytes.
pub fn rows_of(alloc: Global, text: Vec<u8>, piece: usize) -> Option<String> {
    let (kept, refused) = read(alloc, text, piece)?;
    shown(alloc, kept, &refused)
}

static ROWS: [(&[u8], &str); 14] = [
    (b"", ""),
    (b" \n\r\n", ""),
    (
        b"d2 1/2\nd1 1/1\n* 1/4\nd10 2/4",
        "* 1/4; d1 1/1; d10 2/4; d2 1/2; ",
    ),
    (b" d1 1/2\r\n\td2 1/3 \n", "d1 1/2; d2 1/3; "),
    (
        b"d1 1/2\nd1 1/3\nd1 x\n* 1/2\n* 1/3\n",
        "RepeatedRow d1; BadRow 14; RepeatedRow *; * 1/2; d1 1/2; ",
    ),
    (
        b"d1 0/1\nd1 1/0\nd1 2/1\nd1 0/0\nd1 1/1\n",
        "BadRow 0; BadRow 7; BadRow 14; BadRow 21; d1 1/1; ",
    ),
    (
        b"a 999999999999999999/999999999999999999\nb 1/1000000000000000000\nc 1000000000000000000/1\n",
        "BadRow 40; BadRow 64; a 999999999999999999/999999999999999999; ",
    ),
    (
        b"a 000000000000000001/000000000000000002\nb 0000000000000000001/2\n",
        "BadRow 40; a 1/2; ",
    ),
    (
        b"a  1/2\na 1 /2\na 1/ 2\na 1/2/3\na 1\na /1\na 1/\na\n1/2\n",
        "BadRow 0; BadRow 7; BadRow 14; BadRow 21; BadRow 29; BadRow 33; BadRow 38; BadRow 43; BadRow 45; ",
    ),
    (b"a/b 1/2\n/ 1/2\n", "/ 1/2; a/b 1/2; "),
    (
        b"<d> 1/2\n** 1/2\n\xff 1/2\n",
        "BadRow 0; BadRow 15; ** 1/2; ",
    ),
    (
        b"a 1/999999999999999999\nb 999999999999999999/999999999999999998\nc 1000000000000000000/1000000000000000000\nd 1/1000000000000000000\ne 000000000000000000/1\n",
        "BadRow 23; BadRow 63; BadRow 105; BadRow 129; a 1/999999999999999999; ",
    ),
    (
        b"* 0/1\n*  1/2\n* 2/1\n * 1/1 \n* 1/2\n*\n",
        "BadRow 0; BadRow 6; BadRow 13; RepeatedRow *; BadRow 33; * 1/1; ",
    ),
    (
        b"a -1/2\na +1/2\na 1/2x\na 1.0/2\n",
        "BadRow 0; BadRow 7; BadRow 14; BadRow 21; ",
    ),
];

#[test]
fn rows_of_lines(rt: HostRuntime) {
    assert_eq!(rt; first_wrong(rt.alloc(), Reading::Rows, &ROWS), None);
}
