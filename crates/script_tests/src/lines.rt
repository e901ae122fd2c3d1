// Long lines.
use crate::pieces::{Reading, is_right};
use std::alloc::{AllocError, Global};

/// A line `flush`, then a line `scan ..` of so many bytes, and what stands behind it.
fn long_line(alloc: Global, count: usize, behind: &[u8]) -> Result<Vec<u8>, AllocError> {
    let mut script = b"flush\nscan ".to_vec(alloc)?;
    script.resize(count.saturating_add(6), b'a')?;
    script.extend_from_slice(behind)?;
    Ok(script)
}

/// How many bytes a line has, what stands behind it, and the items.
type Row = (usize, &'static [u8], &'static str);

static ROWS: [Row; 16] = [
    (65536, b"\nmerge", "flush; scan [65531 bytes]; merge; end"),
    (65536, b"\r\nmerge", "flush; scan [65531 bytes]; merge; end"),
    (65536, b"", "flush; scan [65531 bytes]; end"),
    (65536, b"\r", "flush; scan [65531 bytes]; end"),
    (65537, b"\nmerge", "flush; LineTooLong 6; merge; end"),
    (65537, b"\r\nmerge", "flush; LineTooLong 6; merge; end"),
    (65537, b"", "flush; LineTooLong 6; end"),
    (65537, b"\r", "flush; LineTooLong 6; end"),
    (
        65535,
        b"\r\r\nmerge",
        "flush; scan [65531 bytes]; merge; end",
    ),
    (65536, b"\r\r\nmerge", "flush; LineTooLong 6; merge; end"),
    (65538, b"\nmerge", "flush; LineTooLong 6; merge; end"),
    (65538, b"\r", "flush; LineTooLong 6; end"),
    (300_000, b"\r\nmerge", "flush; LineTooLong 6; merge; end"),
    (300_000, b"", "flush; LineTooLong 6; end"),
    (65537, b"\nend\nmerge", "flush; LineTooLong 6; end"),
    (
        65536,
        b"\nadd 1\n",
        "flush; scan [65531 bytes]; ShortAdd 65543; end",
    ),
];

fn is_row_right(alloc: Global, row: &Row) -> bool {
    let (count, behind, wanted) = row;
    match long_line(alloc, *count, behind) {
        Ok(script) => is_right(alloc, Reading::Script, &script, wanted),
        Err(_) => false,
    }
}

/// The first of these rows whose items are others, if one is.
fn first_wrong(alloc: Global) -> Option<usize> {
    for (i, row) in ROWS.iter().enumerate() {
        if !is_row_right(alloc, row) {
            return Some(i);
        }
    }
    None
}

#[test]
fn long_lines(rt: HostRuntime) {
    assert_eq!(rt; first_wrong(rt.alloc()), None);
}
