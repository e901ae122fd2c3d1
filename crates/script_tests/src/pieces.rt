// Texts that come in pieces.
use crate::docnos::docnos_of;
use crate::priors::rows_of;
use crate::shown::items_of;
use std::alloc::Global;

/// What a text is read as.
#[derive(Clone, Copy)]
pub enum Reading {
    Script,
    /// A docno on each line.
    Docnos,
    /// A row of a prior on each line.
    Rows,
}

/// What is read of a text that comes in pieces of so many bytes, as text.
fn read(alloc: Global, reading: Reading, text: Vec<u8>, piece: usize) -> Option<String> {
    match reading {
        Reading::Script => items_of(alloc, text, piece),
        Reading::Docnos => docnos_of(alloc, text, piece),
        Reading::Rows => rows_of(alloc, text, piece),
    }
}

/// Whether this is read of a text that comes in pieces of so many bytes.
fn is_read_as(alloc: Global, reading: Reading, text: Vec<u8>, piece: usize, wanted: &str) -> bool {
    match read(alloc, reading, text, piece) {
        Some(found) => found.as_str() == wanted,
        None => false,
    }
}

fn is_copy_read_as(
    alloc: Global,
    reading: Reading,
    text: &[u8],
    piece: usize,
    wanted: &str,
) -> bool {
    match text.to_vec(alloc) {
        Ok(text) => is_read_as(alloc, reading, text, piece, wanted),
        Err(_) => false,
    }
}

/// Whether this is read of a text, whatever the pieces that it comes in.
pub fn is_right(alloc: Global, reading: Reading, text: &[u8], wanted: &str) -> bool {
    for piece in [1, 2, 3, 7, 100, 65536, 1_000_000] {
        if !is_copy_read_as(alloc, reading, text, piece, wanted) {
            return false;
        }
    }
    true
}

/// The first of these texts of which something else is read, if there is one.
pub fn first_wrong(alloc: Global, reading: Reading, rows: &[(&[u8], &str)]) -> Option<usize> {
    for (i, (text, wanted)) in rows.iter().enumerate() {
        if !is_right(alloc, reading, text, wanted) {
            return Some(i);
        }
    }
    None
}
