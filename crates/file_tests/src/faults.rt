// The places of faults in files whose bytes are changed or cut.
use crate::written::is_written_again;
use manifest::{read_manifest, read_prior};
use ri_base::{FileName, SegFault};
use seg_codec::read_segment;
use std::alloc::Global;

#[derive(Clone, Copy)]
pub enum Kind {
    Manifest,
    Prior,
    Segment,
}

/// Bytes that stand from a place on in place of others, for each change, and the place of the fault then, where there is one.
pub type Row = (&'static [(usize, &'static [u8])], Option<u64>);

/// The place of another fault than that of a field.
const OTHER: u64 = u64::MAX;

/// The place of the fault; nothing where something is read.
fn place_of<T: Drop>(found: Result<T, SegFault>) -> Option<u64> {
    match found {
        Ok(_) => None,
        Err(
            SegFault::Malformed {
                file: _,
                part: _,
                place,
            },
        ) => Some(place),
        Err(_) => Some(OTHER),
    }
}

fn fault_in(alloc: Global, kind: Kind, bytes: &[u8]) -> Option<u64> {
    match kind {
        Kind::Manifest => place_of(read_manifest(alloc, bytes)),
        Kind::Prior => place_of(read_prior(alloc, bytes, 7)),
        Kind::Segment => place_of(read_segment(alloc, bytes, FileName::Segment(1))),
    }
}

/// Puts bytes in place of others; whether there are so many.
fn put(bytes: &mut [u8], at: usize, others: &[u8]) -> bool {
    if at > bytes.len() || others.len() > bytes.len() - at {
        return false;
    }
    bytes[at..at + others.len()].copy_from_slice(others);
    true
}

/// The bytes once these changes are made; nothing where there aren't so many.
fn changed(alloc: Global, bytes: &[u8], changes: &[(usize, &[u8])]) -> Option<Vec<u8>> {
    let mut room = bytes.to_vec(alloc).ok()?;
    for (at, others) in changes {
        if !put(&mut room, *at, others) {
            return None;
        }
    }
    Some(room)
}

/// The place of the fault once these changes are made, where there is one.
pub fn fault_with(
    alloc: Global,
    kind: Kind,
    bytes: &[u8],
    changes: &[(usize, &[u8])],
) -> Option<u64> {
    match changed(alloc, bytes, changes) {
        Some(changed) => fault_in(alloc, kind, &changed),
        None => Some(OTHER),
    }
}

/// The first of these rows with another fault, if one has another.
pub fn first_wrong(alloc: Global, kind: Kind, bytes: &[u8], rows: &[Row]) -> Option<usize> {
    for (i, (changes, place)) in rows.iter().enumerate() {
        if fault_with(alloc, kind, bytes, changes) != *place {
            return Some(i);
        }
    }
    None
}

/// The place of the fault in a front of so many bytes: the begin of the field in which it ends. It has none where it ends where the
/// last one begins.
fn fault_of_front(begins: &[usize], count: usize) -> Option<u64> {
    let mut place = 0;
    for begin in begins {
        if *begin <= count {
            place = *begin;
        }
    }
    match begins.last() {
        Some(last) if *last == count => None,
        _ => Some(place as u64),
    }
}

/// The first front of the bytes, by how many these are, with another fault, if one has another. The fields begin at these places; the
/// last is that of what may stand behind the file.
pub fn first_wrong_front(
    alloc: Global,
    kind: Kind,
    bytes: &[u8],
    begins: &[usize],
) -> Option<usize> {
    for count in 0..=bytes.len() {
        if fault_in(alloc, kind, &bytes[..count]) != fault_of_front(begins, count) {
            return Some(count);
        }
    }
    None
}

/// Whether the file with that byte raised by one is refused. Where it is read, it is the file of what is read of it, and so that of
/// another value; nothing where it isn't.
fn is_refused_raised(alloc: Global, kind: Kind, bytes: &[u8], at: usize) -> Option<bool> {
    let raised = [bytes.get(at)?.wrapping_add(1)];
    let changed = changed(alloc, bytes, &[(at, &raised)])?;
    if fault_in(alloc, kind, &changed).is_some() {
        return Some(true);
    }
    if is_written_again(alloc, kind, &changed) {
        Some(false)
    } else {
        None
    }
}

/// At how many bytes the file is refused where this one is raised by one; nothing where it is read as no other value.
pub fn refused_raised(alloc: Global, kind: Kind, bytes: &[u8]) -> Option<usize> {
    let mut count = 0usize;
    for at in 0..bytes.len() {
        if is_refused_raised(alloc, kind, bytes, at)? {
            count = count.saturating_add(1);
        }
    }
    Some(count)
}
