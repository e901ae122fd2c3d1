// Segments of many documents with fields and long words, and of texts that are the longest.
use crate::documents::{all_numbered, longest, segment_of};
use crate::faults::{Kind, Row, fault_with, first_wrong};
use crate::written::is_written_again;
use ri_base::{Bytes, FileName};
use seg_codec::read_segment;
use std::alloc::Global;

fn section(alloc: Global, count: u32) -> Option<Bytes> {
    let documents = all_numbered(alloc, count)?;
    segment_of(alloc, documents.as_slice())
}

/// How many documents are read of a segment.
fn count_of(alloc: Global, bytes: &[u8]) -> Option<usize> {
    let documents = read_segment(alloc, bytes, FileName::Segment(1)).ok()?;
    Some(documents.len())
}

/// Whether so many documents are read back of their segment, and have it.
fn are_read_back(alloc: Global, count: u32) -> Option<bool> {
    let bytes = section(alloc, count)?;
    let read = count_of(alloc, bytes.as_slice())?;
    Some(read == count as usize && is_written_again(alloc, Kind::Segment, bytes.as_slice()))
}

#[test]
fn a_thousand_documents(rt: HostRuntime) {
    assert!(rt; are_read_back(rt.alloc(), 1000) == Some(true));
}

/// The file has a name of 32 letters at 64, a docno of 255 bytes at 97, one field at 359, and a word of 128 bytes at 369. Lengths that are
/// one more are refused, where a docno can't have one more. The last rows are the field, and as many names as there may be.
static LONGEST: [Row; 8] = [
    (&[], None),
    (&[(64, &[33])], Some(64)),
    (&[(97, &[0])], Some(97)),
    (&[(369, &[129])], Some(369)),
    (&[(359, &[1])], Some(359)),
    (&[(361, &[1])], Some(365)),
    (&[(365, &[2])], Some(365)),
    (&[(28, &[0, 0, 1, 0])], Some(97)),
];

/// The first of these rows with another fault, if one has another; nothing where there is no file.
fn first_wrong_of_longest(alloc: Global) -> Option<Option<usize>> {
    let documents = [longest(alloc)?];
    let bytes = segment_of(alloc, &documents)?;
    Some(first_wrong(alloc, Kind::Segment, bytes.as_slice(), &LONGEST))
}

#[test]
fn the_longest_texts(rt: HostRuntime) {
    assert!(rt; first_wrong_of_longest(rt.alloc()) == Some(None));
}

/// The place of a part that the header tells at this place.
fn part_at(bytes: &[u8], at: usize) -> Option<usize> {
    let field = bytes.get(at..at.saturating_add(4))?.try_into().ok()?;
    Some(u32::from_le_bytes(field) as usize)
}

/// How far behind the begin of a part a fault is, where another byte stands in the part.
fn fault_behind(alloc: Global, bytes: &[u8], at: usize, offset: usize, byte: u8) -> Option<u64> {
    let part = part_at(bytes, at)?;
    let place = fault_with(
        alloc,
        Kind::Segment,
        bytes,
        &[(part.checked_add(offset)?, &[byte])],
    )?;
    place.checked_sub(part as u64)
}

/// Where the header tells the place of a part, a place in that, a byte, and the place of the fault. The word `a` has a block of each of
/// two ranges, and the places 0 and 21 in the first document: ranges are told in the other order, one is told twice, and so are places.
static ORDERS: [(usize, usize, u8, u64); 4] = [
    (40, 6, 1, 22),
    (40, 22, 0, 22),
    (48, 6, 21, 10),
    (48, 10, 0, 10),
];

/// The first of these rows with another fault, if one has another; nothing where there is no file.
fn first_wrong_order(alloc: Global) -> Option<Option<usize>> {
    let bytes = section(alloc, 65)?;
    for (i, (at, offset, byte, place)) in ORDERS.iter().enumerate() {
        if fault_behind(alloc, bytes.as_slice(), *at, *offset, *byte) != Some(*place) {
            return Some(Some(i));
        }
    }
    Some(None)
}

#[test]
fn blocks_and_places_out_of_order(rt: HostRuntime) {
    assert!(rt; first_wrong_order(rt.alloc()) == Some(None));
}
