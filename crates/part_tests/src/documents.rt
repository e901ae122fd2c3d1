// The documents of a range, put together from its blocks.
use crate::segment::{BYTES, NAME, cache_of, changed, open, store_of};
use disk_index::DiskIndex;
use ri_base::{Doc, List, PartName, SegFault};
use std::alloc::Global;
use store_ends::{MemStore, Store};

/// The documents of the first range.
fn documents(
    alloc: Global,
    index: &DiskIndex,
    store: &mut MemStore,
) -> Result<List<Doc>, SegFault> {
    let mut cache = cache_of(alloc, 1)?;
    if index.docs() == 0 {
        return Ok(List::new(alloc));
    }
    index.documents(alloc, store, &mut cache, 0)
}

/// The same of the segment once it is opened.
fn read(alloc: Global, store: &mut MemStore) -> Result<List<Doc>, SegFault> {
    let index = open(alloc, store)?;
    documents(alloc, &index, store)
}

/// The part and the place of the fault, where the file isn't what the grammar says.
fn place_of(found: Result<List<Doc>, SegFault>) -> Option<(PartName, u64)> {
    match found {
        Err(
            SegFault::Malformed {
                file: _,
                part,
                place,
            },
        ) => Some((part, place)),
        _ => None,
    }
}

/// The same where these bytes are opened and their documents are put together.
fn fault_in(alloc: Global, bytes: &[u8]) -> Option<(PartName, u64)> {
    let mut store = store_of(alloc, bytes, Vec::new(alloc)).ok()?;
    place_of(read(alloc, &mut store))
}

// A place that stands twice is told by its own place, and one that is missing by that of the last block.
#[test]
fn blocks_that_are_not_whole(rt: HostRuntime) {
    assert!(rt; fault_in(rt.alloc(), &changed(151, 0)) == Some((PartName::Block, 151)));
    let mut bytes = changed(16, 4);
    bytes[67] = 3;
    assert!(rt; fault_in(rt.alloc(), &bytes) == Some((PartName::Block, 145)));
}

/// The same documents, where the first token of `d1` is a field `t`. The documents stand at 64, the dictionary at 94, the blocks at 138
/// and 157.
static FIELD: [u8; 167] =
    *b"indriseg\x01\0\0\0\x02\0\0\0\x03\0\0\0\0\0\0\0\x02\0\0\0\x01\0\0\0\x40\0\0\0\0\0\0\0\x5e\0\0\0\0\0\0\0\x8a\0\0\0\0\0\0\0\xa7\0\0\0\0\0\0\0\x01t\x02d1\x02\0\0\0\x01\0\0\0\0\0\0\0\x01\0\0\0\x02d2\x01\0\0\0\0\0\x01a\x01\0\0\0\0\0\0\0\x8a\0\0\0\0\0\0\0\x13\0\0\0\x01b\x01\0\0\0\0\0\0\0\x9d\0\0\0\0\0\0\0\x0a\0\0\0\x02\0\x01\0\0\0\0\0\0\0\x01\x01\0\0\0\0\0\0\0\x01\0\x01\0\0\0\x01\0\0\0";

/// A byte of it, what stands there instead, and the fault: twice in the header, four times in the documents, where the last two are of
/// the field, twice in the dictionary, and three times in the blocks. Last the byte that stands there.
static CHANGED: [(usize, u8, Option<(PartName, u64)>); 12] = [
    (7, 0, Some((PartName::Header, 0))),
    (12, 3, Some((PartName::Header, 12))),
    (64, 0, Some((PartName::Documents, 64))),
    (69, 3, Some((PartName::Documents, 94))),
    (75, 1, Some((PartName::Documents, 75))),
    (81, 3, Some((PartName::Documents, 81))),
    (95, 0x63, Some((PartName::Dictionary, 117))),
    (104, 0x8b, Some((PartName::Dictionary, 104))),
    (139, 1, Some((PartName::Block, 148))),
    (148, 2, Some((PartName::Block, 148))),
    (163, 2, Some((PartName::Block, 163))),
    (163, 1, None),
];

/// The fault where another byte stands at a place.
fn fault_with(alloc: Global, at: usize, byte: u8) -> Option<(PartName, u64)> {
    let mut bytes = FIELD;
    *bytes.get_mut(at)? = byte;
    fault_in(alloc, &bytes)
}

#[test]
fn one_byte_of_each_part(rt: HostRuntime) {
    for (at, byte, fault) in &CHANGED {
        assert!(rt; fault_with(rt.alloc(), *at, *byte) == *fault, "{at}");
    }
}

fn is_missing<T: Drop>(found: Result<T, SegFault>) -> bool {
    matches!(found, Err(SegFault::Missing { file: _ }))
}

/// Whether no block is there, and no segment, once its file is removed behind the opening.
fn are_missing(alloc: Global) -> Option<(bool, bool)> {
    let mut store = store_of(alloc, &BYTES, Vec::new(alloc)).ok()?;
    let index = open(alloc, &mut store).ok()?;
    if NAME.len() > 64 || store.remove(NAME).is_err() {
        return None;
    }
    let blocks = is_missing(documents(alloc, &index, &mut store));
    Some((blocks, is_missing(open(alloc, &mut store))))
}

#[test]
fn no_file(rt: HostRuntime) {
    assert!(rt; are_missing(rt.alloc()) == Some((true, true)));
}
