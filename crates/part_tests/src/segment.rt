// A segment that was written out by hand: `d1` has the tokens `a b`, and `d2` the token `a`. Its blocks stand at 126 and 145.
use disk_index::{BlockCache, DiskIndex};
use ri_base::SegFault;
use std::alloc::{AllocError, Global};
use std::num::NonZeroUsize;
use store_ends::{MemStore, Store, StoreFail};

pub static BYTES: [u8; 155] = [
    0x69, 0x6e, 0x64, 0x72, 0x69, 0x73, 0x65, 0x67, 1, 0, 0, 0, 2, 0, 0, 0, 3, 0, 0, 0, 0, 0, 0, 0,
    2, 0, 0, 0, 0, 0, 0, 0, 0x40, 0, 0, 0, 0, 0, 0, 0, 0x52, 0, 0, 0, 0, 0, 0, 0, 0x7e, 0, 0, 0, 0,
    0, 0, 0, 0x9b, 0, 0, 0, 0, 0, 0, 0, 2, 0x64, 0x31, 2, 0, 0, 0, 0, 0, 2, 0x64, 0x32, 1, 0, 0, 0,
    0, 0, 1, 0x61, 1, 0, 0, 0, 0, 0, 0, 0, 0x7e, 0, 0, 0, 0, 0, 0, 0, 0x13, 0, 0, 0, 1, 0x62, 1, 0,
    0, 0, 0, 0, 0, 0, 0x91, 0, 0, 0, 0, 0, 0, 0, 0x0a, 0, 0, 0, 2, 0, 1, 0, 0, 0, 0, 0, 0, 0, 1, 1,
    0, 0, 0, 0, 0, 0, 0, 1, 0, 1, 0, 0, 0, 1, 0, 0, 0,
];

pub const NAME: &str = "seg-0000000000000001";

/// The same with another byte at a place of it.
pub fn changed(at: usize, byte: u8) -> [u8; 155] {
    let mut bytes = BYTES;
    if at < 155 {
        bytes[at] = byte;
    }
    bytes
}

fn file_of(alloc: Global, bytes: &[u8]) -> Result<(Vec<u8>, Vec<u8>), AllocError> {
    Ok((NAME.as_bytes().to_vec(alloc)?, bytes.to_vec(alloc)?))
}

/// A store with these bytes as the file of segment 1, in which these calls fail.
pub fn store_of(
    alloc: Global,
    bytes: &[u8],
    fails: Vec<StoreFail>,
) -> Result<MemStore, AllocError> {
    let mut files = Vec::new(alloc);
    files.push(file_of(alloc, bytes)?)?;
    Ok(MemStore::new(alloc, files, fails))
}

/// Segment 1, of two documents.
pub fn open<T: Store>(alloc: Global, store: &mut T) -> Result<DiskIndex, SegFault> {
    DiskIndex::open(alloc, store, 1, 2)
}

/// A cache of so many blocks, or of one.
pub fn cache_of(alloc: Global, slots: usize) -> Result<BlockCache, AllocError> {
    BlockCache::new(alloc, NonZeroUsize::new(slots).unwrap_or(NonZeroUsize::MIN))
}
