// Reading a segment's file.
ghost use Rattle.std.specs.Prelude.{◌≡◌, ◌<◌, ◌≤◌, ◌+◌, ◌^◌, ◌≢◌, Some, Err, take, drop, length, vec_len, IfOk, IfErr};
ghost use Rattle.ri_base.specs.Faults.{IsOutside};
ghost use Rattle.ri_base.specs.Keeps.{Rose};
ghost use Rattle.store_ends.specs.Files.{Files, IsQuiet};
ghost use Rattle.seg_codec.specs.Fits.{FitBlock};
ghost use Rattle.disk_index.specs.Blocks.{IsBlockFault, IsBlockIn, IsReadFault, file_of};

use crate::name::{as_text, segment_name};
use crate::{Block, BlockKey};
use ri_base::{FileName, SegFault};
use ri_ends::OutFault;
use seg_codec::Documents;
use std::alloc::Global;
use store_ends::Store;

/// The fault of a call of a store, as that of a part of the collection.
pub fn store_fault(fault: OutFault) -> SegFault
    ensures outside { IsOutside result }
    ensures failed { result ≡ SegFault.Store → fault ≡ OutFault.Failed }
    ensures memory { result ≢ SegFault.Store → fault ≡ OutFault.Memory }
{
    match fault {
        OutFault::Failed => SegFault::Store,
        OutFault::Memory => SegFault::Memory,
    }
}

/// How many bytes the file of the segment has. `Missing` where there is none.
pub fn file_length<T: Store>(store: &mut T, number: u64) -> Result<u64, SegFault>
    ensures length { (f : Files) → T.files store.old ≡ Some f → IfOk result (λ n. n ≡ length (file_of f number)) }
    ensures fault { (f : Files) → T.files store.old ≡ Some f → IfErr result (IsReadFault f number) }
    ensures quiet { IsQuiet T.files T.layers T.clock T.since T.longest T.held store.old store.new }
    ensures later { T.faults store.old ≤ T.faults store.new }
    ensures store { result ≡ Err SegFault.Store → Rose (T.faults store.old) (T.faults store.new) }
    ensures none { result ≢ Err SegFault.Store → T.faults store.new ≡ T.faults store.old }
{
    let name = segment_name(number);
    match store.len(as_text(&name)) {
        Ok(Some(length)) => Ok(length),
        Ok(None) => Err(SegFault::Missing {
            file: FileName::Segment(number),
        }),
        Err(fault) => Err(store_fault(fault)),
    }
}

/// Fills the buffer with the file's bytes from a place on, as many as there are and as have room.
fn fill<T: Store>(store: &mut T, number: u64, at: u64, buf: &mut [u8]) -> Result<usize, SegFault>
    ensures bound { IfOk result (λ n. n ≤ length buf.old) }
    ensures bytes { (f : Files) → T.files store.old ≡ Some f → IfOk result (λ n. take n buf.new ≡ take (length buf.old) (drop at (file_of f number))) }
    ensures outside { IfErr result IsOutside }
    ensures quiet { IsQuiet T.files T.layers T.clock T.since T.longest T.held store.old store.new }
    ensures later { T.faults store.old ≤ T.faults store.new }
    ensures store { result ≡ Err SegFault.Store → Rose (T.faults store.old) (T.faults store.new) }
    ensures none { result ≢ Err SegFault.Store → T.faults store.new ≡ T.faults store.old }
{
    let name = segment_name(number);
    match store.read_at(as_text(&name), at, buf) {
        Ok(count) => Ok(count),
        Err(fault) => Err(store_fault(fault)),
    }
}

/// The bytes of the file of the segment from a place on, so many, or as many as there are. `Missing` where there are fewer, and no such file.
pub fn read_bytes<T: Store>(
    alloc: Global,
    store: &mut T,
    number: u64,
    at: u64,
    count: usize,
) -> Result<Vec<u8>, SegFault>
    ensures bytes { (f : Files) → T.files store.old ≡ Some f → IfOk result (λ b. b.items ≡ take count (drop at (file_of f number))) }
    ensures most { IfOk result (λ b. vec_len b ≤ count) }
    ensures fault { (f : Files) → T.files store.old ≡ Some f → IfErr result (IsReadFault f number) }
    ensures quiet { IsQuiet T.files T.layers T.clock T.since T.longest T.held store.old store.new }
    ensures later { T.faults store.old ≤ T.faults store.new }
    ensures store { result ≡ Err SegFault.Store → Rose (T.faults store.old) (T.faults store.new) }
    ensures none { result ≢ Err SegFault.Store → T.faults store.new ≡ T.faults store.old }
{
    let mut bytes = vec![in alloc; 0u8; count]?;
    let read = fill(store, number, at, &mut bytes)?;
    if read < count {
        let _length = file_length(store, number)?;
    }
    bytes.truncate(read);
    Ok(bytes)
}

/// The block of this key, of a segment with these documents.
pub(crate) fn read_block<T: Store>(
    alloc: Global,
    store: &mut T,
    key: BlockKey,
    documents: &Documents,
) -> Result<Block, SegFault>
    requires { key.place + key.length < 2 ^ 64 }
    ensures exact { (f : Files) → T.files store.old ≡ Some f → IfOk result (IsBlockIn f key) }
    ensures fits { IfOk result (FitBlock documents.now key.range) }
    ensures fault { (f : Files) → T.files store.old ≡ Some f → IfErr result (IsBlockFault f key documents.now) }
    ensures quiet { IsQuiet T.files T.layers T.clock T.since T.longest T.held store.old store.new }
    ensures later { T.faults store.old ≤ T.faults store.new }
    ensures store { result ≡ Err SegFault.Store → Rose (T.faults store.old) (T.faults store.new) }
    ensures none { result ≢ Err SegFault.Store → T.faults store.new ≡ T.faults store.old }
{
    let bytes = read_bytes(alloc, store, key.number, key.place, key.length as usize)?;
    let file = FileName::Segment(key.number);
    let block = seg_codec::read_block(alloc, &bytes, file, key.place, documents, key.range)?;
    Ok(Block::of(alloc, block)?)
}
