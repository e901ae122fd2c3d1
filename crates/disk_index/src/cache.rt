// Blocks that were read, kept for a while.
ghost use Rattle.std.specs.Prelude.{◌≡◌, ◌≢◌, ◌<◌, ◌≤◌, ◌+◌, ◌^◌, ◌⊎◌, ◌↔◌, List, [], Some, Err, IsTrue, IfOk, IfErr, IfSome, OnOk, length, map};
ghost use Rattle.std.proofs.Common.{rules};
ghost use Rattle.std.specs.Cmp.Rules.{hashing};
ghost use Rattle.std.specs.Hash as fed;
ghost use Rattle.std.specs.List.{Contains};
ghost use Rattle.ri_base.specs.Documents.{Document};
ghost use Rattle.ri_base.specs.Faults.{TellsDamage};
ghost use Rattle.ri_base.specs.Keeps.{Rose};
ghost use Rattle.store_ends.specs.Files.{Files, IsQuiet};
ghost use Rattle.seg_codec.specs.Fits.{FitBlock};
ghost use Rattle.seg_codec.specs.Segment.{entry_of};
ghost use Rattle.seg_codec.specs.declared.blocks.BlockEntry.{BlockEntry};
ghost use Rattle.disk_index.specs.Blocks.{IsBlockFault, IsBlockIn};
ghost use Rattle.disk_index.specs.Cache.{AllIn, AllKept, CacheKeeps, IsCacheBacked, nothing_cached, without_blocks};
ghost use Rattle.disk_index.specs.Faults.{CameFrom};
ghost use Rattle.disk_index.specs.Reads.{HasSegment};

use crate::Block;
use crate::reading::read_block;
use lru::LruCache;
use ri_base::{NoMemory, SegFault};
use seg_codec::Documents;
use std::alloc::Global;
use std::hash::{Hash, Hasher};
use std::marker::Model;
use std::num::NonZeroUsize;
use store_ends::Store;

/// Where a block was read: the number of its file, its range of 64 ids, its place in the file and its length.
#[derive(Clone, Copy, Debug, PartialEq, Eq)]
pub struct BlockKey {
    pub number: u64,
    pub range: u32,
    pub place: u64,
    pub length: u32,
}

/// Blocks of a file are told apart by their places, and few of different files have the same.
impl Hash for BlockKey {
    ghost hash_input = { λ key. fed.u64 key.place };

    ghost respects_eq = { Prim.search (hashing, rules) };

    fn hash<H: Hasher>(&self, state: &mut H) {
        self.place.hash(state);
    }
}

/// Blocks that were read, as many as it has slots, seen as the list of them with their keys. Of a full cache the block that wasn't
/// asked for for the longest time makes room. It notes the last damage
/// that was met by reading through it.
pub struct BlockCache {
    kept: LruCache<BlockKey, Block>,
    damage: Option<SegFault>,
}

impl Drop for BlockCache {
    fn drop(self) {
        let BlockCache { kept, damage } = self;
        drop(kept);
        drop(damage);
    }
}

impl Model for BlockCache {
    ghost use Rattle.disk_index.specs.Cache.{Cached};

    ghost Value = { Cached };

    ghost view = { λ c. record { kept = c.kept.entries; damage = c.damage } };
}

impl BlockCache {
    /// No block, with room for so many.
    pub fn new(alloc: Global, slots: NonZeroUsize) -> Result<BlockCache, NoMemory>
        ensures { IfOk result (λ c. c ≡ nothing_cached) }
    {
        Ok(BlockCache {
            kept: LruCache::sparse(alloc, slots)?,
            damage: None,
        })
    }

    /// No block is kept any more.
    pub fn clear(&mut self)
        ensures { self.new ≡ without_blocks self.old }
    {
        self.kept.clear();
    }

    /// How many blocks are kept.
    pub fn len(&self) -> usize
        ensures { result ≡ length self.now.kept }
    {
        self.kept.len()
    }

    pub fn is_empty(&self) -> bool
        ensures { IsTrue result ↔ (self.now.kept ≡ []) }
    {
        self.kept.is_empty()
    }

    /// The block of this key, of a segment with these documents: as it is kept, or read and kept from now on. Where there is no
    /// memory to keep it, it is handed out all the same.
    pub(crate) fn fetch<T: Store>(
        &mut self,
        alloc: Global,
        store: &mut T,
        key: BlockKey,
        documents: &Documents,
    ) -> Result<Block, SegFault>
        requires { key.place + key.length < 2 ^ 64 }
        ensures exact { (f : Files) → T.files store.old ≡ Some f → IsCacheBacked (Some f) self.old → IfOk result (IsBlockIn f key) }

        // It fits the segment that was put in its file, if these are the documents of that.
        ensures fits { (docs : List Document) → HasSegment (T.files store.old) key.number docs → documents.now ≡ map entry_of docs → IsCacheBacked (T.files store.old) self.old → IfOk result (FitBlock documents.now key.range) }

        ensures fault { (f : Files) → T.files store.old ≡ Some f → IfErr result (IsBlockFault f key documents.now) }
        ensures origin { IfOk result (CameFrom (T.files store.old) self.old documents.now key) }
        ensures cache { CacheKeeps (T.files store.old) (λ e. (e.0 ≡ key) × FitBlock documents.now e.0.range e.1) self.old self.new }
        ensures undamaged { OnOk result (self.new.damage ≡ self.old.damage) }
        ensures damaged { IfErr result (TellsDamage self.old.damage self.new.damage) }
        ensures quiet { IsQuiet T.files T.layers T.clock T.since T.longest T.held store.old store.new }
        ensures later { T.faults store.old ≤ T.faults store.new }
        ensures store { result ≡ Err SegFault.Store → Rose (T.faults store.old) (T.faults store.new) }
        ensures none { result ≢ Err SegFault.Store → T.faults store.new ≡ T.faults store.old }
    {
        if let Some(block) = kept_at(&mut self.kept, key)? {
            return Ok(block);
        }
        let block = self.read(alloc, store, key, documents)?;
        if let Ok(shared) = block.share() {
            keep(&mut self.kept, key, shared);
        }
        Ok(block)
    }

    /// The same of a block that is asked for once: where it has to be read, it isn't kept.
    pub(crate) fn once<T: Store>(
        &mut self,
        alloc: Global,
        store: &mut T,
        key: BlockKey,
        documents: &Documents,
    ) -> Result<Block, SegFault>
        requires { key.place + key.length < 2 ^ 64 }
        ensures exact { (f : Files) → T.files store.old ≡ Some f → IsCacheBacked (Some f) self.old → IfOk result (IsBlockIn f key) }
        ensures fits { (docs : List Document) → HasSegment (T.files store.old) key.number docs → documents.now ≡ map entry_of docs → IsCacheBacked (T.files store.old) self.old → IfOk result (FitBlock documents.now key.range) }
        ensures fault { (f : Files) → T.files store.old ≡ Some f → IfErr result (IsBlockFault f key documents.now) }
        ensures origin { IfOk result (CameFrom (T.files store.old) self.old documents.now key) }
        ensures cache { AllKept self.old self.new }
        ensures undamaged { OnOk result (self.new.damage ≡ self.old.damage) }
        ensures damaged { IfErr result (TellsDamage self.old.damage self.new.damage) }
        ensures quiet { IsQuiet T.files T.layers T.clock T.since T.longest T.held store.old store.new }
        ensures later { T.faults store.old ≤ T.faults store.new }
        ensures store { result ≡ Err SegFault.Store → Rose (T.faults store.old) (T.faults store.new) }
        ensures none { result ≢ Err SegFault.Store → T.faults store.new ≡ T.faults store.old }
    {
        if let Some(block) = kept_at(&mut self.kept, key)? {
            return Ok(block);
        }
        self.read(alloc, store, key, documents)
    }

    /// The block of this key as its file has it, of a segment with these documents. It isn't kept, and damage is noted.
    fn read<T: Store>(
        &mut self,
        alloc: Global,
        store: &mut T,
        key: BlockKey,
        documents: &Documents,
    ) -> Result<Block, SegFault>
        requires { key.place + key.length < 2 ^ 64 }
        ensures exact { (f : Files) → T.files store.old ≡ Some f → IfOk result (IsBlockIn f key) }
        ensures fits { IfOk result (FitBlock documents.now key.range) }
        ensures fault { (f : Files) → T.files store.old ≡ Some f → IfErr result (IsBlockFault f key documents.now) }
        ensures same { self.new.kept ≡ self.old.kept }
        ensures undamaged { OnOk result (self.new.damage ≡ self.old.damage) }
        ensures damaged { IfErr result (TellsDamage self.old.damage self.new.damage) }
        ensures quiet { IsQuiet T.files T.layers T.clock T.since T.longest T.held store.old store.new }
        ensures later { T.faults store.old ≤ T.faults store.new }
        ensures store { result ≡ Err SegFault.Store → Rose (T.faults store.old) (T.faults store.new) }
        ensures none { result ≢ Err SegFault.Store → T.faults store.new ≡ T.faults store.old }
    {
        match read_block(alloc, store, key, documents) {
            Ok(block) => Ok(block),
            Err(fault) => Err(self.noted(fault)),
        }
    }

    /// The fault, noted where it is damage.
    pub(crate) fn noted(&mut self, fault: SegFault) -> SegFault
        ensures same { result ≡ fault }
        ensures kept { self.new.kept ≡ self.old.kept }
        ensures damage { TellsDamage self.old.damage self.new.damage fault }
    {
        match fault {
            SegFault::Malformed { file, part, place } => {
                self.damage = Some(SegFault::Malformed { file, part, place });
                SegFault::Malformed { file, part, place }
            }
            SegFault::Missing { file } => {
                self.damage = Some(SegFault::Missing { file });
                SegFault::Missing { file }
            }
            SegFault::Store => SegFault::Store,
            SegFault::Memory => SegFault::Memory,
        }
    }
}

/// The block of this key, where it is kept.
fn kept_at(kept: &mut LruCache<BlockKey, Block>, key: BlockKey) -> Result<Option<Block>, NoMemory>
    ensures stay { AllIn kept.old.entries kept.new.entries }
    ensures found { IfOk result (λ found. IfSome found (λ b. Contains kept.old.entries (key, b))) }
{
    match kept.get(&key) {
        Some(block) => shared(block),
        None => Ok(None),
    }
}

fn shared(block: &Block) -> Result<Option<Block>, NoMemory>
    ensures { IfOk result (λ b. b ≡ Some block.now) }
{
    Ok(Some(block.share()?))
}

/// Keeps the block, where memory allows it.
fn keep(kept: &mut LruCache<BlockKey, Block>, key: BlockKey, block: Block)
    ensures { (e : BlockKey × List BlockEntry) → Contains kept.new.entries e → Contains kept.old.entries e ⊎ (e ≡ (key, block)) }
{
    let _ = kept.put(key, block);
}
