// Snapshots of these documents.
use crate::documents::{doc, docno, is_dead};
use disk_index::{BlockCache, Snapshot};
use holdings::Limits;
use repository::{Repository, create};
use std::alloc::Global;
use std::num::NonZeroUsize;
use store_ends::{MemStore, StoreFail};

/// Documents from a number on, in parts of so many. Those below another number are in files, and those from there on in memory.
#[derive(Clone, Copy)]
pub struct Documents {
    pub part: u32,
    pub first: u32,
    pub in_files: u32,
    pub all: u32,
}

/// What a test opens: a snapshot with the store and the cache that it is read by.
#[derive(Drop)]
pub struct Opened {
    pub snapshot: Snapshot,
    pub store: MemStore,
    pub cache: BlockCache,
}

/// A repository of no documents, with at most so many documents a part.
fn made(alloc: Global, store: &mut MemStore, part: u32) -> Option<Repository> {
    if create(alloc, store).is_err() || part < 1 || part > 1000 {
        return None;
    }
    let limits = Limits {
        part_docs: part,
        held_docs: 2000,
        held_tokens: 200_000,
    };
    Repository::open(alloc, store, limits).ok()?
}

fn add(alloc: Global, repository: &mut Repository, number: u32) -> bool {
    if !repository.usable() {
        return false;
    }
    match doc(alloc, number) {
        Some(doc) => repository.add(alloc, &doc).is_ok(),
        None => false,
    }
}

fn delete(alloc: Global, repository: &mut Repository, number: u32) -> bool {
    if !repository.usable() {
        return false;
    }
    match docno(alloc, number) {
        Some(docno) => repository.delete(&docno).is_ok(),
        None => false,
    }
}

fn flush(alloc: Global, store: &mut MemStore, repository: &mut Repository) -> bool {
    repository.usable() && repository.flush(alloc, store).is_ok()
}

/// Adds the documents with these numbers.
fn add_all(alloc: Global, repository: &mut Repository, from: u32, to: u32) -> bool {
    for number in from..to {
        if !add(alloc, repository, number) {
            return false;
        }
    }
    true
}

fn delete_dead(alloc: Global, repository: &mut Repository, from: u32, to: u32) -> bool {
    for number in from..to {
        if is_dead(number) && !delete(alloc, repository, number) {
            return false;
        }
    }
    true
}

fn snapshot(alloc: Global, repository: &mut Repository) -> Option<Snapshot> {
    if !repository.usable() {
        return None;
    }
    repository.snapshot(alloc).ok()
}

/// Whether the documents are added, written where they are to be, and the dead ones deleted.
fn fill(
    alloc: Global,
    store: &mut MemStore,
    repository: &mut Repository,
    documents: Documents,
) -> bool {
    add_all(alloc, repository, documents.first, documents.in_files)
        && flush(alloc, store, repository)
        && add_all(alloc, repository, documents.in_files, documents.all)
        && delete_dead(alloc, repository, documents.first, documents.all)
}

fn snapshot_of(alloc: Global, store: &mut MemStore, documents: Documents) -> Option<Snapshot> {
    let mut repository = made(alloc, store, documents.part)?;
    if fill(alloc, store, &mut repository, documents) {
        snapshot(alloc, &mut repository)
    } else {
        None
    }
}

/// Nothing is kept, and there is room for so many blocks.
pub fn cache_of(alloc: Global, slots: usize) -> Option<BlockCache> {
    BlockCache::new(alloc, NonZeroUsize::new(slots)?).ok()
}

/// A snapshot of the live documents. In its store these calls fail.
pub fn open(alloc: Global, documents: Documents, fails: Vec<StoreFail>) -> Option<Opened> {
    let mut store = MemStore::new(alloc, Vec::new(alloc), fails);
    let snapshot = snapshot_of(alloc, &mut store, documents)?;
    let cache = cache_of(alloc, 1)?;
    Some(Opened {
        snapshot,
        store,
        cache,
    })
}

/// The same snapshot once more.
pub fn shared(alloc: Global, snapshot: &Snapshot) -> Option<Snapshot> {
    Snapshot::of(alloc, snapshot.parts()).ok()
}
