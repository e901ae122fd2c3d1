// The places of words in documents, over a store in memory and over a folder.
use crate::segment::{BYTES, NAME, cache_of, open, store_of};
use disk_index::{BlockCache, DiskIndex};
use ri_base::Term;
use std::alloc::Global;
use std::fs;
use std::test::Fail;
use store_ends::{FolderStore, Store};

/// A word, a document, and the places of the word there.
static PLACES: [(&str, u32, &[u32]); 6] = [
    ("a", 0, &[0]),
    ("a", 1, &[0]),
    ("b", 0, &[1]),
    ("b", 1, &[]),
    ("c", 0, &[]),
    ("a", 0, &[0]),
];

/// Whether a term has these places in a document; nothing where they can't be read.
fn has_places<T: Store>(
    alloc: Global,
    index: &DiskIndex,
    store: &mut T,
    cache: &mut BlockCache,
    term: &Term,
    id: u32,
    wanted: &[u32],
) -> Option<bool> {
    if id >= index.docs() {
        return None;
    }
    let found = index.positions(alloc, store, cache, term, id).ok()?;
    Some(found.as_slice() == wanted)
}

/// Whether all rows are so; nothing where one can't be read.
fn are_places<T: Store>(
    alloc: Global,
    index: &DiskIndex,
    store: &mut T,
    cache: &mut BlockCache,
) -> Option<bool> {
    let mut are_so = true;
    for (word, id, wanted) in &PLACES {
        let term = Term::new(alloc, word.as_bytes()).ok()??;
        are_so &= has_places(alloc, index, store, cache, &term, *id, wanted)?;
    }
    Some(are_so)
}

/// The same of the segment once it is opened, with room for so many blocks.
pub fn are_read<T: Store>(alloc: Global, store: &mut T, slots: usize) -> Option<bool> {
    let index = open(alloc, store).ok()?;
    let mut cache = cache_of(alloc, slots).ok()?;
    are_places(alloc, &index, store, &mut cache)
}

fn are_read_in_memory(alloc: Global, slots: usize) -> Option<bool> {
    let mut store = store_of(alloc, &BYTES, Vec::new(alloc)).ok()?;
    are_read(alloc, &mut store, slots)
}

// A cache of one block, which the other one takes the place of, tells the same as one of many.
#[test]
fn with_one_slot_and_many(rt: HostRuntime) {
    for slots in [1, 2, 1000] {
        assert!(rt;
            are_read_in_memory(rt.alloc(), slots) == Some(true),
            "{slots}"
        );
    }
}

fn put(store: &mut FolderStore<'_, HostRuntime>) -> bool {
    NAME.len() <= 64 && store.put(NAME, &BYTES).is_ok()
}

/// Whether all rows are so once the segment is there. Before it can't be opened.
fn are_read_in(rt: &HostRuntime, path: &str) -> Option<bool> {
    let mut store = FolderStore::new(rt, path).ok()?;
    if are_read(rt.alloc(), &mut store, 2).is_some() || !put(&mut store) {
        return None;
    }
    are_read(rt.alloc(), &mut store, 2)
}

#[test]
fn in_a_folder(rt: HostRuntime) -> Result<(), Fail> {
    fs::create_dir(&rt, "parts")?;
    assert!(rt; are_read_in(&rt, "parts") == Some(true));
    fs::remove_dir_all(&rt, "parts")?;
    Ok(())
}
