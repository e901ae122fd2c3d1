// Files of several pages in a folder.
ghost use Rattle.std.specs.Prelude.{◌≡◌};
ghost use Rattle.store_ends.specs.declared.limits.TheConstants.{LONGEST_NAME};

use std::alloc::{AllocError, Global};
use std::fs;
use store_ends::{FolderStore, LONGEST_NAME, Store};

const NAME: &str = "a";

/// Bytes of which no two pages begin with the same: so many, from a first one on.
fn numbered(alloc: Global, count: u32, first: u32) -> Result<Vec<u8>, AllocError> {
    let mut bytes = Vec::new(alloc);
    for i in 0..count {
        bytes.push((i.wrapping_add(first) % 251) as u8)?;
    }
    Ok(bytes)
}

/// Places, and how many bytes are read there: inside a page, over its end, a whole page and more, at the end of the file, behind it.
static READS: [(u64, usize); 8] = [
    (0, 10),
    (16_380, 8),
    (16_384, 16_384),
    (3, 16_384),
    (100, 30_000),
    (39_995, 100),
    (40_000, 1),
    (32_768, 10),
];

/// Whether reading there, as much as there is room, answers those of the list.
fn is_read<T: Store>(store: &mut T, bytes: &[u8], at: u64, room: &mut [u8]) -> bool
    requires { T.longest store.old ≡ LONGEST_NAME }
    ensures { T.longest store.new ≡ LONGEST_NAME }
{
    let wanted = bytes.iter().skip(at as usize).take(room.len());
    match store.read_at(NAME, at, room) {
        Ok(count) => room.iter().take(count).eq(wanted),
        Err(_) => false,
    }
}

/// Whether each read answers the bytes of the list.
fn are_read<T: Store>(store: &mut T, bytes: &[u8], room: &mut [u8]) -> bool
    requires { T.longest store.old ≡ LONGEST_NAME }
    ensures { T.longest store.new ≡ LONGEST_NAME }
{
    for (at, count) in &READS {
        let count = room.len().min(*count);
        if !is_read(store, bytes, *at, &mut room[..count]) {
            return false;
        }
    }
    true
}

/// Whether the file is read as these bytes; not so where memory is short.
fn is_kept<T: Store>(alloc: Global, store: &mut T, bytes: &[u8]) -> bool
    requires { T.longest store.old ≡ LONGEST_NAME }
    ensures { T.longest store.new ≡ LONGEST_NAME }
{
    match vec![in alloc; 0u8; 30_000] {
        Ok(mut room) => are_read(store, bytes, &mut room),
        Err(_) => false,
    }
}

/// Whether a file of so many bytes is read as it was put.
fn puts<T: Store>(alloc: Global, store: &mut T, count: u32, first: u32) -> bool
    requires { T.longest store.old ≡ LONGEST_NAME }
    ensures { T.longest store.new ≡ LONGEST_NAME }
{
    match numbered(alloc, count, first) {
        Ok(bytes) => store.put(NAME, &bytes).is_ok() && is_kept(alloc, store, &bytes),
        Err(_) => false,
    }
}

/// The same of a file that is replaced.
fn replaces<T: Store>(alloc: Global, store: &mut T, count: u32, first: u32) -> bool
    requires { T.longest store.old ≡ LONGEST_NAME }
    ensures { T.longest store.new ≡ LONGEST_NAME }
{
    match numbered(alloc, count, first) {
        Ok(bytes) => store.replace(NAME, &bytes).is_ok() && is_kept(alloc, store, &bytes),
        Err(_) => false,
    }
}

/// Whether what was read before a change isn't read behind it. Of the large file no page is kept.
fn are_kept<T: Store>(alloc: Global, store: &mut T) -> bool
    requires { T.longest store.old ≡ LONGEST_NAME }
{
    puts(alloc, store, 40_000, 0)
        && puts(alloc, store, 40_000, 7)
        && replaces(alloc, store, 100, 3)
        && puts(alloc, store, 17_000_000, 0)
}

/// The same in a folder that is there.
fn are_kept_in(rt: &HostRuntime, folder: &str) -> bool {
    match FolderStore::new(rt, folder) {
        Ok(mut store) => are_kept(rt.alloc(), &mut store),
        Err(_) => false,
    }
}

#[test]
fn files_of_pages(rt: HostRuntime) {
    assert!(rt; fs::create_dir(&rt, "pages").is_ok());
    assert!(rt; are_kept_in(&rt, "pages"));
}
