// Files of collections, written out by hand.
use std::alloc::Global;
use store_ends::{MemStore, Store, StoreFail};

/// Nothing is listed. The next file has number 1.
pub const NONE: &[u8] = b"indriman\x01\0\0\0\x01\0\0\0\0\0\0\0\0\0\0\0\0\0\0\0\0\0\0\0\0";

/// The prior `home`, whose file has number 1, and nothing else. The next file has number 2.
pub const HOME: &[u8] =
    b"indriman\x01\0\0\0\x02\0\0\0\0\0\0\0\0\0\0\0\0\0\0\0\0\0\0\0\x01\x04home\x01\0\0\0\0\0\0\0";

/// The rows of a prior: `d1` has 1 / 2, and the others have 1 / 4.
pub const ROWS: &[u8] =
    b"indripri\x01\x01\0\0\0\0\0\0\0\x04\0\0\0\0\0\0\0\x01\0\0\0\x02d1\x01\0\0\0\0\0\0\0\x02\0\0\0\0\0\0\0";

/// `d1` with the tokens `b a`, and `d2` with the token `a`.
pub const TURNED: &[u8] =
    b"indriseg\x01\0\0\0\x02\0\0\0\x03\0\0\0\0\0\0\0\x02\0\0\0\0\0\0\0\x40\0\0\0\0\0\0\0\x52\0\0\0\0\0\0\0\x7e\0\0\0\0\0\0\0\x9b\0\0\0\0\0\0\0\x02d1\x02\0\0\0\0\0\x02d2\x01\0\0\0\0\0\x01a\x01\0\0\0\0\0\0\0\x7e\0\0\0\0\0\0\0\x13\0\0\0\x01b\x01\0\0\0\0\0\0\0\x91\0\0\0\0\0\0\0\x0a\0\0\0\x02\0\x01\0\0\0\x01\0\0\0\x01\x01\0\0\0\0\0\0\0\x01\0\x01\0\0\0\0\0\0\0";

pub const MANIFEST: &str = "manifest";

pub const FIRST: &str = "seg-0000000000000001";

pub const PRIOR: &str = "pri-0000000000000001";

/// A name and a content.
pub type File = (&'static str, &'static [u8]);

/// A collection in which nothing is.
pub const EMPTY: &[File] = &[(MANIFEST, NONE)];

/// The same with a prior.
pub const WITH_HOME: &[File] = &[(MANIFEST, HOME), (PRIOR, ROWS)];

/// Puts a file into a store.
pub fn put<S: Store>(store: &mut S, file: &File) -> Option<()> {
    let (name, bytes) = file;
    if name.len() > 30 {
        return None;
    }
    store.put(name, bytes).ok()
}

/// A store in memory with these files, in which these calls fail. Each file is put by a call.
pub fn store_of(alloc: Global, files: &[File], fails: Vec<StoreFail>) -> Option<MemStore> {
    let mut store = MemStore::new(alloc, Vec::new(alloc), fails);
    for file in files {
        put(&mut store, file)?;
    }
    Some(store)
}
