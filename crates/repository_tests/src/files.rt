// The files of repositories, written out by hand.
use std::alloc::{AllocError, Global};
use store_ends::Store;

/// Segment 1 of two documents, none of them marked. The next file has number 2.
pub const ONE: &[u8] =
    b"indriman\x01\0\0\0\x02\0\0\0\0\0\0\0\x01\0\0\0\x01\0\0\0\0\0\0\0\x02\0\0\0\0\0\0\0\0\0\0\0\0\0\0\0\0";

/// The same with a mark for document 0.
pub const MARKED: &[u8] =
    b"indriman\x01\0\0\0\x02\0\0\0\0\0\0\0\x01\0\0\0\x01\0\0\0\0\0\0\0\x02\0\0\0\x01\0\0\0\0\0\0\0\0\0\0\0\0\0\0\0\0";

/// The same with the prior `home`, whose file has number 2. The next file has number 3.
pub const HOME: &[u8] =
    b"indriman\x01\0\0\0\x03\0\0\0\0\0\0\0\x01\0\0\0\x01\0\0\0\0\0\0\0\x02\0\0\0\x01\0\0\0\0\0\0\0\0\0\0\0\0\0\0\0\x01\x04home\x02\0\0\0\0\0\0\0";

/// The prior has the file 3, and the file 2 is stale. The next file has number 4.
pub const STALE: &[u8] =
    b"indriman\x01\0\0\0\x04\0\0\0\0\0\0\0\x01\0\0\0\x01\0\0\0\0\0\0\0\x02\0\0\0\x01\0\0\0\0\0\0\0\x01\0\0\0\0\0\0\0\x02\0\0\0\0\0\0\0\x01\x04home\x03\0\0\0\0\0\0\0";

/// The same without the stale file.
pub const SWEPT: &[u8] =
    b"indriman\x01\0\0\0\x04\0\0\0\0\0\0\0\x01\0\0\0\x01\0\0\0\0\0\0\0\x02\0\0\0\x01\0\0\0\0\0\0\0\0\0\0\0\0\0\0\0\x01\x04home\x03\0\0\0\0\0\0\0";

/// Segment 5 of two documents stands in the place of the segments 1 and 4, which are stale. The next file has number 6.
pub const MERGED: &[u8] =
    b"indriman\x01\0\0\0\x06\0\0\0\0\0\0\0\x01\0\0\0\x05\0\0\0\0\0\0\0\x02\0\0\0\0\0\0\0\x02\0\0\0\0\0\0\0\x01\0\0\0\0\0\0\0\x04\0\0\0\0\0\0\0\x01\x04home\x03\0\0\0\0\0\0\0";

/// The same without the stale files.
pub const MERGED_ALONE: &[u8] =
    b"indriman\x01\0\0\0\x06\0\0\0\0\0\0\0\x01\0\0\0\x05\0\0\0\0\0\0\0\x02\0\0\0\0\0\0\0\0\0\0\0\0\0\0\0\x01\x04home\x03\0\0\0\0\0\0\0";

/// Nothing is listed, and the next file has the greatest number.
pub const AT_END: &[u8] =
    b"indriman\x01\0\0\0\xff\xff\xff\xff\xff\xff\xff\xff\0\0\0\0\0\0\0\0\0\0\0\0\0";

/// Segment 1 of two documents, none of them marked, and the prior `home` with the file 2. The next file has the greatest number.
pub const ENDED: &[u8] =
    b"indriman\x01\0\0\0\xff\xff\xff\xff\xff\xff\xff\xff\x01\0\0\0\x01\0\0\0\0\0\0\0\x02\0\0\0\0\0\0\0\0\0\0\0\0\0\0\0\x01\x04home\x02\0\0\0\0\0\0\0";

/// `d1` with the tokens `a b`, and `d2` with the token `a`.
pub const SEGMENT: &[u8] =
    b"indriseg\x01\0\0\0\x02\0\0\0\x03\0\0\0\0\0\0\0\x02\0\0\0\0\0\0\0\x40\0\0\0\0\0\0\0\x52\0\0\0\0\0\0\0\x7e\0\0\0\0\0\0\0\x9b\0\0\0\0\0\0\0\x02d1\x02\0\0\0\0\0\x02d2\x01\0\0\0\0\0\x01a\x01\0\0\0\0\0\0\0\x7e\0\0\0\0\0\0\0\x13\0\0\0\x01b\x01\0\0\0\0\0\0\0\x91\0\0\0\0\0\0\0\x0a\0\0\0\x02\0\x01\0\0\0\0\0\0\0\x01\x01\0\0\0\0\0\0\0\x01\0\x01\0\0\0\x01\0\0\0";

/// `d2` with the token `a`, and `d1` with the token `a`.
pub const TURNED: &[u8] =
    b"indriseg\x01\0\0\0\x02\0\0\0\x02\0\0\0\0\0\0\0\x01\0\0\0\0\0\0\0\x40\0\0\0\0\0\0\0\x52\0\0\0\0\0\0\0\x68\0\0\0\0\0\0\0\x7b\0\0\0\0\0\0\0\x02d2\x01\0\0\0\0\0\x02d1\x01\0\0\0\0\0\x01a\x01\0\0\0\0\0\0\0\x68\0\0\0\0\0\0\0\x13\0\0\0\x02\0\x01\0\0\0\0\0\0\0\x01\x01\0\0\0\0\0\0\0";

/// One row: `d1` has 1 / 2.
pub const HALF: &[u8] = b"indripri\0\x01\0\0\0\x02d1\x01\0\0\0\0\0\0\0\x02\0\0\0\0\0\0\0";

/// One row: `d1` has 1 / 3.
pub const THIRD: &[u8] = b"indripri\0\x01\0\0\0\x02d1\x01\0\0\0\0\0\0\0\x03\0\0\0\0\0\0\0";

pub const MANIFEST: &str = "manifest";

pub const FIRST: &str = "seg-0000000000000001";

pub const SECOND: &str = "seg-0000000000000002";

pub const FOURTH: &str = "seg-0000000000000004";

pub const FIFTH: &str = "seg-0000000000000005";

pub const PRIOR_TWO: &str = "pri-0000000000000002";

pub const PRIOR_THREE: &str = "pri-0000000000000003";

/// A name and a content. Where there is no file it has no bytes.
pub type File = (&'static str, &'static [u8]);

fn file_of(alloc: Global, file: &File) -> Result<(Vec<u8>, Vec<u8>), AllocError> {
    let (name, bytes) = file;
    Ok((name.as_bytes().to_vec(alloc)?, bytes.to_vec(alloc)?))
}

/// The files that a store in memory is made of.
pub fn files_of(alloc: Global, files: &[File]) -> Result<Vec<(Vec<u8>, Vec<u8>)>, AllocError> {
    let mut kept = Vec::new(alloc);
    for file in files {
        kept.push(file_of(alloc, file)?)?;
    }
    Ok(kept)
}

fn is_left<S: Store>(store: &mut S, name: &str, wanted: &[u8]) -> bool {
    if name.len() > 30 {
        return false;
    }
    let mut bytes = [0; 160];
    match store.read_at(name, 0, &mut bytes) {
        Ok(count) => &bytes[..count] == wanted,
        Err(_) => false,
    }
}

/// Whether each of these files has its bytes.
pub fn are_left<S: Store>(store: &mut S, files: &[File]) -> bool {
    for (name, bytes) in files {
        if !is_left(store, name, bytes) {
            return false;
        }
    }
    true
}

fn put<S: Store>(store: &mut S, file: &File) -> bool {
    let (name, bytes) = file;
    name.len() <= 30 && store.put(name, bytes).is_ok()
}

/// Puts these files into a store.
pub fn put_all<S: Store>(store: &mut S, files: &[File]) -> bool {
    for file in files {
        if !put(store, file) {
            return false;
        }
    }
    true
}
