// Files that are written again of what is read of them.
use crate::documents::segment_of;
use crate::faults::Kind;
use manifest::{manifest_bytes, prior_bytes, read_manifest, read_prior};
use ri_base::{Bytes, FileName};
use seg_codec::read_segment;
use std::alloc::Global;

fn has_bytes(written: Option<Bytes>, bytes: &[u8]) -> bool {
    match written {
        Some(written) => written.as_slice() == bytes,
        None => false,
    }
}

fn manifest_of(alloc: Global, bytes: &[u8]) -> Option<Bytes> {
    let manifest = read_manifest(alloc, bytes).ok()?;
    manifest_bytes(alloc, &manifest).ok()
}

fn prior_of(alloc: Global, bytes: &[u8]) -> Option<Bytes> {
    let rows = read_prior(alloc, bytes, 7).ok()?;
    prior_bytes(alloc, &rows).ok()
}

fn segment_again(alloc: Global, bytes: &[u8]) -> Option<Bytes> {
    let documents = read_segment(alloc, bytes, FileName::Segment(1)).ok()?;
    segment_of(alloc, documents.as_slice())
}

/// Whether the file is that of what is read of it.
pub fn is_written_again(alloc: Global, kind: Kind, bytes: &[u8]) -> bool {
    let written = match kind {
        Kind::Manifest => manifest_of(alloc, bytes),
        Kind::Prior => prior_of(alloc, bytes),
        Kind::Segment => segment_again(alloc, bytes),
    };
    has_bytes(written, bytes)
}
