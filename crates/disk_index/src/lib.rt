//! Parts of the collection that lie in files: what is kept of them, blocks that are read when they are needed, and a part with
//! the store and the cache that it is read by. Parts with their marks, and snapshots of them.
#![tactic(auto)]

mod block;
mod cache;
mod documents;
mod index;
pub mod limits;
mod lookup;
mod marked_part;
mod name;
mod opening;
mod part;
mod presence;
mod ranks;
mod reader;
mod reading;
mod rebuild;
mod snapshot;

pub use block::Block;
pub use cache::{BlockCache, BlockKey};
pub use index::DiskIndex;
pub use marked_part::MarkedPart;
pub use name::{as_text, segment_name, write_hex};
pub use part::Part;
pub use presence::{next_in_memory, term_postings};
pub use reader::PartReader;
pub use reading::{file_length, read_bytes, store_fault};
pub use snapshot::{Snapshot, fits_snapshot};
