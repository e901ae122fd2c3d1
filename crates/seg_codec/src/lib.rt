//! The bytes of a segment, and what is read of its parts.
#![tactic(auto)]

mod blocks;
mod calls;
mod dictionary;
mod documents;
mod header;
mod held;
mod names;
mod ranks;
mod reading;
mod segment;
mod twice;
mod whole;
mod writing;

pub use blocks::{Block, BlockEntry};
pub use calls::{read_block, read_dictionary, read_documents, read_header};
pub use dictionary::{BlockPlace, BlockPlaces, Dictionary, TermBlocks};
pub use documents::{Documents, Entry};
pub use header::Header;
pub use reading::read_segment;
pub use segment::seg_bytes;
