//! Which documents of a range of 64 ids may have an extent of an expression, by the terms that they have; how often one of them has a
//! term at most; and the blocks of some terms for such a range, opened once.
#![tactic(auto)]

mod bits;
mod blocks;
mod expression;
mod laws;
mod most;
mod next;
mod opening;
mod opening_reader;
mod opens_ranges;
mod part;
mod query;
mod runs;
mod sealed;
mod term_masks;

pub use bits::has_id;
pub use blocks::RangeBlocks;
pub use expression::expression_mask;
pub use laws::{blocks_stay, extents_may};
pub use next::{next_leaf_range, next_query_range, next_range};
pub use opening_reader::OpeningReader;
pub use opens_ranges::OpensRanges;
pub use query::{leaf_mask, query_mask};
pub use term_masks::TermMasks;
