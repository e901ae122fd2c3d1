//! Bounds of the beliefs of a query's leaves in all windows of all documents of a range of 64 ids, told by counts of the range.
#![tactic(auto)]

mod beliefs;
mod bounds;
mod laws;
mod most;
mod range_counts;
mod table;

pub use laws::{bounds_cover, extents_are_few, keys_of_bounds};
pub use range_counts::RangeCounts;
pub use table::RangeTable;
