//! The extents of an expression in a document, all at once, one after the other, and as its one list.
#![tactic(auto)]

mod alone;

pub use alone::extents_of;
pub use extent_evaluation::{extents, extents_have_one_list};
pub use extent_walks::ExtentIter;
