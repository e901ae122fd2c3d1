//! The extents of an expression in a document as a list, by the lists of its arguments: its one list, and what is counted of it.
#![tactic(auto)]

mod band;
mod ends;
mod evaluation;
mod laws;
mod nearest;
mod ordered;
mod union;
mod unordered;

pub use evaluation::extents;
pub use laws::extents_have_one_list;
