//! The extents of an expression in a document, one after the other.
#![tactic(auto)]

mod iterator;
mod listed;
mod outermost;
mod place;
mod reach;
mod shape;
mod walk;

pub use iterator::ExtentIter;
