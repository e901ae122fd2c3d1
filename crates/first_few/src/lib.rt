//! The first few of all that is offered, one after the other.
#![tactic(auto)]

mod few;

pub use few::FirstFew;
