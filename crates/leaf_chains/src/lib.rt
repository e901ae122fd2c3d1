//! The logarithms of the beliefs of a candidate's leaves, all of one level.
#![tactic(auto)]

mod chains;

pub use chains::{digits_all, extend_all, start_all};
