//! How often expressions occur in the documents of a snapshot, and in how many of their tokens: two sums, which are kept.
#![tactic(auto)]

mod kept_sum;
mod leaf;
mod lengths;
mod occurrences;
mod presence;
mod sums;

pub use leaf::Counts;
