//! Parts of a line: what stands before a byte and behind it, and numbers in decimal digits.
#![tactic(auto)]

mod digits;
mod part;

pub use digits::{are_digits, number_to, value_within};
pub use part::split;
