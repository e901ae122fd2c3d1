//! Whether two expressions are the same, and a number for a look-up of them.
#![tactic(auto)]

mod hashing;
mod same;

pub use hashing::fingerprint;
pub use same::{same_expr, same_name};
