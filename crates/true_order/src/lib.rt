//! What the order of a printed ranking tells of the beliefs behind it.
#![tactic(auto)]

mod laws;

pub use laws::order_is_true;
