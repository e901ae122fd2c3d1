//! The first of a list by keys of which only bounds are known at first.
#![tactic(auto)]

mod combination;
mod contenders;
mod entry;
mod first;
mod laws;
mod leading;
mod likeness;
mod near;
mod runs;
mod threshold;

pub use combination::Combination;
pub use contenders::Contenders;
pub use entry::{Entry, Leaves, Settled, fractions_of, leading_key};
pub use laws::{keys_of_first, offered_in_any_order};
pub use leading::Leading;
