//! The first of a list in order, as a function of the list.
#![tactic(auto)]

mod laws;

pub use laws::{front_is_told, front_shows};
