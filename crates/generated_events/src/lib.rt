//! The events that make a generated collection and ask it.
#![tactic(auto)]

mod documents;
mod generator;
mod sums;

pub use documents::generated;
pub use generator::{Generator, MAX_GENERATED, query_name};
pub use sums::{live_count, live_tokens};
