//! What happens in a session, as a value.
#![tactic(auto)]

mod event;

pub use event::{Event, MAX_ADD_BYTES, MAX_RESULTS, MAX_TURN_DOCS};
