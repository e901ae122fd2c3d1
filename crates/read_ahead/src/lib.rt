//! Takes bytes from a source ahead of what is read of them, in whatever pieces the source gives.
#![tactic(auto)]

mod ahead;
mod fault;

pub use ahead::{MOST_AHEAD, ReadAhead};
pub use fault::InputFault;
