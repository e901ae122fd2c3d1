//! The live documents of a snapshot are copied into new parts, some documents at a time.
#![tactic(auto)]

mod copied;
mod copying;
mod job;
mod marking;
mod merged;

pub use job::MergeJob;
pub use merged::{Merged, MergedPart};
