//! The manifest of a repository, and the rows of a prior: each value in one spelling.
#![tactic(auto)]

mod entries;
mod manifest;
mod prior;
mod prior_reading;
mod prior_writing;
mod reading;
mod writing;

pub use manifest::{Manifest, PriorEntry, SegEntry};
pub use prior::PriorRows;
pub use prior_reading::read_prior;
pub use prior_writing::prior_bytes;
pub use reading::read_manifest;
pub use writing::{listing_bytes, manifest_bytes};
