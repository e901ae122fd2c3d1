//! The scoring of one document of any part of a collection: whether it passes the query's filters, the counts of the
//! query's leaves in its windows, and the windows as candidates with their beliefs.
#![tactic(auto)]

mod counters;
mod counts;
mod filters;
mod found;
mod scoring;

pub use counts::count_of;
pub use found::counted;
pub use scoring::{Row, score_document};
