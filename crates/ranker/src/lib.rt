//! The ranking of documents: the first of all candidates, and their hits. A search over the documents of a snapshot, in steps.
#![tactic(auto)]

mod advance;
mod ahead;
mod bare;
mod bound;
mod documents;
mod entries;
mod held;
mod hits;
mod keys;
mod parts;
mod place;
mod ranges;
mod search;
mod snapshots;
mod spent;
mod terms;
mod unseen;
mod window;

pub use held::Held;
pub use hits::hits_of;
pub use place::{Ahead, Passed, Place};
pub use ranges::end_of;
pub use search::Search;
pub use window::Window;
