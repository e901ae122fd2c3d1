//! A collection of documents that stays in the files of a store.
#![tactic(auto)]

mod across;
mod creation;
mod docno_place;
mod exchange;
mod files;
mod listing;
mod names;
mod numbers;
mod opening;
mod priors;
mod removal;
mod repository;
mod saving;
mod segments;
mod stale;
mod stored;
mod turned;
mod whole_merge;

pub use creation::create;
pub use names::prior_name;
pub use repository::Repository;
pub use turned::{MergeRefusal, Turned};
pub use whole_merge::{merge_around, merge_whole};
