//! Marks of the documents of a part that are dead.
#![tactic(auto)]

mod del_list;

pub use del_list::DelList;
