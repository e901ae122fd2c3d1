//! The tables of the ranges of a snapshot's parts.
#![tactic(auto)]

mod asked;
mod begins;
mod begun;
mod needs;
mod part_tables;
mod presence;
mod sections;
mod table;
mod texts;

pub use part_tables::tables;
pub use table::table_of;
