//! Prints queries and expressions as texts of the query language.
#![tactic(auto)]

mod beliefs;
mod exprs;
mod queries;

pub use exprs::print_expr;
pub use queries::{begins_passages, print_query};
