//! Reads the query language: a text is one tree, or has one kind of fault at one place.
#![tactic(auto)]

mod beliefs;
mod class;
mod cursor;
mod digits;
mod exprs;
mod fault;
mod operator;
mod query;
mod quoted;
mod weights;

pub use fault::{QueryFault, QueryKind};
pub use operator::{Head, Operator};
pub use query::{read_expr, read_query};
pub use query_printer::{print_expr, print_query};
