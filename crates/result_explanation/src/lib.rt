//! Why a result has its score: each leaf of the query with its counts, its belief and the extents behind them.
#![tactic(auto)]

mod counted;
mod explanation;
mod leaf;

pub use explanation::explain;
