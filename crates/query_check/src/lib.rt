//! Checks a query before any work: its weights, its leaves, its scale and its priors.
#![tactic(auto)]

mod checked;
mod fault;
mod laws;
mod leaf_kind;
mod leaves;
mod multiples;
mod priors;
mod query;
mod scaling;
mod tree;
mod weights;

pub use checked::Checked;
pub use fault::CheckFault;
pub use laws::{common_divisor_is_greatest, common_multiple_is_least};
pub use leaf_kind::LeafKind;
pub use query::check;
pub use tree::Tree;
