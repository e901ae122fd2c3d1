//! Smoothing rules: the belief that a leaf of a query gives to a document or a part of one, as an exact fraction.
#![tactic(auto)]

mod dirichlet;
mod laws;
mod rule;

pub use dirichlet::dirichlet_fraction;
pub use laws::{dirichlet_rises, dirichlet_sizes};
pub use rule::{MAX_MU, Rule, RuleKind};
