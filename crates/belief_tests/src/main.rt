//! Tests of passages, beliefs, priors, logarithms, scores and explained results that were worked out by hand or computed elsewhere. The program itself does nothing.
#![tactic(auto)]

#[cfg(test)]
mod contexts;
#[cfg(test)]
mod dirichlet;
#[cfg(test)]
mod explained;
#[cfg(test)]
mod logarithms;
#[cfg(test)]
mod priors;
#[cfg(test)]
mod scores;

fn main() {}
