//! Tests of searches in steps and of sums over snapshots, called as their users call them. The program itself does nothing.
#![tactic(auto)]

#[cfg(test)]
mod documents;
#[cfg(test)]
mod failing;
#[cfg(test)]
mod made;
#[cfg(test)]
mod opened;
#[cfg(test)]
mod orders;
#[cfg(test)]
mod queries;
#[cfg(test)]
mod searches;
#[cfg(test)]
mod skipping;
#[cfg(test)]
mod stats;
#[cfg(test)]
mod sums;
#[cfg(test)]
mod work;

fn main() {}
