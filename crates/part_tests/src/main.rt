//! Tests of parts on disk, called as their users call them. The program itself does nothing.
#![tactic(auto)]

#[cfg(test)]
mod documents;
#[cfg(test)]
mod failing;
#[cfg(test)]
mod places;
#[cfg(test)]
mod segment;

fn main() {}
