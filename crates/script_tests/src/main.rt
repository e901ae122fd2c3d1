//! Tests of what a session script, the lines of docnos and the rows of a prior are read as. The program itself does nothing.
#![tactic(auto)]

#[cfg(test)]
mod adds;
#[cfg(test)]
mod docnos;
#[cfg(test)]
mod lines;
#[cfg(test)]
mod pieces;
#[cfg(test)]
mod priors;
#[cfg(test)]
mod shown;
#[cfg(test)]
mod table;

fn main() {}
