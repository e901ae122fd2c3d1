//! Tests of the files of a repository, called as their users call them. The program itself does nothing.
#![tactic(auto)]

#[cfg(test)]
mod documents;
#[cfg(test)]
mod faults;
#[cfg(test)]
mod manifests;
#[cfg(test)]
mod priors;
#[cfg(test)]
mod sections;
#[cfg(test)]
mod segments;
#[cfg(test)]
mod written;

fn main() {}
