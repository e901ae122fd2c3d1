//! Tests of the stores, of the front of a source and of ends over std, called as their users call them. The program itself does nothing.
#![tactic(auto)]

#[cfg(test)]
mod calls;
#[cfg(test)]
mod ends;
#[cfg(test)]
mod folder;
#[cfg(test)]
mod fronts;
#[cfg(test)]
mod memory;
#[cfg(test)]
mod pages;

fn main() {}
