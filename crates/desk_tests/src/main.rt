//! Tests of a desk, called as its users call it. The program itself does nothing.
#![tactic(auto)]

#[cfg(test)]
mod deeds;
#[cfg(test)]
mod events;
#[cfg(test)]
mod exchanged;
#[cfg(test)]
mod files;
#[cfg(test)]
mod lines;
#[cfg(test)]
mod lists;
#[cfg(test)]
mod model;
#[cfg(test)]
mod rows;
#[cfg(test)]
mod session;
#[cfg(test)]
mod stops;

fn main() {}
