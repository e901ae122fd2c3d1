//! Tests of repositories, called as their users call them. The program itself does nothing.
#![tactic(auto)]

#[cfg(test)]
mod deeds;
#[cfg(test)]
mod documents;
#[cfg(test)]
mod files;
#[cfg(test)]
mod sessions;
#[cfg(test)]
mod stays;
#[cfg(test)]
mod stops;

fn main() {}
