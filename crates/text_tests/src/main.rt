//! Tests of the TREC text that is read, of the words and documents that are made of it, and of the
//! words of the command line. The program itself does nothing.
#![tactic(auto)]

#[cfg(test)]
mod command;
#[cfg(test)]
mod documents;
#[cfg(test)]
mod pieces;
#[cfg(test)]
mod reading;
#[cfg(test)]
mod words;

fn main() {}
