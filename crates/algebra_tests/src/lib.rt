//! The tests of the calls that ask what the run of a typed program takes, and of those between its sets and tables: what no
//! public clause says.
//!
//! Each module is about one subject.
#![tactic(auto)]

#[cfg(test)]
mod dense;
#[cfg(test)]
mod fields;
#[cfg(test)]
mod graphs;
#[cfg(test)]
mod typing;
