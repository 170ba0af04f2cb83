//! The tests of the calls on cells, sets, tables and files: what no public clause says.
//!
//! Each module is about one subject.
#![tactic(auto)]

#[cfg(test)]
mod cells;
#[cfg(test)]
mod reading;
#[cfg(test)]
mod sets;
#[cfg(test)]
mod tables;
