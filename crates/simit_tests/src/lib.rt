//! The tests of whole calls of the program over memory: commands, files, limits, and the first programs over points and
//! springs. What no public clause says.
//!
//! Each module is about one subject.
#![tactic(auto)]

#[cfg(test)]
mod commands;
#[cfg(test)]
mod faults;
#[cfg(test)]
mod limits;
#[cfg(test)]
mod programs;
#[cfg(test)]
mod springs;
#[cfg(test)]
mod words;
