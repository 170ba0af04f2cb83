//! The tests of the runs of models over memory: what programs compute, and how they trap. What no public clause says.
//!
//! Each module is about one subject.
#![tactic(auto)]

#[cfg(test)]
mod blocks;
#[cfg(test)]
mod gradients;
#[cfg(test)]
mod hosts;
#[cfg(test)]
mod loops;
#[cfg(test)]
mod maps;
#[cfg(test)]
mod matrices;
#[cfg(test)]
mod scales;
#[cfg(test)]
mod traps;
