//! The host functions of `simit`: five functions of words, and the table by which programs call them.
#![tactic(auto)]

mod functions;
mod hosts;
mod table;

pub use functions::{clamp0, least, mix, most, square};
pub use hosts::MainHosts;
pub use table::main_hosts;

#[cfg(test)]
mod tests;
