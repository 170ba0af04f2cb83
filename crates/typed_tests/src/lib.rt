//! The tests of the calls that ask a typed program: what no public clause says.
#![tactic(auto)]

#[cfg(test)]
mod typed_calls;
