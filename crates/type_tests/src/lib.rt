//! The tests of the types of programs: what no public clause says.
//!
//! Each module is about one subject.
#![tactic(auto)]

#[cfg(test)]
mod checked_texts;
#[cfg(test)]
mod heads;
#[cfg(test)]
mod hosts;
#[cfg(test)]
mod refused_declarations;
#[cfg(test)]
mod refused_in_functions;
#[cfg(test)]
mod refused_in_main;
#[cfg(test)]
mod type_limits;
#[cfg(test)]
mod typed_programs;
#[cfg(test)]
mod typing;
