//! The runner: does what the command words ask for. It reads a program and the tables of its sets, runs the program and puts the
//! tables out.
#![tactic(auto)]

mod answering;
mod choosing;
mod file;
mod front;
mod made_job;
mod output;
mod running;
mod status;
mod tables;
mod top_call;
mod writing;

pub use status::Status;
pub use top_call::run;
