//! Host functions: functions of words that a program may call by name, and whose code the caller of the run brings.
//!
//! A type that implements `HostMeaning` brings the code of all functions, by their numbers, and with it what they answer.
//! A table says under which names, and with how many arguments, a program calls them.
#![tactic(auto)]

mod function;
mod meaning;
mod table;

pub use function::HostFn;
pub use meaning::HostMeaning;
pub use table::{HostName, HostTable};
