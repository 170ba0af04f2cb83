//! Why a call of the program has no output, and the note line that says so, with what the words of its command name.
#![tactic(auto)]

mod failure;
mod named;
mod note;
mod role;

pub use failure::{Failure, Refusal};
pub use named::{file_name, only_name, turns_of};
pub use note::{offset_of, put_memory, put_note, put_usage, put_write_fault};
pub use role::{FileRole, limit_of};
