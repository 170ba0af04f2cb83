//! A cursor over the tokens of a text, and how lists of parts are read off it.
#![tactic(auto)]

mod cursor;
mod halt;
mod lists;

pub use cursor::Cursor;
pub use halt::Halt;
pub use lists::{each, one_or_two, only, separated, with_first};
