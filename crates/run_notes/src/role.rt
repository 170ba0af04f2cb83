//! Which file of a command.

ghost use Rattle.std.specs.Prelude.{◌≡◌};
ghost use Rattle.run_notes.specs.Limits.{limit_of};

use vocabulary::limits::{MOST_PROGRAM_BYTES, MOST_TABLE_BYTES};

/// What a file is for: the program's text, or the table of a set, by the set's number.
#[derive(Clone, Copy, Debug, PartialEq, Eq)]
pub enum FileRole {
    Program,
    Table(u32),
}

/// The most bytes that a file may have.
pub fn limit_of(role: FileRole) -> u32
    ensures { result ≡ limit_of role }
{
    match role {
        FileRole::Program => MOST_PROGRAM_BYTES,
        FileRole::Table(_) => MOST_TABLE_BYTES,
    }
}
