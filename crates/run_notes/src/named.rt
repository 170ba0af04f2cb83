//! What the words of a command name: files, a set and turns. The note lines tell it.

ghost use Rattle.std.specs.Prelude.{◌≡◌, [], unwrap_or};
ghost use Rattle.run_notes.specs.Named.{name_in, named_by, name_or_none};

use crate::role::FileRole;
use command_words::{DEFAULT_TURNS, Words};
use vocabulary::Text;

/// The name of the table of a set's number; empty where there are too few.
fn table_name(tables: &[Text], number: u32) -> &str
    ensures { result.now ≡ name_in tables.now number }
{
    match tables.get(number as usize) {
        Some(name) => name.as_str(),
        None => "",
    }
}

/// The name of the file of a role among those of a program and its tables.
fn name_among<'a>(program: &'a Text, tables: &'a [Text], role: FileRole) -> &'a str
    ensures { result.now ≡ name_or_none program.now tables.now role }
{
    match role {
        FileRole::Program => program.as_str(),
        FileRole::Table(number) => table_name(tables, number),
    }
}

/// The name of the file of a role; empty where the command names none.
pub fn file_name(words: &Words, role: FileRole) -> &str
    ensures { result.now ≡ (named_by words.now).file role }
{
    match words {
        Words::Run { program, sets, .. }
        | Words::Plan { program, sets, .. }
        | Words::Plain { program, sets, .. } => name_among(program, sets.items(), role),
        Words::Make { .. } => "",
    }
}

/// The name of a set that is asked for, empty where there is none.
fn name_or_empty(only: &Option<Text>) -> &str
    ensures { result.now ≡ unwrap_or only.now [] }
{
    match only {
        Some(name) => name.as_str(),
        None => "",
    }
}

/// The set to which the output is limited; empty where it isn't.
pub fn only_name(words: &Words) -> &str
    ensures { result.now ≡ (named_by words.now).only }
{
    match words {
        Words::Run { only, .. } | Words::Plain { only, .. } => name_or_empty(only),
        Words::Plan { .. } | Words::Make { .. } => "",
    }
}

/// The turns that loops may take; a made job takes the default.
pub fn turns_of(words: &Words) -> u32
    ensures { result ≡ (named_by words.now).turns }
{
    match words {
        Words::Run { turns, .. } | Words::Plain { turns, .. } => *turns,
        Words::Plan { .. } | Words::Make { .. } => DEFAULT_TURNS,
    }
}
