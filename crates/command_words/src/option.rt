//! Words that give options.
ghost use Rattle.std.specs.Prelude.{◌≡◌, ◌∷◌, [], ◌++◌, Ok};
ghost use Rattle.vocabulary.specs.Answers.{Answers};
ghost use Rattle.command_words.specs.Arguments as spec;
ghost use Rattle.command_words.specs.declared.command.WordsFault.TheVariants.{Memory};

use crate::WordsFault;
use crate::flag::{Flag, flag_named, is_flag};
use crate::given::{Given, Setting};
use std::alloc::Global;
use vocabulary::{L, Text};

/// A text of the word.
pub(crate) fn text_of(alloc: Global, word: &str) -> Result<Text, WordsFault>
    ensures { Answers Memory (Ok word.now) result }
{
    match String::from_str(alloc, word) {
        Ok(text) => Ok(Text::of(text)),
        Err(_) => Err(WordsFault::Memory),
    }
}

/// The list with one item more.
pub(crate) fn pushed<T: Drop>(mut list: L<T>, item: T) -> Result<L<T>, WordsFault>
    ensures { Answers Memory (Ok (list ++ item ∷ [])) result }
{
    match list.push(item) {
        Ok(()) => Ok(list),
        Err(_) => Err(WordsFault::Memory),
    }
}

/// Whether the option is among those that were given.
fn is_given(flag: Flag, settings: &[Setting]) -> bool
    ensures { result ≡ spec.is_given flag settings.now }
{
    settings.iter().any(|setting| is_flag(setting.flag, flag))
}

/// What is given with a value of the option, which has none yet.
pub(crate) fn with_value(given: Given, flag: Flag, value: Text) -> Result<Given, WordsFault>
    ensures { Answers Memory (Ok (spec.with_value flag value given)) result }
{
    match pushed(given.settings, Setting { flag, value }) {
        Ok(settings) => Ok(Given {
            settings,
            due: None,
            ..given
        }),
        Err(fault) => Err(fault),
    }
}

/// What is given with an option and its value.
fn option_with(
    alloc: Global,
    flag: Option<Flag>,
    value: &str,
    given: Given,
) -> Result<Given, WordsFault>
    ensures { Answers Memory (spec.option_with flag value.now given) result }
{
    match flag {
        Some(flag) if !is_given(flag, given.settings.items()) && !value.is_empty() => {
            let value = text_of(alloc, value)?;
            with_value(given, flag, value)
        }
        _ => Err(WordsFault::Refused),
    }
}

/// What is given with an option whose value is the next word.
fn option_before(flag: Option<Flag>, given: Given) -> Result<Given, WordsFault>
    ensures { result ≡ spec.option_before flag given }
{
    match flag {
        Some(flag) if !is_given(flag, given.settings.items()) => Ok(Given {
            due: Some(flag),
            ..given
        }),
        _ => Err(WordsFault::Refused),
    }
}

/// What is given with a word `--name=VALUE` or `--name`.
#[tactic(auto, unfolding(crate::specs::Arguments::option_word), using(crate::proofs::Equals::no_equals))]
pub(crate) fn option_word(alloc: Global, word: &str, given: Given) -> Result<Given, WordsFault>
    ensures { Answers Memory (spec.option_word word.now given) result }
{
    match word.split_once('=') {
        Some((name, value)) => option_with(alloc, flag_named(name), value, given),
        None => option_before(flag_named(word), given),
    }
}
