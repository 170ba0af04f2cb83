//! Words after the first, one by one.
ghost use Rattle.std.specs.Prelude.{◌≡◌, ◌∷◌, [], ◌++◌, Ok, map, string_bytes};
ghost use Rattle.vocabulary.specs.Answers.{Answers};
ghost use Rattle.command_words.specs.Arguments as spec;
ghost use Rattle.command_words.specs.declared.command.WordsFault.TheVariants.{Memory};

use crate::WordsFault;
use crate::flag::Flag;
use crate::given::Given;
use crate::option::{option_word, pushed, text_of, with_value};
use std::alloc::Global;
use vocabulary::L;
use vocabulary::marks::MINUS;

/// Whether the word has two bytes or more and begins with a minus.
fn is_dashed(word: &str) -> bool
    ensures { result ≡ spec.is_dashed word.now }
{
    match word.as_bytes() {
        [first, _, ..] => *first == MINUS,
        _ => false,
    }
}

/// What is given with one positional word more.
fn with_word(alloc: Global, word: &str, given: Given) -> Result<Given, WordsFault>
    ensures { Answers Memory (Ok (spec.with_word word.now given)) result }
{
    let word = text_of(alloc, word)?;
    match pushed(given.positionals, word) {
        Ok(positionals) => Ok(Given {
            positionals,
            ..given
        }),
        Err(fault) => Err(fault),
    }
}

/// What is given with one word more where options have not ended.
#[tactic(auto, unfolding(crate::specs::Arguments::word_before_end))]
fn word_before_end(
    alloc: Global,
    due: Option<Flag>,
    word: &str,
    given: Given,
) -> Result<Given, WordsFault>
    ensures { Answers Memory (spec.word_before_end due word.now given) result }
{
    if let Some(flag) = due {
        if is_dashed(word) {
            return Err(WordsFault::Refused);
        }
        let value = text_of(alloc, word)?;
        return with_value(given, flag, value);
    }
    if word == "--" {
        Ok(Given {
            ended: true,
            ..given
        })
    } else if is_dashed(word) {
        option_word(alloc, word, given)
    } else {
        with_word(alloc, word, given)
    }
}

/// What is given with one word more.
#[tactic(auto, unfolding(crate::specs::Arguments::with_argument))]
fn with_argument(alloc: Global, word: &str, given: Given) -> Result<Given, WordsFault>
    ensures { Answers Memory (spec.with_argument given word.now) result }
{
    if word.is_empty() {
        Err(WordsFault::Refused)
    } else if given.ended {
        with_word(alloc, word, given)
    } else {
        let due = given.due;
        word_before_end(alloc, due, word, given)
    }
}

/// What the words give.
pub(crate) fn arguments(alloc: Global, words: &[String]) -> Result<Given, WordsFault>
    ensures { Answers Memory (spec.arguments (map string_bytes words.now)) result }
{
    let mut given = Given {
        settings: L::empty(alloc),
        due: None,
        ended: false,
        positionals: L::empty(alloc),
    };
    for word in words {
        given = with_argument(alloc, word.as_str(), given)?;
    }
    Ok(given)
}
