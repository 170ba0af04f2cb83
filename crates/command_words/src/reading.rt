ghost use Rattle.std.specs.Prelude.{◌≡◌, IfOk, map, string_bytes};
ghost use Rattle.vocabulary.specs.Answers.{Answers};
ghost use Rattle.command_words.specs.Arguments.{value_of};
ghost use Rattle.command_words.specs.Commands.{stated, words_of};
ghost use Rattle.command_words.specs.Form.{FormLaw};
ghost use Rattle.command_words.specs.Job.{HasPoints};
ghost use Rattle.command_words.specs.Parsing.{IsAccepted};
ghost use Rattle.command_words.specs.declared.command.WordsFault.TheVariants.{Memory};

use crate::argument::arguments;
use crate::found::command_in;
use crate::given::Given;
use crate::judging::judged;
use crate::layout::laid_out;
use crate::parser::command_for;
use crate::verb::Verb;
use crate::{Words, WordsFault};
use clap::error::ErrorKind;
use std::alloc::Global;

/// The command that the words state, or that they are refused. Whatever words give options and positional words, those
/// of one form state the same command: each option with its value as one word, then `--`, then the positional words.
#[tactic(auto, using(crate::proofs::Form::form_law, crate::proofs::Points::of_answer))]
pub fn read(alloc: Global, words: &[String]) -> Result<Words, WordsFault>
    ensures value { Answers Memory (words_of (map string_bytes words.now)) result }
    ensures points { IfOk result HasPoints }
    ensures form { FormLaw }
{
    read_words(alloc, words)
}

/// The command of all words: what is to be refused is refused first.
#[tactic(auto, unfolding(crate::specs::Commands::command_of))]
fn read_words(alloc: Global, words: &[String]) -> Result<Words, WordsFault>
    ensures { Answers Memory (words_of (map string_bytes words.now)) result }
{
    match words {
        [word, words @ ..] => {
            let given = arguments(alloc, words)?;
            let verb = judged(word.as_str(), &given)?;
            parsed(alloc, verb, &given)
        }
        [] => Err(WordsFault::Refused),
    }
}

/// The command that `clap` reads in the one form of what is given, where it takes all of it.
fn parsed(alloc: Global, verb: Verb, given: &Given) -> Result<Words, WordsFault>
    requires { IsAccepted verb given.now }
    ensures { Answers Memory (stated verb (value_of given.now.settings) given.now.positionals) result }
{
    let Ok(form) = laid_out(alloc, verb, given) else {
        return Err(WordsFault::Memory);
    };
    let Ok(command) = command_for(alloc, verb) else {
        return Err(WordsFault::Memory);
    };
    match command.try_get_matches_from(form.as_slice()) {
        Ok(matches) => command_in(alloc, verb, &matches),
        Err(error) => match error.kind() {
            ErrorKind::OutOfMemory => Err(WordsFault::Memory),
            _ => unreachable!(),
        },
    }
}
