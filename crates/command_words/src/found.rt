//! The commands, by the values that a parse found.
ghost use Rattle.std.specs.Prelude.{◌≡◌, [], Ok, map, option_map, true, unwrap_or};
ghost use Rattle.vocabulary.specs.Answers.{Answers};
ghost use Rattle.command_words.specs.Commands as spec;
ghost use Rattle.command_words.specs.Parsing.{AreValues, positionals_in, takes_number, values_in};
ghost use Rattle.command_words.specs.declared.command.WordsFault.TheVariants.{Memory};
ghost use Rattle.command_words.specs.declared.flag.Flag.TheVariants as flags;

use crate::flag::{Flag, name_of};
use crate::number::{DEFAULT_TURNS, DEFAULT_WORKERS, MOST_HELD_WORDS, number_of};
use crate::option::{pushed, text_of};
use crate::verb::Verb;
use crate::{Words, WordsFault};
use clap::ArgMatches;
use std::alloc::Global;
use vocabulary::{L, Text};

/// The value of an option.
fn value_in<'a>(matches: &ArgMatches<'a>, flag: Flag) -> Option<&'a str>
    ensures { option_map (λ text. text.now) result ≡ values_in matches.now flag }
{
    matches.get_str(name_of(flag))
}

/// The number that is an option's value, or its default.
fn number_in(matches: &ArgMatches<'_>, flag: Flag, default: u32) -> u32
    requires values { AreValues (values_in matches.now) }
    requires number { takes_number flag ≡ true }
    ensures { result ≡ spec.number_or default (values_in matches.now flag) }
{
    match value_in(matches, flag) {
        Some(digits) => number_of(digits),
        None => default,
    }
}

/// How many workers add.
fn workers_in(matches: &ArgMatches<'_>) -> u32
    requires { AreValues (values_in matches.now) }
    ensures { result ≡ spec.workers_in (values_in matches.now) }
{
    number_in(matches, Flag::Workers, DEFAULT_WORKERS)
}

/// How many turns the loops may take.
fn turns_in(matches: &ArgMatches<'_>) -> u32
    requires { AreValues (values_in matches.now) }
    ensures { result ≡ spec.turns_in (values_in matches.now) }
{
    number_in(matches, Flag::Turns, DEFAULT_TURNS)
}

/// How many words may be held.
fn held_words_in(matches: &ArgMatches<'_>) -> u32
    requires { AreValues (values_in matches.now) }
    ensures { result ≡ spec.held_words_in (values_in matches.now) }
{
    number_in(matches, Flag::Words, MOST_HELD_WORDS)
}

/// The one set that is put out, where it is given.
fn only_in(alloc: Global, matches: &ArgMatches<'_>) -> Result<Option<Text>, WordsFault>
    ensures { Answers Memory (Ok (values_in matches.now flags.Only)) result }
{
    match value_in(matches, Flag::Only) {
        Some(set) => {
            let set = text_of(alloc, set)?;
            Ok(Some(set))
        }
        None => Ok(None),
    }
}

/// The positional words, if there are any.
fn positionals_in<'m, 'a>(matches: &'m ArgMatches<'a>) -> Option<&'m [&'a str]>
    ensures { unwrap_or (option_map (λ words. map (λ word. word.now) words.now) result) [] ≡ positionals_in matches.now }
{
    matches.get_strs("positionals")
}

/// Texts of the words.
fn texts_of(alloc: Global, words: &[&str]) -> Result<L<Text>, WordsFault>
    ensures { Answers Memory (Ok (map (λ word. word.now) words.now)) result }
{
    let mut texts = L::empty(alloc);
    for word in words {
        let text = text_of(alloc, *word)?;
        texts = pushed(texts, text)?;
    }
    Ok(texts)
}

/// `run PROGRAM SETS..`
fn run_in(alloc: Global, matches: &ArgMatches<'_>) -> Result<Words, WordsFault>
    requires { AreValues (values_in matches.now) }
    ensures { Answers Memory (spec.run_of (values_in matches.now) (positionals_in matches.now)) result }
{
    match positionals_in(matches) {
        Some([program, sets @ ..]) => {
            let program = text_of(alloc, *program)?;
            let sets = texts_of(alloc, sets)?;
            let only = only_in(alloc, matches)?;
            Ok(Words::Run {
                program,
                sets,
                workers: workers_in(matches),
                turns: turns_in(matches),
                words: held_words_in(matches),
                only,
            })
        }
        _ => Err(WordsFault::Refused),
    }
}

/// `plan PROGRAM SETS..`
fn plan_in(alloc: Global, matches: &ArgMatches<'_>) -> Result<Words, WordsFault>
    requires { AreValues (values_in matches.now) }
    ensures { Answers Memory (spec.plan_of (values_in matches.now) (positionals_in matches.now)) result }
{
    match positionals_in(matches) {
        Some([program, sets @ ..]) => {
            let program = text_of(alloc, *program)?;
            let sets = texts_of(alloc, sets)?;
            Ok(Words::Plan {
                program,
                sets,
                words: held_words_in(matches),
            })
        }
        _ => Err(WordsFault::Refused),
    }
}

/// `plain PROGRAM SETS..`
fn plain_in(alloc: Global, matches: &ArgMatches<'_>) -> Result<Words, WordsFault>
    requires { AreValues (values_in matches.now) }
    ensures { Answers Memory (spec.plain_of (values_in matches.now) (positionals_in matches.now)) result }
{
    match positionals_in(matches) {
        Some([program, sets @ ..]) => {
            let program = text_of(alloc, *program)?;
            let sets = texts_of(alloc, sets)?;
            let only = only_in(alloc, matches)?;
            Ok(Words::Plain {
                program,
                sets,
                turns: turns_in(matches),
                only,
            })
        }
        _ => Err(WordsFault::Refused),
    }
}

/// `make SEED N`
fn make_in(matches: &ArgMatches<'_>) -> Result<Words, WordsFault>
    requires values { AreValues (values_in matches.now) }
    requires numbers { spec.are_job_words (positionals_in matches.now) ≡ true }
    ensures { result ≡ spec.make_of (values_in matches.now) (positionals_in matches.now) }
{
    match positionals_in(matches) {
        Some([seed, points]) => Ok(Words::Make {
            seed: number_of(*seed),
            n: number_of(*points),
            workers: workers_in(matches),
        }),
        _ => Err(WordsFault::Refused),
    }
}

/// The command of a first word, by what the parse found.
pub(crate) fn command_in(
    alloc: Global,
    verb: Verb,
    matches: &ArgMatches<'_>,
) -> Result<Words, WordsFault>
    requires values { AreValues (values_in matches.now) }
    requires positionals { spec.are_positionals verb (positionals_in matches.now) ≡ true }
    ensures { Answers Memory (spec.stated verb (values_in matches.now) (positionals_in matches.now)) result }
{
    match verb {
        Verb::Run => run_in(alloc, matches),
        Verb::Plan => plan_in(alloc, matches),
        Verb::Plain => plain_in(alloc, matches),
        Verb::Make => make_in(matches),
    }
}
