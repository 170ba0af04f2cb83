//! Which command is asked for, and whether it takes all that is given.
ghost use Rattle.std.specs.Prelude.{◌≡◌};
ghost use Rattle.std.specs.List.{list_all};
ghost use Rattle.command_words.specs.Commands as spec;
ghost use Rattle.command_words.specs.Verbs.{is_value};

use crate::WordsFault;
use crate::flag::Flag;
use crate::given::{Given, Setting};
use crate::number::{MOST_HELD_WORDS, MOST_SEED, MOST_TURNS, MOST_WORKERS, is_number_in};
use crate::verb::{Verb, has_option, verb_named};
use job_maker::MOST_POINTS;
use vocabulary::Text;

/// Whether the option takes the value.
fn is_value(flag: Flag, text: &str) -> bool
    ensures { result ≡ is_value flag text.now }
{
    match flag {
        Flag::Workers => is_number_in(1, MOST_WORKERS, text),
        Flag::Turns => is_number_in(0, MOST_TURNS, text),
        Flag::Words => is_number_in(0, MOST_HELD_WORDS, text),
        Flag::Only => true,
    }
}

/// Whether the command takes the option with its value.
fn is_setting(verb: Verb, setting: &Setting) -> bool
    ensures { result ≡ spec.is_setting verb setting.now }
{
    has_option(verb, setting.flag) && is_value(setting.flag, setting.value.as_str())
}

/// Whether the command takes each option with its value.
fn are_settings(verb: Verb, settings: &[Setting]) -> bool
    ensures { result ≡ list_all (spec.is_setting verb) settings.now }
{
    settings.iter().all(|setting| is_setting(verb, setting))
}

/// Whether the words are a seed and a number of points.
fn are_job_words(positionals: &[Text]) -> bool
    ensures { result ≡ spec.are_job_words positionals.now }
{
    match positionals {
        [seed, points] => {
            is_number_in(0, MOST_SEED, seed.as_str())
                && is_number_in(1, MOST_POINTS, points.as_str())
        }
        _ => false,
    }
}

/// Whether the command takes the positional words.
fn are_positionals(verb: Verb, positionals: &[Text]) -> bool
    ensures { result ≡ spec.are_positionals verb positionals.now }
{
    match verb {
        Verb::Run | Verb::Plan | Verb::Plain => !positionals.is_empty(),
        Verb::Make => are_job_words(positionals),
    }
}

/// The command that is asked for, where it takes all that is given.
#[tactic(auto, unfolding(crate::specs::Commands::judged))]
pub(crate) fn judged(word: &str, given: &Given) -> Result<Verb, WordsFault>
    ensures { result ≡ spec.judged word.now given.now }
{
    if given.due.is_some() {
        return Err(WordsFault::Refused);
    }
    match verb_named(word) {
        Some(verb)
            if are_settings(verb, given.settings.items())
                && are_positionals(verb, given.positionals.items()) => { Ok(verb) }
        _ => Err(WordsFault::Refused),
    }
}
