//! First words, and the options of each.
ghost use Rattle.std.specs.Prelude.{◌≡◌};
ghost use Rattle.command_words.specs.Verbs as spec;

use crate::flag::Flag;

/// What the first word asks for.
#[derive(Clone, Copy)]
pub(crate) enum Verb {
    Run,
    Plan,
    Plain,
    Make,
}

/// The first word itself.
pub(crate) fn word_of(verb: Verb) -> &'static str
    ensures { result.now ≡ spec.word_of verb }
{
    match verb {
        Verb::Run => "run",
        Verb::Plan => "plan",
        Verb::Plain => "plain",
        Verb::Make => "make",
    }
}

/// What a first word asks for, if anything.
#[tactic(auto, unfolding(crate::specs::Verbs::verb_named))]
pub(crate) fn verb_named(word: &str) -> Option<Verb>
    ensures { result ≡ spec.verb_named word.now }
{
    if word == "run" {
        Some(Verb::Run)
    } else if word == "plan" {
        Some(Verb::Plan)
    } else if word == "plain" {
        Some(Verb::Plain)
    } else if word == "make" {
        Some(Verb::Make)
    } else {
        None
    }
}

/// Whether the command has the option.
pub(crate) fn has_option(verb: Verb, flag: Flag) -> bool
    ensures { result ≡ spec.has_option verb flag }
{
    match flag {
        Flag::Workers => match verb {
            Verb::Run | Verb::Make => true,
            Verb::Plan | Verb::Plain => false,
        },
        Flag::Turns | Flag::Only => match verb {
            Verb::Run | Verb::Plain => true,
            Verb::Plan | Verb::Make => false,
        },
        Flag::Words => match verb {
            Verb::Run | Verb::Plan => true,
            Verb::Plain | Verb::Make => false,
        },
    }
}
