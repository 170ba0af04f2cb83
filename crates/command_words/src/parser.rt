//! The commands as `clap` has them: one for each first word, with its options and positional words.
ghost use Rattle.std.specs.Prelude.{◌≡◌, IfOk};
ghost use Rattle.clap.specs.Words.{app_of, with_rule};
ghost use Rattle.command_words.specs.Parsing.{app_of_verb, option_rule, positional_rule};
ghost use Rattle.command_words.specs.declared.verb.Verb.TheVariants as verbs;

use crate::flag::{Flag, name_of};
use crate::verb::Verb;
use clap::{Arg, ArgAction, Command};
use std::alloc::{AllocError, Global};

/// The command with one option more.
fn with_option<'a>(
    alloc: Global,
    command: Command<'a>,
    flag: Flag,
) -> Result<Command<'a>, AllocError>
    ensures { IfOk result (λ whole. app_of whole ≡ with_rule (app_of command.entry) (option_rule flag)) }
{
    let name: &'a str = name_of(flag);
    let option = Arg::new(alloc, name).long(name);
    command.arg(option)
}

/// The command with any number of positional words.
fn with_positionals<'a>(alloc: Global, command: Command<'a>) -> Result<Command<'a>, AllocError>
    ensures { IfOk result (λ whole. app_of whole ≡ with_rule (app_of command.entry) positional_rule) }
{
    let positionals = Arg::new(alloc, "positionals").action(ArgAction::Append);
    command.arg(positionals)
}

/// `run PROGRAM SETS..`
fn run_command<'a>(alloc: Global) -> Result<Command<'a>, AllocError>
    ensures { IfOk result (λ command. app_of command ≡ app_of_verb verbs.Run) }
{
    let command = Command::new(alloc, "run");
    let command = with_option(alloc, command, Flag::Workers)?;
    let command = with_option(alloc, command, Flag::Turns)?;
    let command = with_option(alloc, command, Flag::Words)?;
    let command = with_option(alloc, command, Flag::Only)?;
    with_positionals(alloc, command)
}

/// `plan PROGRAM SETS..`
fn plan_command<'a>(alloc: Global) -> Result<Command<'a>, AllocError>
    ensures { IfOk result (λ command. app_of command ≡ app_of_verb verbs.Plan) }
{
    let command = Command::new(alloc, "plan");
    let command = with_option(alloc, command, Flag::Words)?;
    with_positionals(alloc, command)
}

/// `plain PROGRAM SETS..`
fn plain_command<'a>(alloc: Global) -> Result<Command<'a>, AllocError>
    ensures { IfOk result (λ command. app_of command ≡ app_of_verb verbs.Plain) }
{
    let command = Command::new(alloc, "plain");
    let command = with_option(alloc, command, Flag::Turns)?;
    let command = with_option(alloc, command, Flag::Only)?;
    with_positionals(alloc, command)
}

/// `make SEED N`
fn make_command<'a>(alloc: Global) -> Result<Command<'a>, AllocError>
    ensures { IfOk result (λ command. app_of command ≡ app_of_verb verbs.Make) }
{
    let command = Command::new(alloc, "make");
    let command = with_option(alloc, command, Flag::Workers)?;
    with_positionals(alloc, command)
}

/// The command of a first word.
pub(crate) fn command_for<'a>(alloc: Global, verb: Verb) -> Result<Command<'a>, AllocError>
    ensures { IfOk result (λ command. app_of command ≡ app_of_verb verb) }
{
    match verb {
        Verb::Run => run_command(alloc),
        Verb::Plan => plan_command(alloc),
        Verb::Plain => plain_command(alloc),
        Verb::Make => make_command(alloc),
    }
}
