ghost use Rattle.std.specs.Prelude.{◌≡◌};
ghost use Rattle.command_words.specs.Arguments as spec;

/// An option of a command.
#[derive(Clone, Copy)]
pub(crate) enum Flag {
    /// How many workers add.
    Workers,
    /// How many turns the loops may take.
    Turns,
    /// How many words may be held.
    Words,
    /// The one set that is put out.
    Only,
}

/// The option's name, without its two minuses.
pub(crate) fn name_of(flag: Flag) -> &'static str
    ensures { result.now ≡ spec.name_of flag }
{
    match flag {
        Flag::Workers => "workers",
        Flag::Turns => "turns",
        Flag::Words => "words",
        Flag::Only => "only",
    }
}

/// The option of a name, its two minuses included.
#[tactic(auto, unfolding(crate::specs::Arguments::flag_named))]
pub(crate) fn flag_named(name: &str) -> Option<Flag>
    ensures { result ≡ spec.flag_named name.now }
{
    if name == "--workers" {
        Some(Flag::Workers)
    } else if name == "--turns" {
        Some(Flag::Turns)
    } else if name == "--words" {
        Some(Flag::Words)
    } else if name == "--only" {
        Some(Flag::Only)
    } else {
        None
    }
}

/// Whether the two are one option.
pub(crate) fn is_flag(flag: Flag, other: Flag) -> bool
    ensures { result ≡ spec.is_flag flag other }
{
    name_of(flag) == name_of(other)
}
