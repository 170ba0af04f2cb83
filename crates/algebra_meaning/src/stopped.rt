//! Why a call has no value.

ghost use Rattle.std.specs.Prelude.{◌≡◌, Result, Ok, Err};

use ring_words::TrapKind;
use vocabulary::NoMemory;

/// Why there is no value: what the meaning says in its place, or out of memory.
#[derive(Clone, Copy, Debug, PartialEq, Eq)]
pub enum Stopped<E> {
    By(E),
    Memory,
}

impl<E> From<NoMemory> for Stopped<E> {
    ghost use Rattle.std.specs.Prelude.{◌≡◌};
    ghost use Rattle.algebra_meaning.specs.declared.stopped.Stopped.TheVariants.{Memory};

    ghost from_gives = { λ _ stopped. stopped ≡ Memory };

    fn from(_: NoMemory) -> Stopped<E> {
        Stopped::Memory
    }
}

/// The trap of an element of a set to which a function is mapped.
#[derive(Clone, Copy, Debug, PartialEq, Eq)]
pub struct Trapped {
    pub element: u32,
    pub kind: TrapKind,
}

/// Why a run stops before its end.
#[derive(Clone, Copy, Debug, PartialEq, Eq)]
pub enum Stop {
    /// A trap: the line of the statement, the least element that traps where it is a map that does, and the kind.
    Trap {
        line: u32,
        element: Option<u32>,
        kind: TrapKind,
    },
    /// No turn is left where one is due.
    Spent,
}
