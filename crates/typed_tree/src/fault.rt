//! Why a program isn't typed.

use thiserror::Error;
use type_rules::TypeKind;
use vocabulary::NoMemory;

/// Why a program has no types.
#[derive(Clone, Copy, Debug, PartialEq, Eq, Error)]
pub enum CheckFault {
    /// A node of this line, whose parts have types, has none.
    #[error("line {line}: {kind}")]
    IllTyped { line: u32, kind: TypeKind },
    /// Out of memory.
    #[error("no memory")]
    Memory,
}

impl From<NoMemory> for CheckFault {
    ghost use Rattle.std.specs.Prelude.{◌≡◌};
    ghost use Rattle.typed_tree.specs.declared.fault.CheckFault.TheVariants.{Memory};

    ghost from_gives = { λ _ fault. fault ≡ Memory };

    fn from(_: NoMemory) -> CheckFault {
        CheckFault::Memory
    }
}
