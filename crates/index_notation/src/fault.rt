//! Why a program isn't lowered.

use std::alloc::AllocError;
use thiserror::Error;
use vocabulary::NoMemory;

/// Why a program isn't lowered.
#[derive(Clone, Copy, Debug, PartialEq, Eq, Error)]
pub enum LowerFault {
    /// The index expression of this line, the first of the program that isn't, is not in chain form.
    #[error("line {line}: not a chain")]
    NotAChain { line: u32 },
    /// Out of memory.
    #[error("out of memory")]
    Memory,
}

impl From<AllocError> for LowerFault {
    ghost use Rattle.std.specs.Prelude.{◌≡◌};
    ghost use Rattle.index_notation.specs.declared.fault.LowerFault.TheVariants.{Memory};

    ghost from_gives = { λ _ fault. fault ≡ Memory };

    fn from(_: AllocError) -> LowerFault {
        LowerFault::Memory
    }
}

impl From<NoMemory> for LowerFault {
    ghost use Rattle.std.specs.Prelude.{◌≡◌};
    ghost use Rattle.index_notation.specs.declared.fault.LowerFault.TheVariants.{Memory};

    ghost from_gives = { λ _ fault. fault ≡ Memory };

    fn from(_: NoMemory) -> LowerFault {
        LowerFault::Memory
    }
}
