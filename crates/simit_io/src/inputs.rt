ghost use Rattle.std.specs.Prelude.{◌≡◌, ◌⊎◌, ◌≤◌, ℕ, List, Option, IsSome, IsErr, OnOk, OnErr};
ghost use Rattle.std.specs.Io.{ReadsAtMost};
ghost use Rattle.std.specs.Io.KnownBytes.{IsAtEnd, ReadConsumes};
ghost use Rattle.simit_io.specs.Inputs.{Files, Rose, IsMissing, Opens};

use thiserror::Error;

/// A call that failed: the object's count of faults says whether by a fault of its own.
#[derive(Clone, Copy, Debug, PartialEq, Eq, Error)]
#[error("failed")]
pub struct Failed;

/// Named files, of which one at a time is open and read from its start to its end.
/// Before any open, and after one that failed, nothing is left to be read.
pub trait Inputs {
    /// The files, where they are known. No call changes them.
    ghost holds: { Self → Option Files };

    /// The bytes of the open file that are not yet read, where they are known.
    ghost left: { Self → Option (List ℕ) };

    /// How many faults there were.
    ghost faults: { Self → ℕ };

    /// Opens the file of this name in place of the one that was open.
    /// It fails where the file is missing, and that need not count as a fault; else only by a fault.
    fn open(&mut self, name: &str) -> Result<(), Failed>
        ensures same_files { holds self.new ≡ holds self.old }
        ensures opened { OnOk result (Opens (holds self.old) name.now (left self.new)) }
        ensures nothing_left { OnErr result (IsAtEnd (left self.new)) }
        ensures missing { IsMissing (holds self.old) name.now → IsErr result }
        ensures failed { OnErr result (Rose (faults self.old) (faults self.new)
            ⊎ IsMissing (holds self.old) name.now) }
        ensures counted { faults self.old ≤ faults self.new };

    /// Moves the first bytes of what is left to the start of the buffer, and answers how many.
    /// For a buffer that isn't empty it answers 0 exactly where nothing is left. It fails only by a
    /// fault, and then what is left stays.
    fn take(&mut self, buf: &mut [u8]) -> Result<usize, Failed>
        ensures same_files { holds self.new ≡ holds self.old }
        ensures bound { ReadsAtMost result buf.new }
        ensures taken { ReadConsumes (left self.old) (left self.new) result buf.new }
        ensures failed { OnErr result (Rose (faults self.old) (faults self.new)) }
        ensures counted { faults self.old ≤ faults self.new };

    /// What is left is known only where the files are.
    ghost known_left: { (inputs : Self) → IsSome (left inputs) → IsSome (holds inputs) };
}
