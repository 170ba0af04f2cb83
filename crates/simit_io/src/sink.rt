ghost use Rattle.std.specs.Prelude.{◌≡◌, ◌<◌, ◌≤◌, ℕ, List, Option, length, take, IfOk, OnErr};
ghost use Rattle.simit_io.specs.Inputs.{Rose};
ghost use Rattle.simit_io.specs.Sink.{Puts};

use crate::Failed;

/// What bytes are put to, piece by piece.
pub trait Sink {
    /// The bytes that are written so far, where they are known.
    ghost written: { Self → Option (List ℕ) };

    /// How many faults there were.
    ghost faults: { Self → ℕ };

    /// Appends the first bytes of a piece and answers how many: at least one, unless the piece is empty.
    /// It fails only by a fault, and then nothing is written.
    fn put(&mut self, bytes: &[u8]) -> Result<usize, Failed>
        ensures bound { IfOk result (λ size. size ≤ length bytes.now) }
        ensures progress { 0 < length bytes.now → IfOk result (λ size. 0 < size) }
        ensures appended { IfOk result (λ size.
            Puts (written self.old) (written self.new) (take size bytes.now)) }
        ensures unchanged { OnErr result (written self.new ≡ written self.old) }
        ensures failed { OnErr result (Rose (faults self.old) (faults self.new)) }
        ensures counted { faults self.old ≤ faults self.new };
}
