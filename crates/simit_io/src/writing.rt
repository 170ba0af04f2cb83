ghost use Rattle.std.specs.Prelude.{◌≡◌, ◌≤◌, ℕ, List, [], ◌++◌, Option, OnOk, OnErr};
ghost use Rattle.simit_io.specs.Inputs.{Rose};
ghost use Rattle.simit_io.specs.Sink.{Puts, PutsPrefix};

use crate::{Failed, Sink};

/// Puts all bytes, in as many pieces as the sink makes of them. Where that fails, a prefix of them was put.
pub fn put_all<O: Sink>(sink: &mut O, bytes: &[u8]) -> Result<(), Failed>
    ensures whole { OnOk result (Puts (O.written sink.old) (O.written sink.new) bytes.now) }
    ensures prefix { OnErr result (PutsPrefix (O.written sink.old) (O.written sink.new) bytes.now) }
    ensures failed { OnErr result (Rose (O.faults sink.old) (O.faults sink.new)) }
    ensures counted { O.faults sink.old ≤ O.faults sink.new }
{
    let mut rest = bytes;
    while !rest.is_empty() {
        let size = sink.put(rest)?;
        rest = &rest[size..];
    }
    Ok(())
}

/// What a caller that puts piece by piece needs to know: it has the clauses by calling this, which does nothing.
pub fn putting_law()
    // Where nothing was put yet.
    ensures nothing { (old : Option (List ℕ)) → Puts old old [] }

    // Two pieces that are put one after the other are one piece.
    ensures appended { (old mid new : Option (List ℕ)) (first second : List ℕ)
        → Puts old mid first → Puts mid new second → Puts old new (first ++ second) }

    // A prefix of a piece, put after what comes before that piece, is a prefix of all.
    ensures prefix { (old mid new : Option (List ℕ)) (first second rest all : List ℕ)
        → Puts old mid first → PutsPrefix mid new second → all ≡ first ++ second ++ rest → PutsPrefix old new all }

    // A fault since a later moment is a fault since an earlier one.
    ensures fault { (before mid now : ℕ) → before ≤ mid → Rose mid now → Rose before now }
{}
