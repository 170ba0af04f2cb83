//! Reads whole files, within the limits that they have.

ghost use Rattle.std.specs.Prelude.{◌≡◌, ◌≤◌, IfOk, length};
ghost use Rattle.simit_io.specs.Inputs.{IsMissing, Rose};
ghost use Rattle.run_notes.specs.Limits.{limit_of};
ghost use Rattle.simit_run.specs.Stage as spec;
ghost use Rattle.simit_run.specs.Shown.{Shows};

use run_notes::{Failure, FileRole, Refusal, limit_of};
use simit_io::{Inputs, ReadAll, read_all};
use std::alloc::Global;

/// The bytes of a file, at most as many as it may have.
pub fn read_file<I: Inputs>(
    alloc: Global,
    inputs: &mut I,
    name: &str,
    role: FileRole,
) -> Result<Vec<u8>, Failure>
    ensures shows { Shows (λ bytes. bytes.items) (I.holds inputs.old) (Rose (I.faults inputs.old) (I.faults inputs.new))
        (spec.file role name.now) result }
    ensures within { IfOk result (λ bytes. length bytes.items ≤ limit_of role) }
    ensures missing { IsMissing (I.holds inputs.old) name.now → result ≡ Err (Failure.ReadFault role) }
    ensures same_files { I.holds inputs.new ≡ I.holds inputs.old }
    ensures counted { I.faults inputs.old ≤ I.faults inputs.new }
{
    match read_all(alloc, inputs, name, limit_of(role)) {
        Ok(bytes) => Ok(bytes),
        Err(ReadAll::Failed) => Err(Failure::ReadFault(role)),
        Err(ReadAll::TooLong) => Err(Failure::Refused(Refusal::FileLimit(role))),
        Err(ReadAll::Memory) => Err(Failure::Memory),
    }
}
