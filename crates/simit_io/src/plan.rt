ghost use Rattle.std.specs.Prelude.{◌≡◌, ◌≤◌, not, is_ok, if◌then◌else◌};
ghost use Rattle.simit_io.specs.Inputs.{raised};
ghost use Rattle.simit_io.specs.Plan.{is_planned};

use crate::Failed;
use vocabulary::L;

/// One more; a count at the end of its type stands still.
pub fn raise(count: &mut u64)
    ensures more { count.new ≡ raised count.old }
    ensures no_less { count.old ≤ count.new }
{
    *count = count.saturating_add(1);
}

/// Which calls of an object over memory fail, by their numbers, and how many calls and faults there were.
#[derive(Drop)]
pub struct Plan {
    pub fail: L<u64>,
    pub calls: u64,
    pub faults: u64,
}

impl Plan {
    /// The plan of an object that wasn't called yet.
    pub fn new(fail: L<u64>) -> Plan
        ensures fail { result.fail ≡ fail }
        ensures calls { result.calls ≡ 0 }
        ensures faults { result.faults ≡ 0 }
    {
        Plan {
            fail,
            calls: 0,
            faults: 0,
        }
    }

    /// Counts a call. It fails where its number is among those that fail, and that counts as a fault.
    pub fn begin_call(&mut self) -> Result<(), Failed>
        ensures answer { is_ok result ≡ not (is_planned self.old.fail self.old.calls) }
        ensures fail { self.new.fail ≡ self.old.fail }
        ensures calls { self.new.calls ≡ raised self.old.calls }
        ensures faults { self.new.faults
            ≡ (if is_planned self.old.fail self.old.calls then raised self.old.faults else self.old.faults) }
        ensures no_less { self.old.faults ≤ self.new.faults }
    {
        let is_failing = self.fail.items().contains(&self.calls);
        raise(&mut self.calls);
        if is_failing {
            raise(&mut self.faults);
            return Err(Failed);
        }
        Ok(())
    }
}
