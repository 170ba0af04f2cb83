//! How a call of the program ends.

/// The statuses, each with the number with which the process ends.
#[derive(Clone, Copy, Debug, PartialEq, Eq)]
pub enum Status {
    /// The output is whole.
    Done,
    /// Out of memory.
    Memory,
    /// The words, the program or a table are refused.
    Refused,
    /// A file can't be read.
    ReadFault,
    /// The output can't be written.
    WriteFault,
    /// The run trapped.
    Trap,
    /// The run spent its turns.
    Spent,
    /// A limit is passed.
    Limit,
}

impl Status {
    ghost use Rattle.std.specs.Prelude.{◌≡◌};
    ghost use Rattle.simit_run.specs.Status.{number_of};

    /// The number with which the process ends.
    pub fn number(&self) -> u8
        ensures { result ≡ number_of self.now }
    {
        match self {
            Status::Done => 0,
            Status::Memory => 1,
            Status::Refused => 2,
            Status::ReadFault => 3,
            Status::WriteFault => 4,
            Status::Trap => 5,
            Status::Spent => 6,
            Status::Limit => 7,
        }
    }
}
