use thiserror::Error;
use vocabulary::{L, Text};

/// A command with its files and options.
#[derive(Drop)]
pub enum Words {
    /// Runs a program on its sets' tables.
    Run {
        program: Text,
        sets: L<Text>,
        workers: u32,
        turns: u32,
        words: u32,
        only: Option<Text>,
    },
    /// Prints which matrices of a program are stored.
    Plan {
        program: Text,
        sets: L<Text>,
        words: u32,
    },
    /// Runs a program by dense tensors on one thread.
    Plain {
        program: Text,
        sets: L<Text>,
        turns: u32,
        only: Option<Text>,
    },
    /// Makes a job and runs it.
    Make {
        seed: u32,
        n: u32,
        workers: u32,
    },
}

/// Why words state no command.
#[derive(Clone, Copy, Debug, PartialEq, Eq, Error)]
pub enum WordsFault {
    /// They are none of a command.
    #[error("the words are no command")]
    Refused,
    /// Out of memory.
    #[error("out of memory")]
    Memory,
}
