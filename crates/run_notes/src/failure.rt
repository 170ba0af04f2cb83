//! Why the program has no output.

use crate::role::FileRole;
use algebra_meaning::Stop;
use set_tables::TableFault;
use sim_lexer::LexFault;
use type_rules::TypeKind;

/// Why an answer is no output although all was read that it asked for: what is wrong with the words or with a file, or
/// why the run stops. In the order in which it is judged.
#[derive(Clone, Copy, Debug, PartialEq, Eq)]
pub enum Refusal {
    /// The words are no command.
    Words,
    /// The command is none that this program runs yet.
    NotYet,
    /// The file has too many bytes.
    FileLimit(FileRole),
    /// The program's text can't be cut into tokens: the line of the byte that the fault names.
    Lexical { line: u32, fault: LexFault },
    /// The program's tokens derive no tree: the index of the first that can't go on, and its line.
    Syntax { line: u32, token: u32 },
    /// The index expression of this line, the first of the program that isn't, is not in chain form.
    NotAChain { line: u32 },
    /// A node of this line has no type.
    IllTyped { line: u32, kind: TypeKind },
    /// The program has no set of the name to which the output is limited.
    NoSuchSet,
    /// There are so many tables for another number of sets.
    FileCount { files: usize, sets: usize },
    /// The table of the set of this number states no set.
    Table { set: u32, fault: TableFault },
    /// The dense matrices of the run take too many words.
    DenseWords,
    /// The run stops before its end.
    Stopped(Stop),
}

/// Why there is no output.
#[derive(Clone, Copy, Debug, PartialEq, Eq)]
pub enum Failure {
    /// Out of memory.
    Memory,
    /// The file can't be read.
    ReadFault(FileRole),
    /// The words or a file are refused, or the run stops.
    Refused(Refusal),
}
