use crate::flag::Flag;
use vocabulary::{L, Text};

/// An option with its value.
#[derive(Drop)]
pub(crate) struct Setting {
    pub flag: Flag,
    pub value: Text,
}

/// What the words so far have given.
#[derive(Drop)]
pub(crate) struct Given {
    /// The options with their values, in the order given.
    pub settings: L<Setting>,
    /// The option whose value is due.
    pub due: Option<Flag>,
    /// Whether options have ended.
    pub ended: bool,
    /// The positional words.
    pub positionals: L<Text>,
}
