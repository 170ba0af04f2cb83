//! Which part of a value is named.

ghost use Rattle.std.specs.Prelude.{◌≡◌};
ghost use Rattle.word_stacks.specs.References as spec;

/// The indices after a name, or the arguments of a call: none, where the whole value is named, one or two. Further ones
/// name nothing.
#[derive(Clone, Copy, Debug, PartialEq, Eq)]
pub enum Indices {
    Whole,
    One(u64),
    Two(u64, u64),
}

impl Indices {
    /// These, then another one.
    pub fn with(self, index: u64) -> Indices
        ensures { result ≡ spec.with_index self index }
    {
        match self {
            Indices::Whole => Indices::One(index),
            Indices::One(row) => Indices::Two(row, index),
            Indices::Two(row, column) => Indices::Two(row, column),
        }
    }

    /// The first one; 0 where there is none.
    pub fn first(self) -> u64
        ensures { result ≡ spec.first_index self }
    {
        match self {
            Indices::Whole => 0,
            Indices::One(index) | Indices::Two(index, _) => index,
        }
    }
    /// The second of two; 0 where there are not two.
    pub fn second(self) -> u64
        ensures { result ≡ spec.second_index self }
    {
        match self {
            Indices::Whole | Indices::One(_) => 0,
            Indices::Two(_, column) => column,
        }
    }
}
