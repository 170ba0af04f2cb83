//! Values that were computed.

ghost use Rattle.std.specs.Prelude.{◌≡◌};
ghost use Rattle.value_algebra.specs.Value.{word_of};
ghost use Rattle.word_stacks.specs.Stack as spec;

/// The size of a value whose words stand on a stack.
#[derive(Clone, Copy, Debug, PartialEq, Eq)]
pub struct Size {
    pub rows: usize,
    pub columns: usize,
}

impl Size {
    /// The size of a number.
    pub const NUMBER: Size = Size {
        rows: 1,
        columns: 1,
    };

    /// Rows and columns exchanged.
    pub(crate) fn exchanged(self) -> Size
        ensures { result ≡ record { rows = self.columns; columns = self.rows } }
    {
        Size {
            rows: self.columns,
            columns: self.rows,
        }
    }
}

/// Where the words of two values stand on a stack, one after the other, and their sizes.
#[derive(Clone, Copy, Debug, PartialEq, Eq)]
pub struct Pair {
    pub left: Size,
    pub right: Size,
    /// Where the words of the first begin.
    pub base: usize,
    /// Where those of the second begin.
    pub middle: usize,
    /// Where they end.
    pub top: usize,
}

/// A value that was computed: a number, or words that stand on the stack above what stood there before.
#[derive(Clone, Copy, Debug, PartialEq, Eq)]
pub enum Operand {
    Number(u64),
    Pushed(Size),
}

/// The word of a number; of another value the first one, 0 where it has none.
pub fn first_word(operand: Operand, above: &[u64]) -> u64
    ensures { result ≡ word_of (spec.value_of operand above.now) }
{
    match operand {
        Operand::Number(word) => word,
        Operand::Pushed(_) => above.first().copied().unwrap_or(0),
    }
}
