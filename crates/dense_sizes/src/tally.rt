//! Words that are counted along a list of nodes.

ghost use Rattle.std.specs.Prelude.{◌≡◌, ◌+◌};
ghost use Rattle.dense_sizes.specs.Tallies as spec;
ghost use Rattle.dense_sizes.specs.Tallies.{limited};

/// A sum of two numbers of words; where that is larger than the largest number of its type, the largest number.
#[tactic(auto, unfolding(crate::specs::Tallies::limited))]
pub fn plus(left: u128, right: u128) -> u128
    ensures { result ≡ limited (left + right) }
{
    left.saturating_add(right)
}

/// The words along a list of nodes: of those before the last one, and of the last one.
#[derive(Clone, Copy)]
pub struct Tally {
    pub before: u128,
    pub last: u128,
}

impl Tally {
    /// The words of no nodes.
    pub fn of_none() -> Tally
        ensures { result ≡ spec.no_nodes }
    {
        Tally { before: 0, last: 0 }
    }

    /// With another node, of so many words.
    pub fn with(self, words: u128) -> Tally
        ensures { result ≡ spec.with_words self words }
    {
        Tally {
            before: plus(self.before, self.last),
            last: words,
        }
    }

    /// The words of all nodes.
    pub fn total(self) -> u128
        ensures { result ≡ limited (self.before + self.last) }
    {
        plus(self.before, self.last)
    }
}
