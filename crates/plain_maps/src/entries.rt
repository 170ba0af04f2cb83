//! The entries of results: what contributions add up to.

ghost use Rattle.std.specs.Prelude.{◌≡◌, fold};
ghost use Rattle.ring_words.specs.Word.{add};
ghost use Rattle.algebra_meaning.specs.Assembled as spec;

use algebra_meaning::Contribution;
use ring_words::add;

/// Where a block of a result stands.
#[derive(Clone, Copy)]
pub(crate) struct BlockPlace {
    /// The number of the result.
    pub number: usize,
    /// The element of its rows.
    pub row: u32,
    /// The element of its columns.
    pub column: u32,
}

/// What a contribution adds at a block's row and column.
fn amount_at(one: &Contribution, place: BlockPlace, r: u32, c: u32) -> u64
    ensures { result ≡ spec.amount_at place.number place.row place.column r c one.now }
{
    let is_there = one.result as usize == place.number
        && one.row == place.row
        && one.column == place.column;
    if is_there {
        one.block.word_at(r as usize, c as usize)
    } else {
        0
    }
}

/// What contributions add at a block's row and column, added one after the other.
fn added(contributed: &[Contribution], place: BlockPlace, r: u32, c: u32) -> u64
    ensures { result ≡ fold (λ sum one. add sum (spec.amount_at place.number place.row place.column r c one)) 0 contributed.now }
{
    contributed
        .iter()
        .fold(0, |sum, one| add(sum, amount_at(one, place, r, c)))
}

/// An entry of a result: the sum of all that is contributed there.
pub(crate) fn entry(contributed: &[Contribution], place: BlockPlace, r: u32, c: u32) -> u64
    ensures { result ≡ spec.entry contributed.now place.number place.row place.column r c }
{
    added(contributed, place, r, c)
}
