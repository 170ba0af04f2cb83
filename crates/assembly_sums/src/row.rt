//! A row of a block, added to sums that stand row by row.

ghost use Rattle.std.specs.Prelude.{◌≡◌, ◌+◌, ◌*◌, ◌≤◌, drop, length, min, slice_index};
ghost use Rattle.assembly_sums.specs.Added.{WordsAdded};

use ring_words::add;

/// The word of an index; 0 where there is none.
#[inline]
fn word(words: &[u64], index: usize) -> u64
    ensures { result ≡ slice_index words.now index }
{
    words.get(index).copied().unwrap_or(0)
}

/// Words are added to the sums from one index up to below another.
#[inline]
#[tactic(auto, using(crate::proofs::Rows::words_begun, crate::proofs::Rows::words_more, crate::proofs::Rows::words_done))]
fn add_words(sums: &mut [u64], start: usize, end: usize, words: &[u64])
    requires ordered { start ≤ end }
    requires within { end ≤ length sums.old }
    ensures { WordsAdded start end words.now sums.old sums.new }
{
    for index in start..end {
        sums[index] = add(sums[index], word(words, index - start));
    }
}

/// The index of a row and a column, where a row has so many columns; the length where that is past it.
#[inline]
fn index_within(len: usize, row: u64, columns: u64, column: u64) -> usize
    ensures value { result ≡ min (row * columns + column) len }
    ensures within { result ≤ len }
{
    let index = row as u128 * columns as u128 + column as u128;
    if index < len as u128 {
        index as usize
    } else {
        len
    }
}

/// The words from a row of a block on.
#[inline]
pub(crate) fn from_row(words: &[u64], row: usize, columns: usize) -> &[u64]
    ensures { result.now ≡ drop (row * columns) words.now }
{
    &words[index_within(words.len(), row as u64, columns as u64, 0)..]
}

/// Words are added in a row of the sums, of which each has so many columns, from one column up to below another.
// Inside the loop over a block's rows the compiler would keep 128-bit indices from row to row, at a cost for a block of one.
#[inline(never)]
#[tactic(auto, using(crate::proofs::Rows::words_cut))]
pub(crate) fn add_row(
    sums: &mut [u64],
    row: usize,
    columns: usize,
    left: usize,
    right: usize,
    words: &[u64],
)
    requires { left ≤ right }
    ensures { WordsAdded (row * columns + left) (row * columns + right) words.now sums.old sums.new }
{
    let start = index_within(sums.len(), row as u64, columns as u64, left as u64);
    let end = start.saturating_add(right - left).min(sums.len());
    add_words(sums, start, end, words);
}
