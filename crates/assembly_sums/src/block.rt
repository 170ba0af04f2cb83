//! A block, added to sums that stand row by row.

ghost use Rattle.std.specs.Prelude.{◌≡◌, ◌≤◌};
ghost use Rattle.assembly_sums.specs.Added.{BlockAdded, ValueAdded};

use crate::row::{add_row, from_row};
use std::alloc::Global;
use std::mem;
use value_algebra::Value;
use vocabulary::L;

/// Where a block lies in a value: in its rows from `top` up to below `bottom`, in its columns from `left` up to below
/// `right`.
#[derive(Clone, Copy, Debug, PartialEq, Eq)]
pub(crate) struct Region {
    pub(crate) top: usize,
    pub(crate) bottom: usize,
    pub(crate) left: usize,
    pub(crate) right: usize,
}

/// The words of a block, of which each row has so many columns, are added in a region of the sums.
#[inline]
#[tactic(auto, using(crate::proofs::Blocks::block_begun, crate::proofs::Blocks::block_done))]
fn add_block(sums: &mut [u64], columns: usize, region: Region, words: &[u64], block_columns: usize)
    requires rows { region.top ≤ region.bottom }
    requires columns { region.left ≤ region.right }
    requires within { region.right ≤ columns }
    ensures { BlockAdded region columns words.now block_columns sums.old sums.new }
{
    for row in region.top..region.bottom {
        let rest = from_row(words, row - region.top, block_columns);
        add_row(sums, row, columns, region.left, region.right, rest);
    }
}

/// The words of a block are added in a region of a value. Where the region isn't within the value, nothing is.
#[inline]
pub(crate) fn add_in(
    alloc: Global,
    value: &mut Value,
    region: Region,
    words: &[u64],
    block_columns: usize,
)
    requires rows { region.top ≤ region.bottom }
    requires columns { region.left ≤ region.right }
    ensures { ValueAdded region words.now block_columns value.old value.new }
{
    if region.bottom <= value.rows && region.right <= value.columns {
        let mut sums = mem::replace(&mut value.words, L::empty(alloc)).into_vec();
        add_block(&mut sums, value.columns, region, words, block_columns);
        value.words = L::of(sums);
    }
}
