//! The sizes of results, and where a block lies in one.

ghost use Rattle.std.specs.Prelude.{◌≡◌};
ghost use Rattle.algebra_meaning.specs.Assembled as spec;
ghost use Rattle.assembly_sums.specs.Added.{region_of};

use crate::block::Region;
use hypergraph::Sets;
use type_rules::BlockShape;
use typed_tree::ResultSide;
use value_algebra::count;

/// The rows of a block; a vector is a column.
#[inline]
pub(crate) fn height(block: BlockShape) -> u32
    ensures { result ≡ spec.height block }
{
    match block {
        BlockShape::Number => 1,
        BlockShape::Vector(side) => side,
        BlockShape::Matrix(rows, _) => rows,
    }
}

/// The columns of a block.
#[inline]
pub(crate) fn width(block: BlockShape) -> u32
    ensures { result ≡ spec.width block }
{
    match block {
        BlockShape::Number | BlockShape::Vector(_) => 1,
        BlockShape::Matrix(_, columns) => columns,
    }
}

/// How many elements the columns of a result have: one where it is a vector.
pub(crate) fn elements_of(sets: &Sets, side: Option<ResultSide>) -> u32
    ensures { result ≡ spec.elements_of sets.now side }
{
    match side {
        None => 1,
        Some(side) => count(sets, side.set),
    }
}

/// Where the block of a row and a column of elements lies.
#[inline]
pub(crate) fn region_of(block: BlockShape, row: u32, column: u32) -> Region
    ensures { result ≡ region_of block row column }
{
    let (height, width) = (height(block) as usize, width(block) as usize);
    let (top, left) = (row as usize * height, column as usize * width);
    Region {
        top,
        bottom: top + height,
        left,
        right: left + width,
    }
}
