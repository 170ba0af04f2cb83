//! Blocks that are written as rows of entries, transposed matrices, entries, and references with indices.

ghost use Rattle.std.specs.Prelude.{◌≡◌, ◌==◌, ◌≤◌, length};
ghost use Rattle.std.specs.Bool.{OnFalse};
ghost use Rattle.std.specs.List.{list_all, list_any};
ghost use Rattle.vocabulary.specs.declared.limits.TheConstants.{MOST_SIDE};
ghost use Rattle.type_rules.specs.Rules as spec;
ghost use Rattle.type_rules.specs.Types.{is_scalar, scale_of};

use crate::types::{BlockShape, IndexRange, NodeType, TypeKind, is_scalar, scale_of};
use vocabulary::L;
use vocabulary::limits::MOST_SIDE;

/// The block with its rows as columns.
fn transposed_block(block: BlockShape) -> BlockShape
    ensures { result ≡ spec.transposed_block block }
{
    match block {
        BlockShape::Number => BlockShape::Number,
        BlockShape::Vector(n) => BlockShape::Vector(n),
        BlockShape::Matrix(m, n) => BlockShape::Matrix(n, m),
    }
}

/// The type of a matrix with its rows as columns, in its blocks too.
#[tactic(auto, unfolding(crate::specs::Rules::transposed_rule))]
pub fn transposed_rule(value: NodeType) -> Result<NodeType, TypeKind>
    ensures { result ≡ spec.transposed_rule value }
{
    match value {
        NodeType::Local {
            block: BlockShape::Matrix(m, n),
            scale,
        } => Ok(NodeType::Local {
            block: BlockShape::Matrix(n, m),
            scale,
        }),
        NodeType::SystemMatrix {
            rows,
            columns,
            block,
            scale,
        } => Ok(NodeType::SystemMatrix {
            rows: columns,
            columns: rows,
            block: transposed_block(block),
            scale,
        }),
        _ => Err(TypeKind::Shape),
    }
}

/// The block that is written as so many rows of so many entries: one row is a vector.
fn block_of(rows: usize, width: usize) -> BlockShape
    requires few_rows { rows ≤ MOST_SIDE }
    requires few { width ≤ MOST_SIDE }
    ensures { result ≡ spec.block_of rows width }
{
    match rows {
        0 => BlockShape::Number,
        1 => BlockShape::Vector(width as u32),
        _ => BlockShape::Matrix(rows as u32, width as u32),
    }
}

/// How many entries the first row has.
fn first_width(rows: &[L<NodeType>]) -> usize
    ensures { result ≡ spec.first_width rows.now }
{
    match rows.first() {
        Some(row) => row.items().len(),
        None => 0,
    }
}

/// The scale of the first entry of a row.
fn first_scale_of(row: &[NodeType]) -> u32
    ensures { result ≡ spec.first_scale_of row.now }
{
    match row.first() {
        Some(entry) => scale_of(*entry),
        None => 0,
    }
}

/// The scale of the first entry.
fn first_scale(rows: &[L<NodeType>]) -> u32
    ensures { result ≡ spec.first_scale rows.now }
{
    match rows.first() {
        Some(row) => first_scale_of(row.items()),
        None => 0,
    }
}

/// Whether each entry is a number.
fn are_scalars(row: &[NodeType]) -> bool
    ensures { result ≡ list_all is_scalar row.now }
{
    row.iter().all(|entry| is_scalar(*entry))
}

/// Whether each entry has the scale.
fn have_scale(row: &[NodeType], scale: u32) -> bool
    ensures { result ≡ list_all (λ entry. scale_of entry == scale) row.now }
{
    row.iter().all(|entry| scale_of(*entry) == scale)
}

/// Whether each entry of each row is a number.
fn all_scalars(rows: &[L<NodeType>]) -> bool
    ensures { result ≡ list_all (list_all is_scalar) rows.now }
{
    rows.iter().all(|row| are_scalars(row.items()))
}

/// Whether each row has so many entries.
fn all_as_wide(rows: &[L<NodeType>], width: usize) -> bool
    ensures { result ≡ list_all (λ row. length row == width) rows.now }
{
    rows.iter().all(|row| row.items().len() == width)
}

/// Whether the entries are numbers, as many in each row.
#[tactic(auto, unfolding(crate::specs::Rules::is_block))]
fn is_block(rows: &[L<NodeType>]) -> bool
    ensures { result ≡ spec.is_block rows.now }
{
    all_scalars(rows) && all_as_wide(rows, first_width(rows))
}

/// Whether each entry of each row has the scale.
fn all_have_scale(rows: &[L<NodeType>], scale: u32) -> bool
    ensures { result ≡ list_all (list_all (λ entry. scale_of entry == scale)) rows.now }
{
    rows.iter().all(|row| have_scale(row.items(), scale))
}

/// Whether the entries have one scale.
#[tactic(auto, unfolding(crate::specs::Rules::has_one_scale))]
fn has_one_scale(rows: &[L<NodeType>]) -> bool
    ensures { result ≡ spec.has_one_scale rows.now }
{
    all_have_scale(rows, first_scale(rows))
}

/// Whether a side passes its limit.
#[tactic(auto, unfolding(crate::specs::Rules::is_too_large))]
fn is_too_large(rows: &[L<NodeType>]) -> bool
    ensures value { result ≡ spec.is_too_large rows.now }
    ensures few_rows { OnFalse result (length rows.now ≤ MOST_SIDE) }
    ensures few { OnFalse result (spec.first_width rows.now ≤ MOST_SIDE) }
{
    rows.len() > MOST_SIDE as usize || first_width(rows) > MOST_SIDE as usize
}

/// The type of a block that is written as rows of entries: numbers of one scale, as many in each row.
#[tactic(auto, unfolding(crate::specs::Rules::block_rule))]
pub fn block_rule(rows: &[L<NodeType>]) -> Result<NodeType, TypeKind>
    ensures { result ≡ spec.block_rule rows.now }
{
    if !is_block(rows) {
        return Err(TypeKind::Shape);
    }
    if !has_one_scale(rows) {
        return Err(TypeKind::Scale);
    }
    if is_too_large(rows) {
        return Err(TypeKind::TooLarge);
    }
    Ok(NodeType::Local {
        block: block_of(rows.len(), first_width(rows)),
        scale: first_scale(rows),
    })
}

/// Whether an index has a value that isn't below the side.
pub fn is_outside(side: u32, index: IndexRange) -> bool
    ensures { result ≡ spec.is_outside side index }
{
    match index {
        IndexRange::UpTo(most) => most >= u64::from(side),
        _ => false,
    }
}

/// Whether the value is a vector or a matrix of a function with one index for each of its sides.
fn is_entry(value: NodeType, indices: &[IndexRange]) -> bool
    ensures { result ≡ spec.is_entry value indices.now }
{
    match (value, indices) {
        (
            NodeType::Local {
                block: BlockShape::Vector(_),
                ..
            },
            [_],
        )
        | (
            NodeType::Local {
                block: BlockShape::Matrix(..),
                ..
            },
            [_, _],
        ) => true,
        _ => false,
    }
}

/// Whether one of the indices has a value that isn't below its side.
fn is_entry_outside(value: NodeType, indices: &[IndexRange]) -> bool
    ensures { result ≡ spec.is_entry_outside value indices.now }
{
    match (value, indices) {
        (
            NodeType::Local {
                block: BlockShape::Vector(n),
                ..
            },
            [i],
        ) => is_outside(n, *i),
        (
            NodeType::Local {
                block: BlockShape::Matrix(m, n),
                ..
            },
            [i, j],
        ) => is_outside(m, *i) || is_outside(n, *j),
        _ => false,
    }
}

/// Whether an index is neither a whole number nor a constant loop's variable.
fn is_unknown(index: IndexRange) -> bool
    ensures { result ≡ spec.is_unknown index }
{
    match index {
        IndexRange::NotConstant => true,
        _ => false,
    }
}

/// Whether one of the indices is neither a whole number nor a constant loop's variable.
pub fn has_unknown(indices: &[IndexRange]) -> bool
    ensures { result ≡ list_any spec.is_unknown indices.now }
{
    indices.iter().any(|index| is_unknown(*index))
}

/// Whether the indices name the whole value, or one of its entries.
fn is_part(value: NodeType, indices: &[IndexRange]) -> bool
    ensures { result ≡ spec.is_part value indices.now }
{
    indices.is_empty() || is_entry(value, indices)
}

/// The type of the whole value, or of an entry.
fn part_of(value: NodeType, indices: &[IndexRange]) -> NodeType
    ensures { result ≡ spec.part_of value indices.now }
{
    if indices.is_empty() {
        value
    } else {
        NodeType::Local {
            block: BlockShape::Number,
            scale: scale_of(value),
        }
    }
}

/// Whether one is named of so many endpoints, or none of no endpoints.
fn is_endpoint(endpoints: Option<u32>, places: &[IndexRange]) -> bool
    ensures { result ≡ spec.is_endpoint endpoints places.now }
{
    match (endpoints, places) {
        (Some(_), [_]) => true,
        (Some(_), _) => false,
        (None, _) => places.is_empty(),
    }
}

/// Whether one of the indices has a value that isn't below the count.
fn has_outside(count: u32, places: &[IndexRange]) -> bool
    ensures { result ≡ list_any (spec.is_outside count) places.now }
{
    places.iter().any(|place| is_outside(count, *place))
}

/// Whether the named endpoint isn't among so many.
fn is_endpoint_outside(endpoints: Option<u32>, places: &[IndexRange]) -> bool
    ensures { result ≡ spec.is_endpoint_outside endpoints places.now }
{
    match endpoints {
        Some(count) => has_outside(count, places),
        None => false,
    }
}

/// The type of a value of a function, or of an entry of it: of one out of so many endpoints, or of no endpoint.
#[tactic(auto, unfolding(crate::specs::Rules::part_rule))]
pub fn part_rule(
    endpoints: Option<u32>,
    value: NodeType,
    places: &[IndexRange],
    indices: &[IndexRange],
) -> Result<NodeType, TypeKind>
    ensures { result ≡ spec.part_rule endpoints value places.now indices.now }
{
    if has_unknown(places) || has_unknown(indices) {
        return Err(TypeKind::NotConstant);
    }
    if !(is_endpoint(endpoints, places) && is_part(value, indices)) {
        return Err(TypeKind::Shape);
    }
    if is_endpoint_outside(endpoints, places) || is_entry_outside(value, indices) {
        return Err(TypeKind::TooLarge);
    }
    Ok(part_of(value, indices))
}

/// Whether a value has so many indices as its view: none for a number, one over a set, two over a pair of sets.
fn has_rank(value: NodeType, rank: u32) -> bool
    ensures { result ≡ spec.has_rank value rank }
{
    match value {
        NodeType::Local { .. } => is_scalar(value) && rank == 0,
        NodeType::SystemVector { .. } => rank == 1,
        NodeType::SystemMatrix { .. } => rank == 2,
    }
}

/// The type of a reference with so many indices.
#[tactic(auto, unfolding(crate::specs::Rules::rank_rule))]
pub fn rank_rule(value: NodeType, rank: u32) -> Result<NodeType, TypeKind>
    ensures { result ≡ spec.rank_rule value rank }
{
    if !has_rank(value, rank) {
        return Err(TypeKind::Shape);
    }
    Ok(value)
}
