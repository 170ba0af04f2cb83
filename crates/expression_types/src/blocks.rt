//! Blocks that are written as rows of entries.

ghost use Rattle.std.specs.Prelude.{◌≡◌, IfOk, map};
ghost use Rattle.typed_tree.specs.Expressions as spec;
ghost use Rattle.expression_types.specs.Parts as parts;

use std::alloc::Global;
use type_rules::{NodeType, TypeKind, block_rule};
use typed_tree::{Level, TypedExpr, TypedRow};
use vocabulary::{L, NoMemory};

/// The types of expressions.
pub fn types_of(alloc: Global, expressions: &[TypedExpr]) -> Result<L<NodeType>, NoMemory>
    ensures { IfOk result (λ types. types ≡ map spec.type_of expressions.now) }
{
    let mut types = L::empty(alloc);
    for part in expressions {
        types.push(part.node.value_type)?;
    }
    Ok(types)
}

/// The types of the entries of each row.
fn row_types(alloc: Global, rows: &[TypedRow]) -> Result<L<L<NodeType>>, NoMemory>
    ensures { IfOk result (λ types. types ≡ map spec.row_types rows.now) }
{
    let mut types = L::empty(alloc);
    for row in rows {
        types.push(types_of(alloc, row.entries.as_slice())?)?;
    }
    Ok(types)
}

/// The type of a block where it stands: in functions alone.
fn block_at(level: Level, rows: &[L<NodeType>]) -> Result<NodeType, TypeKind>
    ensures { result ≡ parts.block_of_types level rows.now }
{
    match level {
        Level::Function => block_rule(rows),
        Level::Main => Err(TypeKind::Shape),
    }
}

/// The type of a block of typed rows, where it stands.
pub fn block_rule_at(
    alloc: Global,
    level: Level,
    rows: &[TypedRow],
) -> Result<Result<NodeType, TypeKind>, NoMemory>
    ensures { IfOk result (λ answer. answer ≡ spec.block_at level rows.now) }
{
    let types = row_types(alloc, rows)?;
    Ok(block_at(level, types.items()))
}
