//! Nodes and their numbers, what a rule says at a node's line, and what is allocated for it.

ghost use Rattle.std.specs.Prelude.{◌≡◌, ◌++◌, ◌∷◌, [], suc, Ok, IfOk};
ghost use Rattle.typed_tree.specs.Expressions as spec;
ghost use Rattle.typed_tree.specs.Steps as steps;
ghost use Rattle.expression_types.specs.Parts as parts;

use sqlite_items::{Boxed, Items};
use std::alloc::Global;
use type_rules::{NodeType, TypeKind};
use typed_tree::{CheckFault, Node, TypedExpr, TypedForm};
use vocabulary::NoMemory;

/// What a rule answers at a node of this line.
pub fn at_line<T>(line: u32, answer: Result<T, TypeKind>) -> Result<T, CheckFault>
    ensures { result ≡ steps.at_line line answer }
{
    match answer {
        Ok(value) => Ok(value),
        Err(kind) => Err(CheckFault::IllTyped { line, kind }),
    }
}

/// A node with the next number. Numbers that don't fit are out of memory.
pub fn node(line: u32, value_type: NodeType, next: &mut u32) -> Result<Node, CheckFault>
    ensures { steps.Walks (Ok (spec.node next.old line value_type, suc next.old)) result next.new }
{
    let number = *next;
    if number == u32::MAX {
        return Err(CheckFault::Memory);
    }
    *next = number + 1;
    Ok(Node {
        number,
        line,
        value_type,
    })
}

/// An expression of a form, with the type that its rule answers.
pub fn made(
    line: u32,
    answer: Result<NodeType, TypeKind>,
    form: TypedForm,
    next: &mut u32,
) -> Result<TypedExpr, CheckFault>
    ensures { steps.Walks (parts.made answer form line next.old) result next.new }
{
    let value_type = at_line(line, answer)?;
    let node = node(line, value_type, next)?;
    Ok(TypedExpr { node, form })
}

/// The items with another one.
pub fn pushed<T: Drop>(items: Items<T>, item: T) -> Result<Items<T>, NoMemory>
    ensures { IfOk result (λ list. list ≡ items ++ item ∷ []) }
{
    let mut items = items;
    match items.push(item) {
        Ok(()) => Ok(items),
        Err(_) => Err(NoMemory),
    }
}

/// A part of a form.
pub fn boxed<T: Drop>(alloc: Global, value: T) -> Result<Boxed<T>, NoMemory>
    ensures { IfOk result (λ part. part ≡ value) }
{
    match Boxed::new(alloc, value) {
        Ok(part) => Ok(part),
        Err(_) => Err(NoMemory),
    }
}
