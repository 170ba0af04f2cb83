//! Rules that several declarations share, and what they answer at a line.

ghost use Rattle.std.specs.Prelude.{◌≡◌};
ghost use Rattle.typed_tree.specs.Declarations as spec;
ghost use Rattle.typed_tree.specs.Literals as literals;
ghost use Rattle.typed_tree.specs.Steps as steps;

use sim_syntax::{Local, Num};
use type_rules::{BlockShape, NodeType, TypeKind, declared_rule, earlier};
use typed_tree::CheckFault;

/// What a rule answers at a line.
pub fn at_line<T>(line: u32, answer: Result<T, TypeKind>) -> Result<T, CheckFault>
    ensures { result ≡ steps.at_line line answer }
{
    match answer {
        Ok(value) => Ok(value),
        Err(kind) => Err(CheckFault::IllTyped { line, kind }),
    }
}

/// Nothing, where there is no fault.
pub fn faultless(fault: Option<TypeKind>) -> Result<(), TypeKind>
    ensures { result ≡ spec.faultless fault }
{
    match fault {
        None => Ok(()),
        Some(kind) => Err(kind),
    }
}

/// What a rule answers, unless a fault of another kind comes before its own.
#[tactic(auto, unfolding(typed_tree::specs::Declarations::unless))]
pub fn unless(
    fault: Option<TypeKind>,
    rule: Result<NodeType, TypeKind>,
) -> Result<NodeType, TypeKind>
    ensures { result ≡ spec.unless fault rule }
{
    let Some(fault) = fault else {
        return rule;
    };
    match rule {
        Ok(_) => Err(fault),
        Err(other) => match earlier(Some(fault), Some(other)) {
            Some(first) => Err(first),
            None => Err(fault),
        },
    }
}

/// A name that is taken is a fault.
pub fn taken(is_taken: bool) -> Option<TypeKind>
    ensures { result ≡ spec.taken is_taken }
{
    if is_taken {
        Some(TypeKind::Twice)
    } else {
        None
    }
}

/// The whole number that digits state, where they have no point.
pub fn whole(digits: &Num) -> Option<u64>
    ensures { result ≡ literals.whole digits.now }
{
    typed_tree::whole(digits.as_str().as_bytes())
}

/// The type of a block that is declared, with a scale up to a limit.
#[tactic(auto, unfolding(typed_tree::specs::Declarations::block_rule_up_to))]
pub fn block_rule_up_to(most: u32, block: &Local) -> Result<NodeType, TypeKind>
    ensures { result ≡ spec.block_rule_up_to most block.now }
{
    match block {
        Local::Int { scale, .. } => declared_rule(most, &[], whole(scale)),
        Local::Vector { side, scale, .. } => declared_rule(most, &[whole(side)], whole(scale)),
        Local::Matrix {
            rows,
            columns,
            scale,
            ..
        } => declared_rule(most, &[whole(rows), whole(columns)], whole(scale)),
    }
}

/// The block of a type.
pub fn block_in(value_type: NodeType) -> BlockShape
    ensures { result ≡ spec.block_in value_type }
{
    match value_type {
        NodeType::Local { block, .. } => block,
        NodeType::SystemVector { block, .. } => block,
        NodeType::SystemMatrix { block, .. } => block,
    }
}
