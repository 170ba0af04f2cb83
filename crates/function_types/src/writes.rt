//! Contributions to results.

ghost use Rattle.std.specs.Prelude.{◌≡◌, IfOk, map};
ghost use Rattle.vocabulary.specs.Answers.{Answers, all_ok};
ghost use Rattle.type_rules.specs.Rules as rules;
ghost use Rattle.typed_tree.specs.Functions as spec;
ghost use Rattle.typed_tree.specs.Steps.{Walks};
ghost use Rattle.typed_tree.specs.Steps as steps;

use crate::faults::kind_of;
use crate::places::place_rule;
use expression_types::value;
use sim_syntax::{Expr, Name, Place};
use std::alloc::{AllocError, Global};
use type_rules::{NodeType, TypeKind, earlier, same_rule};
use typed_tree::{CheckFault, FunctionStmt, Meaning, Names, Walk, WrittenPlace};
use vocabulary::L;

/// Whether a result has a block at so many places: a vector has one, a matrix two.
fn has_places(written: NodeType, places: usize) -> bool
    ensures { result ≡ spec.has_places written places }
{
    match written {
        NodeType::SystemVector { .. } => places == 1,
        NodeType::SystemMatrix { .. } => places == 2,
        NodeType::Local { .. } => false,
    }
}

/// The type of a block of a result.
fn block_type(written: NodeType) -> NodeType
    ensures { result ≡ spec.block_type written }
{
    match written {
        NodeType::SystemVector { block, scale, .. } | NodeType::SystemMatrix { block, scale, .. } =>
            NodeType::Local { block, scale },
        NodeType::Local { .. } => written,
    }
}

/// Why a value isn't written at so many places of a result.
#[tactic(auto, unfolding(typed_tree::specs::Functions::written_rule))]
fn written_rule(written: NodeType, places: usize, value_type: NodeType) -> Option<TypeKind>
    ensures { result ≡ spec.written_rule written places value_type }
{
    if has_places(written, places) {
        kind_of(same_rule(block_type(written), value_type))
    } else {
        Some(TypeKind::Shape)
    }
}

/// A result that is written, and its type.
#[tactic(auto, unfolding(typed_tree::specs::Functions::result_rule))]
fn result_rule(meaning: Option<Meaning>) -> Result<(u32, NodeType), TypeKind>
    ensures { result ≡ spec.result_rule meaning }
{
    match meaning {
        Some(
            Meaning::Result {
                result: number,
                value_type,
            },
        ) => Ok((number, value_type)),
        Some(_) => Err(TypeKind::NotAPlace),
        None => Err(TypeKind::Unknown),
    }
}

/// Why a value isn't written at so many places of what is named.
#[tactic(auto, unfolding(typed_tree::specs::Functions::result_fault))]
fn result_fault(
    written: Result<(u32, NodeType), TypeKind>,
    places: usize,
    value_type: NodeType,
) -> Option<TypeKind>
    ensures { result ≡ spec.result_fault written places value_type }
{
    match written {
        Ok((_, written)) => written_rule(written, places, value_type),
        Err(kind) => Some(kind),
    }
}

/// Of the kinds of several places, the first in their order.
fn earliest(places: &[Result<WrittenPlace, TypeKind>]) -> Option<TypeKind>
    ensures { result ≡ spec.earliest (map rules.kind_of places.now) }
{
    places
        .iter()
        .map(|place| kind_of(*place))
        .fold(None, |fault, other| earlier(fault, other))
}

/// Why a contribution isn't one.
fn write_fault(
    written: Result<(u32, NodeType), TypeKind>,
    places: &[Result<WrittenPlace, TypeKind>],
    value_type: NodeType,
) -> Option<TypeKind>
    ensures { result ≡ spec.write_fault written places.now value_type }
{
    earlier(
        result_fault(written, places.len(), value_type),
        earliest(places),
    )
}

/// The places of a contribution, each judged.
fn judged_places(
    alloc: Global,
    names: &Names<'_>,
    places: &[Place],
) -> Result<Vec<Result<WrittenPlace, TypeKind>>, AllocError>
    ensures { IfOk result (λ judged. judged.items ≡ map (spec.place_rule names.now) places.now) }
{
    places
        .iter()
        .map(|place| place_rule(names, place))
        .collect(alloc)
}

/// The places of a contribution, or the kind of the first that is none.
#[tactic(auto, using(crate::proofs::Loops::value_taken, crate::proofs::Loops::place_refused, crate::proofs::Loops::places_ended, crate::proofs::Loops::all_values))]
fn places_of(
    alloc: Global,
    line: u32,
    judged: &[Result<WrittenPlace, TypeKind>],
) -> Result<L<WrittenPlace>, CheckFault>
    ensures { Answers CheckFault.Memory (steps.at_line line (all_ok judged.now)) result }
{
    let mut places = L::empty(alloc);
    for place in judged {
        match place {
            Ok(place) => places.push(*place)?,
            Err(kind) => return Err(CheckFault::IllTyped { line, kind: *kind }),
        }
    }
    Ok(places)
}

/// The number of the result that a contribution goes to, and its places.
#[tactic(auto, using(crate::proofs::Loops::numbered_places, crate::proofs::Loops::refused_places))]
fn write_parts(
    alloc: Global,
    line: u32,
    written: Result<(u32, NodeType), TypeKind>,
    judged: &[Result<WrittenPlace, TypeKind>],
) -> Result<(u32, L<WrittenPlace>), CheckFault>
    ensures { Answers CheckFault.Memory (steps.at_line line (spec.write_parts written judged.now)) result }
{
    match written {
        Ok((number, _)) => {
            let places = places_of(alloc, line, judged)?;
            Ok((number, places))
        }
        Err(kind) => Err(CheckFault::IllTyped { line, kind }),
    }
}

/// A contribution to a result.
#[tactic(auto, unfolding(typed_tree::specs::Functions::write))]
pub fn write(
    alloc: Global,
    line: u32,
    name: &Name,
    places: &[Place],
    tree: &Expr,
    walk: &mut Walk<'_>,
) -> Result<FunctionStmt, CheckFault>
    ensures { Walks (spec.write line name.now places.now tree.now walk.old) result walk.new }
{
    let value = value(alloc, tree, walk)?;
    let names = &walk.environment.names;
    let written = result_rule(names.find(name.as_str()));
    let judged = judged_places(alloc, names, places).map_err(|_| CheckFault::Memory)?;
    let fault = write_fault(written, &judged, value.node.value_type);
    walk.end_statement(line, fault)?;
    let (number, places) = write_parts(alloc, line, written, &judged)?;
    Ok(FunctionStmt::Write {
        line,
        result: number,
        places,
        value,
    })
}
