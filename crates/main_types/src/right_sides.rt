//! Right sides: a value, or a map of a function to a set.

ghost use Rattle.std.specs.Prelude.{◌≡◌, ◌∷◌, [], IfOk, map};
ghost use Rattle.std.specs.Option.{option_map};
ghost use Rattle.typed_tree.specs.Expressions.{type_of};
ghost use Rattle.typed_tree.specs.Lookups as lookups;
ghost use Rattle.typed_tree.specs.MainProcedure as spec;
ghost use Rattle.typed_tree.specs.Steps.{Walks};

use crate::maps::{map_rule, result_types};
use expression_types::{value, values};
use sim_syntax::{Expr, Right};
use sqlite_items::Items;
use std::alloc::Global;
use type_rules::{NodeType, TypeKind};
use typed_tree::{
    CheckFault, Environment, Meaning, RightSide, SetShape, TypedExpr, TypedFunction, TypedRight,
    Walk,
};
use vocabulary::{L, NoMemory};

/// The fault of what doesn't stand there by the grammar.
pub fn misplaced(line: u32) -> CheckFault
    ensures { result ≡ CheckFault.IllTyped line TypeKind.Shape }
{
    CheckFault::IllTyped {
        line,
        kind: TypeKind::Shape,
    }
}

/// The function that a name stands for, with its number.
fn function_named<'e>(
    environment: &'e Environment<'_>,
    name: &str,
) -> Option<(u32, &'e TypedFunction)>
    ensures { option_map (λ found. (found.0, found.1.now)) result ≡ lookups.function_named environment.now name.now }
{
    match environment.names.find(name) {
        Some(Meaning::Function(number)) => {
            match environment
                .declarations
                .functions
                .items()
                .get(number as usize)
            {
                Some(function) => Some((number, function)),
                None => None,
            }
        }
        _ => None,
    }
}

/// The types of expressions.
fn types_of(alloc: Global, args: &[TypedExpr]) -> Result<L<NodeType>, NoMemory>
    ensures { IfOk result (λ types. types ≡ map type_of args.now) }
{
    let mut types = L::empty(alloc);
    for arg in args {
        types.push(arg.node.value_type)?;
    }
    Ok(types)
}

/// A list of one type.
fn one_type(alloc: Global, value_type: NodeType) -> Result<L<NodeType>, NoMemory>
    ensures { IfOk result (λ types. types ≡ value_type ∷ []) }
{
    let mut types = L::empty(alloc);
    types.push(value_type)?;
    Ok(types)
}

/// A map of a function to a set, both by the names that stand in it.
#[tactic(auto, unfolding(typed_tree::specs::MainProcedure::map_side))]
fn map_side(
    alloc: Global,
    environment: &Environment<'_>,
    func: &str,
    set: &str,
    args: Items<TypedExpr>,
) -> Result<RightSide, NoMemory>
    ensures { IfOk result (λ side. side ≡ spec.map_side environment.now.declarations (lookups.function_named environment.now func.now) (lookups.set_named environment.now set.now) args) }
{
    let declarations = &environment.declarations;
    match (
        function_named(environment, func),
        environment.set_named(set),
    ) {
        (Some((number, function)), Some((mapped, shape))) => {
            let types = types_of(alloc, args.as_slice())?;
            let fault = map_rule(declarations, function, mapped, shape, types.items());
            let results = result_types(alloc, function.results.items())?;
            Ok(RightSide {
                typed: TypedRight::Map {
                    function: number,
                    set: mapped,
                    args,
                },
                types: results,
                fault,
            })
        }
        _ => Ok(RightSide {
            typed: TypedRight::Map {
                function: 0,
                set: 0,
                args,
            },
            types: L::empty(alloc),
            fault: Some(TypeKind::Unknown),
        }),
    }
}

/// A right side that is a value.
#[tactic(auto, unfolding(typed_tree::specs::MainProcedure::value_side))]
fn value_side(alloc: Global, tree: &Expr, walk: &mut Walk<'_>) -> Result<RightSide, CheckFault>
    ensures { Walks (spec.value_side tree.now walk.old) result walk.new }
{
    let typed = value(alloc, tree, walk)?;
    let types = one_type(alloc, typed.node.value_type)?;
    Ok(RightSide {
        typed: TypedRight::Value(typed),
        types,
        fault: None,
    })
}

/// A right side that is a map.
#[tactic(auto, unfolding(typed_tree::specs::MainProcedure::mapped_side))]
fn mapped_side(
    alloc: Global,
    func: &str,
    args: &[Expr],
    set: &str,
    walk: &mut Walk<'_>,
) -> Result<RightSide, CheckFault>
    ensures { Walks (spec.mapped_side func.now args.now set.now walk.old) result walk.new }
{
    let args = values(alloc, args, walk)?;
    let side = map_side(alloc, &walk.environment, func, set, args)?;
    Ok(side)
}

/// A right side, with the types of its values and the kind of its fault.
#[tactic(auto, unfolding(typed_tree::specs::MainProcedure::right_side))]
pub fn right_side(
    alloc: Global,
    right: &Right,
    walk: &mut Walk<'_>,
) -> Result<RightSide, CheckFault>
    ensures { Walks (spec.right_side right.now walk.old) result walk.new }
{
    match right {
        Right::Value(tree) => value_side(alloc, tree, walk),
        Right::Map {
            func,
            args,
            set,
            ..
        } => mapped_side(alloc, func.as_str(), args.as_slice(), set.as_str(), walk),
        Right::Ix { line, .. } => Err(misplaced(*line)),
    }
}
