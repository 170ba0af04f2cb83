//! Maps: which functions may be mapped to which sets, and the types of what a map gives.

ghost use Rattle.std.specs.Prelude.{◌≡◌, IfOk, map};
ghost use Rattle.std.specs.List.{list_all};
ghost use Rattle.typed_tree.specs.MainProcedure as spec;

use std::alloc::Global;
use type_rules::{NodeType, TypeKind, are_numbers, have_scales};
use typed_tree::{Declarations, Endpoints, ResultSide, SetShape, TypedFunction, TypedResult};
use vocabulary::{L, NoMemory};

/// Whether a function that takes these endpoints, or none, takes those of the elements of a set.
fn takes_endpoints(declarations: &Declarations, set: SetShape, ends: Option<Endpoints>) -> bool
    ensures { result ≡ spec.takes_endpoints declarations.now set ends }
{
    match (ends, set.over) {
        (None, _) => true,
        (Some(_), None) => false,
        (Some(ends), Some(over)) => {
            set.arity == ends.count && declarations.element_in(over) == ends.element
        }
    }
}

/// Whether a set is the one in which the endpoints lie.
fn is_over(over: Option<u32>, set: u32) -> bool
    ensures { result ≡ spec.is_over over set }
{
    match over {
        Some(over) => over == set,
        None => false,
    }
}

/// Whether the places that are written in a side of a result lie in its set.
fn is_side_of(set: u32, over: Option<u32>, side: &ResultSide) -> bool
    ensures { result ≡ spec.is_side_of set over side.now }
{
    (!side.at_element || set == side.set) && (!side.at_endpoint || is_over(over, side.set))
}

/// The same of columns, where there are some.
fn is_column_of(set: u32, over: Option<u32>, side: &Option<ResultSide>) -> bool
    ensures { result ≡ spec.is_column_of set over side.now }
{
    match side {
        Some(side) => is_side_of(set, over, side),
        None => true,
    }
}

/// Whether the places that are written in a result lie in its sets.
fn is_result_of(set: u32, over: Option<u32>, result_type: &TypedResult) -> bool
    ensures { result ≡ spec.is_result_of set over result_type.now }
{
    is_side_of(set, over, &result_type.rows) && is_column_of(set, over, &result_type.columns)
}

/// Whether the places that are written in some results lie in their sets.
fn are_results_of(set: u32, over: Option<u32>, results: &[TypedResult]) -> bool
    ensures { result ≡ list_all (spec.is_result_of set over) results.now }
{
    results.iter().all(|one| is_result_of(set, over, one))
}

/// Whether a function may be mapped to a set.
fn may_be_mapped(
    declarations: &Declarations,
    function: &TypedFunction,
    number: u32,
    set: SetShape,
) -> bool
    ensures { result ≡ spec.may_be_mapped declarations.now function.now number set }
{
    function.element == set.element
        && takes_endpoints(declarations, set, function.endpoints)
        && are_results_of(number, set.over, function.results.items())
}

/// The kind of a map's fault, if it has one.
#[tactic(auto, unfolding(typed_tree::specs::MainProcedure::map_rule))]
pub fn map_rule(
    declarations: &Declarations,
    function: &TypedFunction,
    number: u32,
    set: SetShape,
    args: &[NodeType],
) -> Option<TypeKind>
    ensures { result ≡ spec.map_rule declarations.now function.now number set args.now }
{
    if !are_numbers(function.arguments.items(), args) {
        Some(TypeKind::Shape)
    } else if !may_be_mapped(declarations, function, number, set) {
        Some(TypeKind::Set)
    } else if !have_scales(function.arguments.items(), args) {
        Some(TypeKind::Scale)
    } else {
        None
    }
}

/// The type of a result.
fn result_type(one: &TypedResult) -> NodeType
    ensures { result ≡ spec.result_type one.now }
{
    match one.columns {
        None => NodeType::SystemVector {
            set: one.rows.set,
            block: one.block,
            scale: one.scale,
        },
        Some(columns) => NodeType::SystemMatrix {
            rows: one.rows.set,
            columns: columns.set,
            block: one.block,
            scale: one.scale,
        },
    }
}

/// The types of results.
pub fn result_types(alloc: Global, results: &[TypedResult]) -> Result<L<NodeType>, NoMemory>
    ensures { IfOk result (λ types. types ≡ map spec.result_type results.now) }
{
    let mut types = L::empty(alloc);
    for one in results {
        types.push(result_type(one))?;
    }
    Ok(types)
}
