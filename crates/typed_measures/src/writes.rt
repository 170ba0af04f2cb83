//! The results of a function, by what its body writes.

ghost use Rattle.std.specs.Prelude.{◌≡◌, IfOk, slice_get};
ghost use Rattle.typed_tree.specs.Declarations as spec;
ghost use Rattle.typed_measures.specs.Places.{is_written_by, place_test};

use std::alloc::Global;
use type_rules::NodeType;
use typed_tree::{FunctionStmt, ResultSide, TypedResult, WrittenPlace};
use vocabulary::{L, NoMemory};

/// Whether a place is the element, or an endpoint.
fn is_wanted(place: WrittenPlace, at_element: bool) -> bool
    ensures { result ≡ place_test at_element place }
{
    match place {
        WrittenPlace::Element => at_element,
        WrittenPlace::Endpoint(_) => !at_element,
    }
}

/// Whether the place in a position is the element, or an endpoint.
fn has_wanted(places: &[WrittenPlace], position: usize, at_element: bool) -> bool
    ensures { result ≡ spec.passes (place_test at_element) (slice_get places.now position) }
{
    match places.get(position) {
        Some(place) => is_wanted(*place, at_element),
        None => false,
    }
}

/// Whether a statement writes to a result, in a position of its places at the element, or at an endpoint.
#[cycle(statement)]
fn is_written_in(
    statement: &FunctionStmt,
    result_number: u32,
    position: usize,
    at_element: bool,
) -> bool
    ensures { result ≡ is_written_by result_number position (place_test at_element) statement.now }
{
    match statement {
        FunctionStmt::Write { result, places, .. } => {
            *result == result_number && has_wanted(places.items(), position, at_element)
        }
        FunctionStmt::Loop { body, .. } => {
            is_written(body.as_slice(), result_number, position, at_element)
        }
        FunctionStmt::If {
            body,
            otherwise,
            ..
        } => {
            is_written(body.as_slice(), result_number, position, at_element)
                || is_written(otherwise.as_slice(), result_number, position, at_element)
        }
        FunctionStmt::Var { .. } => false,
        FunctionStmt::Assign { .. } => false,
        FunctionStmt::Assert { .. } => false,
    }
}

/// Whether one of some statements writes to a result, in a position of its places at the element, or at an endpoint.
#[cycle(statement)]
#[tactic(auto, using(crate::proofs::Tests::test_passed, crate::proofs::Tests::test_failed, crate::proofs::Tests::none_to_test))]
fn is_written(
    statements: &[FunctionStmt],
    result_number: u32,
    position: usize,
    at_element: bool,
) -> bool
    ensures { result ≡ spec.is_written result_number position (place_test at_element) statements.now }
{
    for statement in statements {
        if is_written_in(statement, result_number, position, at_element) {
            return true;
        }
    }
    false
}

/// The rows or the columns of a result.
fn side(body: &[FunctionStmt], result_number: u32, position: usize, set: u32) -> ResultSide
    ensures { result ≡ spec.side body.now result_number position set }
{
    ResultSide {
        set,
        at_element: is_written(body, result_number, position, true),
        at_endpoint: is_written(body, result_number, position, false),
    }
}

/// A result, by its type.
fn typed_result(body: &[FunctionStmt], result_number: u32, value_type: NodeType) -> TypedResult
    ensures { result ≡ spec.typed_result body.now result_number value_type }
{
    match value_type {
        NodeType::SystemMatrix {
            rows,
            columns,
            block,
            scale,
        } => TypedResult {
            rows: side(body, result_number, 0, rows),
            columns: Some(side(body, result_number, 1, columns)),
            block,
            scale,
        },
        NodeType::SystemVector { set, block, scale } => TypedResult {
            rows: side(body, result_number, 0, set),
            columns: None,
            block,
            scale,
        },
        NodeType::Local { block, scale } => TypedResult {
            rows: side(body, result_number, 0, 0),
            columns: None,
            block,
            scale,
        },
    }
}

/// The results of a function, by their types and its body.
pub fn typed_results(
    alloc: Global,
    body: &[FunctionStmt],
    types: &[NodeType],
) -> Result<L<TypedResult>, NoMemory>
    ensures { IfOk result (λ results. results ≡ spec.typed_results body.now 0 types.now) }
{
    let mut results = L::empty(alloc);
    let mut number = 0;
    for value_type in types {
        results.push(typed_result(body, number, *value_type))?;
        let Some(next) = u32::checked_add(number, 1) else {
            return Err(NoMemory);
        };
        number = next;
    }
    Ok(results)
}
