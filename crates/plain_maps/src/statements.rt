//! The statements of a function, which lead from one point to the next.

ghost use Rattle.std.specs.Prelude.{◌≡◌, map};
ghost use Rattle.algebra_meaning.specs.Element as spec;
ghost use Rattle.algebra_meaning.specs.Expression as expressions;
ghost use Rattle.algebra_meaning.specs.Means.{Means};

use crate::call::Call;
use crate::locals::{copies, with_local, with_other, word_of_local};
use algebra_meaning::{Contribution, Point, Stopped, end_of, holds, meaning};
use host_table::HostMeaning;
use loop_laws::{item_laws, number_laws};
use ring_words::TrapKind;
use std::alloc::Global;
use typed_tree::{FunctionStmt, PlaceIndex, TypedCond, TypedExpr, TypedFunction, WrittenPlace};
use value_algebra::Value;
use vocabulary::L;

/// What an expression means, by the locals.
fn value_in<H: HostMeaning>(
    alloc: Global,
    e: &TypedExpr,
    call: &Call<'_, H>,
    locals: &[Value],
) -> Result<Value, Stopped<TrapKind>>
    ensures { Means (expressions.meaning (spec.scope_of (spec.call_in H.answer call.now) locals.now) e.now) result }
{
    let scope = call.scope(locals);
    meaning(alloc, e, &scope)
}

/// Whether a condition holds, by the locals.
fn holds_in<H: HostMeaning>(
    alloc: Global,
    cond: &TypedCond,
    call: &Call<'_, H>,
    locals: &[Value],
) -> Result<bool, Stopped<TrapKind>>
    ensures { Means (expressions.holds (spec.scope_of (spec.call_in H.answer call.now) locals.now) cond.now) result }
{
    let scope = call.scope(locals);
    holds(alloc, cond, &scope)
}

/// A new local gets a value.
#[tactic(auto, unfolding(algebra_meaning::specs::Element::new_local))]
fn new_local<H: HostMeaning>(
    alloc: Global,
    local: u32,
    e: &TypedExpr,
    call: &Call<'_, H>,
    point: Point,
) -> Result<Point, Stopped<TrapKind>>
    ensures { Means (spec.new_local (spec.call_in H.answer call.now) local e.now point) result }
{
    let value = value_in(alloc, e, call, point.locals.items())?;
    let locals = with_local(point.locals, local, value)?;
    Ok(Point {
        locals,
        contributed: point.contributed,
    })
}

/// A local gets another value.
#[tactic(auto, unfolding(algebra_meaning::specs::Element::assigned_local))]
fn assigned_local<H: HostMeaning>(
    alloc: Global,
    local: u32,
    e: &TypedExpr,
    call: &Call<'_, H>,
    point: Point,
) -> Result<Point, Stopped<TrapKind>>
    ensures { Means (spec.assigned_local (spec.call_in H.answer call.now) local e.now point) result }
{
    let value = value_in(alloc, e, call, point.locals.items())?;
    let locals = with_other(point.locals, local, value);
    Ok(Point {
        locals,
        contributed: point.contributed,
    })
}

/// Which endpoint a place names.
fn position_of(locals: &[Value], index: PlaceIndex) -> u64
    ensures { result ≡ spec.position_of locals.now index }
{
    match index {
        PlaceIndex::Literal(number) => number,
        PlaceIndex::Turn { local, .. } => word_of_local(locals, local),
    }
}

/// The element that a place names; 0 where there is no place.
fn element_at<H: HostMeaning>(
    call: &Call<'_, H>,
    locals: &[Value],
    place: Option<WrittenPlace>,
) -> u32
    ensures { result ≡ spec.element_at (spec.call_in H.answer call.now) locals.now place }
{
    match place {
        None => 0,
        Some(WrittenPlace::Element) => call.place.element,
        Some(WrittenPlace::Endpoint(index)) => {
            end_of(call.sets, call.place, position_of(locals, index))
        }
    }
}

/// A contribution is made.
#[tactic(auto, unfolding(algebra_meaning::specs::Element::contributes))]
fn contributes<H: HostMeaning>(
    alloc: Global,
    number: u32,
    places: &[WrittenPlace],
    e: &TypedExpr,
    call: &Call<'_, H>,
    point: Point,
) -> Result<Point, Stopped<TrapKind>>
    ensures { Means (spec.contributes (spec.call_in H.answer call.now) number places.now e.now point) result }
{
    let block = value_in(alloc, e, call, point.locals.items())?;
    let contribution = Contribution {
        result: number,
        row: element_at(call, point.locals.items(), places.first().copied()),
        column: element_at(call, point.locals.items(), places.get(1).copied()),
        block,
    };
    let mut contributed = point.contributed;
    contributed.push(contribution)?;
    Ok(Point {
        locals: point.locals,
        contributed,
    })
}

/// A condition has to hold.
#[tactic(auto, unfolding(algebra_meaning::specs::Element::asserted))]
fn asserted<H: HostMeaning>(
    alloc: Global,
    cond: &TypedCond,
    call: &Call<'_, H>,
    point: Point,
) -> Result<Point, Stopped<TrapKind>>
    ensures { Means (spec.asserted (spec.call_in H.answer call.now) cond.now point) result }
{
    if holds_in(alloc, cond, call, point.locals.items())? {
        Ok(point)
    } else {
        Err(Stopped::By(TrapKind::Assertion))
    }
}

/// A statement.
#[cycle(statement)]
#[tactic(auto, unfolding(algebra_meaning::specs::Element::statement_steps, algebra_meaning::specs::Element::chosen))]
fn statement<H: HostMeaning>(
    statement: &FunctionStmt,
    alloc: Global,
    call: &Call<'_, H>,
    point: Point,
) -> Result<Point, Stopped<TrapKind>>
    ensures { Means (spec.steps_of (spec.call_in H.answer call.now) statement.now point) result }
{
    match statement {
        FunctionStmt::Var { local, value, .. } => new_local(alloc, *local, value, call, point),
        FunctionStmt::Assign { local, value, .. } => {
            assigned_local(alloc, *local, value, call, point)
        }
        FunctionStmt::Write {
            result: number,
            places,
            value,
            ..
        } => contributes(alloc, *number, places.items(), value, call, point),
        FunctionStmt::Loop {
            local,
            from,
            to,
            body,
            ..
        } => looped(body.as_slice(), alloc, *local, (*from, *to), call, point),
        FunctionStmt::If {
            cond,
            body,
            otherwise,
            ..
        } => {
            if holds_in(alloc, cond, call, point.locals.items())? {
                in_order(body.as_slice(), alloc, call, point)
            } else {
                in_order(otherwise.as_slice(), alloc, call, point)
            }
        }
        FunctionStmt::Assert { cond, .. } => asserted(alloc, cond, call, point),
    }
}

/// Statements, one after the other.
#[cycle(statement)]
#[tactic(auto, using(crate::proofs::Loops::statement_taken, crate::proofs::Loops::statement_stopped, crate::proofs::Loops::statements_ended))]
fn in_order<H: HostMeaning>(
    body: &[FunctionStmt],
    alloc: Global,
    call: &Call<'_, H>,
    start: Point,
) -> Result<Point, Stopped<TrapKind>>
    ensures { Means (spec.in_order (map (spec.steps_of (spec.call_in H.answer call.now)) body.now) start) result }
{
    item_laws::<Point, FunctionStmt, TrapKind>();
    let mut point = start;
    for one in body {
        point = statement(one, alloc, call, point)?;
    }
    Ok(point)
}

/// A turn of a loop, whose variable has this value.
#[cycle(statement)]
fn turn<H: HostMeaning>(
    body: &[FunctionStmt],
    alloc: Global,
    local: u32,
    value: u32,
    call: &Call<'_, H>,
    point: Point,
) -> Result<Point, Stopped<TrapKind>>
    ensures { Means (spec.turn local (map (spec.steps_of (spec.call_in H.answer call.now)) body.now) point value) result }
{
    let number = Value::number(alloc, u64::from(value))?;
    let locals = with_local(point.locals, local, number)?;
    let begun = Point {
        locals,
        contributed: point.contributed,
    };
    in_order(body, alloc, call, begun)
}

/// A loop, whose variable goes from the first bound up to below the second.
#[cycle(statement)]
#[tactic(auto, unfolding(algebra_meaning::specs::Element::looped), using(crate::proofs::Loops::turn_taken, crate::proofs::Loops::turn_stopped, crate::proofs::Loops::turns_ended))]
fn looped<H: HostMeaning>(
    body: &[FunctionStmt],
    alloc: Global,
    local: u32,
    bounds: (u32, u32),
    call: &Call<'_, H>,
    start: Point,
) -> Result<Point, Stopped<TrapKind>>
    ensures { Means (spec.looped local bounds.0 bounds.1 (map (spec.steps_of (spec.call_in H.answer call.now)) body.now) start) result }
{
    number_laws::<Point, TrapKind>();
    let (from, to) = bounds;
    let mut point = start;
    for value in from..to {
        point = turn(body, alloc, local, value, call, point)?;
    }
    Ok(point)
}

/// What a function contributes at an element, by the values of its scalar arguments, or its first trap.
#[tactic(auto, unfolding(algebra_meaning::specs::Element::contributions))]
pub(crate) fn contributions<H: HostMeaning>(
    alloc: Global,
    call: &Call<'_, H>,
    function: &TypedFunction,
    args: &[Value],
) -> Result<L<Contribution>, Stopped<TrapKind>>
    ensures { Means (spec.contributions (spec.call_in H.answer call.now) function.now args.now) result }
{
    let start = Point {
        locals: copies(alloc, args)?,
        contributed: L::empty(alloc),
    };
    let done = in_order(function.body.as_slice(), alloc, call, start)?;
    Ok(done.contributed)
}
