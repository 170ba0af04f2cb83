//! The statements of a function at an element, run on words: locals change in place, and what is contributed is added at
//! once.

ghost use Rattle.std.specs.Prelude.{◌≡◌, ◌++◌, List, map};
ghost use Rattle.algebra_meaning.specs.declared.contribution.Contribution as contribution;
ghost use Rattle.algebra_meaning.specs.Assembled.{all_assembled};
ghost use Rattle.algebra_meaning.specs.Element as spec;
ghost use Rattle.algebra_meaning.specs.Expression as expressions;
ghost use Rattle.algebra_meaning.specs.Means.{Leads, Means};
ghost use Rattle.word_stacks.specs.Stack.{Appends};
ghost use Rattle.proc_engine.specs.Running.{Runs, point};

use algebra_meaning::{Point, Stopped, end_of};
use assembly_sums::Sums;
use element_words::{evaluate, holds};
use host_table::HostMeaning;
use loop_laws::{item_laws, number_laws};
use plain_maps::Call;
use ring_words::TrapKind;
use typed_tree::{FunctionStmt, PlaceIndex, TypedCond, TypedExpr, TypedResult, WrittenPlace};
use word_stacks::{Locals, Size, Words};

/// The words of an expression, alone on the stack, and its size; or its first trap.
fn value_in<H: HostMeaning>(
    e: &TypedExpr,
    call: &Call<'_, H>,
    locals: &Locals,
    stack: &mut Vec<u64>,
) -> Result<Size, Stopped<TrapKind>>
    ensures { Appends (expressions.meaning (spec.scope_of (spec.call_in H.answer call.now) locals.now) e.now) result stack.new.items }
{
    stack.clear();
    let scope = Words {
        program: call.program,
        sets: call.sets,
        locals,
        place: call.place,
    };
    evaluate(e, &scope, stack)
}

/// Whether a condition holds, or its first trap.
fn holds_in<H: HostMeaning>(
    cond: &TypedCond,
    call: &Call<'_, H>,
    locals: &Locals,
    stack: &mut Vec<u64>,
) -> Result<bool, Stopped<TrapKind>>
    ensures { Means (expressions.holds (spec.scope_of (spec.call_in H.answer call.now) locals.now) cond.now) result }
{
    let scope = Words {
        program: call.program,
        sets: call.sets,
        locals,
        place: call.place,
    };
    holds(cond, &scope, stack)
}

/// A new local gets a value.
#[tactic(auto, unfolding(algebra_meaning::specs::Element::new_local))]
fn new_local<H: HostMeaning>(
    local: u32,
    e: &TypedExpr,
    call: &Call<'_, H>,
    locals: &mut Locals,
    stack: &mut Vec<u64>,
) -> Result<(), Stopped<TrapKind>>
    ensures { (contributed : List contribution.Contribution) → Leads (spec.new_local (spec.call_in H.answer call.now) local e.now (point locals.old contributed)) result (point locals.new contributed) }
{
    let size = value_in(e, call, locals, stack)?;
    locals.set_from(local, size, stack)?;
    Ok(())
}

/// A local gets another value.
#[tactic(auto, unfolding(algebra_meaning::specs::Element::assigned_local))]
fn assigned_local<H: HostMeaning>(
    local: u32,
    e: &TypedExpr,
    call: &Call<'_, H>,
    locals: &mut Locals,
    stack: &mut Vec<u64>,
) -> Result<(), Stopped<TrapKind>>
    ensures { (contributed : List contribution.Contribution) → Leads (spec.assigned_local (spec.call_in H.answer call.now) local e.now (point locals.old contributed)) result (point locals.new contributed) }
{
    let size = value_in(e, call, locals, stack)?;
    locals.assign(local, size, stack)?;
    Ok(())
}

/// Which endpoint a place names.
fn position_of(locals: &Locals, index: PlaceIndex) -> u64
    ensures { result ≡ spec.position_of locals.now index }
{
    match index {
        PlaceIndex::Literal(number) => number,
        PlaceIndex::Turn { local, .. } => locals.word_of(local),
    }
}

/// The element that a place names; 0 where there is no place.
fn element_at<H: HostMeaning>(
    call: &Call<'_, H>,
    locals: &Locals,
    place: Option<WrittenPlace>,
) -> u32
    ensures { result ≡ spec.element_at (spec.call_in H.answer call.now) locals.now place }
{
    match place {
        None => 0,
        Some(WrittenPlace::Element) => call.place.element,
        Some(WrittenPlace::Endpoint(index)) => {
            end_of(call.sets, call.place, position_of(locals, index))
        }
    }
}

/// A contribution is added.
#[tactic(auto, unfolding(algebra_meaning::specs::Element::contributes), using(crate::proofs::Running::written))]
fn contributes<H: HostMeaning>(
    number: u32,
    places: &[WrittenPlace],
    e: &TypedExpr,
    call: &Call<'_, H>,
    results: &[TypedResult],
    locals: &Locals,
    sums: &mut Sums,
    stack: &mut Vec<u64>,
) -> Result<(), Stopped<TrapKind>>
    ensures { (before contributed : List contribution.Contribution) → sums.old ≡ all_assembled call.now.sets (before ++ contributed) 0 results.now
        → Runs call.now.sets results.now before (spec.contributes (spec.call_in H.answer call.now) number places.now e.now (point locals.now contributed)) result locals.now sums.new }
{
    let size = value_in(e, call, locals, stack)?;
    let row = element_at(call, locals, places.first().copied());
    let column = element_at(call, locals, places.get(1).copied());
    sums.add(results, number, row, column, size.rows, size.columns, stack);
    Ok(())
}

/// A condition has to hold.
#[tactic(auto, unfolding(algebra_meaning::specs::Element::asserted))]
fn asserted<H: HostMeaning>(
    cond: &TypedCond,
    call: &Call<'_, H>,
    locals: &Locals,
    stack: &mut Vec<u64>,
) -> Result<(), Stopped<TrapKind>>
    ensures { (contributed : List contribution.Contribution) → Leads (spec.asserted (spec.call_in H.answer call.now) cond.now (point locals.now contributed)) result (point locals.now contributed) }
{
    if holds_in(cond, call, locals, stack)? {
        Ok(())
    } else {
        Err(Stopped::By(TrapKind::Assertion))
    }
}

/// A statement.
#[cycle(statement)]
#[tactic(auto, unfolding(algebra_meaning::specs::Element::statement_steps, algebra_meaning::specs::Element::chosen))]
fn statement<H: HostMeaning>(
    statement: &FunctionStmt,
    call: &Call<'_, H>,
    results: &[TypedResult],
    locals: &mut Locals,
    sums: &mut Sums,
    stack: &mut Vec<u64>,
) -> Result<(), Stopped<TrapKind>>
    ensures { (before contributed : List contribution.Contribution) → sums.old ≡ all_assembled call.now.sets (before ++ contributed) 0 results.now
        → Runs call.now.sets results.now before (spec.steps_of (spec.call_in H.answer call.now) statement.now (point locals.old contributed)) result locals.new sums.new }
{
    match statement {
        FunctionStmt::Var { local, value, .. } => new_local(*local, value, call, locals, stack),
        FunctionStmt::Assign { local, value, .. } => {
            assigned_local(*local, value, call, locals, stack)
        }
        FunctionStmt::Write {
            result: number,
            places,
            value,
            ..
        } => contributes(
            *number,
            places.items(),
            value,
            call,
            results,
            locals,
            sums,
            stack,
        ),
        FunctionStmt::Loop {
            local,
            from,
            to,
            body,
            ..
        } => looped(
            body.as_slice(),
            *local,
            (*from, *to),
            call,
            results,
            locals,
            sums,
            stack,
        ),
        FunctionStmt::If {
            cond,
            body,
            otherwise,
            ..
        } => {
            if holds_in(cond, call, locals, stack)? {
                in_order(body.as_slice(), call, results, locals, sums, stack)
            } else {
                in_order(otherwise.as_slice(), call, results, locals, sums, stack)
            }
        }
        FunctionStmt::Assert { cond, .. } => asserted(cond, call, locals, stack),
    }
}

/// Statements, one after the other.
#[cycle(statement)]
pub(crate) fn in_order<H: HostMeaning>(
    body: &[FunctionStmt],
    call: &Call<'_, H>,
    results: &[TypedResult],
    locals: &mut Locals,
    sums: &mut Sums,
    stack: &mut Vec<u64>,
) -> Result<(), Stopped<TrapKind>>
    ensures { (before contributed : List contribution.Contribution) → sums.old ≡ all_assembled call.now.sets (before ++ contributed) 0 results.now
        → Runs call.now.sets results.now before (spec.in_order (map (spec.steps_of (spec.call_in H.answer call.now)) body.now) (point locals.old contributed)) result locals.new sums.new }
{
    item_laws::<Point, FunctionStmt, TrapKind>();
    for one in body {
        statement(one, call, results, locals, sums, stack)?;
    }
    Ok(())
}

/// A turn of a loop, whose variable has this value.
#[cycle(statement)]
fn turn<H: HostMeaning>(
    body: &[FunctionStmt],
    local: u32,
    value: u32,
    call: &Call<'_, H>,
    results: &[TypedResult],
    locals: &mut Locals,
    sums: &mut Sums,
    stack: &mut Vec<u64>,
) -> Result<(), Stopped<TrapKind>>
    ensures { (before contributed : List contribution.Contribution) → sums.old ≡ all_assembled call.now.sets (before ++ contributed) 0 results.now
        → Runs call.now.sets results.now before (spec.turn local (map (spec.steps_of (spec.call_in H.answer call.now)) body.now) (point locals.old contributed) value) result locals.new sums.new }
{
    let size = Size {
        rows: 1,
        columns: 1,
    };
    locals.set_from(local, size, &[u64::from(value)])?;
    in_order(body, call, results, locals, sums, stack)
}

/// A loop, whose variable goes from the first bound up to below the second.
#[cycle(statement)]
#[tactic(auto, unfolding(algebra_meaning::specs::Element::looped))]
fn looped<H: HostMeaning>(
    body: &[FunctionStmt],
    local: u32,
    bounds: (u32, u32),
    call: &Call<'_, H>,
    results: &[TypedResult],
    locals: &mut Locals,
    sums: &mut Sums,
    stack: &mut Vec<u64>,
) -> Result<(), Stopped<TrapKind>>
    ensures { (before contributed : List contribution.Contribution) → sums.old ≡ all_assembled call.now.sets (before ++ contributed) 0 results.now
        → Runs call.now.sets results.now before (spec.looped local bounds.0 bounds.1 (map (spec.steps_of (spec.call_in H.answer call.now)) body.now) (point locals.old contributed)) result locals.new sums.new }
{
    number_laws::<Point, TrapKind>();
    let (from, to) = bounds;
    for value in from..to {
        turn(body, local, value, call, results, locals, sums, stack)?;
    }
    Ok(())
}
