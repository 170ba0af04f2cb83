//! The values of right sides, conditions and bounds, whose traps are those of a statement's line.

ghost use Rattle.std.specs.Prelude.{◌≡◌, Result, slice_get};
ghost use Rattle.ring_words.specs.declared.trap.TrapKind.{TrapKind};
ghost use Rattle.algebra_meaning.specs.declared.stopped.Trapped.{Trapped};
ghost use Rattle.algebra_meaning.specs.Assembled.{mapped};
ghost use Rattle.algebra_meaning.specs.Expression.{hosted};
ghost use Rattle.algebra_meaning.specs.Linked.{linked};
ghost use Rattle.algebra_meaning.specs.Run as spec;
ghost use Rattle.algebra_meaning.specs.Means.{Means};

use crate::maps::Maps;
use algebra_meaning::{
    LinkedProgram, Scope, State, Stop, Stopped, Trapped, holds, meaning, meanings,
};
use host_table::HostMeaning;
use hypergraph::Sets;
use ring_words::TrapKind;
use std::alloc::Global;
use typed_tree::{TypedCond, TypedExpr, TypedFunction, TypedRight};
use value_algebra::Value;
use vocabulary::L;

/// What the names of an expression of the main procedure stand for.
fn scope_in<'a, H: HostMeaning>(program: &'a LinkedProgram<'a, H>, state: &'a State) -> Scope<'a, H>
    ensures { hosted H.answer result ≡ spec.scope_in (linked H.answer program.now) state.now }
{
    Scope {
        program,
        sets: &state.sets,
        variables: state.variables.items(),
        locals: state.locals.items(),
        place: None,
    }
}

/// An answer, whose trap is that of a statement's line.
fn at_line<A: Drop>(line: u32, answer: Result<A, Stopped<TrapKind>>) -> Result<A, Stopped<Stop>>
    ensures { (known : Result A TrapKind) → Means known answer → Means (spec.at line known) result }
{
    match answer {
        Ok(value) => Ok(value),
        Err(Stopped::By(kind)) => Err(Stopped::By(Stop::Trap {
            line,
            element: None,
            kind,
        })),
        Err(Stopped::Memory) => Err(Stopped::Memory),
    }
}

/// An answer of a map, whose trap is that of a statement's line and of the element.
fn at_element<A: Drop>(line: u32, answer: Result<A, Stopped<Trapped>>) -> Result<A, Stopped<Stop>>
    ensures { (known : Result A Trapped) → Means known answer → Means (spec.at_element line known) result }
{
    match answer {
        Ok(value) => Ok(value),
        Err(Stopped::By(trapped)) => Err(Stopped::By(Stop::Trap {
            line,
            element: Some(trapped.element),
            kind: trapped.kind,
        })),
        Err(Stopped::Memory) => Err(Stopped::Memory),
    }
}

/// The value of an expression.
pub(crate) fn value_in<H: HostMeaning>(
    alloc: Global,
    program: &LinkedProgram<'_, H>,
    state: &State,
    line: u32,
    e: &TypedExpr,
) -> Result<Value, Stopped<Stop>>
    ensures { Means (spec.value_in (linked H.answer program.now) state.now line e.now) result }
{
    let scope = scope_in(program, state);
    at_line(line, meaning(alloc, e, &scope))
}

/// Whether a condition holds.
pub(crate) fn test<H: HostMeaning>(
    alloc: Global,
    program: &LinkedProgram<'_, H>,
    state: &State,
    line: u32,
    cond: &TypedCond,
) -> Result<bool, Stopped<Stop>>
    ensures { Means (spec.test (linked H.answer program.now) line cond.now state.now) result }
{
    let scope = scope_in(program, state);
    at_line(line, holds(alloc, cond, &scope))
}

/// The values of a map's arguments.
fn arguments<H: HostMeaning>(
    alloc: Global,
    program: &LinkedProgram<'_, H>,
    state: &State,
    line: u32,
    args: &[TypedExpr],
) -> Result<L<Value>, Stopped<Stop>>
    ensures { Means (spec.arguments (linked H.answer program.now) state.now line args.now) result }
{
    let scope = scope_in(program, state);
    at_line(line, meanings(alloc, args, &scope))
}

/// The results of a map of a function, by the values of its arguments.
fn results<M: Maps, H: HostMeaning>(
    alloc: Global,
    maps: &M,
    program: &LinkedProgram<'_, H>,
    sets: &Sets,
    line: u32,
    function: &TypedFunction,
    set: u32,
    args: &[Value],
) -> Result<L<Value>, Stopped<Stop>>
    ensures { Means (spec.at_element line (mapped (linked H.answer program.now) sets.now set function.now args.now)) result }
{
    let values = maps.mapped(alloc, program, sets, set, function, args);
    at_element(line, values)
}

/// The results of a map, by the values of its arguments; none where there is no such function.
fn map_values<M: Maps, H: HostMeaning>(
    alloc: Global,
    maps: &M,
    program: &LinkedProgram<'_, H>,
    state: &State,
    line: u32,
    function: u32,
    set: u32,
    args: &[Value],
) -> Result<L<Value>, Stopped<Stop>>
    ensures { Means (spec.map_values (linked H.answer program.now) state.now line (slice_get program.now.functions function) set args.now) result }
{
    let typed = program.typed;
    match typed.functions.items().get(function as usize) {
        None => Ok(L::empty(alloc)),
        Some(function) => results(alloc, maps, program, &state.sets, line, function, set, args),
    }
}

/// The values of a right side: the results of a map, or one.
#[tactic(auto, unfolding(algebra_meaning::specs::Run::right_values))]
pub(crate) fn right_values<M: Maps, H: HostMeaning>(
    alloc: Global,
    maps: &M,
    program: &LinkedProgram<'_, H>,
    state: &State,
    line: u32,
    right: &TypedRight,
) -> Result<L<Value>, Stopped<Stop>>
    ensures { Means (spec.right_values (linked H.answer program.now) state.now line right.now) result }
{
    match right {
        TypedRight::Value(e) => {
            let value = value_in(alloc, program, state, line, e)?;
            let mut values = L::empty(alloc);
            values.push(value)?;
            Ok(values)
        }
        TypedRight::Map {
            function,
            set,
            args,
        } => {
            let args = arguments(alloc, program, state, line, args.as_slice())?;
            map_values(
                alloc,
                maps,
                program,
                state,
                line,
                *function,
                *set,
                args.items(),
            )
        }
    }
}
