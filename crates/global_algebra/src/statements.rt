//! The statements of the main procedure, one after the other.

ghost use Rattle.std.specs.Prelude.{◌≡◌, IfOk, length, map, replicate};
ghost use Rattle.typed_tree.specs.declared.main_procedure.TypedTarget.TheVariants as target;
ghost use Rattle.value_algebra.specs.Value.{number};
ghost use Rattle.algebra_meaning.specs.Element.{with_local};
ghost use Rattle.algebra_meaning.specs.Expression.{no_value};
ghost use Rattle.algebra_meaning.specs.Linked.{linked};
ghost use Rattle.algebra_meaning.specs.Run as spec;
ghost use Rattle.algebra_meaning.specs.Means.{Means};
ghost use Rattle.global_algebra.specs.Ending.{ending_of};
ghost use Rattle.global_algebra.specs.Turns as turns;

use crate::assignment::{assign_all, assign_variables, with_local};
use crate::ending::Ending;
use crate::maps::Maps;
use crate::right_sides::{right_values, test, value_in};
use algebra_meaning::{LinkedProgram, State, Stop, Stopped};
use host_table::HostMeaning;
use hypergraph::Sets;
use loop_laws::item_laws;
use ring_words::{TrapKind, add, less};
use std::alloc::Global;
use typed_tree::{MainStmt, TypedCond, TypedExpr, TypedRight, TypedTarget};
use value_algebra::Value;
use vocabulary::{L, NoMemory};

/// New variables get the values of a right side.
#[tactic(auto, unfolding(algebra_meaning::specs::Run::assignment))]
fn declare<M: Maps, H: HostMeaning>(
    alloc: Global,
    maps: &M,
    program: &LinkedProgram<'_, H>,
    line: u32,
    variables: &[u32],
    right: &TypedRight,
    state: State,
) -> Result<State, Stopped<Stop>>
    ensures { Means (spec.assignment (linked H.answer program.now) line (map target.Variable variables.now) right.now state) result }
{
    let values = right_values(alloc, maps, program, &state, line, right)?;
    let assigned = assign_variables(alloc, program, state, variables, values)?;
    Ok(assigned)
}

/// Targets get the values of a right side.
#[tactic(auto, unfolding(algebra_meaning::specs::Run::assignment))]
fn assignment<M: Maps, H: HostMeaning>(
    alloc: Global,
    maps: &M,
    program: &LinkedProgram<'_, H>,
    line: u32,
    targets: &[TypedTarget],
    right: &TypedRight,
    state: State,
) -> Result<State, Stopped<Stop>>
    ensures { Means (spec.assignment (linked H.answer program.now) line targets.now right.now state) result }
{
    let values = right_values(alloc, maps, program, &state, line, right)?;
    let assigned = assign_all(alloc, program, state, targets, values)?;
    Ok(assigned)
}

/// An assertion, which traps where its condition doesn't hold.
#[tactic(auto, unfolding(algebra_meaning::specs::Run::asserted))]
fn asserted<H: HostMeaning>(
    alloc: Global,
    program: &LinkedProgram<'_, H>,
    line: u32,
    cond: &TypedCond,
    state: State,
) -> Result<State, Stopped<Stop>>
    ensures { Means (spec.asserted (linked H.answer program.now) line cond.now state) result }
{
    if test(alloc, program, &state, line, cond)? {
        Ok(state)
    } else {
        Err(Stopped::By(Stop::Trap {
            line,
            element: None,
            kind: TrapKind::Assertion,
        }))
    }
}

/// A statement.
#[cycle(statement)]
#[tactic(auto, unfolding(algebra_meaning::specs::Run::statement_runs, algebra_meaning::specs::Run::chosen))]
fn statement<M: Maps, H: HostMeaning>(
    statement: &MainStmt,
    alloc: Global,
    maps: &M,
    program: &LinkedProgram<'_, H>,
    state: State,
) -> Result<State, Stopped<Stop>>
    ensures { Means (spec.runs_of (linked H.answer program.now) statement.now state) result }
{
    match statement {
        MainStmt::Var {
            line,
            variables,
            right,
        } => declare(alloc, maps, program, *line, variables.items(), right, state),
        MainStmt::Assign {
            line,
            targets,
            right,
        } => assignment(alloc, maps, program, *line, targets.items(), right, state),
        MainStmt::While { line, cond, body } => {
            while_held(body.as_slice(), alloc, maps, program, *line, cond, state)
        }
        MainStmt::For {
            line,
            local,
            from,
            to,
            body,
        } => counted(
            body.as_slice(),
            alloc,
            maps,
            program,
            *line,
            *local,
            from,
            to,
            state,
        ),
        MainStmt::If {
            line,
            cond,
            body,
            otherwise,
        } => {
            if test(alloc, program, &state, *line, cond)? {
                in_order(body.as_slice(), alloc, maps, program, state)
            } else {
                in_order(otherwise.as_slice(), alloc, maps, program, state)
            }
        }
        MainStmt::Assert { line, cond } => asserted(alloc, program, *line, cond, state),
    }
}

/// Statements, one after the other.
#[cycle(statement)]
#[tactic(auto, using(crate::proofs::Order::statement_ran, crate::proofs::Order::statement_stopped, crate::proofs::Order::statements_ended))]
fn in_order<M: Maps, H: HostMeaning>(
    body: &[MainStmt],
    alloc: Global,
    maps: &M,
    program: &LinkedProgram<'_, H>,
    start: State,
) -> Result<State, Stopped<Stop>>
    ensures { Means (spec.in_order (map (spec.runs_of (linked H.answer program.now)) body.now) start) result }
{
    item_laws::<State, MainStmt, Stop>();
    let mut state = start;
    for one in body {
        state = statement(one, alloc, maps, program, state)?;
    }
    Ok(state)
}

/// One turn is spent, and then the body of a loop runs; where none is left, the run is spent.
#[cycle(statement)]
fn turn<M: Maps, H: HostMeaning>(
    body: &[MainStmt],
    alloc: Global,
    maps: &M,
    program: &LinkedProgram<'_, H>,
    state: State,
) -> Result<State, Stopped<Stop>>
    ensures { Means (spec.turn (map (spec.runs_of (linked H.answer program.now)) body.now) state) result }
{
    if state.turns == 0 {
        return Err(Stopped::By(Stop::Spent));
    }
    let begun = State {
        sets: state.sets,
        variables: state.variables,
        locals: state.locals,
        turns: state.turns - 1,
    };
    in_order(body, alloc, maps, program, begun)
}

/// Turns as long as a condition holds. Each spends one, so that one more than are left bounds them.
#[cycle(statement)]
#[tactic(auto, using(crate::proofs::Loops::while_begun, crate::proofs::Loops::while_on, crate::proofs::Loops::while_over, crate::proofs::Loops::while_untested, crate::proofs::Loops::while_stopped, crate::proofs::Loops::while_spent))]
fn while_held<M: Maps, H: HostMeaning>(
    body: &[MainStmt],
    alloc: Global,
    maps: &M,
    program: &LinkedProgram<'_, H>,
    line: u32,
    cond: &TypedCond,
    start: State,
) -> Result<State, Stopped<Stop>>
    ensures { Means (spec.while_held (linked H.answer program.now) line cond.now (map (spec.runs_of (linked H.answer program.now)) body.now) start) result }
{
    let most = u64::from(start.turns) + 1;
    let mut state = start;
    for _ in 0..most {
        if !test(alloc, program, &state, line, cond)? {
            return Ok(state);
        }
        state = turn(body, alloc, maps, program, state)?;
    }
    Err(Stopped::By(Stop::Spent))
}

/// A turn with a value of a loop's variable.
#[cycle(statement)]
fn turn_with<M: Maps, H: HostMeaning>(
    body: &[MainStmt],
    alloc: Global,
    maps: &M,
    program: &LinkedProgram<'_, H>,
    local: u32,
    value: u64,
    state: State,
) -> Result<State, Stopped<Stop>>
    ensures { Means (spec.turn (map (spec.runs_of (linked H.answer program.now)) body.now) (spec.with_locals state (with_local state.locals local (number value)))) result }
{
    let value = Value::number(alloc, value)?;
    let begun = State {
        sets: state.sets,
        variables: state.variables,
        locals: with_local(state.locals, local, value)?,
        turns: state.turns,
    };
    turn(body, alloc, maps, program, begun)
}

/// Turns with the values from one up to below another, by their signed readings.
#[cycle(statement)]
#[tactic(auto, using(crate::proofs::Loops::count_begun, crate::proofs::Loops::count_on, crate::proofs::Loops::count_over, crate::proofs::Loops::count_stopped, crate::proofs::Loops::count_spent))]
fn count_up<M: Maps, H: HostMeaning>(
    body: &[MainStmt],
    alloc: Global,
    maps: &M,
    program: &LinkedProgram<'_, H>,
    local: u32,
    from: u64,
    to: u64,
    start: State,
) -> Result<State, Stopped<Stop>>
    ensures { Means (turns.counts local from to (map (spec.runs_of (linked H.answer program.now)) body.now) start) result }
{
    let most = u64::from(start.turns) + 1;
    let mut state = start;
    let mut value = from;
    for _ in 0..most {
        if !less(value, to) {
            return Ok(state);
        }
        state = turn_with(body, alloc, maps, program, local, value, state)?;
        value = add(value, 1);
    }
    Err(Stopped::By(Stop::Spent))
}

/// A loop over numbers, whose bounds are evaluated once.
#[cycle(statement)]
#[tactic(auto, unfolding(algebra_meaning::specs::Run::counted, crate::specs::Turns::counts))]
fn counted<M: Maps, H: HostMeaning>(
    body: &[MainStmt],
    alloc: Global,
    maps: &M,
    program: &LinkedProgram<'_, H>,
    line: u32,
    local: u32,
    from: &TypedExpr,
    to: &TypedExpr,
    state: State,
) -> Result<State, Stopped<Stop>>
    ensures { Means (spec.counted (linked H.answer program.now) line local from.now to.now (map (spec.runs_of (linked H.answer program.now)) body.now) state) result }
{
    let from = value_in(alloc, program, &state, line, from)?;
    let to = value_in(alloc, program, &state, line, to)?;
    count_up(
        body,
        alloc,
        maps,
        program,
        local,
        from.word_of(),
        to.word_of(),
        state,
    )
}

/// A value of no rows.
fn no_value(alloc: Global) -> Value
    ensures { result ≡ no_value }
{
    Value {
        rows: 0,
        columns: 0,
        words: L::empty(alloc),
    }
}

/// The variables before the first statement: none has a value.
fn no_values(alloc: Global, count: usize) -> Result<L<Value>, NoMemory>
    ensures { IfOk result (λ values. values ≡ replicate count no_value) }
{
    let mut values = L::empty(alloc);
    for _ in 0..count {
        values.push(no_value(alloc))?;
    }
    Ok(values)
}

/// The state before the first statement.
fn beginning<H: HostMeaning>(
    alloc: Global,
    program: &LinkedProgram<'_, H>,
    sets: Sets,
    turns: u32,
) -> Result<State, NoMemory>
    ensures { IfOk result (λ state. state ≡ spec.beginning (linked H.answer program.now) sets turns) }
{
    let typed = program.typed;
    let variables = no_values(alloc, typed.variables.items().len())?;
    Ok(State {
        sets,
        variables,
        locals: L::empty(alloc),
        turns,
    })
}

/// The sets after a program, or why it stops before its end.
#[tactic(auto, unfolding(algebra_meaning::specs::Run::run))]
fn run_to_end<M: Maps, H: HostMeaning>(
    alloc: Global,
    maps: &M,
    program: &LinkedProgram<'_, H>,
    sets: Sets,
    turns: u32,
) -> Result<Sets, Stopped<Stop>>
    ensures { Means (spec.run (linked H.answer program.now) sets turns) result }
{
    let start = beginning(alloc, program, sets, turns)?;
    let typed = program.typed;
    let end = in_order(typed.body.as_slice(), alloc, maps, program, start)?;
    Ok(end.sets)
}

/// How a program ends, by a way to compute the results of maps.
pub fn run<M: Maps, H: HostMeaning>(
    alloc: Global,
    maps: &M,
    program: &LinkedProgram<'_, H>,
    sets: Sets,
    turns: u32,
) -> Result<Ending, NoMemory>
    ensures { IfOk result (λ ending. ending ≡ ending_of (spec.run (linked H.answer program.now) sets turns)) }
{
    match run_to_end(alloc, maps, program, sets, turns) {
        Ok(sets) => Ok(Ending::Done(sets)),
        Err(
            Stopped::By(
                Stop::Trap {
                    line,
                    element,
                    kind,
                },
            ),
        ) => Ok(Ending::Trap {
            line,
            element,
            kind,
        }),
        Err(Stopped::By(Stop::Spent)) => Ok(Ending::Spent),
        Err(Stopped::Memory) => Err(NoMemory),
    }
}
