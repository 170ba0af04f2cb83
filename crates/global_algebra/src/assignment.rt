//! What assignments change.

ghost use Rattle.std.specs.Prelude.{◌≡◌, IfOk, map, slice_set};
ghost use Rattle.std.specs.List.{zip};
ghost use Rattle.typed_tree.specs.declared.main_procedure.TypedTarget.TheVariants as target;
ghost use Rattle.hypergraph.specs.Sets.{set_at};
ghost use Rattle.value_algebra.specs.Fields as fields;
ghost use Rattle.algebra_meaning.specs.Element as element;
ghost use Rattle.algebra_meaning.specs.Expression.{set_fields};
ghost use Rattle.algebra_meaning.specs.Linked.{linked};
ghost use Rattle.algebra_meaning.specs.Run as spec;

use algebra_meaning::{LinkedProgram, State};
use host_table::HostMeaning;
use hypergraph::Sets;
use std::alloc::Global;
use typed_tree::TypedTarget;
use value_algebra::{Value, with_field};
use vocabulary::{L, NoMemory};

/// Values with another in the place of one of them; where there is none, they stay.
fn with_value(values: L<Value>, number: u32, value: Value) -> L<Value>
    ensures { result ≡ slice_set values number value }
{
    let mut all = values.into_vec();
    if let Some(place) = all.get_mut(number as usize) {
        *place = value;
    }
    L::of(all)
}

/// The first values up to a number, and then another.
pub(crate) fn with_local(values: L<Value>, number: u32, value: Value) -> Result<L<Value>, NoMemory>
    ensures { IfOk result (λ locals. locals ≡ element.with_local values number value) }
{
    let mut all = values.into_vec();
    all.truncate(number as usize);
    let mut locals = L::of(all);
    locals.push(value)?;
    Ok(locals)
}

/// The sets with another value in a field of one of them.
fn with_field_of<H: HostMeaning>(
    alloc: Global,
    program: &LinkedProgram<'_, H>,
    mut sets: Sets,
    set: u32,
    field: u32,
    value: Value,
) -> Result<Sets, NoMemory>
    ensures { IfOk result (λ after. after ≡ slice_set sets set (fields.with_field (set_fields program.now set) (set_at sets set) field value.words)) }
{
    let fields = program.set_fields(set);
    with_field(alloc, fields, &mut sets, set, field, value.words)?;
    Ok(sets)
}

/// A state in which a whole target has a value.
#[tactic(auto, unfolding(algebra_meaning::specs::Run::assigned))]
fn assigned<H: HostMeaning>(
    alloc: Global,
    program: &LinkedProgram<'_, H>,
    state: State,
    target: TypedTarget,
    value: Value,
) -> Result<State, NoMemory>
    ensures { IfOk result (λ after. after ≡ spec.assigned (linked H.answer program.now) state (target, value)) }
{
    match target {
        TypedTarget::Variable(variable) => Ok(State {
            sets: state.sets,
            variables: with_value(state.variables, variable, value),
            locals: state.locals,
            turns: state.turns,
        }),
        TypedTarget::Field { set, field } => {
            let sets = with_field_of(alloc, program, state.sets, set, field, value)?;
            Ok(State {
                sets,
                variables: state.variables,
                locals: state.locals,
                turns: state.turns,
            })
        }
    }
}

/// A state in which targets have values, assigned from left to right.
#[tactic(auto, using(crate::proofs::Targets::target_assigned, crate::proofs::Targets::no_target, crate::proofs::Targets::no_value_left))]
pub(crate) fn assign_all<H: HostMeaning>(
    alloc: Global,
    program: &LinkedProgram<'_, H>,
    start: State,
    targets: &[TypedTarget],
    values: L<Value>,
) -> Result<State, NoMemory>
    ensures { IfOk result (λ after. after ≡ spec.all_assigned (linked H.answer program.now) start (zip targets.now values)) }
{
    let mut state = start;
    let mut number = 0;
    for value in values.into_vec() {
        let Some(target) = targets.get(number) else {
            return Ok(state);
        };
        state = assigned(alloc, program, state, *target, value)?;
        number += 1;
    }
    Ok(state)
}

/// A state in which variables have values, assigned from left to right.
pub(crate) fn assign_variables<H: HostMeaning>(
    alloc: Global,
    program: &LinkedProgram<'_, H>,
    state: State,
    variables: &[u32],
    values: L<Value>,
) -> Result<State, NoMemory>
    ensures { IfOk result (λ after. after ≡ spec.all_assigned (linked H.answer program.now) state (zip (map target.Variable variables.now) values)) }
{
    let targets = targets_of(alloc, variables)?;
    assign_all(alloc, program, state, &targets, values)
}

/// Variables as targets.
fn targets_of(alloc: Global, variables: &[u32]) -> Result<Vec<TypedTarget>, NoMemory>
    ensures { IfOk result (λ targets. targets.items ≡ map target.Variable variables.now) }
{
    let mut targets = Vec::new(alloc);
    for variable in variables {
        targets
            .push(TypedTarget::Variable(*variable))
            .map_err(|_| NoMemory)?;
    }
    Ok(targets)
}
