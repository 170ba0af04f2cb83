//! What names stand for, read.

ghost use Rattle.std.specs.Prelude.{◌≡◌, IfOk};
ghost use Rattle.hypergraph.specs.Sets.{set_at};
ghost use Rattle.algebra_meaning.specs.Expression as spec;

use crate::context::ElementContext;
use crate::parts::no_value;
use crate::scope::Scope;
use host_table::HostMeaning;
use hypergraph::Sets;
use std::alloc::Global;
use typed_tree::Referent;
use value_algebra::{Value, field_at, field_over};
use vocabulary::NoMemory;

/// A copy of the value of a number; one of no rows where there is none.
pub fn value_at(alloc: Global, values: &[Value], number: u32) -> Result<Value, NoMemory>
    ensures { IfOk result (λ value. value ≡ spec.value_at values.now number) }
{
    match values.get(number as usize) {
        Some(value) => value.copy(alloc),
        None => Ok(no_value(alloc)),
    }
}

/// A whole value, or one of its entries.
fn part(alloc: Global, value: Value, indices: &[Value]) -> Result<Value, NoMemory>
    ensures { IfOk result (λ part. part ≡ spec.part value indices.now) }
{
    match indices {
        [] => Ok(value),
        [row] => Value::number(alloc, value.word_at(row.word_of() as usize, 0)),
        [row, column, ..] => {
            let word = value.word_at(row.word_of() as usize, column.word_of() as usize);
            Value::number(alloc, word)
        }
    }
}

/// The word of the first value; 0 where there is none.
fn first_word(values: &[Value]) -> u64
    ensures { result ≡ spec.first_word values.now }
{
    match values {
        [] => 0,
        [value, ..] => value.word_of(),
    }
}

/// The word of the second value; 0 where there is none.
fn second_word(values: &[Value]) -> u64
    ensures { result ≡ spec.second_word values.now }
{
    match values {
        [] => 0,
        [_, others @ ..] => first_word(others),
    }
}

/// A field of a set.
fn set_field<H: HostMeaning>(
    alloc: Global,
    scope: &Scope<'_, H>,
    set: u32,
    field: u32,
) -> Result<Value, NoMemory>
    ensures { IfOk result (λ value. value ≡ spec.set_field (spec.hosted H.answer scope.now) set field) }
{
    field_over(alloc, scope.program.set_fields(set), scope.sets, set, field)
}

/// The endpoint of an element of a set at a position; 0 where it has none there.
#[tactic(auto, using(std::proofs::lemmas::List::get_or_past))]
pub fn end_in(sets: &Sets, set: u32, element: u32, position: u64) -> u32
    ensures { result ≡ spec.end_in (set_at sets.now set) element position }
{
    if set < sets.len() && element < sets.count(set) && position < u64::from(sets.arity(set)) {
        sets.end(set, element, position as u32)
    } else {
        0
    }
}

/// The endpoint of a function's element at a position.
pub fn end_of(sets: &Sets, place: ElementContext, position: u64) -> u32
    ensures { result ≡ spec.end_of sets.now place position }
{
    end_in(sets, place.mapped, place.element, position)
}

/// The set in which the endpoints of a set lie; none where there is no such set.
#[tactic(auto, using(std::proofs::lemmas::List::get_or_past))]
pub fn over(sets: &Sets, set: u32) -> Option<u32>
    ensures { result ≡ (set_at sets.now set).over }
{
    if set < sets.len() {
        sets.over(set)
    } else {
        None
    }
}

/// A field of a function's element.
fn own_field<H: HostMeaning>(
    alloc: Global,
    scope: &Scope<'_, H>,
    field: u32,
) -> Result<Value, NoMemory>
    ensures { IfOk result (λ value. value ≡ spec.own_field (spec.hosted H.answer scope.now) scope.now.place field) }
{
    match scope.place {
        None => Ok(no_value(alloc)),
        Some(place) => {
            let fields = scope.program.element_fields(place.own);
            field_at(
                alloc,
                fields,
                scope.sets,
                place.mapped,
                field,
                place.element as usize,
            )
        }
    }
}

/// A field of an element of a set in which endpoints lie.
fn field_in<H: HostMeaning>(
    alloc: Global,
    scope: &Scope<'_, H>,
    element_type: u32,
    set: Option<u32>,
    element: u32,
    field: u32,
) -> Result<Value, NoMemory>
    ensures { IfOk result (λ value. value ≡ spec.field_in (spec.hosted H.answer scope.now) element_type set element field) }
{
    match set {
        None => Ok(no_value(alloc)),
        Some(set) => {
            let fields = scope.program.element_fields(element_type);
            field_at(alloc, fields, scope.sets, set, field, element as usize)
        }
    }
}

/// A field of an endpoint of a function's element.
fn end_field<H: HostMeaning>(
    alloc: Global,
    scope: &Scope<'_, H>,
    position: u64,
    field: u32,
) -> Result<Value, NoMemory>
    ensures { IfOk result (λ value. value ≡ spec.end_field (spec.hosted H.answer scope.now) scope.now.place position field) }
{
    let Some(place) = scope.place else {
        return Ok(no_value(alloc));
    };
    match place.ends {
        None => Ok(no_value(alloc)),
        Some(ends) => {
            let set = over(scope.sets, place.mapped);
            let element = end_of(scope.sets, place, position);
            field_in(alloc, scope, ends.element, set, element, field)
        }
    }
}

/// What a name stands for, by the values of its arguments and of those after the point.
pub(crate) fn referred<H: HostMeaning>(
    alloc: Global,
    scope: &Scope<'_, H>,
    referent: Referent,
    args: &[Value],
    indices: &[Value],
) -> Result<Value, NoMemory>
    ensures { IfOk result (λ value. value ≡ spec.referred (spec.hosted H.answer scope.now) referent args.now indices.now) }
{
    match referent {
        Referent::Variable(variable) => value_at(alloc, scope.variables, variable),
        Referent::Local(local) => {
            let value = value_at(alloc, scope.locals, local)?;
            part(alloc, value, args)
        }
        Referent::Turn { local, .. } => value_at(alloc, scope.locals, local),
        Referent::Field { set, field } => set_field(alloc, scope, set, field),
        Referent::Own { field } => {
            let value = own_field(alloc, scope, field)?;
            part(alloc, value, indices)
        }
        Referent::End { field } => {
            let value = end_field(alloc, scope, first_word(args), field)?;
            part(alloc, value, indices)
        }
        Referent::Host(host) => {
            let answer = scope
                .program
                .call(host, first_word(args), second_word(args));
            Value::number(alloc, answer)
        }
    }
}
