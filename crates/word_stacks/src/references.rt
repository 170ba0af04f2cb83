//! What names stand for, read onto the stack.

ghost use Rattle.std.specs.Prelude.{◌≡◌, ◌*◌, ◌+◌, ◌++◌, ℕ, List, IfOk, OnOk, drop, length, map, slice_index, take};
ghost use Rattle.std.specs.List.{flat_map, range_with_len};
ghost use Rattle.hypergraph.specs.Sets.{set_at};
ghost use Rattle.value_algebra.specs.Fields.{element_words, field_at};
ghost use Rattle.value_algebra.specs.Value as value;
ghost use Rattle.algebra_meaning.specs.Expression as expression;
ghost use Rattle.word_stacks.specs.References as spec;
ghost use Rattle.word_stacks.specs.Stack.{sized, value_of};

use crate::indices::Indices;
use crate::operand::{Operand, Size};
use crate::products::word_in;
use crate::stack::push_all;
use crate::words::Words;
use algebra_meaning::{end_of, over};
use host_table::HostMeaning;
use hypergraph::Sets;
use type_rules::BlockShape;
use typed_tree::{Referent, TypedField};
use value_algebra::{block_of, count, entries, entry_of, first_column, push_element, push_over};
use vocabulary::NoMemory;

/// Puts a value of this size onto the stack, or reads its word where it is a number.
fn whole(size: Size, words: &[u64], stack: &mut Vec<u64>) -> Result<Operand, NoMemory>
    ensures value { IfOk result (λ operand. value_of operand (drop (length stack.old.items) stack.new.items) ≡ sized size words.now) }
    ensures kept { OnOk result (take (length stack.old.items) stack.new.items ≡ stack.old.items) }
{
    match words {
        [word] if size.rows == 1 && size.columns == 1 => Ok(Operand::Number(*word)),
        _ => {
            push_all(words, stack)?;
            Ok(Operand::Pushed(size))
        }
    }
}

/// Puts a value of this size onto the stack, or reads an entry of it.
fn part(
    size: Size,
    words: &[u64],
    indices: Indices,
    stack: &mut Vec<u64>,
) -> Result<Operand, NoMemory>
    ensures value { IfOk result (λ operand. value_of operand (drop (length stack.old.items) stack.new.items) ≡ spec.part_at (sized size words.now) indices) }
    ensures kept { OnOk result (take (length stack.old.items) stack.new.items ≡ stack.old.items) }
{
    match indices {
        Indices::Whole => whole(size, words, stack),
        Indices::One(row) => Ok(Operand::Number(word_in(size, words, row as usize, 0))),
        Indices::Two(row, column) => {
            let word = word_in(size, words, row as usize, column as usize);
            Ok(Operand::Number(word))
        }
    }
}

/// Nothing, or an entry of it.
fn nothing(indices: Indices, stack: &mut Vec<u64>) -> Result<Operand, NoMemory>
    ensures value { IfOk result (λ operand. value_of operand (drop (length stack.old.items) stack.new.items) ≡ spec.part_at expression.no_value indices) }
    ensures kept { OnOk result (take (length stack.old.items) stack.new.items ≡ stack.old.items) }
{
    let size = Size {
        rows: 0,
        columns: 0,
    };
    part(size, &[], indices, stack)
}

/// A local, or an entry of it.
fn local<H: HostMeaning>(
    scope: &Words<'_, H>,
    number: u32,
    indices: Indices,
    stack: &mut Vec<u64>,
) -> Result<Operand, NoMemory>
    ensures value { IfOk result (λ operand. value_of operand (drop (length stack.old.items) stack.new.items) ≡ spec.part_at (expression.value_at scope.now.locals number) indices) }
    ensures kept { OnOk result (take (length stack.old.items) stack.new.items ≡ stack.old.items) }
{
    match scope.locals.get(number) {
        Some(slot) => part(slot.size(), slot.words(), indices, stack),
        None => nothing(indices, stack),
    }
}

/// The size of a block.
pub fn size_of(block: BlockShape) -> Size
    ensures { (words : List ℕ) → sized result words ≡ value.block_value block words }
{
    match block {
        BlockShape::Number => Size::NUMBER,
        BlockShape::Vector(side) => Size {
            rows: side as usize,
            columns: 1,
        },
        BlockShape::Matrix(rows, columns) => Size {
            rows: rows as usize,
            columns: columns as usize,
        },
    }
}

/// The word of an index of a field's block at an element; 0 where there is none.
#[tactic(auto, using(crate::proofs::Made::made_at, crate::proofs::Made::made_past))]
fn component(
    fields: &[TypedField],
    sets: &Sets,
    set: u32,
    field: u32,
    element: u32,
    index: u128,
) -> u64
    ensures { result ≡ slice_index (element_words fields.now (set_at sets.now set) field element) index }
{
    if index < u128::from(entries(block_of(fields, field))) {
        let first = first_column(fields, field);
        entry_of(sets, set, element as usize, first, index as u64)
    } else {
        0
    }
}

/// An entry of a field at an element; 0 where there is none.
#[tactic(auto, unfolding(value_algebra::specs::Fields::field_at))]
fn field_entry(
    fields: &[TypedField],
    sets: &Sets,
    set: u32,
    field: u32,
    element: u32,
    row: u64,
    column: u64,
) -> u64
    ensures { result ≡ value.word_at (field_at fields.now (set_at sets.now set) field element) row column }
{
    let columns = size_of(block_of(fields, field)).columns;
    let index = u128::from(row) * columns as u128 + u128::from(column);
    component(fields, sets, set, field, element, index)
}

/// A field at an element as a whole.
#[tactic(auto, unfolding(value_algebra::specs::Fields::field_at))]
fn whole_field(
    fields: &[TypedField],
    sets: &Sets,
    set: u32,
    field: u32,
    element: u32,
    stack: &mut Vec<u64>,
) -> Result<Operand, NoMemory>
    ensures value { IfOk result (λ operand. value_of operand (drop (length stack.old.items) stack.new.items) ≡ field_at fields.now (set_at sets.now set) field element) }
    ensures kept { OnOk result (take (length stack.old.items) stack.new.items ≡ stack.old.items) }
{
    match block_of(fields, field) {
        BlockShape::Number => {
            let first = first_column(fields, field);
            let word = entry_of(sets, set, element as usize, first, 0);
            Ok(Operand::Number(word))
        }
        block => {
            push_element(fields, sets, set, field, element as usize, stack).map_err(|_| NoMemory)?;
            Ok(Operand::Pushed(size_of(block)))
        }
    }
}

/// A field at an element, or an entry of it.
fn field_part(
    fields: &[TypedField],
    sets: &Sets,
    set: u32,
    field: u32,
    element: u32,
    indices: Indices,
    stack: &mut Vec<u64>,
) -> Result<Operand, NoMemory>
    ensures value { IfOk result (λ operand. value_of operand (drop (length stack.old.items) stack.new.items) ≡ spec.part_at (field_at fields.now (set_at sets.now set) field element) indices) }
    ensures kept { OnOk result (take (length stack.old.items) stack.new.items ≡ stack.old.items) }
{
    match indices {
        Indices::Whole => whole_field(fields, sets, set, field, element, stack),
        Indices::One(row) => {
            let word = field_entry(fields, sets, set, field, element, row, 0);
            Ok(Operand::Number(word))
        }
        Indices::Two(row, column) => {
            let word = field_entry(fields, sets, set, field, element, row, column);
            Ok(Operand::Number(word))
        }
    }
}

/// A field of a function's element, or an entry of it.
fn own_field<H: HostMeaning>(
    scope: &Words<'_, H>,
    field: u32,
    indices: Indices,
    stack: &mut Vec<u64>,
) -> Result<Operand, NoMemory>
    ensures value { IfOk result (λ operand. value_of operand (drop (length stack.old.items) stack.new.items) ≡ spec.part_at (expression.own_field (expression.hosted H.answer scope.now) scope.now.place field) indices) }
    ensures kept { OnOk result (take (length stack.old.items) stack.new.items ≡ stack.old.items) }
{
    let place = scope.place;
    let fields = scope.program.element_fields(place.own);
    field_part(
        fields,
        scope.sets,
        place.mapped,
        field,
        place.element,
        indices,
        stack,
    )
}

/// A field of an element of a set in which endpoints lie, or an entry of it.
fn field_in<H: HostMeaning>(
    scope: &Words<'_, H>,
    element_type: u32,
    set: Option<u32>,
    element: u32,
    field: u32,
    indices: Indices,
    stack: &mut Vec<u64>,
) -> Result<Operand, NoMemory>
    ensures value { IfOk result (λ operand. value_of operand (drop (length stack.old.items) stack.new.items) ≡ spec.part_at (expression.field_in (expression.hosted H.answer scope.now) element_type set element field) indices) }
    ensures kept { OnOk result (take (length stack.old.items) stack.new.items ≡ stack.old.items) }
{
    match set {
        None => nothing(indices, stack),
        Some(set) => {
            let fields = scope.program.element_fields(element_type);
            field_part(fields, scope.sets, set, field, element, indices, stack)
        }
    }
}

/// A field of an endpoint of a function's element, or an entry of it.
fn end_field<H: HostMeaning>(
    scope: &Words<'_, H>,
    position: u64,
    field: u32,
    indices: Indices,
    stack: &mut Vec<u64>,
) -> Result<Operand, NoMemory>
    ensures value { IfOk result (λ operand. value_of operand (drop (length stack.old.items) stack.new.items) ≡ spec.part_at (expression.end_field (expression.hosted H.answer scope.now) scope.now.place position field) indices) }
    ensures kept { OnOk result (take (length stack.old.items) stack.new.items ≡ stack.old.items) }
{
    let place = scope.place;
    match place.ends {
        None => nothing(indices, stack),
        Some(ends) => {
            let set = over(scope.sets, place.mapped);
            let element = end_of(scope.sets, place, position);
            field_in(scope, ends.element, set, element, field, indices, stack)
        }
    }
}

/// A field of a set.
#[tactic(auto, unfolding(value_algebra::specs::Fields::field_over))]
fn set_field<H: HostMeaning>(
    scope: &Words<'_, H>,
    set: u32,
    field: u32,
    stack: &mut Vec<u64>,
) -> Result<Operand, NoMemory>
    ensures value { IfOk result (λ operand. value_of operand (drop (length stack.old.items) stack.new.items) ≡ expression.set_field (expression.hosted H.answer scope.now) set field) }
    ensures kept { OnOk result (take (length stack.old.items) stack.new.items ≡ stack.old.items) }
{
    let fields = scope.program.set_fields(set);
    let size = entries(block_of(fields, field));
    let Some(rows) = u64::from(count(scope.sets, set)).checked_mul(size) else {
        return Err(NoMemory);
    };
    push_over(fields, scope.sets, set, field, stack).map_err(|_| NoMemory)?;
    Ok(Operand::Pushed(Size {
        rows: rows as usize,
        columns: 1,
    }))
}

/// A variable of the main procedure, of which a function has none.
fn variable<H: HostMeaning>(
    scope: &Words<'_, H>,
    number: u32,
    stack: &mut Vec<u64>,
) -> Result<Operand, NoMemory>
    ensures value { IfOk result (λ operand. value_of operand (drop (length stack.old.items) stack.new.items) ≡ expression.value_at scope.now.variables number) }
    ensures kept { OnOk result (take (length stack.old.items) stack.new.items ≡ stack.old.items) }
{
    let _locals = scope.locals;
    nothing(Indices::Whole, stack)
}

/// What a name stands for, by its arguments and the indices after the point.
pub fn referred<H: HostMeaning>(
    scope: &Words<'_, H>,
    referent: Referent,
    args: Indices,
    indices: Indices,
    stack: &mut Vec<u64>,
) -> Result<Operand, NoMemory>
    ensures value { IfOk result (λ operand. value_of operand (drop (length stack.old.items) stack.new.items) ≡ spec.referred_at (expression.hosted H.answer scope.now) referent args indices) }
    ensures kept { OnOk result (take (length stack.old.items) stack.new.items ≡ stack.old.items) }
{
    match referent {
        Referent::Variable(number) => variable(scope, number, stack),
        Referent::Local(number) => local(scope, number, args, stack),
        Referent::Turn { local: number, .. } => local(scope, number, Indices::Whole, stack),
        Referent::Field { set, field } => set_field(scope, set, field, stack),
        Referent::Own { field } => own_field(scope, field, indices, stack),
        Referent::End { field } => end_field(scope, args.first(), field, indices, stack),
        Referent::Host(host) => {
            let answer = scope.program.call(host, args.first(), args.second());
            Ok(Operand::Number(answer))
        }
    }
}
