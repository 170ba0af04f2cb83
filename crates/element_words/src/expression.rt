//! Expressions, evaluated part by part from left to right.

ghost use Rattle.std.specs.Prelude.{◌≡◌, ◌≤◌, OnOk, drop, length, map, take, vec_len};
ghost use Rattle.type_rules.specs.Types.{scale_of};
ghost use Rattle.algebra_meaning.specs.Expression as meaning;
ghost use Rattle.algebra_meaning.specs.Means.{Means};
ghost use Rattle.word_stacks.specs.References.{first_meant};
ghost use Rattle.word_stacks.specs.Stack as spec;
ghost use Rattle.word_stacks.specs.Steps as steps;

use algebra_meaning::{Stopped, block_in, expression_laws};
use host_table::HostMeaning;
use loop_laws::item_laws;
use ring_words::TrapKind;
use type_rules::{NodeType, scale_of};
use typed_tree::{TypedExpr, TypedFactor, TypedForm, TypedRow, TypedTerm};
use vocabulary::L;
use word_stacks::stack::{change, dot, push, settle};
use word_stacks::steps::{added, divided, found, last, multiplied, rooted};
use word_stacks::{
    Change, Indices, Operand, Size, Words, first_word, referred, size_of, transpose,
};

/// What an expression means: a number, or words on the stack; or the first trap.
#[cycle(expression)]
pub(crate) fn operand<H: HostMeaning>(
    e: &TypedExpr,
    scope: &Words<'_, H>,
    stack: &mut Vec<u64>,
) -> Result<Operand, Stopped<TrapKind>>
    ensures value { spec.Leaves (meaning.meaning (meaning.hosted H.answer scope.now) e.now) result (drop (length stack.old.items) stack.new.items) }
    ensures kept { OnOk result (take (length stack.old.items) stack.new.items ≡ stack.old.items) }
{
    let operand = form_operand(&e.form, e.node.value_type, scope, stack)?;
    Ok(operand)
}

/// What a form of a type means.
#[cycle(expression)]
#[tactic(auto, unfolding(algebra_meaning::specs::Expression::form_meaning))]
fn form_operand<H: HostMeaning>(
    form: &TypedForm,
    value_type: NodeType,
    scope: &Words<'_, H>,
    stack: &mut Vec<u64>,
) -> Result<Operand, Stopped<TrapKind>>
    ensures value { spec.Leaves (meaning.form_of (meaning.hosted H.answer scope.now) form.now value_type) result (drop (length stack.old.items) stack.new.items) }
    ensures kept { OnOk result (take (length stack.old.items) stack.new.items ≡ stack.old.items) }
{
    match form {
        TypedForm::Number { word } => Ok(Operand::Number(*word)),
        TypedForm::Ref {
            referent,
            args,
            field_args,
        } => {
            let args = indices(args.as_slice(), scope, stack)?;
            let indices = indices(field_args.as_slice(), scope, stack)?;
            let operand = referred(scope, *referent, args, indices, stack)?;
            Ok(operand)
        }
        TypedForm::Block { rows } => block(rows.as_slice(), value_type, scope, stack),
        TypedForm::Sum { terms } => sum(terms.as_slice(), scope, stack),
        TypedForm::Product { factors } => product(factors.as_slice(), scope, stack),
        TypedForm::Transposed { value } => transposed(value.get(), scope, stack),
        TypedForm::Rescale { value } => rescaled(value.get(), value_type, scope, stack),
        TypedForm::Quot { dividend, divisor } => {
            let from = scale_of(dividend.get().node.value_type);
            let by = scale_of(divisor.get().node.value_type);
            let a = word(dividend.get(), scope, stack)?;
            let b = word(divisor.get(), scope, stack)?;
            let word = divided(a, from, b, by, scale_of(value_type))?;
            Ok(Operand::Number(word))
        }
        TypedForm::Isqrt { value } => root(value.get(), value_type, scope, stack),
        TypedForm::Dot { left, right } => {
            let base = stack.len();
            let left = operand(left.get(), scope, stack)?;
            let product = scalar_product(right.get(), left, base, scope, stack)?;
            Ok(product)
        }
    }
}

/// The first word of what an expression means, which is a number's word, or the first trap.
#[cycle(expression)]
pub(crate) fn word<H: HostMeaning>(
    e: &TypedExpr,
    scope: &Words<'_, H>,
    stack: &mut Vec<u64>,
) -> Result<u64, Stopped<TrapKind>>
    ensures value { Means (first_meant (meaning.meaning (meaning.hosted H.answer scope.now) e.now)) result }
    ensures kept { OnOk result (stack.new.items ≡ stack.old.items) }
{
    let base = stack.len();
    let operand = operand(e, scope, stack)?;
    let word = first_word(operand, &stack[base..]);
    stack.truncate(base);
    Ok(word)
}

/// The words of indices, or the first trap.
#[cycle(expression)]
#[tactic(auto, using(crate::proofs::Folds::index_taken, crate::proofs::Folds::index_stopped, crate::proofs::Folds::indices_begun, crate::proofs::Folds::indices_ended))]
fn indices<H: HostMeaning>(
    expressions: &[TypedExpr],
    scope: &Words<'_, H>,
    stack: &mut Vec<u64>,
) -> Result<Indices, Stopped<TrapKind>>
    ensures value { Means (steps.indices_meant (meaning.meanings (meaning.hosted H.answer scope.now) expressions.now)) result }
    ensures kept { OnOk result (stack.new.items ≡ stack.old.items) }
{
    item_laws::<Indices, TypedExpr, TrapKind>();
    let mut indices = Indices::Whole;
    for e in expressions {
        let index = word(e, scope, stack)?;
        indices = indices.with(index);
    }
    Ok(indices)
}

/// Pushes the words of the entries of a row of a block.
#[cycle(expression)]
#[tactic(auto, using(crate::proofs::Folds::entry_taken, crate::proofs::Folds::entry_stopped, crate::proofs::Folds::entries_begun, crate::proofs::Folds::entries_ended))]
fn push_row<H: HostMeaning>(
    expressions: &[TypedExpr],
    scope: &Words<'_, H>,
    stack: &mut Vec<u64>,
) -> Result<(), Stopped<TrapKind>>
    ensures value { steps.Pushes (steps.words_meant (meaning.meanings (meaning.hosted H.answer scope.now) expressions.now)) result (drop (length stack.old.items) stack.new.items) }
    ensures kept { OnOk result (take (length stack.old.items) stack.new.items ≡ stack.old.items) }
{
    item_laws::<L<u64>, TypedExpr, TrapKind>();
    for e in expressions {
        let word = word(e, scope, stack)?;
        push(word, stack)?;
    }
    Ok(())
}

/// Pushes the words of the rows of a block, one row after the other.
#[cycle(expression)]
#[tactic(auto, using(crate::proofs::Folds::words_taken, crate::proofs::Folds::words_stopped))]
fn push_rows<H: HostMeaning>(
    rows: &[TypedRow],
    scope: &Words<'_, H>,
    stack: &mut Vec<u64>,
) -> Result<(), Stopped<TrapKind>>
    ensures value { steps.Pushes (meaning.entries (map (meaning.row_of (meaning.hosted H.answer scope.now)) rows.now)) result (drop (length stack.old.items) stack.new.items) }
    ensures kept { OnOk result (take (length stack.old.items) stack.new.items ≡ stack.old.items) }
{
    expression_laws();
    for row in rows {
        push_row(row.entries.as_slice(), scope, stack)?;
    }
    Ok(())
}

/// What a block of rows means.
#[cycle(expression)]
#[tactic(auto, unfolding(algebra_meaning::specs::Expression::written))]
fn block<H: HostMeaning>(
    rows: &[TypedRow],
    value_type: NodeType,
    scope: &Words<'_, H>,
    stack: &mut Vec<u64>,
) -> Result<Operand, Stopped<TrapKind>>
    ensures value { spec.Leaves (meaning.written value_type (map (meaning.row_of (meaning.hosted H.answer scope.now)) rows.now)) result (drop (length stack.old.items) stack.new.items) }
    ensures kept { OnOk result (take (length stack.old.items) stack.new.items ≡ stack.old.items) }
{
    push_rows(rows, scope, stack)?;
    Ok(Operand::Pushed(size_of(block_in(value_type))))
}

/// A sum so far, whose words stand from an index on, with another term.
#[cycle(expression)]
#[tactic(auto, unfolding(word_stacks::specs::Steps::added_meant), using(crate::proofs::Parts::room, crate::proofs::Parts::below_kept, crate::proofs::Parts::range_before, crate::proofs::Parts::still_room))]
fn next_total<H: HostMeaning>(
    total: Option<Operand>,
    term: &TypedTerm,
    base: usize,
    scope: &Words<'_, H>,
    stack: &mut Vec<u64>,
) -> Result<Operand, Stopped<TrapKind>>
    requires { base ≤ vec_len stack.old }
    ensures value { spec.Leaves (steps.added_meant (steps.total_of total (drop base stack.old.items)) term.now.minus (meaning.meaning (meaning.hosted H.answer scope.now) term.now.value)) result (drop base stack.new.items) }
    ensures kept { OnOk result (take base stack.new.items ≡ take base stack.old.items) }
    ensures within { OnOk result (base ≤ vec_len stack.new) }
{
    let middle = stack.len();
    let value = operand(&term.value, scope, stack)?;
    let next = added(total, term.minus, value, base, middle, stack)?;
    Ok(next)
}

/// The total of terms; none where there are none.
#[cycle(expression)]
#[tactic(auto, using(crate::proofs::Folds::term_added, crate::proofs::Folds::term_refused))]
fn total<H: HostMeaning>(
    terms: &[TypedTerm],
    scope: &Words<'_, H>,
    stack: &mut Vec<u64>,
) -> Result<Option<Operand>, Stopped<TrapKind>>
    ensures value { steps.LeavesTotal (meaning.total (map (meaning.term_of (meaning.hosted H.answer scope.now)) terms.now)) result (drop (length stack.old.items) stack.new.items) }
    ensures kept { OnOk result (take (length stack.old.items) stack.new.items ≡ stack.old.items) }
{
    expression_laws();
    let base = stack.len();
    let mut total = None;
    for term in terms {
        let next = next_total(total, term, base, scope, stack)?;
        total = Some(next);
    }
    Ok(total)
}

/// What a sum means.
#[cycle(expression)]
#[tactic(auto, unfolding(algebra_meaning::specs::Expression::sum))]
fn sum<H: HostMeaning>(
    terms: &[TypedTerm],
    scope: &Words<'_, H>,
    stack: &mut Vec<u64>,
) -> Result<Operand, Stopped<TrapKind>>
    ensures value { spec.Leaves (meaning.sum (map (meaning.term_of (meaning.hosted H.answer scope.now)) terms.now)) result (drop (length stack.old.items) stack.new.items) }
    ensures kept { OnOk result (take (length stack.old.items) stack.new.items ≡ stack.old.items) }
{
    let base = stack.len();
    let total = total(terms, scope, stack)?;
    Ok(found(total, base, stack))
}

/// A product so far with its type, whose words stand from an index on, with another factor.
#[cycle(expression)]
#[tactic(auto, unfolding(word_stacks::specs::Steps::multiplied_meant), using(crate::proofs::Parts::room, crate::proofs::Parts::below_kept, crate::proofs::Parts::range_before, crate::proofs::Parts::still_room))]
fn next_product<H: HostMeaning>(
    so_far: Option<(NodeType, Operand)>,
    factor: &TypedFactor,
    base: usize,
    scope: &Words<'_, H>,
    stack: &mut Vec<u64>,
) -> Result<Operand, Stopped<TrapKind>>
    requires { base ≤ vec_len stack.old }
    ensures value { spec.Leaves (steps.multiplied_meant (steps.product_of so_far (drop base stack.old.items)) factor.now.entrywise factor.now.value.node.value_type (meaning.meaning (meaning.hosted H.answer scope.now) factor.now.value)) result (drop base stack.new.items) }
    ensures kept { OnOk result (take base stack.new.items ≡ take base stack.old.items) }
    ensures within { OnOk result (base ≤ vec_len stack.new) }
{
    let middle = stack.len();
    let value = operand(&factor.value, scope, stack)?;
    let factor_type = factor.value.node.value_type;
    let next = multiplied(
        so_far,
        factor.entrywise,
        factor_type,
        value,
        base,
        middle,
        stack,
    )?;
    Ok(next)
}

/// The product of factors with its type; none where there are none.
#[cycle(expression)]
#[tactic(auto, using(crate::proofs::Folds::factor_multiplied, crate::proofs::Folds::factor_refused))]
fn chain<H: HostMeaning>(
    factors: &[TypedFactor],
    scope: &Words<'_, H>,
    stack: &mut Vec<u64>,
) -> Result<Option<(NodeType, Operand)>, Stopped<TrapKind>>
    ensures value { steps.LeavesProduct (meaning.chain (map (meaning.factor_of (meaning.hosted H.answer scope.now)) factors.now)) result (drop (length stack.old.items) stack.new.items) }
    ensures kept { OnOk result (take (length stack.old.items) stack.new.items ≡ stack.old.items) }
{
    expression_laws();
    let base = stack.len();
    let mut so_far = None;
    for factor in factors {
        let product = next_product(so_far, factor, base, scope, stack)?;
        so_far = Some((factor.node.value_type, product));
    }
    Ok(so_far)
}

/// What a product means.
#[cycle(expression)]
#[tactic(auto, unfolding(algebra_meaning::specs::Expression::product))]
fn product<H: HostMeaning>(
    factors: &[TypedFactor],
    scope: &Words<'_, H>,
    stack: &mut Vec<u64>,
) -> Result<Operand, Stopped<TrapKind>>
    ensures value { spec.Leaves (meaning.product (map (meaning.factor_of (meaning.hosted H.answer scope.now)) factors.now)) result (drop (length stack.old.items) stack.new.items) }
    ensures kept { OnOk result (take (length stack.old.items) stack.new.items ≡ stack.old.items) }
{
    let base = stack.len();
    let product = chain(factors, scope, stack)?;
    Ok(last(product, base, stack))
}

/// A transposed value.
#[cycle(expression)]
#[tactic(auto, unfolding(algebra_meaning::specs::Expression::transposed_part), using(crate::proofs::Parts::room))]
fn transposed<H: HostMeaning>(
    value: &TypedExpr,
    scope: &Words<'_, H>,
    stack: &mut Vec<u64>,
) -> Result<Operand, Stopped<TrapKind>>
    ensures value { spec.Leaves (meaning.transposed_part (meaning.part_of (meaning.hosted H.answer scope.now) value.now)) result (drop (length stack.old.items) stack.new.items) }
    ensures kept { OnOk result (take (length stack.old.items) stack.new.items ≡ stack.old.items) }
{
    let base = stack.len();
    let value = operand(value, scope, stack)?;
    let transposed = transpose(value, base, stack)?;
    Ok(transposed)
}

/// A value at another scale.
#[cycle(expression)]
#[tactic(auto, unfolding(algebra_meaning::specs::Expression::rescaled_part), using(crate::proofs::Parts::room))]
fn rescaled<H: HostMeaning>(
    value: &TypedExpr,
    value_type: NodeType,
    scope: &Words<'_, H>,
    stack: &mut Vec<u64>,
) -> Result<Operand, Stopped<TrapKind>>
    ensures value { spec.Leaves (meaning.rescaled_part (scale_of value_type) (meaning.part_of (meaning.hosted H.answer scope.now) value.now)) result (drop (length stack.old.items) stack.new.items) }
    ensures kept { OnOk result (take (length stack.old.items) stack.new.items ≡ stack.old.items) }
{
    let base = stack.len();
    let from = scale_of(value.node.value_type);
    let to = scale_of(value_type);
    let value = operand(value, scope, stack)?;
    Ok(change(Change::Rescaled { from, to }, value, base, stack))
}

/// A square root.
#[cycle(expression)]
#[tactic(auto, using(crate::proofs::Forms::root_is, crate::proofs::Forms::root_none, crate::proofs::Forms::root_stopped))]
fn root<H: HostMeaning>(
    value: &TypedExpr,
    value_type: NodeType,
    scope: &Words<'_, H>,
    stack: &mut Vec<u64>,
) -> Result<Operand, Stopped<TrapKind>>
    ensures value { spec.Leaves (meaning.root (scale_of value_type) (meaning.part_of (meaning.hosted H.answer scope.now) value.now)) result (drop (length stack.old.items) stack.new.items) }
    ensures kept { OnOk result (take (length stack.old.items) stack.new.items ≡ stack.old.items) }
{
    let from = scale_of(value.node.value_type);
    let a = word(value, scope, stack)?;
    let word = rooted(a, from, scale_of(value_type))?;
    Ok(Operand::Number(word))
}

/// The scalar product of a value, which stands from an index on, and another one.
#[cycle(expression)]
#[tactic(auto, unfolding(word_stacks::specs::Steps::dot_with), using(crate::proofs::Parts::room, crate::proofs::Parts::below_kept, crate::proofs::Parts::range_before))]
fn scalar_product<H: HostMeaning>(
    right: &TypedExpr,
    left: Operand,
    base: usize,
    scope: &Words<'_, H>,
    stack: &mut Vec<u64>,
) -> Result<Operand, Stopped<TrapKind>>
    requires { base ≤ vec_len stack.old }
    ensures value { spec.Leaves (steps.dot_with (spec.value_of left (drop base stack.old.items)) (meaning.meaning (meaning.hosted H.answer scope.now) right.now)) result (drop base stack.new.items) }
    ensures kept { OnOk result (take base stack.new.items ≡ take base stack.old.items) }
{
    let middle = stack.len();
    let right = operand(right, scope, stack)?;
    let product = dot(left, right, base, middle, stack)?;
    Ok(product)
}

/// An expression's words, appended to the stack, and its size; or its first trap. After a trap, and out of memory, some
/// words of its parts may stand there in their place.
#[tactic(auto, using(crate::proofs::Parts::room))]
pub fn evaluate<H: HostMeaning>(
    e: &TypedExpr,
    scope: &Words<'_, H>,
    stack: &mut Vec<u64>,
) -> Result<Size, Stopped<TrapKind>>
    ensures value { spec.Appends (meaning.meaning (meaning.hosted H.answer scope.now) e.now) result (drop (length stack.old.items) stack.new.items) }
    ensures kept { OnOk result (take (length stack.old.items) stack.new.items ≡ stack.old.items) }
{
    let base = stack.len();
    let operand = operand(e, scope, stack)?;
    let size = settle(operand, base, stack)?;
    Ok(size)
}
