//! Expressions, evaluated part by part from left to right.

ghost use Rattle.std.specs.Prelude.{◌≡◌, map};
ghost use Rattle.type_rules.specs.Types.{scale_of};
ghost use Rattle.algebra_meaning.specs.Expression as spec;
ghost use Rattle.algebra_meaning.specs.Means.{Means};

use crate::laws::expression_laws;
use crate::parts::{added, block_in, found, last_value, multiplied, or_trap, push_words};
use crate::references::referred;
use crate::scope::Scope;
use crate::stopped::Stopped;
use host_table::HostMeaning;
use ring_words::TrapKind;
use std::alloc::Global;
use type_rules::{NodeType, scale_of};
use typed_tree::{TypedExpr, TypedFactor, TypedForm, TypedRow, TypedTerm};
use value_algebra::{Value, dot, quotient, rescaled, square_root, transposed};
use vocabulary::L;

/// What an expression means, by what its names stand for: its value, or the first trap.
#[cycle(expression)]
pub fn meaning<H: HostMeaning>(
    alloc: Global,
    e: &TypedExpr,
    scope: &Scope<'_, H>,
) -> Result<Value, Stopped<TrapKind>>
    ensures { Means (spec.meaning (spec.hosted H.answer scope.now) e.now) result }
{
    let value = form_meaning(alloc, &e.form, e.node.value_type, scope)?;
    Ok(value)
}

/// What a form of a type means.
#[cycle(expression)]
#[tactic(auto, unfolding(crate::specs::Expression::form_meaning, crate::specs::Expression::reference, crate::specs::Expression::quotient, crate::specs::Expression::scalar_product))]
fn form_meaning<H: HostMeaning>(
    alloc: Global,
    form: &TypedForm,
    value_type: NodeType,
    scope: &Scope<'_, H>,
) -> Result<Value, Stopped<TrapKind>>
    ensures { Means (spec.form_of (spec.hosted H.answer scope.now) form.now value_type) result }
{
    match form {
        TypedForm::Number { word } => {
            let value = Value::number(alloc, *word)?;
            Ok(value)
        }
        TypedForm::Ref {
            referent,
            args,
            field_args,
        } => {
            let args = meanings(alloc, args.as_slice(), scope)?;
            let indices = meanings(alloc, field_args.as_slice(), scope)?;
            let value = referred(alloc, scope, *referent, args.items(), indices.items())?;
            Ok(value)
        }
        TypedForm::Block { rows } => written(alloc, rows.as_slice(), value_type, scope),
        TypedForm::Sum { terms } => sum(alloc, terms.as_slice(), scope),
        TypedForm::Product { factors } => product(alloc, factors.as_slice(), scope),
        TypedForm::Transposed { value } => transposed_value(alloc, value.get(), scope),
        TypedForm::Rescale { value } => rescaled_value(alloc, value.get(), value_type, scope),
        TypedForm::Quot { dividend, divisor } => {
            let from = dividend.get().node.value_type;
            let by = divisor.get().node.value_type;
            let a = meaning(alloc, dividend.get(), scope)?;
            let b = meaning(alloc, divisor.get(), scope)?;
            divided(alloc, scale_of(value_type), from, by, &a, &b)
        }
        TypedForm::Isqrt { value } => root(alloc, value.get(), value_type, scope),
        TypedForm::Dot { left, right } => {
            let left = meaning(alloc, left.get(), scope)?;
            let right = meaning(alloc, right.get(), scope)?;
            let product = dot(alloc, &left, &right)?;
            Ok(product)
        }
    }
}

/// The values of expressions, one after the other, or the first trap.
#[cycle(expression)]
pub fn meanings<H: HostMeaning>(
    alloc: Global,
    expressions: &[TypedExpr],
    scope: &Scope<'_, H>,
) -> Result<L<Value>, Stopped<TrapKind>>
    ensures { Means (spec.meanings (spec.hosted H.answer scope.now) expressions.now) result }
{
    expression_laws();
    let mut values = L::empty(alloc);
    for e in expressions {
        let value = meaning(alloc, e, scope)?;
        values.push(value)?;
    }
    Ok(values)
}

/// The entries of rows of a block, one row after the other.
#[cycle(expression)]
fn entries<H: HostMeaning>(
    alloc: Global,
    rows: &[TypedRow],
    scope: &Scope<'_, H>,
) -> Result<L<u64>, Stopped<TrapKind>>
    ensures { Means (spec.entries (map (spec.row_of (spec.hosted H.answer scope.now)) rows.now)) result }
{
    expression_laws();
    let mut words = L::empty(alloc);
    for row in rows {
        let values = meanings(alloc, row.entries.as_slice(), scope)?;
        push_words(values.items(), &mut words)?;
    }
    Ok(words)
}

/// What a block of rows means.
#[cycle(expression)]
#[tactic(auto, unfolding(crate::specs::Expression::written))]
fn written<H: HostMeaning>(
    alloc: Global,
    rows: &[TypedRow],
    value_type: NodeType,
    scope: &Scope<'_, H>,
) -> Result<Value, Stopped<TrapKind>>
    ensures { Means (spec.written value_type (map (spec.row_of (spec.hosted H.answer scope.now)) rows.now)) result }
{
    let words = entries(alloc, rows, scope)?;
    Ok(Value::of_block(block_in(value_type), words))
}

/// The total of terms; none where there are none.
#[cycle(expression)]
fn total<H: HostMeaning>(
    alloc: Global,
    terms: &[TypedTerm],
    scope: &Scope<'_, H>,
) -> Result<Option<Value>, Stopped<TrapKind>>
    ensures { Means (spec.total (map (spec.term_of (spec.hosted H.answer scope.now)) terms.now)) result }
{
    expression_laws();
    let mut total = None;
    for term in terms {
        let value = meaning(alloc, &term.value, scope)?;
        total = Some(added(total, term.minus, value));
    }
    Ok(total)
}

/// What a sum means.
#[cycle(expression)]
#[tactic(auto, unfolding(crate::specs::Expression::sum))]
fn sum<H: HostMeaning>(
    alloc: Global,
    terms: &[TypedTerm],
    scope: &Scope<'_, H>,
) -> Result<Value, Stopped<TrapKind>>
    ensures { Means (spec.sum (map (spec.term_of (spec.hosted H.answer scope.now)) terms.now)) result }
{
    let total = total(alloc, terms, scope)?;
    Ok(found(alloc, total))
}

/// The product of factors with its type; none where there are none.
#[cycle(expression)]
fn chain<H: HostMeaning>(
    alloc: Global,
    factors: &[TypedFactor],
    scope: &Scope<'_, H>,
) -> Result<Option<(NodeType, Value)>, Stopped<TrapKind>>
    ensures { Means (spec.chain (map (spec.factor_of (spec.hosted H.answer scope.now)) factors.now)) result }
{
    expression_laws();
    let mut so_far = None;
    for factor in factors {
        let value = meaning(alloc, &factor.value, scope)?;
        let factor_type = factor.value.node.value_type;
        let product = multiplied(alloc, so_far, factor.entrywise, factor_type, value)?;
        so_far = Some((factor.node.value_type, product));
    }
    Ok(so_far)
}

/// What a product means.
#[cycle(expression)]
#[tactic(auto, unfolding(crate::specs::Expression::product))]
fn product<H: HostMeaning>(
    alloc: Global,
    factors: &[TypedFactor],
    scope: &Scope<'_, H>,
) -> Result<Value, Stopped<TrapKind>>
    ensures { Means (spec.product (map (spec.factor_of (spec.hosted H.answer scope.now)) factors.now)) result }
{
    let product = chain(alloc, factors, scope)?;
    Ok(last_value(alloc, product))
}

/// A transposed value.
#[cycle(expression)]
#[tactic(auto, unfolding(crate::specs::Expression::transposed_part))]
fn transposed_value<H: HostMeaning>(
    alloc: Global,
    value: &TypedExpr,
    scope: &Scope<'_, H>,
) -> Result<Value, Stopped<TrapKind>>
    ensures { Means (spec.transposed_part (spec.part_of (spec.hosted H.answer scope.now) value.now)) result }
{
    let value = meaning(alloc, value, scope)?;
    let transposed = transposed(alloc, &value)?;
    Ok(transposed)
}

/// A value at another scale.
#[cycle(expression)]
#[tactic(auto, unfolding(crate::specs::Expression::rescaled_part))]
fn rescaled_value<H: HostMeaning>(
    alloc: Global,
    value: &TypedExpr,
    value_type: NodeType,
    scope: &Scope<'_, H>,
) -> Result<Value, Stopped<TrapKind>>
    ensures { Means (spec.rescaled_part (scale_of value_type) (spec.part_of (spec.hosted H.answer scope.now) value.now)) result }
{
    let from = scale_of(value.node.value_type);
    let value = meaning(alloc, value, scope)?;
    Ok(rescaled(from, scale_of(value_type), value))
}

/// A quotient of the words of two numbers, by the types of these.
fn divided(
    alloc: Global,
    to: u32,
    left_type: NodeType,
    right_type: NodeType,
    left: &Value,
    right: &Value,
) -> Result<Value, Stopped<TrapKind>>
    ensures { Means (spec.divided to left_type right_type left.now right.now) result }
{
    let from = scale_of(left_type);
    let by = scale_of(right_type);
    let word = quotient(left.word_of(), from, right.word_of(), by, to);
    or_trap(alloc, TrapKind::DivisionByZero, word)
}

/// A square root.
#[cycle(expression)]
#[tactic(auto, unfolding(crate::specs::Expression::root))]
fn root<H: HostMeaning>(
    alloc: Global,
    value: &TypedExpr,
    value_type: NodeType,
    scope: &Scope<'_, H>,
) -> Result<Value, Stopped<TrapKind>>
    ensures { Means (spec.root (scale_of value_type) (spec.part_of (spec.hosted H.answer scope.now) value.now)) result }
{
    let from = scale_of(value.node.value_type);
    let value = meaning(alloc, value, scope)?;
    let word = square_root(value.word_of(), from, scale_of(value_type));
    or_trap(alloc, TrapKind::NegativeRoot, word)
}
