//! The values that indices take.

ghost use Rattle.std.specs.Prelude.{◌≡◌, IfOk, map};
ghost use Rattle.typed_tree.specs.declared.expression.TypedForm.{out-TypedForm};
ghost use Rattle.typed_tree.specs.Expressions as spec;

use std::alloc::Global;
use type_rules::{IndexRange, scale_of};
use typed_tree::{Referent, TypedExpr, TypedForm};
use vocabulary::{L, NoMemory};

/// The values that an index with decimals takes, which is no whole number.
fn turn_range(form: &TypedForm) -> IndexRange
    ensures { result ≡ spec.range_in 1 (out-TypedForm form.now) }
{
    match form {
        TypedForm::Ref {
            referent: Referent::Turn { range, .. },
            args,
            field_args,
        } if args.is_empty() && field_args.is_empty() => *range,
        _ => IndexRange::NotConstant,
    }
}

/// The values that an index without decimals takes.
fn whole_range(form: &TypedForm) -> IndexRange
    ensures { result ≡ spec.range_in 0 (out-TypedForm form.now) }
{
    match form {
        TypedForm::Number { word } => IndexRange::UpTo(*word),
        _ => turn_range(form),
    }
}

/// The values that an index takes: a whole number, or a constant loop's variable.
#[tactic(auto, using(crate::proofs::Indices::other_scale))]
fn range_of(index: &TypedExpr) -> IndexRange
    ensures { result ≡ spec.range_of index.now }
{
    if scale_of(index.node.value_type) == 0 {
        whole_range(&index.form)
    } else {
        turn_range(&index.form)
    }
}

/// The values that each index takes.
pub fn ranges_of(alloc: Global, indices: &[TypedExpr]) -> Result<L<IndexRange>, NoMemory>
    ensures { IfOk result (λ ranges. ranges ≡ map spec.range_of indices.now) }
{
    let mut ranges = L::empty(alloc);
    for index in indices {
        ranges.push(range_of(index))?;
    }
    Ok(ranges)
}
