//! The locals of a function.

ghost use Rattle.std.specs.Prelude.{◌≡◌, IfOk, slice_set};
ghost use Rattle.value_algebra.specs.Value.{word_of};
ghost use Rattle.algebra_meaning.specs.Element as spec;
ghost use Rattle.algebra_meaning.specs.Expression.{value_at};

use std::alloc::Global;
use value_algebra::Value;
use vocabulary::{L, NoMemory};

/// The locals with a value for a number: a new one, and those after it are gone.
pub(crate) fn with_local(locals: L<Value>, local: u32, value: Value) -> Result<L<Value>, NoMemory>
    ensures { IfOk result (λ after. after ≡ spec.with_local locals local value) }
{
    let mut values = locals.into_vec();
    values.truncate(local as usize);
    match values.push(value) {
        Ok(()) => Ok(L::of(values)),
        Err(_) => Err(NoMemory),
    }
}

/// The locals with another value in place of that of a number, where there is one.
#[tactic(auto, using(std::proofs::lemmas::List::set_past))]
pub(crate) fn with_other(locals: L<Value>, local: u32, value: Value) -> L<Value>
    ensures { result ≡ slice_set locals local value }
{
    let mut values = locals.into_vec();
    if (local as usize) < values.len() {
        values[local as usize] = value;
    }
    L::of(values)
}

/// The word of a local; 0 where there is none.
pub(crate) fn word_of_local(locals: &[Value], local: u32) -> u64
    ensures { result ≡ word_of (value_at locals.now local) }
{
    match locals.get(local as usize) {
        Some(value) => value.word_of(),
        None => 0,
    }
}

/// Equal values.
pub(crate) fn copies(alloc: Global, values: &[Value]) -> Result<L<Value>, NoMemory>
    ensures { IfOk result (λ copies. copies ≡ values.now) }
{
    let mut copies = L::empty(alloc);
    for value in values {
        copies.push(value.copy(alloc)?)?;
    }
    Ok(copies)
}
