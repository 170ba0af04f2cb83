//! Products of what factors are lowered to.

ghost use Rattle.std.specs.Prelude.{◌≡◌, ◌∷◌, [], IfOk, false};
ghost use Rattle.chain_forms.specs.Lowering as spec;

use crate::lists::{boxed, push, reversed};
use sim_syntax::{Expr, ProductFactor};
use sqlite_items::Items;
use std::alloc::Global;
use vocabulary::NoMemory;

/// The factors of a product, of which those after the first are all multiplied entry by entry, or none of them.
#[tactic(auto, using(crate::proofs::Factors::no_factor, crate::proofs::Factors::first_taken, crate::proofs::Factors::taken, crate::proofs::Factors::ended))]
fn factors_of(
    alloc: Global,
    line: u32,
    entrywise: bool,
    factors: Items<Expr>,
) -> Result<Items<ProductFactor>, NoMemory>
    ensures { IfOk result (λ list. list ≡ spec.factors_of line entrywise factors) }
{
    let mut left = reversed(alloc, factors)?;
    let mut list = Items::new(alloc);
    let Some(value) = left.pop() else {
        return Ok(list);
    };
    let first = ProductFactor {
        line,
        entrywise: false,
        value,
    };
    push(&mut list, first)?;
    for _ in 0..left.len() {
        let Some(value) = left.pop() else {
            return Ok(list);
        };
        let factor = ProductFactor {
            line,
            entrywise,
            value,
        };
        push(&mut list, factor)?;
    }
    Ok(list)
}

/// A product of factors, or the only one.
#[tactic(auto, unfolding(chain_forms::specs::Lowering::product), using(crate::proofs::Factors::other_factors))]
pub fn product(
    alloc: Global,
    line: u32,
    entrywise: bool,
    factors: Items<Expr>,
) -> Result<Expr, NoMemory>
    ensures { IfOk result (λ product. product ≡ spec.product line entrywise factors) }
{
    if factors.len() != 1 {
        let factors = factors_of(alloc, line, entrywise, factors)?;
        return Ok(Expr::Product { line, factors });
    }
    let mut factors = factors;
    Ok(factors.remove(0))
}

/// A product of two factors.
fn product_of_two(alloc: Global, line: u32, e: Expr, f: Expr) -> Result<Expr, NoMemory>
    ensures { IfOk result (λ product. product ≡ spec.product line false (e ∷ f ∷ [])) }
{
    let mut factors = Items::new(alloc);
    push(&mut factors, e)?;
    push(&mut factors, f)?;
    product(alloc, line, false, factors)
}

/// The product of each factor and the product of all after it.
#[tactic(auto, using(crate::proofs::Factors::none_nested, crate::proofs::Factors::last_nested, crate::proofs::Factors::one_nested, crate::proofs::Factors::all_nested))]
pub fn nested(alloc: Global, line: u32, factors: Items<Expr>) -> Result<Expr, NoMemory>
    ensures { IfOk result (λ product. product ≡ spec.nested line factors) }
{
    let mut left = factors;
    let Some(last) = left.pop() else {
        return product(alloc, line, false, left);
    };
    let mut value = last;
    for _ in 0..left.len() {
        let Some(e) = left.pop() else {
            return Ok(value);
        };
        value = product_of_two(alloc, line, e, value)?;
    }
    Ok(value)
}

/// The scalar product of the first factor and the nested product of the others.
#[tactic(auto, using(crate::proofs::Factors::none_dotted))]
pub fn dot(alloc: Global, line: u32, factors: Items<Expr>) -> Result<Expr, NoMemory>
    ensures { IfOk result (λ product. product ≡ spec.dot line factors) }
{
    if factors.is_empty() {
        return product(alloc, line, false, factors);
    }
    let mut others = factors;
    let first = others.remove(0);
    let rest = nested(alloc, line, others)?;
    let left = boxed(alloc, first)?;
    let right = boxed(alloc, rest)?;
    Ok(Expr::Dot { line, left, right })
}
