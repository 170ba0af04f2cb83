//! Terms, by an ordering of their factors.

ghost use Rattle.std.specs.Prelude.{◌≡◌, ◌++◌, ◌∷◌, IfOk, OnOk, map, slice_get};
ghost use Rattle.chain_forms.specs.Lowering as spec;
ghost use Rattle.chain_forms.specs.Lowering.{group_product};

use crate::atoms::{indices_of, is_factor, line_of};
use crate::lists::{boxed, push};
use crate::products::{dot, nested, product};
use chain_forms::{Chain, Link};
use sim_syntax::{Expr, IxAtom, Name};
use sqlite_items::{Items, at};
use std::alloc::Global;
use vocabulary::{L, NoMemory};

/// The number of a reference's indices, of which there are at most two.
fn rank_of(indices: &[Name]) -> u32
    ensures { result ≡ spec.rank_of indices.now }
{
    match indices {
        [] => 0,
        [_] => 1,
        _ => 2,
    }
}

/// An equal name, where there is one.
fn copied(alloc: Global, name: &Option<Name>) -> Result<Option<Name>, NoMemory>
    ensures { IfOk result (λ copy. copy ≡ name.now) }
{
    match name {
        Some(name) => Ok(Some(name.copy(alloc)?)),
        None => Ok(None),
    }
}

/// The number or the reference that an atom is; a reference keeps the number of its indices.
fn made(alloc: Global, atom: &IxAtom) -> Result<Expr, NoMemory>
    ensures { IfOk result (λ e. e ≡ spec.made atom.now) }
{
    match atom {
        IxAtom::Number { line, number } => {
            let number = number.copy(alloc)?;
            Ok(Expr::Number {
                line: *line,
                number,
            })
        }
        IxAtom::Named {
            line,
            name,
            field,
            indices,
        } => {
            let name = name.copy(alloc)?;
            let field = copied(alloc, field)?;
            Ok(Expr::Ref {
                line: *line,
                name,
                args: Items::new(alloc),
                field,
                field_args: Items::new(alloc),
                rank: Some(rank_of(indices.as_slice())),
            })
        }
    }
}

/// A factor, which is transposed where it is used against its order.
fn turned(alloc: Global, against: bool, atom: &IxAtom) -> Result<Expr, NoMemory>
    ensures { IfOk result (λ e. e ≡ spec.turned against atom.now) }
{
    let e = made(alloc, atom)?;
    if !against {
        return Ok(e);
    }
    let line = line_of(atom);
    let value = boxed(alloc, e)?;
    Ok(Expr::Transposed { line, value })
}

/// Appends the factor of a link.
fn append_link(
    alloc: Global,
    atoms: &[IxAtom],
    link: Link,
    factors: &mut Items<Expr>,
) -> Result<(), NoMemory>
    ensures { OnOk result (factors.new ≡ factors.old ++ spec.used_at link (slice_get atoms.now link.factor)) }
{
    let Some(atom) = at(atoms, link.factor) else {
        return Ok(());
    };
    let factor = turned(alloc, link.against, atom)?;
    push(factors, factor)
}

/// Appends the factors of links, in their order.
#[tactic(auto, using(crate::proofs::Uses::used_taken, crate::proofs::Uses::used_ended))]
fn append_used(
    alloc: Global,
    atoms: &[IxAtom],
    links: &[Link],
    factors: &mut Items<Expr>,
) -> Result<(), NoMemory>
    ensures { OnOk result (factors.new ≡ factors.old ++ spec.used atoms.now links.now) }
{
    for link in links {
        append_link(alloc, atoms, *link, factors)?;
    }
    Ok(())
}

/// The factors of links, in their order.
fn used(alloc: Global, atoms: &[IxAtom], links: &[Link]) -> Result<Items<Expr>, NoMemory>
    ensures { IfOk result (λ factors. factors ≡ spec.used atoms.now links.now) }
{
    let mut factors = Items::new(alloc);
    append_used(alloc, atoms, links, &mut factors)?;
    Ok(factors)
}

/// The numbers and scalars of a term, in the order of the text.
#[tactic(auto, using(crate::proofs::Uses::scalar_taken, crate::proofs::Uses::factor_passed, crate::proofs::Uses::scalars_ended))]
fn scalars(alloc: Global, atoms: &[IxAtom]) -> Result<Items<Expr>, NoMemory>
    ensures { IfOk result (λ factors. factors ≡ spec.scalars atoms.now) }
{
    let mut factors = Items::new(alloc);
    for atom in atoms {
        if is_factor(indices_of(atom)) {
            continue;
        }
        let scalar = made(alloc, atom)?;
        push(&mut factors, scalar)?;
    }
    Ok(factors)
}

/// The nested product of each group's factors.
#[tactic(auto, using(crate::proofs::Uses::group_taken, crate::proofs::Uses::groups_ended))]
fn group_products(
    alloc: Global,
    line: u32,
    atoms: &[IxAtom],
    groups: &[L<Link>],
) -> Result<Items<Expr>, NoMemory>
    ensures { IfOk result (λ products. products ≡ map (group_product line atoms.now) groups.now) }
{
    let mut products = Items::new(alloc);
    for group in groups {
        let factors = used(alloc, atoms, group.items())?;
        let product = nested(alloc, line, factors)?;
        push(&mut products, product)?;
    }
    Ok(products)
}

/// The factors of a chain between two vectors.
#[tactic(auto, using(crate::proofs::Uses::used_after))]
fn used_between(
    alloc: Global,
    atoms: &[IxAtom],
    first: Link,
    rest: &[Link],
) -> Result<Items<Expr>, NoMemory>
    ensures { IfOk result (λ factors. factors ≡ spec.used atoms.now (first ∷ rest.now)) }
{
    let mut factors = Items::new(alloc);
    append_link(alloc, atoms, first, &mut factors)?;
    append_used(alloc, atoms, rest, &mut factors)?;
    Ok(factors)
}

/// Appends the one factor that a term's chain makes, where it has one.
#[tactic(auto, unfolding(chain_forms::specs::Lowering::chained))]
fn append_chained(
    alloc: Global,
    line: u32,
    atoms: &[IxAtom],
    chain: &Chain,
    factors: &mut Items<Expr>,
) -> Result<(), NoMemory>
    ensures { OnOk result (factors.new ≡ factors.old ++ spec.chained line atoms.now chain.now) }
{
    let chained = match chain {
        Chain::Empty => return Ok(()),
        Chain::Between { first, rest } => {
            let factors = used_between(alloc, atoms, *first, rest.items())?;
            dot(alloc, line, factors)?
        }
        Chain::Groups(groups) => {
            let products = group_products(alloc, line, atoms, groups.items())?;
            product(alloc, line, true, products)?
        }
        Chain::Matrices(links) => {
            let factors = used(alloc, atoms, links.items())?;
            product(alloc, line, false, factors)?
        }
    };
    push(factors, chained)
}

/// What a term is lowered to by an ordering of its factors, with the line of its first atom.
#[tactic(auto, unfolding(chain_forms::specs::Lowering::lowered_by))]
pub fn lowered_by(
    alloc: Global,
    ordering: &Chain,
    line: u32,
    atoms: &[IxAtom],
) -> Result<Expr, NoMemory>
    ensures { IfOk result (λ e. e ≡ spec.lowered_by ordering.now line atoms.now) }
{
    let mut factors = scalars(alloc, atoms)?;
    append_chained(alloc, line, atoms, ordering, &mut factors)?;
    product(alloc, line, false, factors)
}
