//! Whether each factor of a term is ordered once.

ghost use Rattle.std.specs.Prelude.{◌≡◌, ◌++◌, ◌≤◌, IfOk, OnOk, length};
ghost use Rattle.std.specs.List.{flat_map};
ghost use Rattle.chain_forms.specs.ChainForm as form;
ghost use Rattle.chain_forms.specs.Following as spec;

use crate::atoms::{indices_at, is_factor};
use crate::ordering::by_free;
use crate::pairs::are_paired;
use chain_forms::{Chain, Link};
use sim_syntax::{IxAtom, Name};
use std::alloc::Global;
use vocabulary::{L, NoMemory};

/// How often a position stands among links.
#[tactic(auto, unfolding(chain_forms::specs::ChainForm::times_in))]
fn times_in(position: usize, links: &[Link]) -> usize
    ensures value { result ≡ form.times_in position links.now }
    ensures bound { result ≤ length links.now }
{
    let mut count = 0;
    for link in links {
        if link.factor == position {
            count += 1;
        }
    }
    count
}

/// Whether the atom at a position is ordered once if it is a factor, and never if it isn't.
fn is_ordered(atoms: &[IxAtom], links: &[Link], position: usize) -> bool
    ensures { result ≡ spec.is_ordered atoms.now links.now position }
{
    times_in(position, links) == usize::from(is_factor(indices_at(atoms, position)))
}

/// Whether each factor is ordered once.
#[tactic(auto, unfolding(chain_forms::specs::Following::are_ordered), using(crate::proofs::Scans::tests_begun, crate::proofs::Scans::test_passed, crate::proofs::Scans::test_failed, crate::proofs::Scans::tests_ended))]
fn are_ordered(atoms: &[IxAtom], links: &[Link]) -> bool
    ensures { result ≡ spec.are_ordered atoms.now links.now }
{
    for position in 0..atoms.len() {
        if !is_ordered(atoms, links, position) {
            return false;
        }
    }
    true
}

/// Appends links.
fn append(links: &mut L<Link>, more: &[Link]) -> Result<(), NoMemory>
    ensures { OnOk result (links.new ≡ links.old ++ more.now) }
{
    for link in more {
        links.push(*link)?;
    }
    Ok(())
}

/// All links of a chain.
fn links_of(alloc: Global, chain: &Chain) -> Result<L<Link>, NoMemory>
    ensures { IfOk result (λ links. links ≡ form.links_of chain.now) }
{
    let mut links = L::empty(alloc);
    match chain {
        Chain::Empty => {}
        Chain::Between { first, rest } => {
            links.push(*first)?;
            append(&mut links, rest.items())?;
        }
        Chain::Groups(groups) => append_all(&mut links, groups.items())?,
        Chain::Matrices(matrices) => append(&mut links, matrices.items())?,
    }
    Ok(links)
}

/// Appends the links of groups.
fn append_all(links: &mut L<Link>, groups: &[L<Link>]) -> Result<(), NoMemory>
    ensures { OnOk result (links.new ≡ links.old ++ flat_map (λ group. group) groups.now) }
{
    for group in groups {
        append(links, group.items())?;
    }
    Ok(())
}

/// A chain, if it orders each factor once.
fn if_all(alloc: Global, atoms: &[IxAtom], chain: Chain) -> Result<Option<Chain>, NoMemory>
    ensures { IfOk result (λ ordering. ordering ≡ spec.if_all atoms.now chain) }
{
    let links = links_of(alloc, &chain)?;
    if are_ordered(atoms, links.items()) {
        Ok(Some(chain))
    } else {
        Ok(None)
    }
}

/// The ordering of a term's factors that is in the order of the text; none where the term isn't in chain form.
#[tactic(auto, unfolding(chain_forms::specs::Following::ordering))]
pub fn ordering(alloc: Global, free: &[Name], atoms: &[IxAtom]) -> Result<Option<Chain>, NoMemory>
    ensures { IfOk result (λ ordering. ordering ≡ spec.ordering free.now atoms.now) }
{
    if !are_paired(free, atoms) {
        return Ok(None);
    }
    match by_free(alloc, free, atoms)? {
        Some(chain) => if_all(alloc, atoms, chain),
        None => Ok(None),
    }
}
