//! The ordering of a term's factors, by the number of free indices.

ghost use Rattle.std.specs.Prelude.{◌≡◌, ◌++◌, ◌∷◌, ◌≤◌, [], IfOk, drop, length, take};
ghost use Rattle.chain_forms.specs.ChainForm as form;
ghost use Rattle.chain_forms.specs.Following as spec;
ghost use Rattle.index_notation.specs.Parts as parts;

use crate::atoms::{indices_at, indices_of, is_among, is_factor, is_same};
use crate::following::{followed, other_with};
use crate::pairs::are_paired;
use chain_forms::{Chain, Link};
use sim_syntax::{IxAtom, Name};
use std::alloc::Global;
use vocabulary::{L, NoMemory};

/// Whether a reference with these indices is a vector.
fn is_vector(indices: &[Name]) -> bool
    ensures { result ≡ spec.is_vector indices.now }
{
    matches!(indices, [_])
}

/// The first vector of the text.
#[tactic(auto, using(crate::proofs::Scans::vector_found, crate::proofs::Scans::vector_passed, crate::proofs::Scans::vector_missed))]
fn first_vector(atoms: &[IxAtom]) -> Option<usize>
    ensures { result ≡ spec.first_vector 0 atoms.now }
{
    for (position, atom) in atoms.iter().enumerate() {
        if is_vector(indices_of(atom)) {
            return Some(position);
        }
    }
    None
}

/// The links after a first vector.
fn after_vector(alloc: Global, atoms: &[IxAtom], first: usize) -> Result<Option<Chain>, NoMemory>
    ensures { IfOk result (λ chain. chain ≡ parts.after_first atoms.now first) }
{
    let [index] = indices_at(atoms, first) else {
        return Ok(None);
    };
    let Some(next) = other_with(index, first, atoms) else {
        return Ok(None);
    };
    match followed(alloc, &[], None, atoms, next, index)? {
        Some(rest) => {
            let first = Link {
                factor: first,
                against: false,
            };
            Ok(Some(Chain::Between { first, rest }))
        }
        None => Ok(None),
    }
}

/// With no free index: nothing, or from the first vector on to the other.
fn from_vector(alloc: Global, atoms: &[IxAtom]) -> Result<Option<Chain>, NoMemory>
    ensures { IfOk result (λ chain. chain ≡ spec.from_vector atoms.now (spec.first_vector 0 atoms.now)) }
{
    match first_vector(atoms) {
        Some(first) => after_vector(alloc, atoms, first),
        None => Ok(Some(Chain::Empty)),
    }
}

/// The factor of some links that stands first in the text.
fn first_of(links: &[Link]) -> usize
    ensures { result ≡ form.first_of links.now }
{
    match links {
        [] => 0,
        [first, rest @ ..] => least(first.factor, rest),
    }
}

/// The least of a number and the factors of some links.
#[tactic(auto, using(crate::proofs::Scans::least_taken, crate::proofs::Scans::least_ended))]
fn least(number: usize, links: &[Link]) -> usize
    ensures { result ≡ form.least number links.now }
{
    let mut least = number;
    for link in links {
        least = least.min(link.factor);
    }
    least
}

/// Where a group stands among groups in the order of their first factors.
#[tactic(auto, using(crate::proofs::Groups::placed, crate::proofs::Groups::passed, crate::proofs::Groups::last))]
fn place_of(group: &[Link], groups: &[L<Link>]) -> usize
    ensures within { result ≤ length groups.now }
    ensures place { spec.with_group group.now groups.now ≡ take result groups.now ++ group.now ∷ drop result groups.now }
{
    let first = first_of(group);
    for (place, other) in groups.iter().enumerate() {
        if first < first_of(other.items()) {
            return place;
        }
    }
    groups.len()
}

/// Groups in the order of their first factors, with another one.
fn with_group(groups: L<L<Link>>, group: L<Link>) -> Result<L<L<Link>>, NoMemory>
    ensures { IfOk result (λ all. all ≡ spec.with_group group groups) }
{
    let place = place_of(group.items(), groups.items());
    let mut all = groups.into_vec();
    match all.insert(place, group) {
        Ok(()) => Ok(L::of(all)),
        Err(_) => Err(NoMemory),
    }
}

/// The groups that begin with the atoms that have the free index, in the order of their first factors.
#[tactic(auto, using(crate::proofs::Groups::skipped, crate::proofs::Groups::taken, crate::proofs::Groups::missing, crate::proofs::Groups::ended))]
fn groups(
    alloc: Global,
    free: &[Name],
    index: &Name,
    atoms: &[IxAtom],
) -> Result<Option<L<L<Link>>>, NoMemory>
    requires { free.now ≡ index.now ∷ [] }
    ensures { IfOk result (λ groups. groups ≡ spec.groups_from index.now atoms.now 0 atoms.now []) }
{
    let mut all = L::empty(alloc);
    for (position, atom) in atoms.iter().enumerate() {
        if !is_among(index, indices_of(atom)) {
            continue;
        }
        let Some(group) = followed(alloc, free, None, atoms, position, index)? else {
            return Ok(None);
        };
        all = with_group(all, group)?;
    }
    Ok(Some(all))
}

/// With one free index: at least one group.
fn in_groups(
    alloc: Global,
    free: &[Name],
    index: &Name,
    atoms: &[IxAtom],
) -> Result<Option<Chain>, NoMemory>
    requires { free.now ≡ index.now ∷ [] }
    ensures { IfOk result (λ chain. chain ≡ parts.in_groups index.now atoms.now) }
{
    match groups(alloc, free, index, atoms)? {
        Some(groups) if !groups.items().is_empty() => Ok(Some(Chain::Groups(groups))),
        _ => Ok(None),
    }
}

/// With two free indices that differ: from the first atom with the one on to the other.
fn between_free(
    alloc: Global,
    free: &[Name],
    i: &Name,
    j: &Name,
    atoms: &[IxAtom],
) -> Result<Option<Chain>, NoMemory>
    requires { free.now ≡ i.now ∷ j.now ∷ [] }
    ensures { IfOk result (λ chain. chain ≡ spec.between_free i.now j.now atoms.now) }
{
    if is_same(i, j) {
        return Ok(None);
    }
    let Some(first) = other_with(i, atoms.len(), atoms) else {
        return Ok(None);
    };
    match followed(alloc, free, Some(j), atoms, first, i)? {
        Some(links) => Ok(Some(Chain::Matrices(links))),
        None => Ok(None),
    }
}

/// The only ordering that there can be.
pub fn by_free(alloc: Global, free: &[Name], atoms: &[IxAtom]) -> Result<Option<Chain>, NoMemory>
    ensures { IfOk result (λ chain. chain ≡ spec.by_free free.now atoms.now) }
{
    match free {
        [] => from_vector(alloc, atoms),
        [i] => in_groups(alloc, free, i, atoms),
        [i, j] => between_free(alloc, free, i, j, atoms),
        _ => Ok(None),
    }
}
