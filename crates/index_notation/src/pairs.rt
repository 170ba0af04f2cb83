//! Whether the indices of a term stand in pairs.

ghost use Rattle.std.specs.Prelude.{◌≡◌};
ghost use Rattle.chain_forms.specs.Following as spec;

use crate::atoms::{atoms_with, indices_of, is_among, is_same};
use sim_syntax::{IxAtom, Name};

/// Whether a reference has at most two indices, and not one of them twice.
fn is_simple(indices: &[Name]) -> bool
    ensures { result ≡ spec.is_simple indices.now }
{
    match indices {
        [] => true,
        [_] => true,
        [i, j] => !is_same(i, j),
        _ => false,
    }
}

/// Whether an index is free, or stands in just two references.
fn is_paired(free: &[Name], atoms: &[IxAtom], index: &Name) -> bool
    ensures { result ≡ spec.is_paired free.now atoms.now index.now }
{
    is_among(index, free) || atoms_with(index, atoms) == 2
}

/// Whether no index stands twice in a reference with these indices, and each that isn't free in just two.
fn is_paired_reference(free: &[Name], atoms: &[IxAtom], indices: &[Name]) -> bool
    ensures { result ≡ spec.is_paired_reference free.now atoms.now indices.now }
{
    is_simple(indices) && indices.iter().all(|index| is_paired(free, atoms, index))
}

/// Whether no index stands twice in one reference, and each that isn't free in just two.
#[tactic(auto, unfolding(chain_forms::specs::Following::are_paired))]
pub fn are_paired(free: &[Name], atoms: &[IxAtom]) -> bool
    ensures { result ≡ spec.are_paired free.now atoms.now }
{
    atoms
        .iter()
        .all(|atom| is_paired_reference(free, atoms, indices_of(atom)))
}
