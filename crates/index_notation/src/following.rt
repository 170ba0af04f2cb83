//! Factors one after the other, each the other one that has the index by which the last is left.

ghost use Rattle.std.specs.Prelude.{◌≡◌, IfOk, length};
ghost use Rattle.std.specs.Option.{option_copied};
ghost use Rattle.chain_forms.specs.Following as spec;
ghost use Rattle.index_notation.specs.Parts as parts;

use crate::atoms::{indices_at, indices_of, is_among, is_same};
use chain_forms::Link;
use sim_syntax::{IxAtom, Name};
use std::alloc::Global;
use vocabulary::{L, NoMemory};

/// Whether an atom at a position has an index, and is another one than that at a position.
fn is_other(index: &Name, but: usize, position: usize, atom: &IxAtom) -> bool
    ensures { result ≡ parts.is_other_with index.now but position atom.now }
{
    is_among(index, indices_of(atom)) && position != but
}

/// The first atom with an index, but for one position.
#[tactic(auto, using(crate::proofs::Scans::other_found, crate::proofs::Scans::other_passed, crate::proofs::Scans::other_missed))]
pub fn other_with(index: &Name, but: usize, atoms: &[IxAtom]) -> Option<usize>
    ensures { result ≡ spec.other_with index.now but 0 atoms.now }
{
    for (position, atom) in atoms.iter().enumerate() {
        if is_other(index, but, position, atom) {
            return Some(position);
        }
    }
    None
}

/// A factor that is entered by an index, which one of its indices is.
fn link_at(index: &Name, factor: usize, indices: &[Name]) -> Option<Link>
    ensures { result ≡ spec.link_at index.now factor indices.now }
{
    match indices {
        [i] if is_same(index, i) => Some(Link {
            factor,
            against: false,
        }),
        [i, _] if is_same(index, i) => Some(Link {
            factor,
            against: false,
        }),
        [_, j] if is_same(index, j) => Some(Link {
            factor,
            against: true,
        }),
        _ => None,
    }
}

/// The index by which a factor is left; a vector has none.
fn leaving(link: Link, indices: &[Name]) -> Option<&Name>
    ensures { option_copied result ≡ spec.leaving link indices.now }
{
    match indices {
        [i, j] => Some(if link.against { i } else { j }),
        _ => None,
    }
}

/// Whether an index is the free one at which matrices end.
fn is_end(end: Option<&Name>, index: &Name) -> bool
    ensures { result ≡ spec.is_end (option_copied end.entry) index.now }
{
    match end {
        Some(end) => is_same(end, index),
        None => false,
    }
}

/// Links to a vector, where no free index is the end.
fn to_vector(end: Option<&Name>, links: L<Link>) -> Option<L<Link>>
    ensures { result ≡ parts.to_vector (option_copied end.entry) links }
{
    match end {
        Some(_) => None,
        None => Some(links),
    }
}

/// The links from a factor on, which is entered by an index, to a vector, or to the matrix with the end beside the index by
/// which it is entered.
pub fn followed(
    alloc: Global,
    free: &[Name],
    end: Option<&Name>,
    atoms: &[IxAtom],
    factor: usize,
    index: &Name,
) -> Result<Option<L<Link>>, NoMemory>
    ensures { IfOk result (λ links. links ≡ spec.followed free.now (option_copied end.entry) atoms.now (length atoms.now) factor index.now) }
{
    let mut links = L::empty(alloc);
    let mut factor = factor;
    let mut index = index;
    for _ in 0..atoms.len() {
        let indices = indices_at(atoms, factor);
        let Some(link) = link_at(index, factor, indices) else {
            return Ok(None);
        };
        links.push(link)?;
        let Some(next) = leaving(link, indices) else {
            return Ok(to_vector(end, links));
        };
        if is_end(end, next) {
            return Ok(Some(links));
        }
        if is_among(next, free) {
            return Ok(None);
        }
        let Some(other) = other_with(next, link.factor, atoms) else {
            return Ok(None);
        };
        factor = other;
        index = next;
    }
    Ok(None)
}
