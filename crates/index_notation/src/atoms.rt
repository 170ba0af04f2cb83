//! The atoms of an index term, and the indices that stand in them.

ghost use Rattle.std.specs.Prelude.{◌≡◌, ◌≤◌, length};
ghost use Rattle.std.specs.Str.{bytes_eq};
ghost use Rattle.chain_forms.specs.Atoms as spec;
ghost use Rattle.chain_forms.specs.Lowering as lowering;

use sim_syntax::{IxAtom, Name};

/// The indices of an atom.
pub fn indices_of(atom: &IxAtom) -> &[Name]
    ensures { result.now ≡ spec.indices_of atom.now }
{
    match atom {
        IxAtom::Number { .. } => &[],
        IxAtom::Named { indices, .. } => indices.as_slice(),
    }
}

/// The indices of the atom at a position; past the end there are none.
pub fn indices_at(atoms: &[IxAtom], position: usize) -> &[Name]
    ensures { result.now ≡ spec.indices_at atoms.now position }
{
    match atoms.get(position) {
        Some(atom) => indices_of(atom),
        None => &[],
    }
}

/// Whether an atom with these indices is a factor, no scalar.
pub fn is_factor(indices: &[Name]) -> bool
    ensures { result ≡ spec.is_factor indices.now }
{
    !indices.is_empty()
}

/// Whether two names are one.
pub fn is_same(i: &Name, j: &Name) -> bool
    ensures { result ≡ bytes_eq i.now j.now }
{
    i.has_bytes(j.as_str().as_bytes())
}

/// Whether a name is among some.
pub fn is_among(index: &Name, names: &[Name]) -> bool
    ensures { result ≡ spec.is_among index.now names.now }
{
    names.iter().any(|name| is_same(index, name))
}

/// How many atoms have an index.
#[tactic(auto, unfolding(chain_forms::specs::Atoms::atoms_with))]
pub fn atoms_with(index: &Name, atoms: &[IxAtom]) -> usize
    ensures value { result ≡ spec.atoms_with index.now atoms.now }
    ensures bound { result ≤ length atoms.now }
{
    let mut count = 0;
    for atom in atoms {
        if is_among(index, indices_of(atom)) {
            count += 1;
        }
    }
    count
}

/// The line of an atom.
pub fn line_of(atom: &IxAtom) -> u32
    ensures { result ≡ lowering.line_of atom.now }
{
    match atom {
        IxAtom::Number { line, .. } => *line,
        IxAtom::Named { line, .. } => *line,
    }
}
