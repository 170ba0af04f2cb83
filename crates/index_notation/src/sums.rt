//! Index expressions: sums of lowered terms.

ghost use Rattle.std.specs.Prelude.{◌≡◌, map};
ghost use Rattle.vocabulary.specs.Answers.{all_ok};
ghost use Rattle.chain_forms.specs.Lowered as spec;
ghost use Rattle.index_notation.specs.Lowers.{Lowers};
ghost use Rattle.index_notation.specs.Parts.{is_plain};

use crate::atoms::line_of;
use crate::fault::LowerFault;
use crate::lists::push;
use crate::ordered::ordering;
use crate::terms::lowered_by;
use sim_syntax::{Expr, IxTerm, Name, SumTerm};
use sqlite_items::Items;
use std::alloc::Global;

/// The line of a term's first atom.
fn term_line(term: &IxTerm) -> u32
    ensures { result ≡ spec.term_line term.now }
{
    match term.atoms.as_slice() {
        [first, ..] => line_of(first),
        [] => term.line,
    }
}

/// A lowered term with its sign, if it is in chain form.
#[tactic(auto, unfolding(chain_forms::specs::Lowered::lowered_term))]
fn lowered_term(
    alloc: Global,
    free: &[Name],
    ix_line: u32,
    term: &IxTerm,
) -> Result<SumTerm, LowerFault>
    ensures { Lowers (spec.lowered_term free.now ix_line term.now) result }
{
    let atoms = term.atoms.as_slice();
    let Some(ordering) = ordering(alloc, free, atoms)? else {
        return Err(LowerFault::NotAChain { line: ix_line });
    };
    let line = term_line(term);
    let value = lowered_by(alloc, &ordering, line, atoms)?;
    Ok(SumTerm {
        line,
        minus: term.minus,
        value,
    })
}

/// Lowered terms, if all are in chain form.
#[tactic(auto, using(crate::proofs::Taking::read_begun, crate::proofs::Taking::read, crate::proofs::Taking::read_refused, crate::proofs::Taking::read_ended))]
fn lowered_terms(
    alloc: Global,
    free: &[Name],
    line: u32,
    terms: &[IxTerm],
) -> Result<Items<SumTerm>, LowerFault>
    ensures { Lowers (all_ok (map (spec.lowered_term free.now line) terms.now)) result }
{
    let mut lowered = Items::new(alloc);
    for term in terms {
        let term = lowered_term(alloc, free, line, term)?;
        push(&mut lowered, term)?;
    }
    Ok(lowered)
}

/// Whether terms are one without a minus.
fn is_plain(terms: &[SumTerm]) -> bool
    ensures { result ≡ is_plain terms.now }
{
    match terms {
        [term] => !term.minus,
        _ => false,
    }
}

/// A sum of terms, or the only one without a minus.
#[tactic(auto, using(crate::proofs::Adding::plain, crate::proofs::Adding::not_plain))]
fn sum(line: u32, terms: Items<SumTerm>) -> Expr
    ensures { result ≡ spec.sum line terms }
{
    if !is_plain(terms.as_slice()) {
        return Expr::Sum { line, terms };
    }
    let mut terms = terms;
    terms.remove(0).value
}

/// What an index expression of a line is lowered to, if it is in chain form.
#[tactic(auto, unfolding(chain_forms::specs::Lowered::lowered_ix))]
pub fn lowered_ix(
    alloc: Global,
    free: &[Name],
    line: u32,
    terms: &[IxTerm],
) -> Result<Expr, LowerFault>
    ensures { Lowers (spec.lowered_ix free.now line terms.now) result }
{
    let terms = lowered_terms(alloc, free, line, terms)?;
    Ok(sum(line, terms))
}
