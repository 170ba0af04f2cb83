//! Names, places, index expressions and right sides, printed.

ghost use Rattle.std.specs.Prelude.{◌≡◌, ◌++◌, ◌∷◌, [], OnOk, map};
ghost use Rattle.std.specs.List.{flat_map};
ghost use Rattle.sim_lexer.specs.declared.token.TokenKind.TheVariants.{Keyword, Symbol};
ghost use Rattle.sim_lexer.specs.declared.token.keyword.TheConstants as key_of;
ghost use Rattle.sim_lexer.specs.declared.token.symbol.TheConstants as sym_of;
ghost use Rattle.sim_grammar.specs.Rule.{sym, key};
ghost use Rattle.sim_printer.specs.Printed as spec;
ghost use Rattle.sim_printer.specs.Grown.{Grown};

use crate::expressions::{before_term, between, expression, listed};
use crate::line::Line;
use sim_lexer::{TokenKind, keyword, symbol};
use sim_syntax::{Expr, Index, IxAtom, IxTerm, Place, Right, Target};
use vocabulary::{NoMemory, Text};

/// Names, with commas between.
#[tactic(auto)]
pub fn names(all: &[Text], line: &mut Line) -> Result<(), NoMemory>
    ensures { OnOk result (Grown line.old line.new (spec.separated (sym sym_of.COMMA) spec.name all.now)) }
{
    let mut is_first = true;
    for one in all {
        between(is_first, TokenKind::Symbol(symbol::COMMA), line)?;
        line.name(one)?;
        is_first = false;
    }
    Ok(())
}

/// Names in parentheses.
#[tactic(auto, using(crate::proofs::Growing::grown_none, crate::proofs::Growing::grown_both))]
fn names_in_parentheses(all: &[Text], line: &mut Line) -> Result<(), NoMemory>
    ensures { OnOk result (Grown line.old line.new (spec.in_parentheses (spec.separated (sym sym_of.COMMA) spec.name all.now))) }
{
    line.fixed(TokenKind::Symbol(symbol::OPEN_PAREN))?;
    names(all, line)?;
    line.fixed(TokenKind::Symbol(symbol::CLOSE_PAREN))
}

/// Names in parentheses, or nothing where there are none.
#[tactic(auto, using(crate::proofs::Growing::grown_none, crate::proofs::Growing::grown_both))]
pub fn listed_names(all: &[Text], line: &mut Line) -> Result<(), NoMemory>
    ensures { OnOk result (Grown line.old line.new (spec.listed spec.name all.now)) }
{
    if all.is_empty() {
        return Ok(());
    }
    names_in_parentheses(all, line)
}

/// A field after a point, if there is one.
#[tactic(auto, using(crate::proofs::Growing::grown_none, crate::proofs::Growing::grown_both))]
fn field_name(field: &Option<Text>, line: &mut Line) -> Result<(), NoMemory>
    ensures { OnOk result (Grown line.old line.new (spec.field_name field.now)) }
{
    match field {
        None => Ok(()),
        Some(field) => {
            line.fixed(TokenKind::Symbol(symbol::POINT))?;
            line.name(field)
        }
    }
}

/// A variable, or a field of a set.
#[tactic(auto, using(crate::proofs::Growing::grown_none, crate::proofs::Growing::grown_both))]
fn target(target: &Target, line: &mut Line) -> Result<(), NoMemory>
    ensures { OnOk result (Grown line.old line.new (spec.target_words target.now)) }
{
    line.name(&target.name)?;
    field_name(&target.field, line)
}

/// Targets, with commas between.
#[tactic(auto)]
pub fn targets(all: &[Target], line: &mut Line) -> Result<(), NoMemory>
    ensures { OnOk result (Grown line.old line.new (spec.separated (sym sym_of.COMMA) spec.target_words all.now)) }
{
    let mut is_first = true;
    for one in all {
        between(is_first, TokenKind::Symbol(symbol::COMMA), line)?;
        target(one, line)?;
        is_first = false;
    }
    Ok(())
}

/// The number of an endpoint.
fn index(index: &Index, line: &mut Line) -> Result<(), NoMemory>
    ensures { OnOk result (Grown line.old line.new (spec.index_words index.now)) }
{
    match index {
        Index::Literal { number, .. } => line.number(number),
        Index::Named { name, .. } => line.name(name),
    }
}

/// The number of an endpoint in parentheses, if there is one.
#[tactic(auto, using(crate::proofs::Growing::grown_none, crate::proofs::Growing::grown_both))]
fn optional_index(of: &Option<Index>, line: &mut Line) -> Result<(), NoMemory>
    ensures { OnOk result (Grown line.old line.new (spec.index_in_parentheses of.now)) }
{
    match of {
        None => Ok(()),
        Some(number) => {
            line.fixed(TokenKind::Symbol(symbol::OPEN_PAREN))?;
            index(number, line)?;
            line.fixed(TokenKind::Symbol(symbol::CLOSE_PAREN))
        }
    }
}

/// The place of a contribution.
#[tactic(auto, using(crate::proofs::Growing::grown_none, crate::proofs::Growing::grown_both))]
fn place(place: &Place, line: &mut Line) -> Result<(), NoMemory>
    ensures { OnOk result (Grown line.old line.new (spec.place_words place.now)) }
{
    line.name(&place.name)?;
    optional_index(&place.index, line)
}

/// Places, with commas between.
#[tactic(auto)]
fn places(all: &[Place], line: &mut Line) -> Result<(), NoMemory>
    ensures { OnOk result (Grown line.old line.new (spec.separated (sym sym_of.COMMA) spec.place_words all.now)) }
{
    let mut is_first = true;
    for one in all {
        between(is_first, TokenKind::Symbol(symbol::COMMA), line)?;
        place(one, line)?;
        is_first = false;
    }
    Ok(())
}

/// Places in parentheses.
#[tactic(auto, using(crate::proofs::Growing::grown_none, crate::proofs::Growing::grown_both))]
pub fn places_in_parentheses(all: &[Place], line: &mut Line) -> Result<(), NoMemory>
    ensures { OnOk result (Grown line.old line.new (spec.in_parentheses (spec.separated (sym sym_of.COMMA) spec.place_words all.now))) }
{
    line.fixed(TokenKind::Symbol(symbol::OPEN_PAREN))?;
    places(all, line)?;
    line.fixed(TokenKind::Symbol(symbol::CLOSE_PAREN))
}

/// A factor of an index term.
#[tactic(auto, using(crate::proofs::Growing::grown_none, crate::proofs::Growing::grown_both))]
fn ix_atom(atom: &IxAtom, line: &mut Line) -> Result<(), NoMemory>
    ensures { OnOk result (Grown line.old line.new (spec.ix_atom_words atom.now)) }
{
    match atom {
        IxAtom::Number { number, .. } => line.number(number),
        IxAtom::Named {
            name,
            field,
            indices,
            ..
        } => {
            line.name(name)?;
            field_name(field, line)?;
            listed_names(indices.as_slice(), line)
        }
    }
}

/// The factors of an index term.
#[tactic(auto)]
fn ix_atoms(all: &[IxAtom], line: &mut Line) -> Result<(), NoMemory>
    ensures { OnOk result (Grown line.old line.new (spec.separated (sym sym_of.STAR) spec.ix_atom_words all.now)) }
{
    let mut is_first = true;
    for one in all {
        between(is_first, TokenKind::Symbol(symbol::STAR), line)?;
        ix_atom(one, line)?;
        is_first = false;
    }
    Ok(())
}

/// The terms of an index sum.
fn ix_terms(all: &[IxTerm], line: &mut Line) -> Result<(), NoMemory>
    ensures { OnOk result (Grown line.old line.new (spec.ix_sum_words all.now)) }
{
    let mut is_first = true;
    for one in all {
        before_term(one.minus, is_first, line)?;
        ix_atoms(one.atoms.as_slice(), line)?;
        is_first = false;
    }
    Ok(())
}

/// Arguments in parentheses, or nothing where there are none.
#[tactic(auto)]
fn arguments(args: &[Expr], line: &mut Line) -> Result<(), NoMemory>
    ensures { OnOk result (Grown line.old line.new (spec.listed spec.expression_words args.now)) }
{
    listed(args, line)
}

/// The call of a map.
#[tactic(auto, using(crate::proofs::Growing::grown_none, crate::proofs::Growing::grown_both))]
fn called(func: &Text, args: &[Expr], line: &mut Line) -> Result<(), NoMemory>
    ensures { OnOk result (Grown line.old line.new (spec.fixed (key key_of.MAP) ++ spec.name func.now ++ spec.listed spec.expression_words args.now)) }
{
    line.fixed(TokenKind::Keyword(keyword::MAP))?;
    line.name(func)?;
    arguments(args, line)
}

/// That a map is summed.
#[tactic(auto, using(crate::proofs::Growing::grown_none, crate::proofs::Growing::grown_both))]
fn summed(set: &Text, line: &mut Line) -> Result<(), NoMemory>
    ensures { OnOk result (Grown line.old line.new (spec.fixed (key key_of.TO) ++ spec.name set.now ++ spec.fixed (Keyword key_of.REDUCE ∷ sym sym_of.PLUS))) }
{
    line.fixed(TokenKind::Keyword(keyword::TO))?;
    line.name(set)?;
    line.fixed(TokenKind::Keyword(keyword::REDUCE))?;
    line.fixed(TokenKind::Symbol(symbol::PLUS))
}

/// The free indices of an index expression.
#[tactic(auto, using(crate::proofs::Growing::grown_none, crate::proofs::Growing::grown_both))]
fn free_indices(free: &[Text], line: &mut Line) -> Result<(), NoMemory>
    ensures { OnOk result (Grown line.old line.new (spec.fixed (key key_of.IX) ++ spec.in_parentheses (spec.separated (sym sym_of.COMMA) spec.name free.now))) }
{
    line.fixed(TokenKind::Keyword(keyword::IX))?;
    names_in_parentheses(free, line)
}

/// A right side.
#[tactic(auto, using(crate::proofs::Growing::grown_both, crate::proofs::Parts::map_grown))]
pub fn right(side: &Right, line: &mut Line) -> Result<(), NoMemory>
    ensures { OnOk result (Grown line.old line.new (spec.right_words side.now)) }
{
    match side {
        Right::Map {
            func,
            args,
            set,
            ..
        } => {
            called(func, args.as_slice(), line)?;
            summed(set, line)
        }
        Right::Ix { free, terms, .. } => {
            free_indices(free.as_slice(), line)?;
            ix_terms(terms.as_slice(), line)
        }
        Right::Value(value) => expression(value, line),
    }
}
