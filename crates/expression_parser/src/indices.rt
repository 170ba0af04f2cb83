//! Index expressions.

ghost use Rattle.sim_grammar.specs.ReadIndices as spec;
ghost use Rattle.token_cursor.specs.Reads.{Reads};

use crate::expressions::sign;
use sim_lexer::{TokenKind, keyword, symbol};
use sim_syntax::{IxAtom, IxTerm, Name, Right};
use sqlite_items::Items;
use std::alloc::Global;
use token_cursor::{Cursor, Halt, each, one_or_two, separated, with_first};

/// One name, or two with a comma between.
#[tactic(auto, unfolding(sim_grammar::specs::ReadIndices::names))]
fn names(alloc: Global, cursor: &mut Cursor<'_>) -> Result<Items<Name>, Halt>
    ensures { Reads (spec.names cursor.old) result cursor.new }
{
    let comma = TokenKind::Symbol(symbol::COMMA);
    let name = |c: &mut Cursor<'_>| c.name(alloc);
    one_or_two(alloc, comma, name, cursor)
}

/// Indices in parentheses, where there are any.
#[tactic(auto, unfolding(sim_grammar::specs::ReadIndices::maybe_indices, sim_grammar::specs::ReadIndices::indices, sim_grammar::specs::Read::skip))]
fn maybe_indices(alloc: Global, cursor: &mut Cursor<'_>) -> Result<Items<Name>, Halt>
    ensures { Reads (spec.maybe_indices cursor.old) result cursor.new }
{
    if !cursor.is_at(TokenKind::Symbol(symbol::OPEN_PAREN)) {
        return Ok(Items::new(alloc));
    }
    cursor.skip(&[TokenKind::Symbol(symbol::OPEN_PAREN)])?;
    let all = names(alloc, cursor)?;
    cursor.skip(&[TokenKind::Symbol(symbol::CLOSE_PAREN)])?;
    Ok(all)
}

/// A field's name after a point, where there is one.
#[tactic(auto, unfolding(sim_grammar::specs::ReadIndices::maybe_field, sim_grammar::specs::Read::skip))]
pub fn maybe_field(alloc: Global, cursor: &mut Cursor<'_>) -> Result<Option<Name>, Halt>
    ensures { Reads (spec.maybe_field cursor.old) result cursor.new }
{
    if !cursor.is_at(TokenKind::Symbol(symbol::POINT)) {
        return Ok(None);
    }
    cursor.skip(&[TokenKind::Symbol(symbol::POINT)])?;
    let field = cursor.name(alloc)?;
    Ok(Some(field))
}

/// A name with its indices.
#[tactic(auto, unfolding(sim_grammar::specs::ReadIndices::ix_named))]
fn ix_named(alloc: Global, cursor: &mut Cursor<'_>) -> Result<IxAtom, Halt>
    ensures { Reads (spec.ix_named cursor.old) result cursor.new }
{
    let line = cursor.line();
    let name = cursor.name(alloc)?;
    let field = maybe_field(alloc, cursor)?;
    let indices = maybe_indices(alloc, cursor)?;
    Ok(IxAtom::Named {
        line,
        name,
        field,
        indices,
    })
}

/// A number.
#[tactic(auto, unfolding(sim_grammar::specs::ReadIndices::ix_number))]
fn ix_number(alloc: Global, cursor: &mut Cursor<'_>) -> Result<IxAtom, Halt>
    ensures { Reads (spec.ix_number cursor.old) result cursor.new }
{
    let line = cursor.line();
    let number = cursor.number(alloc)?;
    Ok(IxAtom::Number { line, number })
}

/// A factor of an index term.
#[tactic(auto, unfolding(sim_grammar::specs::ReadIndices::ix_atom))]
fn ix_atom(alloc: Global, cursor: &mut Cursor<'_>) -> Result<IxAtom, Halt>
    ensures { Reads (spec.ix_atom cursor.old) result cursor.new }
{
    if cursor.is_at(TokenKind::Number) {
        ix_number(alloc, cursor)
    } else {
        ix_named(alloc, cursor)
    }
}

/// The factors of an index term.
#[tactic(auto, unfolding(sim_grammar::specs::ReadIndices::ix_product))]
fn ix_product(alloc: Global, cursor: &mut Cursor<'_>) -> Result<Items<IxAtom>, Halt>
    ensures { Reads (spec.ix_product cursor.old) result cursor.new }
{
    let star = TokenKind::Symbol(symbol::STAR);
    let atom = |c: &mut Cursor<'_>| ix_atom(alloc, c);
    separated(alloc, star, atom, cursor)
}

/// A term after its sign.
#[tactic(auto, unfolding(sim_grammar::specs::ReadIndices::ix_term))]
fn ix_term(alloc: Global, cursor: &mut Cursor<'_>) -> Result<IxTerm, Halt>
    ensures { Reads (spec.ix_term cursor.old) result cursor.new }
{
    let line = cursor.line();
    let minus = sign(cursor)?;
    let atoms = ix_product(alloc, cursor)?;
    Ok(IxTerm { line, minus, atoms })
}

/// The terms after signs.
#[tactic(auto, unfolding(sim_grammar::specs::ReadIndices::ix_terms))]
fn ix_terms(alloc: Global, cursor: &mut Cursor<'_>) -> Result<Items<IxTerm>, Halt>
    ensures { Reads (spec.ix_terms cursor.old) result cursor.new }
{
    let signs = [
        TokenKind::Symbol(symbol::PLUS),
        TokenKind::Symbol(symbol::MINUS),
    ];
    let term = |c: &mut Cursor<'_>| ix_term(alloc, c);
    each(alloc, &signs, term, cursor)
}

/// The first term, maybe with a minus.
#[tactic(auto, unfolding(sim_grammar::specs::ReadIndices::first_ix_term))]
fn first_ix_term(alloc: Global, cursor: &mut Cursor<'_>) -> Result<IxTerm, Halt>
    ensures { Reads (spec.first_ix_term cursor.old) result cursor.new }
{
    let line = cursor.line();
    let minus = cursor.eat(TokenKind::Symbol(symbol::MINUS));
    let atoms = ix_product(alloc, cursor)?;
    Ok(IxTerm { line, minus, atoms })
}

/// A sum of index terms.
#[tactic(auto, unfolding(sim_grammar::specs::ReadIndices::ix_sum))]
fn ix_sum(alloc: Global, cursor: &mut Cursor<'_>) -> Result<Items<IxTerm>, Halt>
    ensures { Reads (spec.ix_sum cursor.old) result cursor.new }
{
    let first = first_ix_term(alloc, cursor)?;
    let others = ix_terms(alloc, cursor)?;
    Ok(with_first(alloc, first, others)?)
}

/// The free names, where there are any.
#[tactic(auto, unfolding(sim_grammar::specs::ReadIndices::free_names, sim_grammar::specs::Read::skip))]
fn free_names(alloc: Global, cursor: &mut Cursor<'_>) -> Result<Items<Name>, Halt>
    ensures { Reads (spec.free_names cursor.old) result cursor.new }
{
    if cursor.is_at(TokenKind::Name) {
        names(alloc, cursor)
    } else {
        Ok(Items::new(alloc))
    }
}

/// An index expression.
#[tactic(auto, unfolding(sim_grammar::specs::ReadIndices::ix))]
pub fn ix(alloc: Global, cursor: &mut Cursor<'_>) -> Result<Right, Halt>
    ensures { Reads (spec.ix cursor.old) result cursor.new }
{
    let line = cursor.line();
    cursor.skip(&[
        TokenKind::Keyword(keyword::IX),
        TokenKind::Symbol(symbol::OPEN_PAREN),
    ])?;
    let free = free_names(alloc, cursor)?;
    cursor.skip(&[TokenKind::Symbol(symbol::CLOSE_PAREN)])?;
    let terms = ix_sum(alloc, cursor)?;
    Ok(Right::Ix { line, free, terms })
}
