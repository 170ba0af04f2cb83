//! The places that a contribution names.

ghost use Rattle.sim_grammar.specs.ReadFunctions as spec;
ghost use Rattle.token_cursor.specs.Reads.{Reads};

use sim_lexer::{TokenKind, symbol};
use sim_syntax::{Index, Place};
use sqlite_items::Items;
use std::alloc::Global;
use token_cursor::{Cursor, Halt, one_or_two};

/// A number as an index.
#[tactic(auto, unfolding(sim_grammar::specs::ReadFunctions::literal_index))]
fn literal_index(alloc: Global, cursor: &mut Cursor<'_>) -> Result<Index, Halt>
    ensures { Reads (spec.literal_index cursor.old) result cursor.new }
{
    let line = cursor.line();
    let number = cursor.number(alloc)?;
    Ok(Index::Literal { line, number })
}

/// A name as an index.
#[tactic(auto, unfolding(sim_grammar::specs::ReadFunctions::named_index))]
fn named_index(alloc: Global, cursor: &mut Cursor<'_>) -> Result<Index, Halt>
    ensures { Reads (spec.named_index cursor.old) result cursor.new }
{
    let line = cursor.line();
    let name = cursor.name(alloc)?;
    Ok(Index::Named { line, name })
}

/// The position of an endpoint.
#[tactic(auto, unfolding(sim_grammar::specs::ReadFunctions::index))]
fn index(alloc: Global, cursor: &mut Cursor<'_>) -> Result<Index, Halt>
    ensures { Reads (spec.index cursor.old) result cursor.new }
{
    if cursor.is_at(TokenKind::Number) {
        literal_index(alloc, cursor)
    } else {
        named_index(alloc, cursor)
    }
}

/// The position of an endpoint in parentheses, where there is one.
#[tactic(auto, unfolding(sim_grammar::specs::ReadFunctions::maybe_index, sim_grammar::specs::Read::skip))]
fn maybe_index(alloc: Global, cursor: &mut Cursor<'_>) -> Result<Option<Index>, Halt>
    ensures { Reads (spec.maybe_index cursor.old) result cursor.new }
{
    if !cursor.is_at(TokenKind::Symbol(symbol::OPEN_PAREN)) {
        return Ok(None);
    }
    cursor.skip(&[TokenKind::Symbol(symbol::OPEN_PAREN)])?;
    let index = index(alloc, cursor)?;
    cursor.skip(&[TokenKind::Symbol(symbol::CLOSE_PAREN)])?;
    Ok(Some(index))
}

/// A place.
#[tactic(auto, unfolding(sim_grammar::specs::ReadFunctions::place))]
fn place(alloc: Global, cursor: &mut Cursor<'_>) -> Result<Place, Halt>
    ensures { Reads (spec.place cursor.old) result cursor.new }
{
    let line = cursor.line();
    let name = cursor.name(alloc)?;
    let index = maybe_index(alloc, cursor)?;
    Ok(Place { line, name, index })
}

/// One place, or two with a comma between.
#[tactic(auto, unfolding(sim_grammar::specs::ReadFunctions::one_or_two_places))]
fn one_or_two_places(alloc: Global, cursor: &mut Cursor<'_>) -> Result<Items<Place>, Halt>
    ensures { Reads (spec.one_or_two_places cursor.old) result cursor.new }
{
    let comma = TokenKind::Symbol(symbol::COMMA);
    let part = |c: &mut Cursor<'_>| place(alloc, c);
    one_or_two(alloc, comma, part, cursor)
}

/// Places in parentheses, where there are any.
#[tactic(auto, unfolding(sim_grammar::specs::ReadFunctions::maybe_places, sim_grammar::specs::ReadFunctions::places, sim_grammar::specs::Read::skip))]
pub fn maybe_places(alloc: Global, cursor: &mut Cursor<'_>) -> Result<Option<Items<Place>>, Halt>
    ensures { Reads (spec.maybe_places cursor.old) result cursor.new }
{
    if !cursor.is_at(TokenKind::Symbol(symbol::OPEN_PAREN)) {
        return Ok(None);
    }
    cursor.skip(&[TokenKind::Symbol(symbol::OPEN_PAREN)])?;
    let all = one_or_two_places(alloc, cursor)?;
    cursor.skip(&[TokenKind::Symbol(symbol::CLOSE_PAREN)])?;
    Ok(Some(all))
}
