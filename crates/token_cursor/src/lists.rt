//! Lists of parts.

ghost use Rattle.std.specs.Prelude.{◌≡◌, IfOk, ◌∷◌, [], length};
ghost use Rattle.sim_grammar.specs.Read as read;
ghost use Rattle.sim_grammar.specs.Read.{Reader, ◌▹◌};
ghost use Rattle.token_cursor.specs.Reads.{Reads};
ghost use Rattle.token_cursor.specs.Nests.{Follows};

use crate::cursor::Cursor;
use crate::halt::Halt;
use sim_lexer::TokenKind;
use sqlite_items::Items;
use std::alloc::{AllocError, Global};

/// Values, and after them others as long as a token of these kinds stands there, each after fixed tokens.
#[tactic(auto, unfolding(sim_grammar::specs::Read::repeat))]
fn repeat<T: Drop, F: Fn(&mut Cursor<'_>) -> Result<T, Halt>>(
    starts: &[TokenKind],
    before: &[TokenKind],
    part: &F,
    values: Items<T>,
    cursor: &mut Cursor<'_>,
) -> Result<Items<T>, Halt>
    requires { F.IsAlwaysCallable part.now }
    ensures { (reader : Reader T) → Follows reader (F.post part.now)
        → Reads (read.repeat (length cursor.old) starts.now (before.now ▹ reader) values cursor.old) result cursor.new }
{
    let mut values = values;
    let mut fuel = cursor.left();
    while fuel > 0 && cursor.is_at_one(starts) {
        cursor.skip(before)?;
        values.push(part(cursor)?)?;
        fuel -= 1;
    }
    Ok(values)
}

/// Values as long as a token of these kinds stands there.
#[tactic(auto, unfolding(sim_grammar::specs::Read::each, sim_grammar::specs::Read::skip))]
pub fn each<T: Drop, F: Fn(&mut Cursor<'_>) -> Result<T, Halt>>(
    alloc: Global,
    starts: &[TokenKind],
    part: F,
    cursor: &mut Cursor<'_>,
) -> Result<Items<T>, Halt>
    requires { F.IsAlwaysCallable part }
    ensures { (reader : Reader T) → Follows reader (F.post part) → Reads (read.each starts.now reader cursor.old) result cursor.new }
{
    repeat(starts, &[], &part, Items::new(alloc), cursor)
}

/// A list of one value.
pub fn only<T: Drop>(alloc: Global, value: T) -> Result<Items<T>, AllocError>
    ensures { IfOk result (λ all. all ≡ value ∷ []) }
{
    let mut all = Items::new(alloc);
    all.push(value)?;
    Ok(all)
}

/// A list with a value before others.
pub fn with_first<T: Drop>(
    alloc: Global,
    first: T,
    others: Items<T>,
) -> Result<Items<T>, AllocError>
    ensures { IfOk result (λ all. all ≡ first ∷ others) }
{
    let mut all = only(alloc, first)?;
    all.append(others)?;
    Ok(all)
}

/// A value, and those that stand after separators.
#[tactic(auto, unfolding(sim_grammar::specs::Read::separated, sim_grammar::specs::Read::each))]
pub fn separated<T: Drop, F: Fn(&mut Cursor<'_>) -> Result<T, Halt>>(
    alloc: Global,
    separator: TokenKind,
    part: F,
    cursor: &mut Cursor<'_>,
) -> Result<Items<T>, Halt>
    requires { F.IsAlwaysCallable part }
    ensures { (reader : Reader T) → Follows reader (F.post part) → Reads (read.separated (separator ∷ []) reader cursor.old) result cursor.new }
{
    let first = only(alloc, part(cursor)?)?;
    repeat(&[separator], &[separator], &part, first, cursor)
}

/// A value, and maybe a second after a separator.
#[tactic(auto, unfolding(sim_grammar::specs::Read::one_or_two, sim_grammar::specs::Read::maybe_second, sim_grammar::specs::Read::skip))]
pub fn one_or_two<T: Drop, F: Fn(&mut Cursor<'_>) -> Result<T, Halt>>(
    alloc: Global,
    separator: TokenKind,
    part: F,
    cursor: &mut Cursor<'_>,
) -> Result<Items<T>, Halt>
    requires { F.IsAlwaysCallable part }
    ensures { (reader : Reader T) → Follows reader (F.post part) → Reads (read.one_or_two (separator ∷ []) reader cursor.old) result cursor.new }
{
    let mut all = only(alloc, part(cursor)?)?;
    if cursor.is_at(separator) {
        cursor.skip(&[separator])?;
        all.push(part(cursor)?)?;
    }
    Ok(all)
}
