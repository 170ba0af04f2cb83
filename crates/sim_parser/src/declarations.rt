//! Declarations.

ghost use Rattle.sim_grammar.specs.ReadProgram as spec;
ghost use Rattle.sim_grammar.specs.ReadExpressions.{all_names};
ghost use Rattle.token_cursor.specs.Reads.{Reads};

use sim_lexer::{TokenKind, keyword, symbol};
use sim_syntax::{Decl, Field, Local, Name, Num, Param, ParamKind, ResultDecl};
use sqlite_items::Items;
use statement_parser::func_body;
use std::alloc::Global;
use token_cursor::{Cursor, Halt, each, separated};

/// Names with commas between.
#[tactic(auto, unfolding(sim_grammar::specs::ReadExpressions::all_names))]
fn all_names(alloc: Global, cursor: &mut Cursor<'_>) -> Result<Items<Name>, Halt>
    ensures { Reads (all_names cursor.old) result cursor.new }
{
    let comma = TokenKind::Symbol(symbol::COMMA);
    let name = |c: &mut Cursor<'_>| c.name(alloc);
    separated(alloc, comma, name, cursor)
}

/// A whole number's type: its scale.
#[tactic(auto, unfolding(sim_grammar::specs::ReadProgram::int))]
fn int(alloc: Global, cursor: &mut Cursor<'_>) -> Result<Num, Halt>
    ensures { Reads (spec.int cursor.old) result cursor.new }
{
    cursor.skip(&[
        TokenKind::Keyword(keyword::INT),
        TokenKind::Symbol(symbol::OPEN_PAREN),
    ])?;
    let scale = cursor.number(alloc)?;
    cursor.skip(&[TokenKind::Symbol(symbol::CLOSE_PAREN)])?;
    Ok(scale)
}

/// A number.
#[tactic(auto, unfolding(sim_grammar::specs::ReadProgram::int_local))]
fn int_local(alloc: Global, cursor: &mut Cursor<'_>) -> Result<Local, Halt>
    ensures { Reads (spec.int_local cursor.old) result cursor.new }
{
    let line = cursor.line();
    let scale = int(alloc, cursor)?;
    Ok(Local::Int { line, scale })
}

/// A vector.
#[tactic(auto, unfolding(sim_grammar::specs::ReadProgram::vector_local))]
fn vector_local(alloc: Global, cursor: &mut Cursor<'_>) -> Result<Local, Halt>
    ensures { Reads (spec.vector_local cursor.old) result cursor.new }
{
    let line = cursor.line();
    cursor.skip(&[
        TokenKind::Keyword(keyword::VECTOR),
        TokenKind::Symbol(symbol::OPEN_BRACKET),
    ])?;
    let side = cursor.number(alloc)?;
    cursor.skip(&[
        TokenKind::Symbol(symbol::CLOSE_BRACKET),
        TokenKind::Symbol(symbol::OPEN_PAREN),
    ])?;
    let scale = int(alloc, cursor)?;
    cursor.skip(&[TokenKind::Symbol(symbol::CLOSE_PAREN)])?;
    Ok(Local::Vector { line, side, scale })
}

/// A matrix.
#[tactic(auto, unfolding(sim_grammar::specs::ReadProgram::matrix_local))]
fn matrix_local(alloc: Global, cursor: &mut Cursor<'_>) -> Result<Local, Halt>
    ensures { Reads (spec.matrix_local cursor.old) result cursor.new }
{
    let line = cursor.line();
    cursor.skip(&[
        TokenKind::Keyword(keyword::MATRIX),
        TokenKind::Symbol(symbol::OPEN_BRACKET),
    ])?;
    let rows = cursor.number(alloc)?;
    cursor.skip(&[TokenKind::Symbol(symbol::COMMA)])?;
    let columns = cursor.number(alloc)?;
    cursor.skip(&[
        TokenKind::Symbol(symbol::CLOSE_BRACKET),
        TokenKind::Symbol(symbol::OPEN_PAREN),
    ])?;
    let scale = int(alloc, cursor)?;
    cursor.skip(&[TokenKind::Symbol(symbol::CLOSE_PAREN)])?;
    Ok(Local::Matrix {
        line,
        rows,
        columns,
        scale,
    })
}

/// What a field or a block is made of.
#[tactic(auto, unfolding(sim_grammar::specs::ReadProgram::local))]
fn local(alloc: Global, cursor: &mut Cursor<'_>) -> Result<Local, Halt>
    ensures { Reads (spec.local cursor.old) result cursor.new }
{
    if cursor.is_at(TokenKind::Keyword(keyword::INT)) {
        int_local(alloc, cursor)
    } else if cursor.is_at(TokenKind::Keyword(keyword::VECTOR)) {
        vector_local(alloc, cursor)
    } else {
        matrix_local(alloc, cursor)
    }
}

/// A scalar parameter.
#[tactic(auto, unfolding(sim_grammar::specs::ReadProgram::int_kind))]
fn int_kind(alloc: Global, cursor: &mut Cursor<'_>) -> Result<ParamKind, Halt>
    ensures { Reads (spec.int_kind cursor.old) result cursor.new }
{
    let line = cursor.line();
    let scale = int(alloc, cursor)?;
    Ok(ParamKind::Int { line, scale })
}

/// An element as a parameter.
#[tactic(auto, unfolding(sim_grammar::specs::ReadProgram::element_kind))]
fn element_kind(alloc: Global, cursor: &mut Cursor<'_>) -> Result<ParamKind, Halt>
    ensures { Reads (spec.element_kind cursor.old) result cursor.new }
{
    let line = cursor.line();
    let element = cursor.name(alloc)?;
    Ok(ParamKind::Element { line, element })
}

/// Endpoints as a parameter.
#[tactic(auto, unfolding(sim_grammar::specs::ReadProgram::ends_kind))]
fn ends_kind(alloc: Global, cursor: &mut Cursor<'_>) -> Result<ParamKind, Halt>
    ensures { Reads (spec.ends_kind cursor.old) result cursor.new }
{
    let line = cursor.line();
    cursor.skip(&[TokenKind::Symbol(symbol::OPEN_PAREN)])?;
    let element = cursor.name(alloc)?;
    cursor.skip(&[TokenKind::Symbol(symbol::STAR)])?;
    let count = cursor.number(alloc)?;
    cursor.skip(&[TokenKind::Symbol(symbol::CLOSE_PAREN)])?;
    Ok(ParamKind::Ends {
        line,
        element,
        count,
    })
}

/// What a parameter stands for.
#[tactic(auto, unfolding(sim_grammar::specs::ReadProgram::param_kind))]
fn param_kind(alloc: Global, cursor: &mut Cursor<'_>) -> Result<ParamKind, Halt>
    ensures { Reads (spec.param_kind cursor.old) result cursor.new }
{
    if cursor.is_at(TokenKind::Keyword(keyword::INT)) {
        int_kind(alloc, cursor)
    } else if cursor.is_at(TokenKind::Name) {
        element_kind(alloc, cursor)
    } else {
        ends_kind(alloc, cursor)
    }
}

/// A parameter.
#[tactic(auto, unfolding(sim_grammar::specs::ReadProgram::param))]
fn param(alloc: Global, cursor: &mut Cursor<'_>) -> Result<Param, Halt>
    ensures { Reads (spec.param cursor.old) result cursor.new }
{
    let line = cursor.line();
    let name = cursor.name(alloc)?;
    cursor.skip(&[TokenKind::Symbol(symbol::COLON)])?;
    let kind = param_kind(alloc, cursor)?;
    Ok(Param { line, name, kind })
}

/// Parameters with commas between.
#[tactic(auto, unfolding(sim_grammar::specs::ReadProgram::params))]
fn params(alloc: Global, cursor: &mut Cursor<'_>) -> Result<Items<Param>, Halt>
    ensures { Reads (spec.params cursor.old) result cursor.new }
{
    let comma = TokenKind::Symbol(symbol::COMMA);
    let part = |c: &mut Cursor<'_>| param(alloc, c);
    separated(alloc, comma, part, cursor)
}

/// The rows and the block of a vector.
#[tactic(auto, unfolding(sim_grammar::specs::ReadProgram::vector_shape))]
fn vector_shape(
    alloc: Global,
    cursor: &mut Cursor<'_>,
) -> Result<(Name, (Option<Name>, Local)), Halt>
    ensures { Reads (spec.vector_shape cursor.old) result cursor.new }
{
    cursor.skip(&[
        TokenKind::Keyword(keyword::VECTOR),
        TokenKind::Symbol(symbol::OPEN_BRACKET),
    ])?;
    let rows = cursor.name(alloc)?;
    cursor.skip(&[
        TokenKind::Symbol(symbol::CLOSE_BRACKET),
        TokenKind::Symbol(symbol::OPEN_PAREN),
    ])?;
    let block = local(alloc, cursor)?;
    cursor.skip(&[TokenKind::Symbol(symbol::CLOSE_PAREN)])?;
    Ok((rows, (None, block)))
}

/// The rows, the columns and the block of a matrix.
#[tactic(auto, unfolding(sim_grammar::specs::ReadProgram::matrix_shape))]
fn matrix_shape(
    alloc: Global,
    cursor: &mut Cursor<'_>,
) -> Result<(Name, (Option<Name>, Local)), Halt>
    ensures { Reads (spec.matrix_shape cursor.old) result cursor.new }
{
    cursor.skip(&[
        TokenKind::Keyword(keyword::MATRIX),
        TokenKind::Symbol(symbol::OPEN_BRACKET),
    ])?;
    let rows = cursor.name(alloc)?;
    cursor.skip(&[TokenKind::Symbol(symbol::COMMA)])?;
    let columns = cursor.name(alloc)?;
    cursor.skip(&[
        TokenKind::Symbol(symbol::CLOSE_BRACKET),
        TokenKind::Symbol(symbol::OPEN_PAREN),
    ])?;
    let block = local(alloc, cursor)?;
    cursor.skip(&[TokenKind::Symbol(symbol::CLOSE_PAREN)])?;
    Ok((rows, (Some(columns), block)))
}

/// The sets and the block of a result.
#[tactic(auto, unfolding(sim_grammar::specs::ReadProgram::shape))]
fn shape(alloc: Global, cursor: &mut Cursor<'_>) -> Result<(Name, (Option<Name>, Local)), Halt>
    ensures { Reads (spec.shape cursor.old) result cursor.new }
{
    if cursor.is_at(TokenKind::Keyword(keyword::VECTOR)) {
        vector_shape(alloc, cursor)
    } else {
        matrix_shape(alloc, cursor)
    }
}

/// A result.
#[tactic(auto, unfolding(sim_grammar::specs::ReadProgram::result))]
fn result_decl(alloc: Global, cursor: &mut Cursor<'_>) -> Result<ResultDecl, Halt>
    ensures { Reads (spec.result cursor.old) result cursor.new }
{
    let line = cursor.line();
    let name = cursor.name(alloc)?;
    cursor.skip(&[TokenKind::Symbol(symbol::COLON)])?;
    let (rows, (columns, block)) = shape(alloc, cursor)?;
    Ok(ResultDecl {
        line,
        name,
        rows,
        columns,
        block,
    })
}

/// Results with commas between.
#[tactic(auto, unfolding(sim_grammar::specs::ReadProgram::results))]
fn results(alloc: Global, cursor: &mut Cursor<'_>) -> Result<Items<ResultDecl>, Halt>
    ensures { Reads (spec.results cursor.old) result cursor.new }
{
    let comma = TokenKind::Symbol(symbol::COMMA);
    let part = |c: &mut Cursor<'_>| result_decl(alloc, c);
    separated(alloc, comma, part, cursor)
}

/// A field.
#[tactic(auto, unfolding(sim_grammar::specs::ReadProgram::field))]
fn field(alloc: Global, cursor: &mut Cursor<'_>) -> Result<Field, Halt>
    ensures { Reads (spec.field cursor.old) result cursor.new }
{
    let line = cursor.line();
    let name = cursor.name(alloc)?;
    cursor.skip(&[TokenKind::Symbol(symbol::COLON)])?;
    let local = local(alloc, cursor)?;
    cursor.skip(&[TokenKind::Symbol(symbol::SEMICOLON)])?;
    Ok(Field { line, name, local })
}

/// The fields of an element type.
#[tactic(auto, unfolding(sim_grammar::specs::ReadProgram::fields))]
fn fields(alloc: Global, cursor: &mut Cursor<'_>) -> Result<Items<Field>, Halt>
    ensures { Reads (spec.fields cursor.old) result cursor.new }
{
    let part = |c: &mut Cursor<'_>| field(alloc, c);
    each(alloc, &[TokenKind::Name], part, cursor)
}

/// An element type.
#[tactic(auto, unfolding(sim_grammar::specs::ReadProgram::element))]
fn element(alloc: Global, cursor: &mut Cursor<'_>) -> Result<Decl, Halt>
    ensures { Reads (spec.element cursor.old) result cursor.new }
{
    let line = cursor.line();
    cursor.skip(&[TokenKind::Keyword(keyword::ELEMENT)])?;
    let name = cursor.name(alloc)?;
    let fields = fields(alloc, cursor)?;
    cursor.skip(&[TokenKind::Keyword(keyword::END)])?;
    Ok(Decl::Element { line, name, fields })
}

/// The sets of endpoints in parentheses, where there are any.
#[tactic(auto, unfolding(sim_grammar::specs::ReadProgram::maybe_ends, sim_grammar::specs::ReadProgram::ends, sim_grammar::specs::Read::skip))]
fn maybe_ends(alloc: Global, cursor: &mut Cursor<'_>) -> Result<Items<Name>, Halt>
    ensures { Reads (spec.maybe_ends cursor.old) result cursor.new }
{
    if !cursor.is_at(TokenKind::Symbol(symbol::OPEN_PAREN)) {
        return Ok(Items::new(alloc));
    }
    cursor.skip(&[TokenKind::Symbol(symbol::OPEN_PAREN)])?;
    let all = all_names(alloc, cursor)?;
    cursor.skip(&[TokenKind::Symbol(symbol::CLOSE_PAREN)])?;
    Ok(all)
}

/// A set, after `extern`, whose line is told.
#[tactic(auto, unfolding(sim_grammar::specs::ReadProgram::set))]
fn set(alloc: Global, cursor: &mut Cursor<'_>, line: u32) -> Result<Decl, Halt>
    ensures { Reads (spec.set line cursor.old) result cursor.new }
{
    let name = cursor.name(alloc)?;
    cursor.skip(&[
        TokenKind::Symbol(symbol::COLON),
        TokenKind::Keyword(keyword::SET),
        TokenKind::Symbol(symbol::OPEN_BRACE),
    ])?;
    let element = cursor.name(alloc)?;
    cursor.skip(&[TokenKind::Symbol(symbol::CLOSE_BRACE)])?;
    let ends = maybe_ends(alloc, cursor)?;
    cursor.skip(&[TokenKind::Symbol(symbol::SEMICOLON)])?;
    Ok(Decl::Set {
        line,
        name,
        element,
        ends,
    })
}

/// Scales of whole numbers, with commas between.
#[tactic(auto, unfolding(sim_grammar::specs::ReadProgram::ints))]
fn ints(alloc: Global, cursor: &mut Cursor<'_>) -> Result<Items<Num>, Halt>
    ensures { Reads (spec.ints cursor.old) result cursor.new }
{
    let comma = TokenKind::Symbol(symbol::COMMA);
    let part = |c: &mut Cursor<'_>| int(alloc, c);
    separated(alloc, comma, part, cursor)
}

/// A host function, after `extern`, whose line is told.
#[tactic(auto, unfolding(sim_grammar::specs::ReadProgram::host))]
fn host(alloc: Global, cursor: &mut Cursor<'_>, line: u32) -> Result<Decl, Halt>
    ensures { Reads (spec.host line cursor.old) result cursor.new }
{
    cursor.skip(&[TokenKind::Keyword(keyword::FUNC)])?;
    let name = cursor.name(alloc)?;
    cursor.skip(&[TokenKind::Symbol(symbol::OPEN_PAREN)])?;
    let args = ints(alloc, cursor)?;
    cursor.skip(&[
        TokenKind::Symbol(symbol::CLOSE_PAREN),
        TokenKind::Symbol(symbol::ARROW),
    ])?;
    let scale = int(alloc, cursor)?;
    cursor.skip(&[TokenKind::Symbol(symbol::SEMICOLON)])?;
    Ok(Decl::Host {
        line,
        name,
        args,
        result: scale,
    })
}

/// A set or a host function.
#[tactic(auto, unfolding(sim_grammar::specs::ReadProgram::extern_decl))]
fn extern_decl(alloc: Global, cursor: &mut Cursor<'_>) -> Result<Decl, Halt>
    ensures { Reads (spec.extern_decl cursor.old) result cursor.new }
{
    let line = cursor.line();
    cursor.skip(&[TokenKind::Keyword(keyword::EXTERN)])?;
    if cursor.is_at(TokenKind::Name) {
        set(alloc, cursor, line)
    } else {
        host(alloc, cursor, line)
    }
}

/// A function.
#[tactic(auto, unfolding(sim_grammar::specs::ReadProgram::func))]
fn func(alloc: Global, cursor: &mut Cursor<'_>, depth: usize) -> Result<Decl, Halt>
    ensures { Reads (spec.func depth cursor.old) result cursor.new }
{
    let line = cursor.line();
    cursor.skip(&[TokenKind::Keyword(keyword::FUNC)])?;
    let name = cursor.name(alloc)?;
    cursor.skip(&[TokenKind::Symbol(symbol::OPEN_PAREN)])?;
    let params = params(alloc, cursor)?;
    cursor.skip(&[
        TokenKind::Symbol(symbol::CLOSE_PAREN),
        TokenKind::Symbol(symbol::ARROW),
        TokenKind::Symbol(symbol::OPEN_PAREN),
    ])?;
    let results = results(alloc, cursor)?;
    cursor.skip(&[TokenKind::Symbol(symbol::CLOSE_PAREN)])?;
    let body = func_body(alloc, cursor, depth)?;
    cursor.skip(&[TokenKind::Keyword(keyword::END)])?;
    Ok(Decl::Func {
        line,
        name,
        params,
        results,
        body,
    })
}

/// A declaration.
#[tactic(auto, unfolding(sim_grammar::specs::ReadProgram::declaration))]
fn declaration(alloc: Global, cursor: &mut Cursor<'_>, depth: usize) -> Result<Decl, Halt>
    ensures { Reads (spec.declaration depth cursor.old) result cursor.new }
{
    if cursor.is_at(TokenKind::Keyword(keyword::ELEMENT)) {
        element(alloc, cursor)
    } else if cursor.is_at(TokenKind::Keyword(keyword::EXTERN)) {
        extern_decl(alloc, cursor)
    } else {
        func(alloc, cursor, depth)
    }
}

/// The declarations of a program.
#[tactic(auto, unfolding(sim_grammar::specs::ReadProgram::declarations))]
pub fn declarations(
    alloc: Global,
    cursor: &mut Cursor<'_>,
    depth: usize,
) -> Result<Items<Decl>, Halt>
    ensures { Reads (spec.declarations depth cursor.old) result cursor.new }
{
    let starts = [
        TokenKind::Keyword(keyword::ELEMENT),
        TokenKind::Keyword(keyword::EXTERN),
        TokenKind::Keyword(keyword::FUNC),
    ];
    let part = |c: &mut Cursor<'_>| declaration(alloc, c, depth);
    each(alloc, &starts, part, cursor)
}
