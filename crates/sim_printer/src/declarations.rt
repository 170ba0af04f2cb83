//! Declarations, printed.

ghost use Rattle.std.specs.Prelude.{◌≡◌, ◌++◌, ◌∷◌, [], OnOk, map};
ghost use Rattle.std.specs.List.{flat_map};
ghost use Rattle.sim_lexer.specs.declared.token.TokenKind.TheVariants.{Keyword, Symbol};
ghost use Rattle.sim_lexer.specs.declared.token.keyword.TheConstants as key_of;
ghost use Rattle.sim_lexer.specs.declared.token.symbol.TheConstants as sym_of;
ghost use Rattle.sim_grammar.specs.Rule.{sym, key};
ghost use Rattle.sim_syntax.specs.declared.declaration.Decl.TheVariants as decl;
ghost use Rattle.sim_printer.specs.Printed as spec;
ghost use Rattle.sim_printer.specs.Grown.{Grown};

use crate::expressions::between;
use crate::line::Line;
use crate::right_sides::listed_names;
use crate::statements::statements;
use sim_lexer::{TokenKind, keyword, symbol};
use sim_syntax::{Decl, Field, Local, Param, ParamKind, ResultDecl, Stmt};
use vocabulary::{NoMemory, Text};

/// A scale.
#[tactic(auto, using(crate::proofs::Growing::grown_none, crate::proofs::Growing::grown_both))]
fn int(scale: &Text, line: &mut Line) -> Result<(), NoMemory>
    ensures { OnOk result (Grown line.old line.new (spec.int_words scale.now)) }
{
    line.fixed(TokenKind::Keyword(keyword::INT))?;
    line.fixed(TokenKind::Symbol(symbol::OPEN_PAREN))?;
    line.number(scale)?;
    line.fixed(TokenKind::Symbol(symbol::CLOSE_PAREN))
}

/// A scale in parentheses.
#[tactic(auto, using(crate::proofs::Growing::grown_none, crate::proofs::Growing::grown_both))]
fn int_in_parentheses(scale: &Text, line: &mut Line) -> Result<(), NoMemory>
    ensures { OnOk result (Grown line.old line.new (spec.in_parentheses (spec.int_words scale.now))) }
{
    line.fixed(TokenKind::Symbol(symbol::OPEN_PAREN))?;
    int(scale, line)?;
    line.fixed(TokenKind::Symbol(symbol::CLOSE_PAREN))
}

/// A number in brackets.
#[tactic(auto, using(crate::proofs::Growing::grown_none, crate::proofs::Growing::grown_both))]
fn side_of(side: &Text, line: &mut Line) -> Result<(), NoMemory>
    ensures { OnOk result (Grown line.old line.new (spec.in_brackets (spec.number side.now))) }
{
    line.fixed(TokenKind::Symbol(symbol::OPEN_BRACKET))?;
    line.number(side)?;
    line.fixed(TokenKind::Symbol(symbol::CLOSE_BRACKET))
}

/// Two numbers in brackets.
#[tactic(auto, using(crate::proofs::Growing::grown_none, crate::proofs::Growing::grown_both))]
fn sides_of(rows: &Text, columns: &Text, line: &mut Line) -> Result<(), NoMemory>
    ensures { OnOk result (Grown line.old line.new (spec.in_brackets (spec.number rows.now ++ spec.comma ++ spec.number columns.now))) }
{
    line.fixed(TokenKind::Symbol(symbol::OPEN_BRACKET))?;
    line.number(rows)?;
    line.fixed(TokenKind::Symbol(symbol::COMMA))?;
    line.number(columns)?;
    line.fixed(TokenKind::Symbol(symbol::CLOSE_BRACKET))
}

/// What a field or a block is made of.
#[tactic(auto, using(crate::proofs::Growing::grown_none, crate::proofs::Growing::grown_both))]
fn local(of: &Local, line: &mut Line) -> Result<(), NoMemory>
    ensures { OnOk result (Grown line.old line.new (spec.local_words of.now)) }
{
    match of {
        Local::Int { scale, .. } => int(scale, line),
        Local::Vector { side, scale, .. } => {
            line.fixed(TokenKind::Keyword(keyword::VECTOR))?;
            side_of(side, line)?;
            int_in_parentheses(scale, line)
        }
        Local::Matrix {
            rows,
            columns,
            scale,
            ..
        } => {
            line.fixed(TokenKind::Keyword(keyword::MATRIX))?;
            sides_of(rows, columns, line)?;
            int_in_parentheses(scale, line)
        }
    }
}

/// So many endpoints of a type, in parentheses.
#[tactic(auto, using(crate::proofs::Growing::grown_none, crate::proofs::Growing::grown_both))]
fn ends_of(element: &Text, count: &Text, line: &mut Line) -> Result<(), NoMemory>
    ensures { OnOk result (Grown line.old line.new (spec.in_parentheses (spec.name element.now ++ spec.fixed (sym sym_of.STAR) ++ spec.number count.now))) }
{
    line.fixed(TokenKind::Symbol(symbol::OPEN_PAREN))?;
    line.name(element)?;
    line.fixed(TokenKind::Symbol(symbol::STAR))?;
    line.number(count)?;
    line.fixed(TokenKind::Symbol(symbol::CLOSE_PAREN))
}

/// What a parameter stands for.
fn param_kind(kind: &ParamKind, line: &mut Line) -> Result<(), NoMemory>
    ensures { OnOk result (Grown line.old line.new (spec.kind_words kind.now)) }
{
    match kind {
        ParamKind::Int { scale, .. } => int(scale, line),
        ParamKind::Element { element, .. } => line.name(element),
        ParamKind::Ends { element, count, .. } => ends_of(element, count, line),
    }
}

/// A parameter.
#[tactic(auto, using(crate::proofs::Growing::grown_none, crate::proofs::Growing::grown_both))]
fn param(param: &Param, line: &mut Line) -> Result<(), NoMemory>
    ensures { OnOk result (Grown line.old line.new (spec.param_words param.now)) }
{
    line.name(&param.name)?;
    line.fixed(TokenKind::Symbol(symbol::COLON))?;
    param_kind(&param.kind, line)
}

/// Parameters, with commas between.
#[tactic(auto)]
fn params(all: &[Param], line: &mut Line) -> Result<(), NoMemory>
    ensures { OnOk result (Grown line.old line.new (spec.separated (sym sym_of.COMMA) spec.param_words all.now)) }
{
    let mut is_first = true;
    for one in all {
        between(is_first, TokenKind::Symbol(symbol::COMMA), line)?;
        param(one, line)?;
        is_first = false;
    }
    Ok(())
}

/// A block in parentheses.
#[tactic(auto, using(crate::proofs::Growing::grown_none, crate::proofs::Growing::grown_both))]
fn block_of(of: &Local, line: &mut Line) -> Result<(), NoMemory>
    ensures { OnOk result (Grown line.old line.new (spec.in_parentheses (spec.local_words of.now))) }
{
    line.fixed(TokenKind::Symbol(symbol::OPEN_PAREN))?;
    local(of, line)?;
    line.fixed(TokenKind::Symbol(symbol::CLOSE_PAREN))
}

/// A set in brackets.
#[tactic(auto, using(crate::proofs::Growing::grown_none, crate::proofs::Growing::grown_both))]
fn set_of(rows: &Text, line: &mut Line) -> Result<(), NoMemory>
    ensures { OnOk result (Grown line.old line.new (spec.in_brackets (spec.name rows.now))) }
{
    line.fixed(TokenKind::Symbol(symbol::OPEN_BRACKET))?;
    line.name(rows)?;
    line.fixed(TokenKind::Symbol(symbol::CLOSE_BRACKET))
}

/// Two sets in brackets.
#[tactic(auto, using(crate::proofs::Growing::grown_none, crate::proofs::Growing::grown_both))]
fn sets_of(rows: &Text, columns: &Text, line: &mut Line) -> Result<(), NoMemory>
    ensures { OnOk result (Grown line.old line.new (spec.in_brackets (spec.name rows.now ++ spec.comma ++ spec.name columns.now))) }
{
    line.fixed(TokenKind::Symbol(symbol::OPEN_BRACKET))?;
    line.name(rows)?;
    line.fixed(TokenKind::Symbol(symbol::COMMA))?;
    line.name(columns)?;
    line.fixed(TokenKind::Symbol(symbol::CLOSE_BRACKET))
}

/// A vector over a set, or a matrix over two.
#[tactic(auto, using(crate::proofs::Growing::grown_none, crate::proofs::Growing::grown_both))]
fn shape(
    rows: &Text,
    columns: &Option<Text>,
    block: &Local,
    line: &mut Line,
) -> Result<(), NoMemory>
    ensures { OnOk result (Grown line.old line.new (spec.shape_words rows.now columns.now block.now)) }
{
    match columns {
        None => {
            line.fixed(TokenKind::Keyword(keyword::VECTOR))?;
            set_of(rows, line)?;
            block_of(block, line)
        }
        Some(columns) => {
            line.fixed(TokenKind::Keyword(keyword::MATRIX))?;
            sets_of(rows, columns, line)?;
            block_of(block, line)
        }
    }
}

/// A result of a function.
#[tactic(auto, using(crate::proofs::Growing::grown_none, crate::proofs::Growing::grown_both))]
fn result_decl(of: &ResultDecl, line: &mut Line) -> Result<(), NoMemory>
    ensures { OnOk result (Grown line.old line.new (spec.result_words of.now)) }
{
    line.name(&of.name)?;
    line.fixed(TokenKind::Symbol(symbol::COLON))?;
    shape(&of.rows, &of.columns, &of.block, line)
}

/// Results, with commas between.
#[tactic(auto)]
fn results(all: &[ResultDecl], line: &mut Line) -> Result<(), NoMemory>
    ensures { OnOk result (Grown line.old line.new (spec.separated (sym sym_of.COMMA) spec.result_words all.now)) }
{
    let mut is_first = true;
    for one in all {
        between(is_first, TokenKind::Symbol(symbol::COMMA), line)?;
        result_decl(one, line)?;
        is_first = false;
    }
    Ok(())
}

/// A field of an element type.
#[tactic(auto, using(crate::proofs::Growing::grown_none, crate::proofs::Growing::grown_both))]
fn field(field: &Field, line: &mut Line) -> Result<(), NoMemory>
    ensures { OnOk result (Grown line.old line.new (spec.field_decl_words field.now)) }
{
    line.name(&field.name)?;
    line.fixed(TokenKind::Symbol(symbol::COLON))?;
    local(&field.local, line)?;
    line.fixed(TokenKind::Symbol(symbol::SEMICOLON))
}

/// Fields, one after the other.
#[tactic(auto, using(crate::proofs::Growing::grown_none, crate::proofs::Growing::grown_more, crate::proofs::Growing::grown_all))]
fn fields(all: &[Field], line: &mut Line) -> Result<(), NoMemory>
    ensures { OnOk result (Grown line.old line.new (flat_map spec.field_decl_words all.now)) }
{
    for one in all {
        field(one, line)?;
    }
    Ok(())
}

/// Scales, with commas between.
#[tactic(auto)]
fn ints(all: &[Text], line: &mut Line) -> Result<(), NoMemory>
    ensures { OnOk result (Grown line.old line.new (spec.separated (sym sym_of.COMMA) spec.int_words all.now)) }
{
    let mut is_first = true;
    for one in all {
        between(is_first, TokenKind::Symbol(symbol::COMMA), line)?;
        int(one, line)?;
        is_first = false;
    }
    Ok(())
}

/// The name of a set and its elements' type.
#[tactic(auto, using(crate::proofs::Growing::grown_none, crate::proofs::Growing::grown_both))]
fn set_head(name: &Text, element: &Text, line: &mut Line) -> Result<(), NoMemory>
    ensures { OnOk result (Grown line.old line.new (spec.fixed (key key_of.EXTERN) ++ spec.name name.now ++ spec.fixed (Symbol sym_of.COLON ∷ Keyword key_of.SET ∷ sym sym_of.OPEN_BRACE) ++ spec.name element.now ++ spec.fixed (sym sym_of.CLOSE_BRACE))) }
{
    set_name(name, line)?;
    line.name(element)?;
    line.fixed(TokenKind::Symbol(symbol::CLOSE_BRACE))
}

/// The name of a set, up to its elements' type.
#[tactic(auto, using(crate::proofs::Growing::grown_none, crate::proofs::Growing::grown_both))]
fn set_name(name: &Text, line: &mut Line) -> Result<(), NoMemory>
    ensures { OnOk result (Grown line.old line.new (spec.fixed (key key_of.EXTERN) ++ spec.name name.now ++ spec.fixed (Symbol sym_of.COLON ∷ Keyword key_of.SET ∷ sym sym_of.OPEN_BRACE))) }
{
    line.fixed(TokenKind::Keyword(keyword::EXTERN))?;
    line.name(name)?;
    line.fixed(TokenKind::Symbol(symbol::COLON))?;
    line.fixed(TokenKind::Keyword(keyword::SET))?;
    line.fixed(TokenKind::Symbol(symbol::OPEN_BRACE))
}

/// Scales in parentheses.
#[tactic(auto, using(crate::proofs::Growing::grown_none, crate::proofs::Growing::grown_both))]
fn ints_in_parentheses(all: &[Text], line: &mut Line) -> Result<(), NoMemory>
    ensures { OnOk result (Grown line.old line.new (spec.in_parentheses (spec.separated (sym sym_of.COMMA) spec.int_words all.now))) }
{
    line.fixed(TokenKind::Symbol(symbol::OPEN_PAREN))?;
    ints(all, line)?;
    line.fixed(TokenKind::Symbol(symbol::CLOSE_PAREN))
}

/// The name of a host function.
#[tactic(auto, using(crate::proofs::Growing::grown_none, crate::proofs::Growing::grown_both))]
fn host_name(name: &Text, line: &mut Line) -> Result<(), NoMemory>
    ensures { OnOk result (Grown line.old line.new (spec.fixed (Keyword key_of.EXTERN ∷ key key_of.FUNC) ++ spec.name name.now)) }
{
    line.fixed(TokenKind::Keyword(keyword::EXTERN))?;
    line.fixed(TokenKind::Keyword(keyword::FUNC))?;
    line.name(name)
}

/// Parameters in parentheses.
#[tactic(auto, using(crate::proofs::Growing::grown_none, crate::proofs::Growing::grown_both))]
fn params_in_parentheses(all: &[Param], line: &mut Line) -> Result<(), NoMemory>
    ensures { OnOk result (Grown line.old line.new (spec.in_parentheses (spec.separated (sym sym_of.COMMA) spec.param_words all.now))) }
{
    line.fixed(TokenKind::Symbol(symbol::OPEN_PAREN))?;
    params(all, line)?;
    line.fixed(TokenKind::Symbol(symbol::CLOSE_PAREN))
}

/// Results in parentheses.
#[tactic(auto, using(crate::proofs::Growing::grown_none, crate::proofs::Growing::grown_both))]
fn results_in_parentheses(all: &[ResultDecl], line: &mut Line) -> Result<(), NoMemory>
    ensures { OnOk result (Grown line.old line.new (spec.in_parentheses (spec.separated (sym sym_of.COMMA) spec.result_words all.now))) }
{
    line.fixed(TokenKind::Symbol(symbol::OPEN_PAREN))?;
    results(all, line)?;
    line.fixed(TokenKind::Symbol(symbol::CLOSE_PAREN))
}

/// The name and the parameters of a function.
#[tactic(auto, using(crate::proofs::Growing::grown_none, crate::proofs::Growing::grown_both))]
fn func_head(name: &Text, params: &[Param], line: &mut Line) -> Result<(), NoMemory>
    ensures { OnOk result (Grown line.old line.new (spec.fixed (key key_of.FUNC) ++ spec.name name.now ++ spec.in_parentheses (spec.separated (sym sym_of.COMMA) spec.param_words params.now) ++ spec.fixed (sym sym_of.ARROW))) }
{
    line.fixed(TokenKind::Keyword(keyword::FUNC))?;
    line.name(name)?;
    params_in_parentheses(params, line)?;
    line.fixed(TokenKind::Symbol(symbol::ARROW))
}

/// A function of the host.
#[tactic(auto, using(crate::proofs::Growing::grown_both))]
fn host(name: &Text, args: &[Text], scale: &Text, line: &mut Line) -> Result<(), NoMemory>
    ensures { OnOk result (Grown line.old line.new (spec.declaration_words (decl.Host 1 name.now args.now scale.now))) }
{
    host_name(name, line)?;
    ints_in_parentheses(args, line)?;
    line.fixed(TokenKind::Symbol(symbol::ARROW))?;
    int(scale, line)?;
    line.fixed(TokenKind::Symbol(symbol::SEMICOLON))
}

/// A function of the program.
#[tactic(auto, using(crate::proofs::Growing::grown_both))]
fn func(
    name: &Text,
    params: &[Param],
    results: &[ResultDecl],
    body: &[Stmt],
    line: &mut Line,
) -> Result<(), NoMemory>
    ensures { OnOk result (Grown line.old line.new (spec.declaration_words (decl.Func 1 name.now params.now results.now body.now))) }
{
    func_head(name, params, line)?;
    results_in_parentheses(results, line)?;
    statements(body, line)?;
    line.fixed(TokenKind::Keyword(keyword::END))
}

/// An element type.
#[tactic(auto, using(crate::proofs::Growing::grown_both))]
fn element(name: &Text, own: &[Field], line: &mut Line) -> Result<(), NoMemory>
    ensures { OnOk result (Grown line.old line.new (spec.declaration_words (decl.Element 1 name.now own.now))) }
{
    line.fixed(TokenKind::Keyword(keyword::ELEMENT))?;
    line.name(name)?;
    fields(own, line)?;
    line.fixed(TokenKind::Keyword(keyword::END))
}

/// A declaration.
#[tactic(auto, using(crate::proofs::Growing::grown_none, crate::proofs::Growing::grown_both))]
fn declaration(of: &Decl, line: &mut Line) -> Result<(), NoMemory>
    ensures { OnOk result (Grown line.old line.new (spec.declaration_words of.now)) }
{
    match of {
        Decl::Element { name, fields, .. } => element(name, fields.as_slice(), line),
        Decl::Set {
            name,
            element,
            ends,
            ..
        } => {
            set_head(name, element, line)?;
            listed_names(ends.as_slice(), line)?;
            line.fixed(TokenKind::Symbol(symbol::SEMICOLON))
        }
        Decl::Host {
            name,
            args,
            result,
            ..
        } => host(name, args.as_slice(), result, line),
        Decl::Func {
            name,
            params,
            results,
            body,
            ..
        } => func(
            name,
            params.as_slice(),
            results.as_slice(),
            body.as_slice(),
            line,
        ),
    }
}

/// Declarations, one after the other.
#[tactic(auto, using(crate::proofs::Growing::grown_none, crate::proofs::Growing::grown_more, crate::proofs::Growing::grown_all))]
pub fn declarations(all: &[Decl], line: &mut Line) -> Result<(), NoMemory>
    ensures { OnOk result (Grown line.old line.new (flat_map spec.declaration_words all.now)) }
{
    for one in all {
        declaration(one, line)?;
    }
    Ok(())
}
