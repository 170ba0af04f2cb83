//! Conditions, printed.

ghost use Rattle.std.specs.Prelude.{◌≡◌, ◌++◌, ◌∷◌, [], OnOk, map};
ghost use Rattle.std.specs.List.{flat_map};
ghost use Rattle.sim_lexer.specs.declared.token.TokenKind.TheVariants.{Keyword, Symbol};
ghost use Rattle.sim_lexer.specs.declared.token.keyword.TheConstants as key_of;
ghost use Rattle.sim_lexer.specs.declared.token.symbol.TheConstants as sym_of;
ghost use Rattle.sim_grammar.specs.Rule.{sym, key};
ghost use Rattle.sim_printer.specs.Printed as spec;
ghost use Rattle.sim_printer.specs.Grown.{Grown};

use crate::expressions::{between, expression};
use crate::line::Line;
use sim_lexer::{TokenKind, keyword, symbol};
use sim_syntax::{Cmp, CmpOp, Cond, Conjunction};
use vocabulary::NoMemory;

/// A comparison's symbol.
fn comparison(op: CmpOp, line: &mut Line) -> Result<(), NoMemory>
    ensures { OnOk result (Grown line.old line.new (spec.comparison op)) }
{
    match op {
        CmpOp::Equal => line.fixed(TokenKind::Symbol(symbol::EQUAL)),
        CmpOp::Differs => line.fixed(TokenKind::Symbol(symbol::DIFFERS)),
        CmpOp::Less => line.fixed(TokenKind::Symbol(symbol::LESS)),
        CmpOp::AtMost => line.fixed(TokenKind::Symbol(symbol::AT_MOST)),
        CmpOp::Greater => line.fixed(TokenKind::Symbol(symbol::GREATER)),
        CmpOp::AtLeast => line.fixed(TokenKind::Symbol(symbol::AT_LEAST)),
    }
}

/// The word not, or nothing.
#[tactic(auto, using(crate::proofs::Growing::grown_none, crate::proofs::Growing::grown_both))]
fn not(negated: bool, line: &mut Line) -> Result<(), NoMemory>
    ensures { OnOk result (Grown line.old line.new (spec.whether (key key_of.NOT) negated)) }
{
    if negated {
        line.fixed(TokenKind::Keyword(keyword::NOT))
    } else {
        Ok(())
    }
}

/// A comparison.
#[tactic(auto, using(crate::proofs::Growing::grown_none, crate::proofs::Growing::grown_both))]
fn cmp(cmp: &Cmp, line: &mut Line) -> Result<(), NoMemory>
    ensures { OnOk result (Grown line.old line.new (spec.cmp_words cmp.now)) }
{
    not(cmp.negated, line)?;
    expression(&cmp.left, line)?;
    comparison(cmp.op, line)?;
    expression(&cmp.right, line)
}

/// Comparisons, with `and` between.
#[tactic(auto)]
fn cmps(all: &[Cmp], line: &mut Line) -> Result<(), NoMemory>
    ensures { OnOk result (Grown line.old line.new (spec.separated (key key_of.AND) spec.cmp_words all.now)) }
{
    let mut is_first = true;
    for one in all {
        between(is_first, TokenKind::Keyword(keyword::AND), line)?;
        cmp(one, line)?;
        is_first = false;
    }
    Ok(())
}

/// Comparisons that hold together.
#[tactic(auto, using(crate::proofs::Growing::grown_none, crate::proofs::Growing::grown_both))]
fn conjunction(conjunction: &Conjunction, line: &mut Line) -> Result<(), NoMemory>
    ensures { OnOk result (Grown line.old line.new (spec.conjunction_words conjunction.now)) }
{
    cmps(conjunction.parts.as_slice(), line)
}

/// Conjunctions, with `or` between.
#[tactic(auto)]
fn conjunctions(all: &[Conjunction], line: &mut Line) -> Result<(), NoMemory>
    ensures { OnOk result (Grown line.old line.new (spec.separated (key key_of.OR) spec.conjunction_words all.now)) }
{
    let mut is_first = true;
    for one in all {
        between(is_first, TokenKind::Keyword(keyword::OR), line)?;
        conjunction(one, line)?;
        is_first = false;
    }
    Ok(())
}

/// A condition.
#[tactic(auto, using(crate::proofs::Growing::grown_none, crate::proofs::Growing::grown_both))]
pub fn cond(cond: &Cond, line: &mut Line) -> Result<(), NoMemory>
    ensures { OnOk result (Grown line.old line.new (spec.cond_words cond.now)) }
{
    conjunctions(cond.parts.as_slice(), line)
}
