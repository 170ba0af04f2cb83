//! From the program's file to the typed program: its tokens, the tree that they derive, the program that this is lowered to, and
//! its types.

ghost use Rattle.std.specs.Prelude.{◌≡◌, ◌≤◌, All, IfOk, drop, length, map};
ghost use Rattle.vocabulary.specs.Answers.{Answers};
ghost use Rattle.simit_io.specs.Inputs.{IsMissing, Rose};
ghost use Rattle.sim_lexer.specs.Tokens.{EndsOnce, IsSpelled, LiesIn, tokens};
ghost use Rattle.sim_lexer.specs.Words.{words_of};
ghost use Rattle.sim_grammar.specs.ReadProgram.{program_in};
ghost use Rattle.sim_grammar.specs.Rule.{line_of};
ghost use Rattle.chain_forms.specs.Lowered.{lowered};
ghost use Rattle.host_table.specs.Hosts.{name_of};
ghost use Rattle.typed_tree.specs.Typed.{typed};
ghost use Rattle.simit_run.specs.Answer as spec;
ghost use Rattle.simit_run.specs.ProgramText as text;
ghost use Rattle.simit_run.specs.Shown.{Shows};
ghost use Rattle.simit_run.specs.Stage.{refused};

use crate::file::read_file;
use block_types::{Typed, check};
use host_table::{HostMeaning, HostName, HostTable};
use index_notation::{LowerFault, lower};
use run_notes::{Failure, FileRole, Refusal, offset_of};
use sim_lexer::{LexFault, Token, Tokens, lex, line_at};
use sim_parser::{ParseFault, parse};
use sim_syntax::Lowered;
use simit_io::Inputs;
use std::alloc::Global;
use typed_tree::CheckFault;
use vocabulary::limits::{MOST_PROGRAM_BYTES, MOST_TOKENS};

/// The line of the token of an index.
fn line_of(source: &[u8], tokens: &[Token], token: u32) -> u32
    ensures { result ≡ line_of (drop token (words_of source.now tokens.now)) }
{
    match tokens.get(token as usize) {
        Some(token) => token.line,
        None => 0,
    }
}

/// The tokens of a text.
fn tokens_of(alloc: Global, source: &[u8]) -> Result<Tokens, Failure>
    requires { length source.now ≤ MOST_PROGRAM_BYTES }
    ensures value { Answers Failure.Memory (refused (text.lexical source.now (tokens source.now))) result }
    ensures lie { IfOk result (λ tokens. All (LiesIn source.now) tokens) }
    ensures spell { IfOk result (λ tokens. All (IsSpelled source.now) tokens) }
    ensures few { IfOk result (λ tokens. length tokens ≤ MOST_TOKENS) }
    ensures ends { IfOk result EndsOnce }
{
    match lex(alloc, source) {
        Ok(tokens) => Ok(tokens),
        Err(LexFault::Memory) => Err(Failure::Memory),
        Err(fault) => {
            let line = line_at(source, offset_of(fault));
            Err(Failure::Refused(Refusal::Lexical { line, fault }))
        }
    }
}

/// The tree that the tokens of a text derive.
fn tree_of(alloc: Global, source: &[u8], tokens: &Tokens) -> Result<sim_syntax::Program, Failure>
    requires lie { All (LiesIn source.now) tokens.now }
    requires spell { All (IsSpelled source.now) tokens.now }
    requires few { length tokens.now ≤ MOST_TOKENS }
    requires ends { EndsOnce tokens.now }
    ensures { Answers Failure.Memory (refused (text.syntactic (words_of source.now tokens.now) (program_in (words_of source.now tokens.now)))) result }
{
    match parse(alloc, source, tokens) {
        Ok(tree) => Ok(tree),
        Err(ParseFault::Memory) => Err(Failure::Memory),
        Err(ParseFault::Syntax { token }) => {
            let line = line_of(source, tokens.list(), token);
            Err(Failure::Refused(Refusal::Syntax { line, token }))
        }
    }
}

/// The program without index expressions that a tree is lowered to.
fn lowered_of(alloc: Global, tree: sim_syntax::Program) -> Result<Lowered, Failure>
    ensures { Answers Failure.Memory (refused (text.chained (lowered tree))) result }
{
    match lower(alloc, tree) {
        Ok(program) => Ok(program),
        Err(LowerFault::Memory) => Err(Failure::Memory),
        Err(LowerFault::NotAChain { line }) => Err(Failure::Refused(Refusal::NotAChain { line })),
    }
}

/// The program with its types, by the names of the host functions.
fn typed_of(alloc: Global, program: Lowered, hosts: &[HostName]) -> Result<Typed, Failure>
    ensures { Answers Failure.Memory (refused (text.typing (typed hosts.now program))) result }
{
    match check(alloc, program, hosts) {
        Ok(typed) => Ok(typed),
        Err(CheckFault::Memory) => Err(Failure::Memory),
        Err(CheckFault::IllTyped { line, kind }) => {
            Err(Failure::Refused(Refusal::IllTyped { line, kind }))
        }
    }
}

/// The tree of a text.
#[tactic(auto, unfolding(crate::specs::ProgramText::tree_of))]
fn tree_in(alloc: Global, source: &[u8]) -> Result<sim_syntax::Program, Failure>
    requires { length source.now ≤ MOST_PROGRAM_BYTES }
    ensures { Answers Failure.Memory (refused (text.tree_of source.now)) result }
{
    let tokens = tokens_of(alloc, source)?;
    let tree = tree_of(alloc, source, &tokens)?;
    Ok(tree)
}

/// The typed program of a text, by the names of the host functions.
#[tactic(auto, unfolding(crate::specs::ProgramText::typed_of))]
fn typed_by(alloc: Global, source: &[u8], hosts: &[HostName]) -> Result<Typed, Failure>
    requires { length source.now ≤ MOST_PROGRAM_BYTES }
    ensures { Answers Failure.Memory (refused (text.typed_of hosts.now source.now)) result }
{
    let tree = tree_in(alloc, source)?;
    let program = lowered_of(alloc, tree)?;
    let typed = typed_of(alloc, program, hosts)?;
    Ok(typed)
}

/// The typed program of a text that may call these host functions.
pub fn typed_in<H: HostMeaning>(
    alloc: Global,
    source: &[u8],
    hosts: &HostTable<H>,
) -> Result<Typed, Failure>
    requires { length source.now ≤ MOST_PROGRAM_BYTES }
    ensures { Answers Failure.Memory (refused (text.typed_of (map name_of hosts.now) source.now)) result }
{
    let Ok(names) = hosts.names(alloc) else {
        return Err(Failure::Memory);
    };
    typed_by(alloc, source, &names)
}

/// The typed program that the file of a name states, which may call these host functions.
pub fn read_program<I: Inputs, H: HostMeaning>(
    alloc: Global,
    inputs: &mut I,
    name: &str,
    hosts: &HostTable<H>,
) -> Result<Typed, Failure>
    ensures shows { Shows (λ program. program) (I.holds inputs.old) (Rose (I.faults inputs.old) (I.faults inputs.new))
        (spec.program_stage (map name_of hosts.now) name.now) result }
    ensures missing { IsMissing (I.holds inputs.old) name.now → result ≡ Err (Failure.ReadFault FileRole.Program) }
    ensures same_files { I.holds inputs.new ≡ I.holds inputs.old }
    ensures counted { I.faults inputs.old ≤ I.faults inputs.new }
{
    let source = read_file(alloc, inputs, name, FileRole::Program)?;
    let program = typed_in(alloc, &source, hosts)?;
    Ok(program)
}
