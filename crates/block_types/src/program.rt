//! Programs.

ghost use Rattle.std.specs.Prelude.{◌≡◌};
ghost use Rattle.vocabulary.specs.Answers.{Answers};
ghost use Rattle.typed_tree.specs.declared.fault.CheckFault.TheVariants.{Memory};
ghost use Rattle.typed_tree.specs.Steps.{Walks};
ghost use Rattle.typed_tree.specs.MainProcedure as main;
ghost use Rattle.typed_tree.specs.Typed as whole;
ghost use Rattle.typing_laws.specs.ProgramLaws.{ProgramLaws};
ghost use Rattle.block_types.specs.Parts as parts;
ghost use Rattle.block_types.specs.WellDeclared.{WellDeclaredLaw};

use crate::laws::well_declared_law;
use crate::typed::Typed;
use declaration_types::declarations;
use host_table::HostName;
use main_types::main_statements;
use sim_syntax::{Lowered, Program, Stmt};
use sqlite_items::Items;
use std::alloc::Global;
use typed_tree::{
    CheckFault, Declarations, Environment, Level, MainStmt, Names, TypedProgram, Walk,
};
use typing_laws::program_typing_law;
use vocabulary::L;

/// A walk that begins: nothing is known.
fn beginning<'a>(alloc: Global) -> Walk<'a>
    ensures { result ≡ whole.beginning }
{
    Walk {
        environment: Environment {
            level: Level::Function,
            declarations: Declarations {
                elements: L::empty(alloc),
                sets: L::empty(alloc),
                functions: L::empty(alloc),
                variables: L::empty(alloc),
            },
            names: Names::new(alloc),
        },
        nodes: 0,
        statements: 0,
        locals: 0,
    }
}

/// The main procedure of a walk over declarations.
fn main_procedure<'a>(
    alloc: Global,
    body: &'a [Stmt],
    walk: &mut Walk<'a>,
) -> Result<Items<MainStmt>, CheckFault>
    ensures { Walks (main.main_statements body.now (whole.at_main walk.old)) result walk.new }
{
    walk.environment.level = Level::Main;
    main_statements(alloc, body, walk)
}

/// What a program declares, and its main procedure.
#[derive(Drop)]
struct Parts {
    declarations: Declarations,
    body: Items<MainStmt>,
}

/// The parts of a program's tree, by the names of the host functions, or its first fault.
#[tactic(auto, unfolding(typed_tree::specs::Typed::typed, typed_tree::specs::Typed::program_of))]
fn parts_of(alloc: Global, tree: &Program, hosts: &[HostName]) -> Result<Parts, CheckFault>
    ensures { parts.ArePartsOf hosts.now tree.now result }
{
    let mut walk = beginning(alloc);
    declarations(alloc, hosts, tree.decls.as_slice(), &mut walk)?;
    let body = main_procedure(alloc, tree.body.as_slice(), &mut walk)?;
    Ok(Parts {
        declarations: walk.environment.declarations,
        body,
    })
}

/// The typed program of a program: each name resolved and each expression with its type, or the first fault in the order
/// of the text, a node after its parts. Of the kinds that apply at one node the first in their order is named. The program
/// may declare the host functions of these names, each of which has the number that is its index.
pub fn check(alloc: Global, program: Lowered, hosts: &[HostName]) -> Result<Typed, CheckFault>
    ensures answered { Answers Memory (whole.typed hosts.now program) result }
    ensures judged { ProgramLaws }
    ensures declared { WellDeclaredLaw }
{
    program_typing_law();
    well_declared_law();
    let parts = parts_of(alloc, program.program(), hosts)?;
    let declarations = parts.declarations;
    Typed::of(
        alloc,
        TypedProgram {
            tree: program,
            elements: declarations.elements,
            sets: declarations.sets,
            functions: declarations.functions,
            variables: declarations.variables,
            body: parts.body,
        },
    )
}
