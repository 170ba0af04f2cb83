//! A program that was typed, and what is asked of it.

ghost use Rattle.std.specs.Prelude.{◌≡◌, ℕ, ◌<◌, ◌≤◌, ◌^◌, length, position, slice_get, take, IfSome, MatchResult};
ghost use Rattle.std.specs.Bool.{OnTrue};
ghost use Rattle.std.specs.Option.{option_map};
ghost use Rattle.std.specs.Str.{bytes_eq};
ghost use Rattle.typed_tree.specs.declared.fault.CheckFault.TheVariants.{Memory};
ghost use Rattle.typed_tree.specs.declared.program.TypedProgram as whole;
ghost use Rattle.std.specs.Coded.{codes};
ghost use Rattle.sim_syntax.specs.contracts.expression.Expr as expression;
ghost use Rattle.sim_syntax.specs.contracts.statement.Stmt as statement;
ghost use Rattle.typed_tree.specs.contracts.expression.TypedExpr as typed_expression;
ghost use Rattle.typed_tree.specs.contracts.function.FunctionStmt as function_statement;
ghost use Rattle.typed_tree.specs.contracts.main_procedure.MainStmt as main_statement;
ghost use Rattle.typed_tree.specs.Declarations.{columns_of};
ghost use Rattle.typed_tree.specs.Nodes.{program_nodes};
ghost use Rattle.block_types.specs.Readings as spec;
ghost use Rattle.block_types.specs.WellDeclared.{IsWellDeclared, WellDeclared, arity};

use crate::readings::FieldShape;
use sim_syntax::Program;
use std::alloc::Global;
use std::marker::Model;
use type_rules::{BlockShape, NodeType};
use typed_measures::{columns_of, program_nodes};
use typed_tree::{
    CheckFault, Named, NodeEntry, TypedField, TypedFunction, TypedProgram, TypedSet, Variable,
};
use vocabulary::L;
use vocabulary::limits::MOST_COLUMNS;

/// A program that was typed. In contracts it is the typed program.
#[derive(Drop)]
pub struct Typed {
    program: TypedProgram,
    nodes: L<NodeEntry>,
}

impl Model for Typed {
    ghost Value = { whole.TypedProgram };

    // By this a proof tells two programs apart.
    ghost coded = { Prim.hlevel (codes, expression.the_row.coded, statement.the_row.coded, typed_expression.the_row.coded, function_statement.the_row.coded, main_statement.the_row.coded) };

    ghost view = { λ typed. typed.program };

    ghost invariant = { λ typed. (typed.nodes ≡ program_nodes typed.program) × spec.Countable typed.program × WellDeclared typed.program };
}

/// The rows of a block.
fn high(block: BlockShape) -> u32
    ensures { result ≡ spec.high block }
{
    match block {
        BlockShape::Number => 1,
        BlockShape::Vector(side) => side,
        BlockShape::Matrix(rows, _) => rows,
    }
}

/// The columns of a block.
fn wide(block: BlockShape) -> u32
    ensures { result ≡ spec.wide block }
{
    match block {
        BlockShape::Number => 1,
        BlockShape::Vector(_) => 1,
        BlockShape::Matrix(_, columns) => columns,
    }
}

/// The fields of the elements of a set.
fn set_fields(program: &TypedProgram, set: usize) -> &[TypedField]
    ensures { result.now ≡ spec.set_fields program.now set }
{
    let Some(set) = program.sets.items().get(set) else {
        return &[];
    };
    match program.elements.items().get(set.shape.element as usize) {
        Some(element) => element.fields.items(),
        None => &[],
    }
}

/// Whether numbers can be stated in 32 bits.
fn is_small(len: usize) -> bool
    ensures { OnTrue result (len < 2 ^ 32) }
{
    u32::try_from(len).is_ok()
}

/// Whether the parts of a program can be numbered.
fn is_countable(program: &TypedProgram) -> bool
    ensures { OnTrue result (spec.Countable program.now) }
{
    is_small(program.sets.items().len())
        && is_small(program.functions.items().len())
        && is_small(program.variables.items().len())
}

/// The place of a set by its name.
fn place_of_set(sets: &[TypedSet], name: &str) -> Option<usize>
    ensures value { result ≡ position (λ set. bytes_eq set.name name.now) sets.now }
    ensures within { IfSome result (λ place. place < length sets.now) }
{
    sets.iter()
        .position(|set| set.name.has_bytes(name.as_bytes()))
}

/// The place of the first variable with a name.
fn place_of_variable(variables: &[Variable], name: &str) -> Option<usize>
    ensures value { result ≡ position (λ variable. bytes_eq variable.name name.now) variables.now }
    ensures within { IfSome result (λ place. place < length variables.now) }
{
    variables
        .iter()
        .position(|variable| variable.name.has_bytes(name.as_bytes()))
}

/// The place of a function by its name.
fn place_of_function(functions: &[TypedFunction], name: &str) -> Option<usize>
    ensures value { result ≡ position (λ function. bytes_eq function.name name.now) functions.now }
    ensures within { IfSome result (λ place. place < length functions.now) }
{
    functions
        .iter()
        .position(|function| function.name.has_bytes(name.as_bytes()))
}

/// The first column of a field, after those of the fields before it.
#[tactic(auto, using(crate::proofs::Columns::columns_before), unfolding(typed_measures::specs::Limited::limited))]
fn first_column(fields: &[TypedField], field: usize) -> u32
    requires few { columns_of fields.now ≤ MOST_COLUMNS }
    requires within { field < length fields.now }
    ensures { result ≡ columns_of (take field fields.now) }
{
    columns_of(&fields[..field]) as u32
}

impl Typed {
    /// A program that was typed, with the table of its nodes. Numbers that don't fit are out of memory.
    pub(crate) fn of(alloc: Global, program: TypedProgram) -> Result<Typed, CheckFault>
        requires { WellDeclared program }
        ensures { MatchResult result (λ typed. typed ≡ program) (λ fault. fault ≡ Memory) }
    {
        if !is_countable(&program) {
            return Err(CheckFault::Memory);
        }
        let nodes = program_nodes(alloc, &program)?;
        Ok(Typed { program, nodes })
    }

    /// The typed program.
    pub fn typed_program(&self) -> &TypedProgram
        ensures value { result.now ≡ self.now }
        ensures declared { WellDeclared self.now }
    {
        &self.program
    }

    /// The tree that was typed.
    pub fn program(&self) -> &Program
        ensures { result.now ≡ self.now.tree }
    {
        self.program.tree.program()
    }

    /// How many sets are declared.
    pub fn set_count(&self) -> u32
        ensures { result ≡ length self.now.sets }
    {
        self.program.sets.items().len() as u32
    }

    /// The name of a set.
    pub fn set_name(&self, set: u32) -> &str
        requires { set < length self.now.sets }
        ensures { Some result.now ≡ option_map (λ declared. declared.name) (slice_get self.now.sets set) }
    {
        self.program.sets.items()[set as usize].name.as_str()
    }

    /// A set by its name.
    pub fn find_set(&self, name: &str) -> Option<u32>
        ensures { result ≡ spec.find_set self.now name.now }
    {
        match place_of_set(self.program.sets.items(), name) {
            Some(place) => Some(place as u32),
            None => None,
        }
    }

    /// The vertex set in which the endpoints of a set lie; none for a vertex set.
    pub fn over(&self, set: u32) -> Option<u32>
        requires { set < length self.now.sets }
        ensures { result ≡ spec.over self.now set }
    {
        self.program.sets.items()[set as usize].shape.over
    }

    /// How many endpoints each element of a set has; 0 for a vertex set.
    pub fn arity(&self, set: u32) -> u32
        requires { set < length self.now.sets }
        ensures value { result ≡ arity self.now set }
        ensures declared { IsWellDeclared self.now set }
    {
        self.program.sets.items()[set as usize].shape.arity
    }

    /// The first variable of the main procedure with this name.
    pub fn find_variable(&self, name: &str) -> Option<u32>
        ensures { result ≡ spec.find_variable self.now name.now }
    {
        match place_of_variable(self.program.variables.items(), name) {
            Some(place) => Some(place as u32),
            None => None,
        }
    }

    /// A function by its name.
    pub fn find_function(&self, name: &str) -> Option<u32>
        ensures { result ≡ spec.find_function self.now name.now }
    {
        match place_of_function(self.program.functions.items(), name) {
            Some(place) => Some(place as u32),
            None => None,
        }
    }

    /// The type of a node of an expression.
    pub fn type_of(&self, node: u32) -> NodeType
        requires { node < length (program_nodes self.now) }
        ensures { Some result ≡ option_map (λ entry. entry.value_type) (slice_get (program_nodes self.now) node) }
    {
        self.nodes.items()[node as usize].value_type
    }

    /// What the name of a node stands for: some exactly where the node is a reference.
    pub fn stands_for(&self, node: u32) -> Option<Named>
        requires { node < length (program_nodes self.now) }
        ensures { Some result ≡ option_map (λ entry. entry.stands_for) (slice_get (program_nodes self.now) node) }
    {
        self.nodes.items()[node as usize].stands_for
    }

    /// The type of a variable of the main procedure.
    pub fn variable_type(&self, variable: u32) -> NodeType
        requires { variable < length self.now.variables }
        ensures { Some result ≡ option_map (λ declared. declared.value_type) (slice_get self.now.variables variable) }
    {
        self.program.variables.items()[variable as usize].value_type
    }

    /// The fields of the elements of a set; none where there is no such set.
    pub fn fields(&self, set: u32) -> &[TypedField]
        ensures { result.now ≡ spec.set_fields self.now set }
    {
        set_fields(&self.program, set as usize)
    }

    /// A field of the elements of a set.
    #[tactic(auto, using(crate::proofs::ProgramsKept::columns_few))]
    pub fn field(&self, set: u32, field: u32) -> FieldShape
        requires { field < length (spec.set_fields self.now set) }
        ensures { Some result ≡ option_map (spec.field_shape set (spec.set_fields self.now set) field) (slice_get (spec.set_fields self.now set) field) }
    {
        let fields = set_fields(&self.program, set as usize);
        let declared = &fields[field as usize];
        FieldShape {
            set,
            column: first_column(fields, field as usize),
            high: high(declared.block),
            wide: wide(declared.block),
            scale: declared.scale,
        }
    }
}
