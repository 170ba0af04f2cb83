//! What is known at a point of a program.

use crate::function::TypedFunction;
use crate::names::Names;
use crate::program::{ElementType, TypedSet, Variable};
use vocabulary::L;

/// Whether a point lies in a function or in the main procedure.
#[derive(Clone, Copy, Debug, PartialEq, Eq)]
pub enum Level {
    Function,
    Main,
}

/// What was declared before a point.
#[derive(Drop)]
pub struct Declarations {
    pub elements: L<ElementType>,
    pub sets: L<TypedSet>,
    pub functions: L<TypedFunction>,
    /// The variables of the main procedure, visible or not.
    pub variables: L<Variable>,
}

/// What is known at a point: where it lies, what was declared before it, and the names that are visible there.
#[derive(Drop)]
pub struct Environment<'a> {
    pub level: Level,
    pub declarations: Declarations,
    pub names: Names<'a>,
}

/// A walk over a program in the order of its nodes: what is known where it stands, how many nodes of expressions and
/// how many statements it went past, and how many locals are visible.
#[derive(Drop)]
pub struct Walk<'a> {
    pub environment: Environment<'a>,
    pub nodes: u32,
    pub statements: u32,
    pub locals: u32,
}
