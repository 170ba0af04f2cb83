//! New variables.

ghost use Rattle.std.specs.Prelude.{◌≡◌, ◌||◌, ◌-◌, [], IfOk, OnOk};
ghost use Rattle.std.specs.List.{range_with_len};
ghost use Rattle.typed_tree.specs.MainProcedure as spec;
ghost use Rattle.typed_tree.specs.Names.{is_known};
ghost use Rattle.typed_tree.specs.Steps.{Walks};

use crate::right_sides::right_side;
use sim_syntax::{Name, Right};
use std::alloc::{AllocError, Global};
use type_rules::{NodeType, TypeKind, earlier};
use typed_tree::{CheckFault, MainStmt, Meaning, Names, RightSide, Variable, Walk};
use vocabulary::{L, NoMemory};

/// Whether a name is known, or one of those before it.
fn is_taken(known: &Names<'_>, before: &Names<'_>, name: &str) -> bool
    ensures { result ≡ (is_known known.now name.now || is_known before.now name.now) }
{
    known.find(name).is_some() || before.find(name).is_some()
}

/// Whether names are new: not known, and each once.
#[tactic(auto, using(crate::proofs::NewNames::new_more, crate::proofs::NewNames::not_new, crate::proofs::NewNames::new_done))]
fn are_new(alloc: Global, known: &Names<'_>, names: &[Name]) -> Result<bool, NoMemory>
    ensures { IfOk result (λ new. new ≡ spec.are_new known.now [] names.now) }
{
    let mut before = Names::new(alloc);
    for name in names {
        if is_taken(known, &before, name.as_str()) {
            return Ok(false);
        }
        before.set(name.as_str(), Meaning::Taken)?;
    }
    Ok(true)
}

/// The kind of the fault of new names that get so many values.
#[tactic(auto, unfolding(typed_tree::specs::MainProcedure::names_fault))]
fn names_fault(
    alloc: Global,
    known: &Names<'_>,
    names: &[Name],
    values: usize,
) -> Result<Option<TypeKind>, NoMemory>
    ensures { IfOk result (λ fault. fault ≡ spec.names_fault known.now names.now values) }
{
    let new = are_new(alloc, known, names)?;
    if !new {
        Ok(Some(TypeKind::Twice))
    } else if names.len() != values {
        Ok(Some(TypeKind::Shape))
    } else {
        Ok(None)
    }
}

/// The numbers from a first up to below an end.
fn numbers_between(alloc: Global, first: u32, end: u32) -> Result<Vec<u32>, AllocError>
    ensures { IfOk result (λ numbers. numbers.items ≡ range_with_len first (end - first)) }
{
    (first..end).collect(alloc)
}

/// So many numbers, from a first on.
fn numbers_from(alloc: Global, first: usize, count: usize) -> Result<L<u32>, NoMemory>
    ensures { IfOk result (λ numbers. numbers ≡ range_with_len first count) }
{
    let Some(end) = first.checked_add(count) else {
        return Err(NoMemory);
    };
    let Ok(end) = u32::try_from(end) else {
        return Err(NoMemory);
    };
    match numbers_between(alloc, first as u32, end) {
        Ok(numbers) => Ok(L::of(numbers)),
        Err(_) => Err(NoMemory),
    }
}

/// Another variable.
#[tactic(auto, unfolding(typed_tree::specs::MainProcedure::with_variable))]
fn with_variable<'a>(
    alloc: Global,
    name: &'a Name,
    value_type: NodeType,
    walk: &mut Walk<'a>,
) -> Result<(), NoMemory>
    ensures { OnOk result (walk.new ≡ spec.with_variable walk.old name.now value_type) }
{
    let variables = &mut walk.environment.declarations.variables;
    let Ok(variable) = u32::try_from(variables.items().len()) else {
        return Err(NoMemory);
    };
    let copy = name.copy(alloc)?;
    variables.push(Variable {
        name: copy,
        value_type,
    })?;
    walk.name(
        name.as_str(),
        Meaning::Variable {
            variable,
            value_type,
        },
    )
}

/// More variables, one of each type.
#[tactic(auto, using(crate::proofs::NewNames::variable_more, crate::proofs::NewNames::no_type_left, crate::proofs::NewNames::no_name_left))]
fn with_variables<'a>(
    alloc: Global,
    names: &'a [Name],
    types: &[NodeType],
    walk: &mut Walk<'a>,
) -> Result<(), NoMemory>
    ensures { OnOk result (walk.new ≡ spec.with_variables walk.old names.now types.now) }
{
    let mut types = types.iter();
    for name in names {
        let Some(value_type) = types.next() else {
            return Ok(());
        };
        with_variable(alloc, name, *value_type, walk)?;
    }
    Ok(())
}

/// New variables: one of a value, or one for each result of a map.
#[tactic(auto, unfolding(typed_tree::specs::MainProcedure::main_var))]
pub fn main_var<'a>(
    alloc: Global,
    line: u32,
    names: &'a [Name],
    right: &Right,
    walk: &mut Walk<'a>,
) -> Result<MainStmt, CheckFault>
    ensures { Walks (spec.main_var line names.now right.now walk.old) result walk.new }
{
    let RightSide {
        typed,
        types,
        fault,
    } = right_side(alloc, right, walk)?;
    let values = types.items().len();
    let of_names = names_fault(alloc, &walk.environment.names, names, values)?;
    walk.end_statement(line, earlier(fault, of_names))?;
    let first = walk.environment.declarations.variables.items().len();
    let variables = numbers_from(alloc, first, names.len())?;
    with_variables(alloc, names, types.items(), walk)?;
    Ok(MainStmt::Var {
        line,
        variables,
        right: typed,
    })
}
