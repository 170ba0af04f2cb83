//! The parameters and the results of functions.

ghost use Rattle.std.specs.Prelude.{◌≡◌, ◌∷◌, [], ◌||◌, not, OnOk, map};
ghost use Rattle.std.specs.Option.{is_none};
ghost use Rattle.vocabulary.specs.Answers.{fold_result};
ghost use Rattle.type_rules.specs.Rules as rules;
ghost use Rattle.type_rules.specs.declared.types.TypeKind.TheVariants as kind;
ghost use Rattle.typed_tree.specs.Lookups.{set_named};
ghost use Rattle.typed_tree.specs.Names.{is_known};
ghost use Rattle.typed_tree.specs.Steps.{Leads, Walks, several};
ghost use Rattle.typed_tree.specs.Declarations as spec;
ghost use Rattle.declaration_types.specs.Parameters as own;

use crate::rules::{at_line, block_in, block_rule_up_to, faultless, taken, unless, whole};
use sim_syntax::{Local, Name, Param, ParamKind, ResultDecl};
use std::alloc::Global;
use type_rules::{NodeType, TypeKind, declared_rule, scale_of};
use typed_tree::{CheckFault, Endpoints, Environment, Meaning, ParameterType, Walk};
use vocabulary::limits::{MOST_ENDPOINTS, MOST_SCALE};
use vocabulary::{L, NoMemory};

/// The fault of endpoints that a function takes.
#[tactic(auto, unfolding(typed_tree::specs::Declarations::count_fault))]
fn count_fault(is_unknown: bool, is_taken: bool, count: Option<u64>) -> Option<TypeKind>
    ensures { result ≡ spec.count_fault is_unknown is_taken count }
{
    if is_unknown {
        return Some(TypeKind::Unknown);
    }
    if is_taken {
        return Some(TypeKind::Twice);
    }
    let Some(count) = count else {
        return Some(TypeKind::NotConstant);
    };
    if count == 0 || count > u64::from(MOST_ENDPOINTS) {
        return Some(TypeKind::TooLarge);
    }
    None
}

/// A scalar parameter.
fn scalar_rule(is_taken: bool, scale: Option<u64>) -> Result<ParameterType, TypeKind>
    ensures { result ≡ own.scalar_rule is_taken scale }
{
    let value_type = unless(taken(is_taken), declared_rule(MOST_SCALE, &[], scale))?;
    Ok(ParameterType::Scalar(scale_of(value_type)))
}

/// The element that a function takes.
fn element_rule(is_taken: bool, element: Option<u32>) -> Result<ParameterType, TypeKind>
    ensures { result ≡ own.element_rule is_taken element }
{
    let Some(element) = element else {
        return Err(TypeKind::Unknown);
    };
    if is_taken {
        return Err(TypeKind::Twice);
    }
    Ok(ParameterType::Element(element))
}

/// The endpoints that a function takes.
#[tactic(auto, unfolding(typed_tree::specs::Declarations::count_fault))]
fn ends_rule(
    is_taken: bool,
    element: Option<u32>,
    count: Option<u64>,
) -> Result<ParameterType, TypeKind>
    ensures { result ≡ own.ends_rule is_taken element count }
{
    faultless(count_fault(element.is_none(), is_taken, count))?;
    Ok(ParameterType::Ends(Endpoints {
        element: element.unwrap_or(0),
        count: count.unwrap_or(0) as u32,
    }))
}

/// What a parameter is.
#[tactic(auto, unfolding(typed_tree::specs::Declarations::parameter_rule))]
fn parameter_rule(walk: &Walk<'_>, name: &Name, kind: &ParamKind) -> Result<ParameterType, TypeKind>
    ensures { result ≡ spec.parameter_rule walk.now name.now kind.now }
{
    let is_taken = walk.environment.is_known(name.as_str());
    match kind {
        ParamKind::Int { scale, .. } => scalar_rule(is_taken, whole(scale)),
        ParamKind::Element { element, .. } => element_rule(
            is_taken,
            walk.environment.element_named(element.as_str()),
        ),
        ParamKind::Ends { element, count, .. } => ends_rule(
            is_taken,
            walk.environment.element_named(element.as_str()),
            whole(count),
        ),
    }
}

/// A parameter's name stands for what it is.
#[tactic(auto, unfolding(typed_tree::specs::Declarations::with_parameter))]
fn with_parameter<'a>(
    walk: &mut Walk<'a>,
    name: &'a Name,
    parameter: ParameterType,
) -> Result<(), NoMemory>
    ensures { OnOk result (walk.new ≡ spec.with_parameter walk.old name.now parameter) }
{
    match parameter {
        ParameterType::Scalar(scale) => {
            let local = walk.locals;
            walk.name_local(name.as_str(), Meaning::Parameter { local, scale })
        }
        ParameterType::Element(element) => walk.name(name.as_str(), Meaning::Own { element }),
        ParameterType::Ends(ends) => walk.name(
            name.as_str(),
            Meaning::Ends {
                element: ends.element,
                count: ends.count,
            },
        ),
    }
}

/// A parameter.
#[tactic(auto, unfolding(typed_tree::specs::Declarations::parameter_step))]
fn parameter<'a>(param: &'a Param, walk: &mut Walk<'a>) -> Result<ParameterType, CheckFault>
    ensures { Walks (spec.parameter_step param.now walk.old) result walk.new }
{
    let kind = at_line(param.line, parameter_rule(walk, &param.name, &param.kind))?;
    with_parameter(walk, &param.name, kind)?;
    Ok(kind)
}

/// The parameters of a function, one after the other.
#[tactic(auto, using(crate::proofs::Folds::step_more, crate::proofs::Folds::step_refused, crate::proofs::Folds::steps_done))]
pub fn parameters<'a>(
    alloc: Global,
    params: &'a [Param],
    walk: &mut Walk<'a>,
) -> Result<L<ParameterType>, CheckFault>
    ensures { Walks (several (map spec.parameter_step params.now) walk.old) result walk.new }
{
    let mut types = L::empty(alloc);
    for param in params {
        let kind = parameter(param, walk)?;
        types.push(kind)?;
    }
    Ok(types)
}

/// Whether a block is one of a vector result, or of a matrix result.
fn is_block_of(columns: &Option<Name>, block: &Local) -> bool
    ensures { result ≡ spec.is_block_of columns.now block.now }
{
    match (columns, block) {
        (None, Local::Matrix { .. }) => false,
        (Some(_), Local::Vector { .. }) => false,
        _ => true,
    }
}

/// Whether the columns of a result aren't known.
fn is_unknown_set(environment: &Environment<'_>, name: &Option<Name>) -> bool
    ensures { result ≡ spec.is_unknown_set environment.now name.now }
{
    match name {
        None => false,
        Some(name) => environment.set_named(name.as_str()).is_none(),
    }
}

/// The number of a set by its name, or 0.
fn number_of(environment: &Environment<'_>, name: &Name) -> u32
    ensures { result ≡ spec.number_of (set_named environment.now name.now) }
{
    match environment.set_named(name.as_str()) {
        Some((number, _)) => number,
        None => 0,
    }
}

/// The type of a result, by that of its block.
fn system_type(environment: &Environment<'_>, result_of: &ResultDecl, block: NodeType) -> NodeType
    ensures { result ≡ spec.system_type environment.now result_of.now block }
{
    let rows = number_of(environment, &result_of.rows);
    match &result_of.columns {
        None => NodeType::SystemVector {
            set: rows,
            block: block_in(block),
            scale: scale_of(block),
        },
        Some(columns) => NodeType::SystemMatrix {
            rows,
            columns: number_of(environment, columns),
            block: block_in(block),
            scale: scale_of(block),
        },
    }
}

/// The fault of a result's names and of the form of its block.
fn result_fault(environment: &Environment<'_>, declared: &ResultDecl) -> Option<TypeKind>
    ensures { result ≡ rules.first_kind ((kind.Unknown, is_none (set_named environment.now declared.now.rows) || spec.is_unknown_set environment.now declared.now.columns) ∷ (kind.Twice, is_known environment.now.names declared.now.name) ∷ (kind.Shape, not (spec.is_block_of declared.now.columns declared.now.block)) ∷ []) }
{
    if environment.set_named(declared.rows.as_str()).is_none()
        || is_unknown_set(environment, &declared.columns)
    {
        return Some(TypeKind::Unknown);
    }
    if environment.is_known(declared.name.as_str()) {
        return Some(TypeKind::Twice);
    }
    if !is_block_of(&declared.columns, &declared.block) {
        return Some(TypeKind::Shape);
    }
    None
}

/// The type of a result.
#[tactic(auto, unfolding(typed_tree::specs::Declarations::result_rule))]
fn result_rule(walk: &Walk<'_>, declared: &ResultDecl) -> Result<NodeType, TypeKind>
    ensures { result ≡ spec.result_rule walk.now declared.now }
{
    let fault = result_fault(&walk.environment, declared);
    let block = unless(fault, block_rule_up_to(MOST_SCALE, &declared.block))?;
    Ok(system_type(&walk.environment, declared, block))
}

/// Another result of a function.
#[tactic(auto, unfolding(typed_tree::specs::Declarations::with_result))]
fn with_result<'a>(
    declared: &'a ResultDecl,
    types: &mut L<NodeType>,
    walk: &mut Walk<'a>,
) -> Result<(), CheckFault>
    ensures { Leads (spec.with_result (types.old, walk.old) declared.now) result (types.new, walk.new) }
{
    let value_type = at_line(declared.line, result_rule(walk, declared))?;
    let Ok(number) = u32::try_from(types.items().len()) else {
        return Err(CheckFault::Memory);
    };
    types.push(value_type)?;
    walk.name(
        declared.name.as_str(),
        Meaning::Result {
            result: number,
            value_type,
        },
    )?;
    Ok(())
}

/// The results of a function, one after the other.
#[tactic(auto, using(crate::proofs::Folds::one_more, crate::proofs::Folds::one_refused, crate::proofs::Folds::none_left))]
pub fn results<'a>(
    declared: &'a [ResultDecl],
    types: &mut L<NodeType>,
    walk: &mut Walk<'a>,
) -> Result<(), CheckFault>
    ensures { Leads (fold_result spec.with_result (types.old, walk.old) declared.now) result (types.new, walk.new) }
{
    for one in declared {
        with_result(one, types, walk)?;
    }
    Ok(())
}
