//! Functions.

ghost use Rattle.std.specs.Prelude.{◌≡◌, ◌∷◌, ◌||◌, not, nat_lt, OnOk, IfOk, filter, length};
ghost use Rattle.std.specs.Option.{is_none};
ghost use Rattle.vocabulary.specs.Answers.{Answers};
ghost use Rattle.typed_tree.specs.declared.fault.CheckFault.TheVariants.{Memory};
ghost use Rattle.typed_tree.specs.declared.function.ParameterType.TheVariants as parameter;
ghost use Rattle.typed_tree.specs.Steps.{Leads};
ghost use Rattle.typed_tree.specs.Cost.{body_cost};
ghost use Rattle.typed_tree.specs.Declarations as spec;
ghost use Rattle.declaration_types.specs.Functions as functions;

use crate::parameters::{parameters, results};
use crate::rules::{at_line, faultless};
use function_types::function_statements;
use sim_syntax::{Name, Param, ResultDecl, Stmt};
use sqlite_items::Items;
use std::alloc::Global;
use type_rules::{NodeType, TypeKind};
use typed_measures::{body_cost, typed_results};
use typed_tree::{
    CheckFault, FunctionStmt, Meaning, ParameterType, Signature, TypedFunction, Walk,
};
use vocabulary::limits::{MOST_ARGUMENTS, MOST_FUNCTION_COST, MOST_RESULTS};
use vocabulary::{L, NoMemory};

/// What was known before a function: whether its name was taken, and how many names and locals were visible.
#[derive(Clone, Copy)]
struct Before {
    is_taken: bool,
    names: usize,
    locals: u32,
}

/// Whether a parameter is a scalar.
fn is_scalar_parameter(parameter: ParameterType) -> bool
    ensures { result ≡ spec.is_scalar_parameter parameter }
{
    matches!(parameter, ParameterType::Scalar(_))
}

/// How many parameters are scalars.
fn scalars(parameters: &[ParameterType]) -> usize
    ensures { result ≡ length (filter spec.is_scalar_parameter parameters.now) }
{
    parameters
        .iter()
        .filter(|parameter| is_scalar_parameter(**parameter))
        .count()
}

/// A signature of scalars and an element, and of the parameters that follow it: maybe endpoints.
fn signature_with(arguments: L<u32>, element: u32, others: &[ParameterType]) -> Option<Signature>
    ensures { result ≡ functions.prepended arguments (spec.signature_of (parameter.Element element ∷ others.now)) }
{
    match others {
        [] => Some(Signature {
            arguments,
            element,
            endpoints: None,
        }),
        [ParameterType::Ends(ends)] => Some(Signature {
            arguments,
            element,
            endpoints: Some(*ends),
        }),
        _ => None,
    }
}

/// The signature of parameters: scalars, then an element, then maybe endpoints.
fn signature_of(alloc: Global, parameters: &[ParameterType]) -> Result<Option<Signature>, NoMemory>
    ensures { IfOk result (λ signature. signature ≡ spec.signature_of parameters.now) }
{
    let mut arguments = L::empty(alloc);
    for (index, parameter) in parameters.iter().enumerate() {
        match parameter {
            ParameterType::Scalar(scale) => arguments.push(*scale)?,
            ParameterType::Element(element) => {
                return Ok(signature_with(arguments, *element, &parameters[index + 1..]));
            }
            ParameterType::Ends(_) => return Ok(None),
        }
    }
    Ok(None)
}

/// Whether a function has too many scalar parameters or results, or costs too much.
#[tactic(auto, unfolding(typed_measures::specs::Limited::limited))]
fn is_too_large(parameters: &[ParameterType], results: usize, body: &[FunctionStmt]) -> bool
    ensures { result ≡ (nat_lt MOST_ARGUMENTS (length (filter spec.is_scalar_parameter parameters.now)) || nat_lt MOST_RESULTS results || nat_lt MOST_FUNCTION_COST (body_cost body.now)) }
{
    scalars(parameters) > MOST_ARGUMENTS as usize
        || results > MOST_RESULTS as usize
        || body_cost(body) > u64::from(MOST_FUNCTION_COST)
}

/// The fault of a function whose statements have none, by whether its name is taken and whether its parameters are a
/// signature.
#[tactic(auto, unfolding(typed_tree::specs::Declarations::function_fault))]
fn function_fault(
    is_taken: bool,
    has_signature: bool,
    parameters: &[ParameterType],
    results: usize,
    body: &[FunctionStmt],
) -> Option<TypeKind>
    requires { has_signature ≡ not (is_none (spec.signature_of parameters.now)) }
    ensures { result ≡ spec.function_fault is_taken parameters.now results (body_cost body.now) }
{
    if is_taken {
        return Some(TypeKind::Twice);
    }
    if !has_signature {
        return Some(TypeKind::Shape);
    }
    if is_too_large(parameters, results, body) {
        return Some(TypeKind::TooLarge);
    }
    None
}

/// A function of a signature, results and a body.
#[tactic(auto, unfolding(typed_tree::specs::Declarations::function_of))]
fn function_of(
    alloc: Global,
    name: &Name,
    signature: Signature,
    results: &[NodeType],
    body: Items<FunctionStmt>,
) -> Result<TypedFunction, NoMemory>
    ensures value { IfOk result (λ function. function ≡ spec.function_of name.now signature results.now body) }
    ensures named { IfOk result (λ function. function.name ≡ name.now) }
{
    let name = name.copy(alloc)?;
    let results = typed_results(alloc, body.as_slice(), results)?;
    Ok(TypedFunction {
        name,
        arguments: signature.arguments,
        element: signature.element,
        endpoints: signature.endpoints,
        results,
        body,
    })
}

/// A function is declared.
#[tactic(auto, unfolding(typed_tree::specs::Declarations::with_function))]
fn with_function<'a>(
    walk: &mut Walk<'a>,
    name: &'a Name,
    function: TypedFunction,
) -> Result<(), NoMemory>
    requires { function.name ≡ name.now }
    ensures { OnOk result (walk.new ≡ spec.with_function walk.old function) }
{
    let Ok(number) = u32::try_from(walk.environment.declarations.functions.items().len()) else {
        return Err(NoMemory);
    };
    walk.environment.declarations.functions.push(function)?;
    walk.name(name.as_str(), Meaning::Function(number))
}

/// The signature, where there is one.
fn signed(alloc: Global, signature: Option<Signature>) -> Signature
    ensures { result ≡ spec.signed signature }
{
    match signature {
        Some(signature) => signature,
        None => Signature {
            arguments: L::empty(alloc),
            element: 0,
            endpoints: None,
        },
    }
}

/// A function whose parts have no fault is judged as a whole.
#[tactic(auto, unfolding(crate::specs::Functions::judged))]
fn judged_function(
    alloc: Global,
    line: u32,
    name: &Name,
    is_taken: bool,
    parameters: &[ParameterType],
    results: &[NodeType],
    body: Items<FunctionStmt>,
) -> Result<TypedFunction, CheckFault>
    ensures value { Answers Memory (functions.judged line name.now is_taken parameters.now results.now body) result }
    ensures named { IfOk result (λ function. function.name ≡ name.now) }
{
    let signature = signature_of(alloc, parameters)?;
    let fault = function_fault(
        is_taken,
        signature.is_some(),
        parameters,
        results.len(),
        body.as_slice(),
    );
    at_line(line, faultless(fault))?;
    let function = function_of(alloc, name, signed(alloc, signature), results, body)?;
    Ok(function)
}

/// A function whose parts were judged is declared: its parameters, results and variables are no longer visible.
#[tactic(auto, unfolding(crate::specs::Functions::concluded))]
fn conclude<'a>(
    alloc: Global,
    line: u32,
    name: &'a Name,
    before: Before,
    parameters: &[ParameterType],
    results: &[NodeType],
    body: Items<FunctionStmt>,
    walk: &mut Walk<'a>,
) -> Result<(), CheckFault>
    ensures { Leads (functions.concluded line name.now before parameters.now results.now body walk.old) result walk.new }
{
    let function = judged_function(
        alloc,
        line,
        name,
        before.is_taken,
        parameters,
        results,
        body,
    )?;
    walk.cut_back(before.names, before.locals);
    with_function(walk, name, function)?;
    Ok(())
}

/// What was known before a function: whether its name was taken, and how many names and locals were visible.
fn known_before(name: &Name, walk: &Walk<'_>) -> Before
    ensures { result ≡ functions.known_before name.now walk.now }
{
    Before {
        is_taken: walk.environment.is_known(name.as_str()),
        names: walk.environment.names.len(),
        locals: walk.locals,
    }
}

/// The declaration of a function, whose own name isn't known in its body.
#[tactic(auto, using(crate::proofs::Judged::concludes), unfolding(typed_tree::specs::Declarations::func_decl))]
pub fn function_declaration<'a>(
    alloc: Global,
    line: u32,
    name: &'a Name,
    params: &'a [Param],
    declared: &'a [ResultDecl],
    body: &'a [Stmt],
    walk: &mut Walk<'a>,
) -> Result<(), CheckFault>
    ensures { Leads (spec.func_decl line name.now params.now declared.now body.now walk.old) result walk.new }
{
    let known = known_before(name, walk);
    let parameters = parameters(alloc, params, walk)?;
    let mut types = L::empty(alloc);
    results(declared, &mut types, walk)?;
    let body = function_statements(alloc, body, walk)?;
    conclude(
        alloc,
        line,
        name,
        known,
        parameters.items(),
        types.items(),
        body,
        walk,
    )
}
