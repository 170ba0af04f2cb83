//! Assignments to variables and to fields of sets.

ghost use Rattle.std.specs.Prelude.{◌≡◌, IfOk, map};
ghost use Rattle.type_rules.specs.Rules.{kind_of};
ghost use Rattle.typed_tree.specs.MainProcedure as spec;
ghost use Rattle.typed_tree.specs.Steps.{Walks};
ghost use Rattle.typed_tree.specs.declared.fault.CheckFault.TheVariants.{Memory};
ghost use Rattle.vocabulary.specs.Answers.{Answers};

use crate::right_sides::right_side;
use sim_syntax::{Right, Target};
use std::alloc::Global;
use type_rules::{NodeType, TypeKind, earlier, same_rule};
use typed_tree::{
    CheckFault, Declarations, Environment, MainStmt, Meaning, RightSide, TypedTarget, Walk,
    find_field, over_set,
};
use vocabulary::{L, NoMemory};

/// What a target stands for, and the type of its values; or the kind of its fault.
type Aim = Result<(TypedTarget, NodeType), TypeKind>;

/// A variable that is assigned. Matrices and the variables of loops are not.
#[tactic(auto, unfolding(typed_tree::specs::MainProcedure::variable_aim))]
fn variable_aim(meaning: Option<Meaning>) -> Aim
    ensures { result ≡ spec.variable_aim meaning }
{
    match meaning {
        Some(
            Meaning::Variable {
                value_type: NodeType::SystemMatrix { .. },
                ..
            },
        ) => Err(TypeKind::NotAPlace),
        Some(
            Meaning::Variable {
                variable,
                value_type,
            },
        ) => Ok((TypedTarget::Variable(variable), value_type)),
        Some(Meaning::Counter { .. }) => Err(TypeKind::NotAPlace),
        _ => Err(TypeKind::Unknown),
    }
}

/// A field of a set that is assigned.
#[tactic(auto, unfolding(typed_tree::specs::MainProcedure::field_aim))]
fn field_aim(
    declarations: &Declarations,
    meaning: Option<Meaning>,
    name: &str,
) -> Result<Aim, NoMemory>
    ensures { IfOk result (λ aim. aim ≡ spec.field_aim declarations.now meaning name.now) }
{
    match meaning {
        Some(Meaning::Set(set)) => {
            let fields = declarations.fields_of(declarations.element_in(set));
            let found = find_field(fields, name)?;
            match found {
                Some((field, value_type)) => Ok(Ok((
                    TypedTarget::Field { set, field },
                    over_set(set, value_type),
                ))),
                None => Ok(Err(TypeKind::Unknown)),
            }
        }
        _ => Ok(Err(TypeKind::Unknown)),
    }
}

/// What a target stands for.
fn aim_of(environment: &Environment<'_>, target: &Target) -> Result<Aim, NoMemory>
    ensures { IfOk result (λ aim. aim ≡ spec.aim_of environment.now target.now) }
{
    let meaning = environment.names.find(target.name.as_str());
    match &target.field {
        Some(field) => field_aim(&environment.declarations, meaning, field.as_str()),
        None => Ok(variable_aim(meaning)),
    }
}

/// What targets stand for.
fn aims_of(
    alloc: Global,
    environment: &Environment<'_>,
    targets: &[Target],
) -> Result<L<Aim>, NoMemory>
    ensures { IfOk result (λ aims. aims ≡ map (spec.aim_of environment.now) targets.now) }
{
    let mut aims = L::empty(alloc);
    for target in targets {
        let aim = aim_of(environment, target)?;
        aims.push(aim)?;
    }
    Ok(aims)
}

/// The kind of a rule's fault.
fn kind_of_fault(judged: Result<NodeType, TypeKind>) -> Option<TypeKind>
    ensures { result ≡ kind_of judged }
{
    match judged {
        Ok(_) => None,
        Err(kind) => Some(kind),
    }
}

/// The kind of the fault of a target that gets a value, or none.
#[tactic(auto, unfolding(typed_tree::specs::MainProcedure::assigned_fault))]
fn assigned_fault(aim: Aim, value: Option<NodeType>) -> Option<TypeKind>
    ensures { result ≡ spec.assigned_fault aim value }
{
    match (aim, value) {
        (Err(kind), _) => Some(kind),
        (Ok(_), None) => Some(TypeKind::Shape),
        (Ok((_, place)), Some(value)) => kind_of_fault(same_rule(place, value)),
    }
}

/// The first kind, in their order, of a fault so far and those of targets that get values: each the value in its
/// place, and there are as many.
#[tactic(auto, using(crate::proofs::Aims::target_given, crate::proofs::Aims::target_alone, crate::proofs::Aims::value_left, crate::proofs::Aims::none_left))]
fn targets_fault(so_far: Option<TypeKind>, aims: &[Aim], values: &[NodeType]) -> Option<TypeKind>
    ensures { result ≡ spec.targets_fault so_far aims.now values.now }
{
    let mut fault = so_far;
    let mut values = values.iter();
    for aim in aims {
        fault = earlier(fault, assigned_fault(*aim, values.next().copied()));
    }
    match values.next() {
        Some(_) => earlier(fault, Some(TypeKind::Shape)),
        None => fault,
    }
}

/// The targets of a statement of this line that are aimed at.
#[tactic(auto, using(crate::proofs::Aims::target_aimed, crate::proofs::Aims::target_missed, crate::proofs::Aims::targets_done))]
fn all_targets(alloc: Global, line: u32, aims: &[Aim]) -> Result<L<TypedTarget>, CheckFault>
    ensures { Answers Memory (spec.all_targets line aims.now) result }
{
    let mut targets = L::empty(alloc);
    for aim in aims {
        match *aim {
            Ok((target, _)) => targets.push(target)?,
            Err(kind) => return Err(CheckFault::IllTyped { line, kind }),
        }
    }
    Ok(targets)
}

/// Variables and fields that are assigned: one a value, or one for each result of a map.
#[tactic(auto, unfolding(typed_tree::specs::MainProcedure::main_assign))]
pub fn main_assign(
    alloc: Global,
    line: u32,
    targets: &[Target],
    right: &Right,
    walk: &mut Walk<'_>,
) -> Result<MainStmt, CheckFault>
    ensures { Walks (spec.main_assign line targets.now right.now walk.old) result walk.new }
{
    let RightSide {
        typed,
        types,
        fault,
    } = right_side(alloc, right, walk)?;
    let aims = aims_of(alloc, &walk.environment, targets)?;
    walk.end_statement(line, targets_fault(fault, aims.items(), types.items()))?;
    let targets = all_targets(alloc, line, aims.items())?;
    Ok(MainStmt::Assign {
        line,
        targets,
        right: typed,
    })
}
