//! Sets.

ghost use Rattle.std.specs.Prelude.{◌≡◌, ◌+◌, ◌==◌, ◌&&◌, ◌||◌, not, nat_lt, OnOk, IfOk, length, map};
ghost use Rattle.std.specs.List.{list_all, list_any};
ghost use Rattle.std.specs.Option.{is_none};
ghost use Rattle.typed_tree.specs.Lookups.{set_named};
ghost use Rattle.typed_tree.specs.Names.{is_known};
ghost use Rattle.typed_tree.specs.Steps.{Leads};
ghost use Rattle.typed_tree.specs.Declarations as spec;

use crate::rules::{at_line, faultless};
use sim_syntax::Name;
use std::alloc::Global;
use type_rules::TypeKind;
use typed_measures::columns_of;
use typed_tree::{CheckFault, Environment, Meaning, SetShape, TypedField, TypedSet, Walk};
use vocabulary::limits::{MOST_COLUMNS, MOST_ENDPOINTS, MOST_SETS};
use vocabulary::{L, NoMemory};

/// Whether endpoints lie in the set of this number.
fn lies_in(number: u32, end: Option<(u32, SetShape)>) -> bool
    ensures { result ≡ spec.lies_in number end }
{
    match end {
        Some((set, _)) => set == number,
        None => false,
    }
}

/// Whether endpoints all lie in the set of this number.
fn all_lie_in(number: u32, ends: &[Option<(u32, SetShape)>]) -> bool
    ensures { result ≡ list_all (spec.lies_in number) ends.now }
{
    ends.iter().all(|end| lies_in(number, *end))
}

/// Whether endpoints lie in one set, which is a vertex set.
fn lie_together(ends: &[Option<(u32, SetShape)>]) -> bool
    ensures { result ≡ spec.lie_together ends.now }
{
    match ends {
        [] => true,
        [None, ..] => false,
        [Some((number, shape)), others @ ..] => {
            shape.over.is_none() && all_lie_in(*number, others)
        }
    }
}

/// The set in which endpoints lie.
fn over_of(ends: &[Option<(u32, SetShape)>]) -> Option<u32>
    ensures { result ≡ spec.over_of ends.now }
{
    match ends {
        [Some((number, _)), ..] => Some(*number),
        _ => None,
    }
}

/// Whether the set of one of some endpoints isn't known.
fn has_unknown(ends: &[Option<(u32, SetShape)>]) -> bool
    ensures { result ≡ list_any is_none ends.now }
{
    ends.iter().any(|end| end.is_none())
}

/// The fields of an element type, where it is known.
fn fields_named<'a>(environment: &'a Environment<'_>, element: Option<u32>) -> &'a [TypedField]
    ensures { result.now ≡ spec.fields_named environment.now element }
{
    match element {
        Some(element) => environment.declarations.fields_of(element),
        None => &[],
    }
}

/// Whether a set has neither endpoints nor columns.
#[tactic(auto, unfolding(typed_measures::specs::Limited::limited))]
fn has_nothing(ends: usize, fields: &[TypedField]) -> bool
    ensures { result ≡ ((ends == 0) && (spec.columns_of fields.now == 0)) }
{
    ends == 0 && columns_of(fields) == 0
}

/// Whether a set has too many endpoints or columns, or is one too many.
#[tactic(auto, unfolding(typed_measures::specs::Limited::limited))]
fn is_too_large(ends: usize, fields: &[TypedField], sets: usize) -> bool
    ensures { result ≡ (nat_lt MOST_ENDPOINTS ends || nat_lt MOST_COLUMNS (ends + spec.columns_of fields.now) || not (nat_lt sets MOST_SETS)) }
{
    ends > MOST_ENDPOINTS as usize
        || ends as u64 + columns_of(fields) > u64::from(MOST_COLUMNS)
        || sets >= MOST_SETS as usize
}

/// The fault of a set.
#[tactic(auto, unfolding(typed_tree::specs::Declarations::set_fault))]
fn set_fault(
    is_unknown: bool,
    is_taken: bool,
    ends: &[Option<(u32, SetShape)>],
    fields: &[TypedField],
    sets: usize,
) -> Option<TypeKind>
    ensures { result ≡ spec.set_fault is_unknown is_taken ends.now fields.now sets }
{
    if is_unknown || has_unknown(ends) {
        return Some(TypeKind::Unknown);
    }
    if is_taken {
        return Some(TypeKind::Twice);
    }
    if has_nothing(ends.len(), fields) {
        return Some(TypeKind::Shape);
    }
    if !lie_together(ends) {
        return Some(TypeKind::Set);
    }
    if is_too_large(ends.len(), fields, sets) {
        return Some(TypeKind::TooLarge);
    }
    None
}

/// The sets of endpoints, where they are known.
fn ends_of(
    alloc: Global,
    environment: &Environment<'_>,
    names: &[Name],
) -> Result<L<Option<(u32, SetShape)>>, NoMemory>
    ensures { IfOk result (λ ends. ends ≡ map (set_named environment.now) names.now) }
{
    let mut ends = L::empty(alloc);
    for name in names {
        let end = environment.set_named(name.as_str());
        ends.push(end)?;
    }
    Ok(ends)
}

/// A set is declared.
#[tactic(auto, unfolding(typed_tree::specs::Declarations::with_set))]
fn with_set<'a>(
    alloc: Global,
    walk: &mut Walk<'a>,
    name: &'a Name,
    element: u32,
    ends: &[Option<(u32, SetShape)>],
) -> Result<(), NoMemory>
    ensures { OnOk result (walk.new ≡ spec.with_set walk.old name.now element ends.now) }
{
    let Ok(arity) = u32::try_from(ends.len()) else {
        return Err(NoMemory);
    };
    let Ok(number) = u32::try_from(walk.environment.declarations.sets.items().len()) else {
        return Err(NoMemory);
    };
    let text = name.copy(alloc)?;
    let shape = SetShape {
        element,
        over: over_of(ends),
        arity,
    };
    walk.environment
        .declarations
        .sets
        .push(TypedSet { name: text, shape })?;
    walk.name(name.as_str(), Meaning::Set(number))
}

/// The fault of the declaration of a set.
fn declaration_fault(
    environment: &Environment<'_>,
    name: &Name,
    element: Option<u32>,
    ends: &[Option<(u32, SetShape)>],
) -> Option<TypeKind>
    ensures { result ≡ spec.set_fault (is_none element) (is_known environment.now.names name.now) ends.now (spec.fields_named environment.now element) (length environment.now.declarations.sets) }
{
    set_fault(
        element.is_none(),
        environment.is_known(name.as_str()),
        ends,
        fields_named(environment, element),
        environment.declarations.sets.items().len(),
    )
}

/// The declaration of a set.
#[tactic(auto, unfolding(typed_tree::specs::Declarations::set_decl))]
pub fn set_declaration<'a>(
    alloc: Global,
    line: u32,
    name: &'a Name,
    element: &Name,
    ends: &[Name],
    walk: &mut Walk<'a>,
) -> Result<(), CheckFault>
    ensures { Leads (spec.set_decl line name.now element.now ends.now walk.old) result walk.new }
{
    let found = ends_of(alloc, &walk.environment, ends)?;
    let element = walk.environment.element_named(element.as_str());
    at_line(
        line,
        faultless(declaration_fault(&walk.environment, name, element, found.items())),
    )?;
    with_set(alloc, walk, name, element.unwrap_or(0), found.items())?;
    Ok(())
}
