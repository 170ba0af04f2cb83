//! Element types.

ghost use Rattle.std.specs.Prelude.{◌≡◌, ◌||◌, OnOk, length};
ghost use Rattle.std.specs.Str.{bytes_eq};
ghost use Rattle.vocabulary.specs.Answers.{fold_result};
ghost use Rattle.typed_tree.specs.Names.{is_known};
ghost use Rattle.typed_tree.specs.Steps.{Leads};
ghost use Rattle.typed_tree.specs.Declarations as spec;

use crate::rules::{at_line, block_in, block_rule_up_to, faultless, taken, unless};
use itoa::Buffer;
use sim_syntax::{Field, Name};
use std::alloc::Global;
use type_rules::{NodeType, TypeKind, scale_of};
use typed_tree::{CheckFault, ElementType, Meaning, Names, TypedField, Walk};
use vocabulary::limits::{MOST_ENDPOINTS, MOST_FIELD_SCALE, MOST_FIELDS};
use vocabulary::{L, NoMemory};

/// Whether a name is that of the column of the endpoints in a position: `p` and the position in decimal.
fn is_endpoint_column(name: &Name, position: u32) -> bool
    ensures { result ≡ bytes_eq name.now (spec.endpoint_column position) }
{
    let mut digits = Buffer::new();
    match name.as_str().as_bytes() {
        [b'p', rest @ ..] => rest == digits.format(position).as_bytes(),
        _ => false,
    }
}

/// Whether a name is that of a table's own column: `key`, or that of the endpoints in a position.
fn is_reserved(name: &Name) -> bool
    ensures { result ≡ spec.is_reserved name.now }
{
    let mut reserved = name.has_bytes(b"key");
    for position in 0..MOST_ENDPOINTS {
        let is_column = is_endpoint_column(name, position);
        reserved = reserved || is_column;
    }
    reserved
}

/// The type of a field, after those whose names are known.
fn field_rule(names: &Names<'_>, field: &Field) -> Result<NodeType, TypeKind>
    ensures { result ≡ spec.unless (spec.taken (is_known names.now field.now.name || spec.is_reserved field.now.name)) (spec.block_rule_up_to MOST_FIELD_SCALE field.now.local) }
{
    let is_taken = names.find(field.name.as_str()).is_some() || is_reserved(&field.name);
    unless(
        taken(is_taken),
        block_rule_up_to(MOST_FIELD_SCALE, &field.local),
    )
}

/// Another field, after those whose names are known.
#[tactic(auto, unfolding(typed_tree::specs::Declarations::field_rule, typed_tree::specs::Declarations::with_field))]
fn with_field<'a>(
    alloc: Global,
    field: &'a Field,
    names: &mut Names<'a>,
    fields: &mut L<TypedField>,
) -> Result<(), CheckFault>
    ensures { Leads (spec.with_field (fields.old, names.old) field.now) result (fields.new, names.new) }
{
    let value_type = at_line(field.line, field_rule(names, field))?;
    let name = field.name.copy(alloc)?;
    fields.push(TypedField {
        name,
        block: block_in(value_type),
        scale: scale_of(value_type),
    })?;
    names.set(field.name.as_str(), Meaning::Taken)?;
    Ok(())
}

/// The fields of an element type, and their names.
#[tactic(auto, using(crate::proofs::Folds::one_more, crate::proofs::Folds::one_refused, crate::proofs::Folds::none_left))]
fn with_fields<'a>(
    alloc: Global,
    fields: &'a [Field],
    names: &mut Names<'a>,
    typed: &mut L<TypedField>,
) -> Result<(), CheckFault>
    ensures { Leads (fold_result spec.with_field (typed.old, names.old) fields.now) result (typed.new, names.new) }
{
    for field in fields {
        with_field(alloc, field, names, typed)?;
    }
    Ok(())
}

/// The fault of an element type's name or of the number of its fields.
#[tactic(auto, unfolding(typed_tree::specs::Declarations::element_fault))]
fn element_fault(is_taken: bool, fields: usize) -> Option<TypeKind>
    ensures { result ≡ spec.element_fault is_taken fields }
{
    if is_taken {
        return Some(TypeKind::Twice);
    }
    if fields > MOST_FIELDS as usize {
        return Some(TypeKind::TooLarge);
    }
    None
}

/// An element type is declared.
#[tactic(auto, unfolding(typed_tree::specs::Declarations::with_element))]
fn with_element<'a>(
    walk: &mut Walk<'a>,
    name: &'a Name,
    fields: L<TypedField>,
) -> Result<(), NoMemory>
    ensures { OnOk result (walk.new ≡ spec.with_element walk.old name.now fields) }
{
    let Ok(number) = u32::try_from(walk.environment.declarations.elements.items().len()) else {
        return Err(NoMemory);
    };
    walk.environment
        .declarations
        .elements
        .push(ElementType { fields })?;
    walk.name(name.as_str(), Meaning::Element(number))
}

/// The declaration of an element type.
#[tactic(auto, unfolding(typed_tree::specs::Declarations::element_decl))]
pub fn element_declaration<'a>(
    alloc: Global,
    line: u32,
    name: &'a Name,
    fields: &'a [Field],
    walk: &mut Walk<'a>,
) -> Result<(), CheckFault>
    ensures { Leads (spec.element_decl line name.now fields.now walk.old) result walk.new }
{
    let mut names = Names::new(alloc);
    let mut typed = L::empty(alloc);
    with_fields(alloc, fields, &mut names, &mut typed)?;
    let is_taken = walk.environment.is_known(name.as_str());
    at_line(
        line,
        faultless(element_fault(is_taken, typed.items().len())),
    )?;
    with_element(walk, name, typed)?;
    Ok(())
}
