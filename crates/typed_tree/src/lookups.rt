//! What is declared, found by its number or by its name.

ghost use Rattle.std.specs.Prelude.{◌≡◌, IfOk, position, slice_get};
ghost use Rattle.std.specs.Option.{option_map};
ghost use Rattle.std.specs.Str.{bytes_eq};
ghost use Rattle.typed_tree.specs.Lookups as spec;
ghost use Rattle.typed_tree.specs.Names.{is_known};

use crate::environment::{Declarations, Environment};
use crate::names::Meaning;
use crate::program::{SetShape, TypedField};
use type_rules::NodeType;
use vocabulary::NoMemory;

impl Declarations {
    /// The fields of an element type.
    pub fn fields_of(&self, element: u32) -> &[TypedField]
        ensures { result.now ≡ spec.fields_of self.now element }
    {
        match self.elements.items().get(element as usize) {
            Some(element) => element.fields.items(),
            None => &[],
        }
    }

    /// The type of the elements of a set.
    pub fn element_in(&self, set: u32) -> u32
        ensures { result ≡ spec.element_in self.now set }
    {
        match self.sets.items().get(set as usize) {
            Some(set) => set.shape.element,
            None => 0,
        }
    }

    /// A set by its number, with its shape.
    fn set_numbered(&self, number: u32) -> Option<(u32, SetShape)>
        ensures { result ≡ option_map (λ set. (number, set.shape)) (slice_get self.now.sets number) }
    {
        match self.sets.items().get(number as usize) {
            Some(set) => Some((number, set.shape)),
            None => None,
        }
    }
}

impl Environment<'_> {
    /// Whether a name is visible.
    pub fn is_known(&self, name: &str) -> bool
        ensures { result ≡ is_known self.now.names name.now }
    {
        self.names.find(name).is_some()
    }

    /// An element type by its name: its number.
    pub fn element_named(&self, name: &str) -> Option<u32>
        ensures { result ≡ spec.element_named self.now name.now }
    {
        match self.names.find(name) {
            Some(Meaning::Element(number)) => Some(number),
            _ => None,
        }
    }

    /// A set by its name: its number and its shape.
    pub fn set_named(&self, name: &str) -> Option<(u32, SetShape)>
        ensures { result ≡ spec.set_named self.now name.now }
    {
        match self.names.find(name) {
            Some(Meaning::Set(number)) => self.declarations.set_numbered(number),
            _ => None,
        }
    }
}

/// The type of a field of one element.
pub fn field_type(field: &TypedField) -> NodeType
    ensures { result ≡ spec.field_type field.now }
{
    NodeType::Local {
        block: field.block,
        scale: field.scale,
    }
}

/// The index of the field of a name.
fn field_index(fields: &[TypedField], name: &str) -> Option<usize>
    ensures { result ≡ position (λ f. bytes_eq f.name name.now) fields.now }
{
    fields
        .iter()
        .position(|field| field.name.has_bytes(name.as_bytes()))
}

/// A field by its name: its number and its type.
pub fn find_field(fields: &[TypedField], name: &str) -> Result<Option<(u32, NodeType)>, NoMemory>
    ensures { IfOk result (λ found. found ≡ spec.find_field fields.now name.now) }
{
    let Some(index) = field_index(fields, name) else {
        return Ok(None);
    };
    let Ok(number) = u32::try_from(index) else {
        return Err(NoMemory);
    };
    match fields.get(index) {
        Some(field) => Ok(Some((number, field_type(field)))),
        None => Ok(None),
    }
}

/// The type of a value of each element of a set.
pub fn over_set(set: u32, value_type: NodeType) -> NodeType
    ensures { result ≡ spec.over_set set value_type }
{
    match value_type {
        NodeType::Local { block, scale } => NodeType::SystemVector { set, block, scale },
        _ => value_type,
    }
}
