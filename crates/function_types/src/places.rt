//! Places of contributions.

ghost use Rattle.std.specs.Prelude.{◌≡◌};
ghost use Rattle.typed_tree.specs.Functions as spec;

use crate::bounds::number_of;
use sim_syntax::{Index, Place};
use type_rules::{IndexRange, TypeKind, is_outside};
use typed_tree::{Meaning, Names, PlaceIndex, WrittenPlace};

/// The number of an endpoint: a whole number, or a constant loop's variable.
#[tactic(auto, unfolding(typed_tree::specs::Functions::place_index))]
fn place_index(names: &Names<'_>, index: &Index) -> Result<PlaceIndex, TypeKind>
    ensures { result ≡ spec.place_index names.now index.now }
{
    match index {
        Index::Literal { number, .. } => match number_of(number) {
            Some(number) => Ok(PlaceIndex::Literal(number)),
            None => Err(TypeKind::NotConstant),
        },
        Index::Named { name, .. } => match names.find(name.as_str()) {
            Some(Meaning::Turn { local, range }) => Ok(PlaceIndex::Turn { local, range }),
            Some(_) => Err(TypeKind::NotConstant),
            None => Err(TypeKind::Unknown),
        },
    }
}

/// The values that the number of an endpoint takes.
fn values_of(index: PlaceIndex) -> IndexRange
    ensures { result ≡ spec.values_of index }
{
    match index {
        PlaceIndex::Literal(number) => IndexRange::UpTo(number),
        PlaceIndex::Turn { range, .. } => range,
    }
}

/// An endpoint, which is one of so many.
#[tactic(auto, unfolding(typed_tree::specs::Functions::endpoint))]
fn endpoint(count: u32, index: PlaceIndex) -> Result<WrittenPlace, TypeKind>
    ensures { result ≡ spec.endpoint count index }
{
    if is_outside(count, values_of(index)) {
        return Err(TypeKind::TooLarge);
    }
    Ok(WrittenPlace::Endpoint(index))
}

/// A place without an index: the element.
#[tactic(auto, unfolding(typed_tree::specs::Functions::place_at))]
fn place_without(meaning: Option<Meaning>) -> Result<WrittenPlace, TypeKind>
    ensures { result ≡ spec.place_at meaning None }
{
    match meaning {
        Some(Meaning::Own { .. }) => Ok(WrittenPlace::Element),
        Some(Meaning::Ends { .. }) => Err(TypeKind::Shape),
        Some(_) => Err(TypeKind::NotAPlace),
        None => Err(TypeKind::Unknown),
    }
}

/// A place with an index: an endpoint.
#[tactic(auto, unfolding(typed_tree::specs::Functions::place_at))]
fn place_with(
    meaning: Option<Meaning>,
    index: Result<PlaceIndex, TypeKind>,
) -> Result<WrittenPlace, TypeKind>
    ensures { result ≡ spec.place_at meaning (Some index) }
{
    let Some(meaning) = meaning else {
        return Err(TypeKind::Unknown);
    };
    let index = index?;
    match meaning {
        Meaning::Ends { count, .. } => endpoint(count, index),
        Meaning::Own { .. } => Err(TypeKind::Shape),
        _ => Err(TypeKind::NotAPlace),
    }
}

/// A place of a contribution: the element without an index, or an endpoint with one.
pub fn place_rule(names: &Names<'_>, place: &Place) -> Result<WrittenPlace, TypeKind>
    ensures { result ≡ spec.place_rule names.now place.now }
{
    let meaning = names.find(place.name.as_str());
    match &place.index {
        Some(index) => place_with(meaning, place_index(names, index)),
        None => place_without(meaning),
    }
}
