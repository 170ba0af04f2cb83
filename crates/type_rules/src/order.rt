//! Which kind of fault is named where several apply.

ghost use Rattle.std.specs.Prelude.{◌≡◌};
ghost use Rattle.type_rules.specs.Rules as spec;

use crate::types::TypeKind;

/// The place of a kind in their order.
fn rank(kind: TypeKind) -> u8
    ensures { result ≡ spec.rank kind }
{
    match kind {
        TypeKind::Unknown => 0,
        TypeKind::Twice => 1,
        TypeKind::NotConstant => 2,
        TypeKind::NotAPlace => 3,
        TypeKind::Shape => 4,
        TypeKind::Set => 5,
        TypeKind::Scale => 6,
        TypeKind::TooLarge => 7,
    }
}

/// Of the kinds that apply to two parts of a node, the first in their order.
pub fn earlier(fault: Option<TypeKind>, other: Option<TypeKind>) -> Option<TypeKind>
    ensures { result ≡ spec.earlier fault other }
{
    match (fault, other) {
        (None, _) => other,
        (Some(_), None) => fault,
        (Some(one), Some(two)) => { if rank(two) < rank(one) { other } else { fault } }
    }
}
