//! Where two types have to be equal: sums, assignments, written blocks, and comparisons.

ghost use Rattle.std.specs.Prelude.{◌≡◌};
ghost use Rattle.type_rules.specs.Rules as spec;

use crate::types::{NodeType, TypeKind, is_over_the_same, is_same_form, is_scalar, scale_of};

/// The type of a sum, of an assignment or of a written block: both sides have one type.
#[tactic(auto, unfolding(crate::specs::Rules::same_rule))]
pub fn same_rule(left: NodeType, right: NodeType) -> Result<NodeType, TypeKind>
    ensures { result ≡ spec.same_rule left right }
{
    if !is_same_form(left, right) {
        return Err(TypeKind::Shape);
    }
    if !is_over_the_same(left, right) {
        return Err(TypeKind::Set);
    }
    if scale_of(left) != scale_of(right) {
        return Err(TypeKind::Scale);
    }
    Ok(left)
}

/// Whether two values can be compared: numbers of one scale.
#[tactic(auto, unfolding(crate::specs::Rules::comparison_rule))]
pub fn comparison_rule(left: NodeType, right: NodeType) -> Result<(), TypeKind>
    ensures { result ≡ spec.comparison_rule left right }
{
    if !(is_scalar(left) && is_scalar(right)) {
        return Err(TypeKind::Shape);
    }
    if scale_of(left) != scale_of(right) {
        return Err(TypeKind::Scale);
    }
    Ok(())
}
