//! Calls: their arguments, and the type of what they give.

ghost use Rattle.std.specs.Prelude.{◌≡◌};
ghost use Rattle.std.specs.List.{list_all};
ghost use Rattle.type_rules.specs.Rules as spec;
ghost use Rattle.type_rules.specs.Types as types;

use crate::types::{BlockShape, NodeType, TypeKind, is_scalar, scale_of};

/// Whether each argument is a number.
fn are_scalars(args: &[NodeType]) -> bool
    ensures { result ≡ list_all types.is_scalar args.now }
{
    args.iter().all(|arg| is_scalar(*arg))
}

/// Whether the arguments are numbers, as many as there are scales.
pub fn are_numbers(scales: &[u32], args: &[NodeType]) -> bool
    ensures { result ≡ spec.are_numbers scales.now args.now }
{
    args.len() == scales.len() && are_scalars(args)
}

/// Whether the arguments have these scales.
pub fn have_scales(scales: &[u32], args: &[NodeType]) -> bool
    ensures { result ≡ spec.have_scales scales.now args.now }
{
    scales
        .iter()
        .zip(args)
        .all(|(scale, arg)| *scale == scale_of(*arg))
}

/// The type of a call with numbers of these scales, which gives a number of that scale.
#[tactic(auto, unfolding(crate::specs::Rules::call_rule))]
pub fn call_rule(scales: &[u32], scale: u32, args: &[NodeType]) -> Result<NodeType, TypeKind>
    ensures { result ≡ spec.call_rule scales.now scale args.now }
{
    if !are_numbers(scales, args) {
        return Err(TypeKind::Shape);
    }
    if !have_scales(scales, args) {
        return Err(TypeKind::Scale);
    }
    Ok(NodeType::Local {
        block: BlockShape::Number,
        scale,
    })
}
