//! Whole numbers, and the bounds of loops.

ghost use Rattle.std.specs.Prelude.{◌≡◌, IfOk};
ghost use Rattle.type_rules.specs.Rules.{kind_of, or_zero};
ghost use Rattle.typed_tree.specs.Functions as spec;
ghost use Rattle.typed_tree.specs.Literals.{whole};

use sim_syntax::Num;
use type_rules::{IndexRange, TypeKind};
use typed_tree::whole;
use vocabulary::limits::MOST_LOOP_BOUND;

/// The whole number that digits state, where they have no point.
pub fn number_of(digits: &Num) -> Option<u64>
    ensures { result ≡ whole digits.now }
{
    whole(digits.as_str().as_bytes())
}

/// The values of a loop's variable: from the lower bound up to below the upper, which are whole numbers.
#[tactic(auto, unfolding(typed_tree::specs::Functions::turns_of))]
pub fn turns_of(from: Option<u64>, to: Option<u64>) -> IndexRange
    ensures { result ≡ spec.turns_of from to }
{
    match (from, to) {
        (Some(from), Some(to)) if from < to => IndexRange::UpTo(to - 1),
        _ => IndexRange::Never,
    }
}

/// The bounds of a loop, whose name is taken or not.
#[tactic(auto, unfolding(typed_tree::specs::Functions::bounds_rule))]
pub fn loop_bounds(taken: bool, from: Option<u64>, to: Option<u64>) -> Result<(u32, u32), TypeKind>
    ensures kind { kind_of result ≡ spec.bounds_rule taken from to }
    ensures bounds { IfOk result (λ bounds. bounds ≡ (or_zero from, or_zero to)) }
{
    if taken {
        return Err(TypeKind::Twice);
    }
    let (Some(from), Some(to)) = (from, to) else {
        return Err(TypeKind::NotConstant);
    };
    if from >= to || to > u64::from(MOST_LOOP_BOUND) {
        return Err(TypeKind::TooLarge);
    }
    Ok((from as u32, to as u32))
}
