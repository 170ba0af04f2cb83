//! The types of values, and one rule for each form of expression: from the types of its parts to its own, or the first
//! kind of fault that applies.
#![tactic(auto)]

mod blocks;
mod calls;
mod declarations;
mod order;
mod products;
mod scales;
mod sums;
mod types;

pub use blocks::{block_rule, has_unknown, is_outside, part_rule, rank_rule, transposed_rule};
pub use calls::{are_numbers, call_rule, have_scales};
pub use declarations::declared_rule;
pub use order::earlier;
pub use products::{dot_rule, entrywise_rule, product_rule};
pub use scales::{isqrt_rule, literal_rule, quot_rule, rescale_rule};
pub use sums::{comparison_rule, same_rule};
pub use types::{BlockShape, IndexRange, NodeType, TypeKind, is_scalar, scale_of};
