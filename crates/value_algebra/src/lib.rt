//! Values of a program, blocks, system vectors and system matrices, and what can be computed of them: sums, products,
//! transposes, scalar products, other scales. Fields of sets as such values.
#![tactic(auto)]

mod fields;
mod products;
mod scales;
mod slices;
mod value;
mod words;

pub use fields::{
    block_of, count, element_in, entries, entry_of, field_at, field_over, fields_of, first_column,
    push_element, push_over, with_field,
};
pub use products::{dot, product, row_times_column, sum_of_products, transposed};
pub use scales::{quotient, rescale_each, rescaled, rescaled_word, square_root};
pub use slices::{add_each, multiply_each, negate_each, scale_each, subtract_each};
pub use value::{Value, entry};
pub use words::{difference, entrywise, negated, scaled, sum};
