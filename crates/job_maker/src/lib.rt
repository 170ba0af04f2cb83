//! Jobs that are made by rule from a seed: a program of springs, and sets of any size for it to run on.
#![tactic(auto)]

mod made;
mod point_set;
mod spring_set;
mod text;
mod weights;

pub use made::{MOST_POINTS, Made, make};
pub use weights::weighted;

#[cfg(test)]
mod tests;
