//! The programs and tables that several tests take, once.
#![tactic(auto)]

mod models;
mod pulling;

pub use models::{
    BROKEN_OFF, DOUBLED, FORMS, GRADIENTS, POINTS_AND_SPRINGS, PULLING, RATIO, STIFF, STIFFNESS,
    SUMMED,
};
pub use pulling::{HEAD, POINTS, PULL, PULLED, SPRINGS};
