//! Calls of the program over memory, with the host functions of `simit`, as tests make them: their words and files, what
//! their inputs and sinks do, and how they end.
#![tactic(auto)]

mod calls;
mod runs;

pub use calls::{
    Call, End, NEVER, assert_end, assert_over_points, done, ended, files_of, output_of, refused,
};
pub use runs::{ONE_AND_TWO, ONE_SET, Row, assert_by, assert_printed, assert_run};
