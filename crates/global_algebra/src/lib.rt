//! Runs typed programs by the algebra: statement after statement, each matrix dense. How the results of a map are
//! computed is a part that is handed in; the plain run takes the one that follows the definition.
#![tactic(auto)]

mod assignment;
mod ending;
mod maps;
mod plain_run;
mod right_sides;
mod statements;

pub use ending::Ending;
pub use maps::{Maps, PlainMaps};
pub use plain_run::{PlainFault, plain};
pub use statements::run;
