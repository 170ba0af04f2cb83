//! The tables of sets: a schema, the set that a CSV table of that schema states or its first fault, and the text of a
//! set's table.
#![tactic(auto)]

mod faults;
mod lengths;
mod reading;
mod records;
mod schema;
mod writing;

pub use faults::TableFault;
pub use lengths::text_len;
pub use reading::read_table;
pub use schema::{Column, Schema};
pub use writing::write_table;
