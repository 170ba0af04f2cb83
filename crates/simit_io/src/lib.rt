//! Inputs that files are read from and sinks that bytes are put to: what such an object promises, the
//! whole of a file read, the whole of a piece put, and the objects over memory and over the real things.
//! Each object counts its faults, so that a failure has a cause which a caller can see.
#![tactic(auto)]

mod files;
mod inputs;
mod mem_inputs;
mod mem_sink;
mod plan;
mod reading;
mod sink;
mod stream;
mod writing;

pub use files::Files;
pub use inputs::{Failed, Inputs};
pub use mem_inputs::{MemFile, MemInputs};
pub use mem_sink::MemSink;
pub use reading::{ReadAll, read_all};
pub use sink::Sink;
pub use stream::Stream;
pub use writing::{put_all, putting_law};
