// Where texts come from and where they go: sources and sinks of bytes, each with a count of faults.
#![tactic(auto)]

mod memory_sink;
mod memory_source;
mod pieces;
mod reading;
mod sinks;
mod sources;
mod standard;
mod steady;
mod writing;

pub use memory_sink::MemorySink;
pub use memory_source::MemorySource;
pub use reading::{ReadError, read_all};
pub use sinks::{Put, Sink};
pub use sources::{Got, Source};
pub use standard::{ReaderSource, StdSink, StdSource, WriterSink};
pub use steady::{SteadySink, SteadySource};
pub use writing::{WriteError, write_all_of};
