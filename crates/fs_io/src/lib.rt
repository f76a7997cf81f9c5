// Where bytes come from and where they go: sources and sinks that count their own faults.
#![tactic(auto)]

mod memory;
mod standard;
mod streams;
mod whole;

pub use memory::{MemSink, MemSource};
pub use standard::{StdSink, StdSource};
pub use streams::{Failed, Sink, Source};
pub use whole::{NoMemory, ReadStop, WriteFault, read_all, write_all};
