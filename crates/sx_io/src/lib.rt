//! Sources and sinks of bytes that count their faults, and whole reads and writes over them.
#![tactic(auto)]

mod memory;
mod outside;
mod steady;
mod streams;
mod unread;
mod whole;

pub use memory::{MemorySink, MemorySource};
pub use outside::{Failed, Sink, Source};
pub use steady::{SteadySink, SteadySource};
pub use streams::{StdSink, StdSource};
pub use whole::{ReadFault, WriteFault, read_all, write_all};

/// A list of bytes.
pub type Bytes = sx_lists::List<u8>;

#[cfg(test)]
mod tests;
