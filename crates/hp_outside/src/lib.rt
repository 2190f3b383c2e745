//! The outside of the product: a source of bytes that is read to its end, and a sink that bytes are written to.
#![tactic(auto)]

mod memory;
mod standard;
mod steady;
mod streams;
#[cfg(test)]
mod tests;
mod whole;

pub use memory::{MemorySink, MemorySource};
pub use standard::{StdSink, StdSource};
pub use steady::{SteadySink, SteadySource};
pub use streams::{Failed, Sink, Source};
pub use whole::{ReadAll, read_all, write_all};
