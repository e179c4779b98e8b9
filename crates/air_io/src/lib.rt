//! Bytes in and out: sources and sinks that may fail, over memory and over std's readers and writers, and the two
//! loops that read all of a source and write all of a piece.
//!
//! All of it is this project's own choice (profile). A count of failures stands still at its last value,
//! 18,446,744,073,709,551,615.
#![tactic(auto)]

mod memory;
mod sink;
mod source;
mod standard;
mod sure;
mod transfer;

pub use memory::{MemSink, MemSource};
pub use sink::{Put, Sink};
pub use source::{Source, Take};
pub use standard::{StdSink, StdSource};
pub use sure::{SureSink, SureSource};
pub use transfer::{Bytes, ReadEnd, WriteFailed, read_to_end, write_all};

/// There is no memory for what was asked.
pub type OutOfMemory = std::alloc::AllocError;
