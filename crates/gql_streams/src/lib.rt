//! Where bytes come from and where they go: sources and sinks that count their faults, in memory and over the
//! standard streams, and the two loops over them.
//!
//! ```rust
//! let mut input = StdSource::new(rt.stdin());
//! let bytes = read_all(alloc, &mut input, limit)?;
//! let mut output = StdSink::new(rt.stdout());
//! write_all(&mut output, bytes.as_slice())?;
//! ```
#![tactic(auto)]

mod memory;
mod outside;
mod reading;
mod standard;
mod sure;
mod writing;

pub use memory::{MemorySink, MemorySource};
pub use outside::{Failed, Sink, Source};
pub use reading::{ReadFault, read_all};
pub use standard::{StdSink, StdSource};
pub use sure::{SureSink, SureSource};
pub use writing::write_all;
