//! From the bytes of a schema document to its canonical text and its schema, and the program that writes the text.
//!
//! ```rust
//! let options = SDLExportOptions::new().sorted_fields();
//! let published = publish(alloc, b"type Query { orders(first: Int = 10): [ID!]! }", options)?;
//! let (text, registry) = (published.text.as_str(), published.schema.registry());
//! ```
#![tactic(auto)]

mod lines;
mod program;

pub use gql_publish_document::verdict_laws;
pub use gql_publish_load::{
    PublishError, Published, SDLExportOptions, Schema, SchemaError, Text, What, canonical_sdl,
    load, publish,
};
pub use gql_publish_sample::{sample_laws, sample_text};
pub use gql_publish_views::view_laws;
pub use gql_publish_words::{Request, WordsError, read_words};
pub use gql_streams::{
    Failed, MemorySink, MemorySource, Sink, Source, StdSink, StdSource, SureSink, SureSource,
};
pub use gql_text::OutOfMemory;
pub use lines::fault_line;
pub use program::{LIMIT, run};
