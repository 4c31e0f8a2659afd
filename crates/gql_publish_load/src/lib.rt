//! From the bytes of a document to its schema and its canonical text: `load`, `publish`, `canonical_sdl`, and why bytes are
//! refused. Each definition that is written becomes a builder of a type, or the definition of a directive, with one copy of
//! each name.
#![tactic(auto)]

mod attributes;
mod canonical;
mod directives;
mod enum_values;
mod error;
mod fields;
mod inputs;
mod loading;
mod objects;
mod publishing;
mod scalars;
mod taking;
mod types;
mod uses;
mod values;

pub use canonical::canonical_sdl;
pub use error::PublishError;
pub use gql_check::{Schema, SchemaError};
pub use gql_sdl::SDLExportOptions;
pub use gql_text::{Text, What};
pub use loading::load;
pub use publishing::{Published, publish};
