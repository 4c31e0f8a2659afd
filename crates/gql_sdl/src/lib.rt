//! The canonical text of a schema in the type system definition language, and the view of a schema, which is what that
//! text says: section 3 of the GraphQL specification, October 2021.
//!
//! ```rust
//! let options = SDLExportOptions::new().sorted_fields().use_space_ident();
//! let text = export_sdl(alloc, schema.registry(), options)?;
//! ```
#![tactic(auto)]

mod members;
mod needs;
mod options;
mod ordering;
mod printing;
mod types;
mod view;
mod viewing;
mod writing;

pub use gql_registry::{
    ConstValue, MetaDirective, MetaDirectiveInvocation, MetaEnumValue, MetaField, MetaInputValue,
    MetaType, Registry,
};
pub use gql_text_lexer::OutOfMemory;
pub use options::SDLExportOptions;
pub use printing::{directive_sdl, export_sdl, spell};
pub use view::View;
pub use viewing::view_of;
pub use writing::SDLWriter;
