//! The text of types, directive definitions and schema blocks, printed over parts that are lent.
#![tactic(auto)]

mod arguments;
mod descriptions;
mod directives;
mod fields;
mod layout;
mod members;
mod parts;
mod types;
mod writer;

pub use directives::{push_directive, push_schema_block};
pub use layout::{Choice, Layout};
pub use members::{kept_fields, lent_inputs, lent_values};
pub use types::push_type;
