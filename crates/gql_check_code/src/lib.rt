//! The rules of a schema, in their order, and the search for an input object that needs itself.
#![tactic(auto)]

mod existence;
mod fields;
mod fits;
mod implementation;
mod inputs;
mod interfaces;
mod kinds;
mod names;
mod objects;
mod roots;
mod rules;
mod search;
mod table;
mod types;
mod unions;

pub use gql_check_cycles::Steps;
pub use rules::check;
pub use search::first_input_cycle;
pub use types::SchemaTypes;
