//! Type references and constant values of GraphQL.
#![tactic(auto)]

mod const_value;
mod type_ref;

pub use const_value::ConstValue;
pub use type_ref::{TypeRef, subtype_laws};
