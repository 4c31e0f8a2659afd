//! Meta types: what a schema is made of, as its registry keeps it.
#![tactic(auto)]

mod accessors;
mod cache_control;
mod context;
mod copies;
mod deprecation;
mod directive;
mod directive_invocation;
mod directive_location;
mod enum_value;
mod field;
mod input_value;
mod introspection_mode;
mod meta_type;
mod scalar_validator;
mod type_copies;
mod type_id;
mod type_name;

pub use cache_control::{CacheControl, merge_laws};
pub use context::{Context, Everything, holds_twice, is_shown};
pub use copies::{
    copy_invocations, copy_names, copy_optional, copy_texts, owned_text, owned_texts,
};
pub use deprecation::Deprecation;
pub use directive::MetaDirective;
pub use directive_invocation::MetaDirectiveInvocation;
pub use directive_location::DirectiveLocation;
pub use enum_value::MetaEnumValue;
pub use field::MetaField;
pub use gql_text_lexer::OutOfMemory;
pub use gql_text_values::{ConstValue, TypeRef};
pub use input_value::MetaInputValue;
pub use introspection_mode::IntrospectionMode;
pub use meta_type::MetaType;
pub use scalar_validator::ScalarValidator;
pub use type_id::MetaTypeId;
pub use type_name::{MetaTypeName, printed_levels};
