//! The registry of a schema: its types, its directives and its roots.
//!
//! ```rust
//! let mut registry = Registry::new(alloc);
//! registry.set_query_type("Query")?;
//! registry.add_system_types()?;
//! let int = registry.types().get("Int");
//! ```
#![tactic(auto)]

mod additions;
mod asking;
mod changing;
mod creating;
mod fakes;
mod introspection;
mod lists;
pub mod location_traits;
mod placeholders;
mod plain;
mod possible;
mod registry;
mod registry_error;
mod system;
mod type_traits;

pub use creating::CreatesTypes;
pub use gql_registry_closures::is_system_name;
pub use gql_registry_meta::{
    CacheControl, ConstValue, Context, Deprecation, DirectiveLocation, Everything,
    IntrospectionMode, MetaDirective, MetaDirectiveInvocation, MetaEnumValue, MetaField,
    MetaInputValue, MetaType, MetaTypeId, MetaTypeName, OutOfMemory, ScalarValidator, TypeRef,
    holds_twice, is_shown, merge_laws, printed_levels,
};
pub use registry::Registry;
pub use registry_error::RegistryError;
pub use type_traits::{
    ContainerType, InputType, ObjectType, OutputType, SubscriptionType, TypeDirective,
};
