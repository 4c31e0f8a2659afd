//! Types of a schema that is built in code, their registration, and the errors of schemas.
//!
//! ```rust
//! let id = Field::new(alloc, "id", TypeRef::named_nn(alloc, "ID")?)?;
//! let order = Object::new(alloc, "Order")?.implement("Node")?.field(id)?;
//! Type::from(order).register(&mut registry)?;
//! ```
#![tactic(auto)]

mod schema_error;
mod schema_type;

pub use gql_dynamic_types::{
    Boxed, BuildError, ConstValue, Directive, Enum, EnumItem, Field, FieldBuilder, InputObject,
    InputValue, Interface, InterfaceField, Items, MetaDirectiveInvocation, MetaType, Name, Number,
    Object, OfInterface, OfObject, OutOfMemory, Scalar, ScalarValidator, Subscription,
    SubscriptionField, TypeRef, Union, to_meta_directive_invocation,
};
pub use gql_registry::Registry;
pub use gql_registry_meta::MetaTypeId;
pub use schema_error::SchemaError;
pub use schema_type::{SchemaType, Type};
