//! Building a schema: its types, its directives, the rules that it keeps, and its registry.
//!
//! ```rust
//! let builder = Schema::build(alloc, "Query", None, None)?;
//! let schema = builder.register(Type::from(query))?.finish()?;
//! let types = schema.registry().types();
//! ```
#![tactic(auto)]

mod builder;
mod making;
mod schema;

pub use builder::SchemaBuilder;
pub use gql_check_code::{SchemaTypes, Steps, check, first_input_cycle};
pub use gql_dynamic::{
    BuildError, Directive, Enum, EnumItem, Field, FieldBuilder, InputObject, InputValue, Interface,
    InterfaceField, Object, OfInterface, OfObject, OutOfMemory, Scalar, ScalarValidator,
    SchemaError, SchemaType, Subscription, SubscriptionField, Type, Union,
};
pub use gql_registry::{
    IntrospectionMode, MetaDirective, MetaDirectiveInvocation, MetaTypeId, Registry,
};
pub use gql_text_lexer::{Name, NameError, Number};
pub use gql_text_values::{ConstValue, TypeRef};
pub use schema::Schema;
pub use sqlite_items::{Boxed, Items};
