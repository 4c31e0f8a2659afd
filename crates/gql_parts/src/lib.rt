//! Builders of the parts of types: uses of directives, values of enums, input values and fields. Each records its
//! calls, and `meta` answers the part of a schema that is registered for it.
//!
//! ```rust
//! let first = InputValue::new(alloc, "first", TypeRef::named(alloc, "Int")?)?
//!     .default_value(ConstValue::Number(Number::from_i64(10)))?;
//! let lines = Field::new(alloc, "lines", TypeRef::named_nn_list_nn(alloc, "Line")?)?
//!     .argument(first)?;
//! ```
#![tactic(auto)]

mod deprecation;
mod directive;
mod enum_item;
mod field;
mod input_value;
mod subscription_field;

pub use directive::{Directive, to_meta_directive_invocation};
pub use enum_item::EnumItem;
pub use field::{Field, FieldBuilder, InterfaceField, OfInterface, OfObject};
pub use gql_registry_meta::{
    ConstValue, MetaDirectiveInvocation, MetaEnumValue, MetaField, MetaInputValue, OutOfMemory,
    TypeRef,
};
pub use gql_text_lexer::{Name, Number};
pub use input_value::{InputValue, arguments_meta};
pub use sqlite_items::{Boxed, Items};
pub use subscription_field::SubscriptionField;
