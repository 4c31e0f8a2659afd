//! Builders of types: scalars, objects, interfaces, unions, enums, input objects and subscriptions. Each records its calls,
//! and `meta` answers the type that is registered for it.
#![tactic(auto)]

mod enumeration;
mod error;
mod input_object;
mod interface;
mod keys;
mod members;
mod object;
mod scalar;
mod subscription;
mod union;

pub use enumeration::Enum;
pub use error::BuildError;
pub use gql_parts::{
    Boxed, ConstValue, Directive, EnumItem, Field, FieldBuilder, InputValue, InterfaceField, Items,
    MetaDirectiveInvocation, Name, Number, OfInterface, OfObject, SubscriptionField, TypeRef,
    to_meta_directive_invocation,
};
pub use gql_registry_meta::{MetaType, OutOfMemory, ScalarValidator};
pub use input_object::InputObject;
pub use interface::Interface;
pub use object::Object;
pub use scalar::Scalar;
pub use subscription::Subscription;
pub use union::Union;
