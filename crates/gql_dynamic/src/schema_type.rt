//! Types of a schema, and their registration: section 3.4 of the GraphQL specification, October 2021.

ghost use Rattle.std.specs.Prelude.{◌≡◌, IfErr, OnOk, OnErr};
ghost use Rattle.std.specs.Map.{keys_of};
ghost use Rattle.std.specs.Option.{option_map};
ghost use Rattle.gql_registry.specs.Registry.{types_of, IsUnchanged};
ghost use Rattle.gql_dynamic_types.specs.Types.{IsNew};
ghost use Rattle.gql_dynamic_types.specs.TypeViews.{object_parts, interface_parts, input_object_parts, subscription_parts};
ghost use Rattle.gql_dynamic.specs.SchemaTypes.{type_name, object_of, interface_of, input_object_of, subscription_of};
ghost use Rattle.gql_dynamic.specs.SchemaTypes.{is_output, is_input};
ghost use Rattle.gql_dynamic.specs.SchemaViews.{type_parts, HasType, HasOneMore};
ghost use Rattle.gql_dynamic.specs.Errors.{TellsExisting};
ghost use Rattle.gql_dynamic.specs.declared.schema_type.SchemaType.TheVariants as variant;

use crate::schema_error::SchemaError;
use gql_dynamic_types::{Enum, InputObject, Interface, Object, Scalar, Subscription, Union};
use gql_registry::Registry;
use gql_registry_meta::OutOfMemory;
use indexmap::IndexSet;
use std::alloc::Global;

/// A type of a schema. `Upload` is the scalar of uploaded files, which is an input type alone.
#[derive(Debug, Drop)]
pub enum SchemaType {
    Scalar(Scalar),
    Object(Object),
    InputObject(InputObject),
    Enum(Enum),
    Interface(Interface),
    Union(Union),
    Subscription(Subscription),
    Upload,
}

/// A type of a schema.
pub type Type = SchemaType;

impl SchemaType {
    /// The name of the type; that of uploads is `Upload`.
    pub fn name(&self) -> &str
        ensures { result.now ≡ type_name (type_parts self.now) }
    {
        match self {
            SchemaType::Scalar(ty) => ty.type_name(),
            SchemaType::Object(ty) => ty.type_name(),
            SchemaType::InputObject(ty) => ty.type_name(),
            SchemaType::Enum(ty) => ty.type_name(),
            SchemaType::Interface(ty) => ty.type_name(),
            SchemaType::Union(ty) => ty.type_name(),
            SchemaType::Subscription(ty) => ty.type_name(),
            SchemaType::Upload => "Upload",
        }
    }

    /// It, where it is an object.
    pub fn as_object(&self) -> Option<&Object>
        ensures { option_map (λ ty. object_parts ty.now) result ≡ object_of (type_parts self.now) }
    {
        match self {
            SchemaType::Object(ty) => Some(ty),
            _ => None,
        }
    }

    /// It, where it is an interface.
    pub fn as_interface(&self) -> Option<&Interface>
        ensures { option_map (λ ty. interface_parts ty.now) result
            ≡ interface_of (type_parts self.now) }
    {
        match self {
            SchemaType::Interface(ty) => Some(ty),
            _ => None,
        }
    }

    /// It, where it is an input object.
    pub fn as_input_object(&self) -> Option<&InputObject>
        ensures { option_map (λ ty. input_object_parts ty.now) result
            ≡ input_object_of (type_parts self.now) }
    {
        match self {
            SchemaType::InputObject(ty) => Some(ty),
            _ => None,
        }
    }

    /// It, where it is a subscription root.
    pub fn as_subscription(&self) -> Option<&Subscription>
        ensures { option_map (λ ty. subscription_parts ty.now) result
            ≡ subscription_of (type_parts self.now) }
    {
        match self {
            SchemaType::Subscription(ty) => Some(ty),
            _ => None,
        }
    }

    /// Whether a field may have it, section 3.4.2.
    pub fn is_output_type(&self) -> bool
        ensures { result ≡ is_output (type_parts self.now) }
    {
        match self {
            SchemaType::Scalar(_) => true,
            SchemaType::Object(_) => true,
            SchemaType::InputObject(_) => false,
            SchemaType::Enum(_) => true,
            SchemaType::Interface(_) => true,
            SchemaType::Union(_) => true,
            SchemaType::Subscription(_) => false,
            SchemaType::Upload => false,
        }
    }

    /// Whether an argument or a field of an input object may have it, section 3.4.2.
    pub fn is_input_type(&self) -> bool
        ensures { result ≡ is_input (type_parts self.now) }
    {
        match self {
            SchemaType::Scalar(_) => true,
            SchemaType::Object(_) => false,
            SchemaType::InputObject(_) => true,
            SchemaType::Enum(_) => true,
            SchemaType::Interface(_) => false,
            SchemaType::Union(_) => false,
            SchemaType::Subscription(_) => false,
            SchemaType::Upload => true,
        }
    }

    /// Gives back the memory that its maps and lists do not need.
    pub fn shrink_to_fit(&mut self)
        ensures { type_parts self.new ≡ type_parts self.old }
    {
        match self {
            SchemaType::Object(ty) => ty.shrink_to_fit(),
            SchemaType::InputObject(ty) => ty.shrink_to_fit(),
            SchemaType::Enum(ty) => ty.shrink_to_fit(),
            SchemaType::Interface(ty) => ty.shrink_to_fit(),
            SchemaType::Union(ty) => ty.shrink_to_fit(),
            SchemaType::Subscription(ty) => ty.shrink_to_fit(),
            SchemaType::Scalar(_) => {}
            SchemaType::Upload => {}
        }
    }

    /// Registers it with the interfaces that it implements, in order: all of that, or nothing. The registry then has exactly
    /// one type more.
    ///
    /// Answers `AlreadyExists` where the registry has a type of its name.
    pub fn register(&self, registry: &mut Registry) -> Result<(), SchemaError>
        ensures added { OnOk result (HasType (type_parts self.now) registry.old registry.new) }
        ensures one_more { OnOk result (
            HasOneMore (types_of registry.old) (types_of registry.new)) }
        ensures new { OnOk result (
            IsNew (type_name (type_parts self.now)) (types_of registry.old)) }
        ensures exists { IfErr result (
            TellsExisting (type_name (type_parts self.now)) (keys_of (types_of registry.old))) }
        ensures refused { OnErr result (IsUnchanged registry.old registry.new) }
    {
        if registry.has_type(self.name()) {
            return Err(SchemaError::AlreadyExists {
                name: String::from_str(registry.allocator(), self.name())?,
            });
        }
        self.add_new(registry)?;
        Ok(())
    }

    /// Adds it, with the interfaces that it implements, to a registry that has no type of its name, and so has one type
    /// more after it: all of that, or nothing.
    fn add_new(&self, registry: &mut Registry) -> Result<(), OutOfMemory>
        requires { IsNew (type_name (type_parts self.now)) (types_of registry.old) }
        ensures added { OnOk result (HasType (type_parts self.now) registry.old registry.new) }
        ensures one_more { OnOk result (
            HasOneMore (types_of registry.old) (types_of registry.new)) }
        ensures refused { OnErr result (IsUnchanged registry.old registry.new) }
    {
        let alloc = registry.allocator();
        let none = IndexSet::new(alloc);
        match self {
            SchemaType::Scalar(ty) => registry.add_type(ty.meta(alloc)?, &none),
            SchemaType::Object(ty) => registry.add_type(ty.meta(alloc)?, ty.implements()),
            SchemaType::InputObject(ty) => registry.add_type(ty.meta(alloc)?, &none),
            SchemaType::Enum(ty) => registry.add_type(ty.meta(alloc)?, &none),
            SchemaType::Interface(ty) => registry.add_type(ty.meta(alloc)?, ty.implements()),
            SchemaType::Union(ty) => registry.add_type(ty.meta(alloc)?, &none),
            SchemaType::Subscription(ty) => registry.add_type(ty.meta(alloc)?, &none),
            SchemaType::Upload => {
                let upload = Scalar::new(alloc, "Upload")?;
                registry.add_type(upload.meta(alloc)?, &none)
            }
        }
    }
}

impl From<Scalar> for SchemaType {
    ghost from_gives = { λ scalar ty. ty ≡ variant.Scalar scalar };

    fn from(scalar: Scalar) -> SchemaType {
        SchemaType::Scalar(scalar)
    }
}

impl From<Object> for SchemaType {
    ghost from_gives = { λ object ty. ty ≡ variant.Object object };

    fn from(object: Object) -> SchemaType {
        SchemaType::Object(object)
    }
}

impl From<InputObject> for SchemaType {
    ghost from_gives = { λ object ty. ty ≡ variant.InputObject object };

    fn from(object: InputObject) -> SchemaType {
        SchemaType::InputObject(object)
    }
}

impl From<Enum> for SchemaType {
    ghost from_gives = { λ built ty. ty ≡ variant.Enum built };

    fn from(built: Enum) -> SchemaType {
        SchemaType::Enum(built)
    }
}

impl From<Interface> for SchemaType {
    ghost from_gives = { λ built ty. ty ≡ variant.Interface built };

    fn from(interface: Interface) -> SchemaType {
        SchemaType::Interface(interface)
    }
}

impl From<Union> for SchemaType {
    ghost from_gives = { λ built ty. ty ≡ variant.Union built };

    fn from(union: Union) -> SchemaType {
        SchemaType::Union(union)
    }
}

impl From<Subscription> for SchemaType {
    ghost from_gives = { λ subscription ty. ty ≡ variant.Subscription subscription };

    fn from(subscription: Subscription) -> SchemaType {
        SchemaType::Subscription(subscription)
    }
}
