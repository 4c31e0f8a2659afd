//! Copies of types that are created on demand.

ghost use Rattle.std.specs.Prelude.{◌≡◌, Some, IfOk, IsSome};
ghost use Rattle.gql_registry_meta.specs.Parts.{at_text};
ghost use Rattle.gql_registry_meta.specs.Views.{meta_of};
ghost use Rattle.gql_registry.specs.Registry.{registry_of, types_of};
ghost use Rattle.gql_registry.specs.Created.{Faked, made_by};

use crate::registry::Registry;
use crate::registry_error::RegistryError;
use crate::type_traits::{InputType, OutputType, SubscriptionType};
use gql_registry_meta::MetaType;
use gql_text_lexer::OutOfMemory;

impl Registry {
    /// A copy of the type under a name.
    fn copy_at(&self, name: &str) -> Result<MetaType, OutOfMemory>
        requires { IsSome (at_text name.now (types_of self.now)) }
        ensures { IfOk result (λ copy.
            at_text name.now (types_of self.now) ≡ Some (meta_of copy)) }
    {
        match self.type_at(name) {
            Some(ty) => ty.try_clone(self.allocator()),
            None => unreachable!(),
        }
    }

    /// Creates the output type that a type of code stands for, and answers a copy of it. It has the refusals of
    /// `T::create_type_info` alone, and `OutOfMemory` for the copy; after each the registry is as that call left it.
    pub fn create_fake_output_type<T: OutputType>(&mut self) -> Result<MetaType, RegistryError>
        ensures { Faked T.named T.creates (registry_of self.old) (made_by meta_of result)
            (registry_of self.new) }
    {
        match T::create_type_info(self) {
            Ok(()) => match T::type_name(self.allocator()) {
                Ok(name) => match self.copy_at(name.as_str()) {
                    Ok(copy) => Ok(copy),
                    Err(e) => Err(RegistryError::from(e)),
                },
                Err(e) => Err(RegistryError::from(e)),
            },
            Err(e) => Err(e),
        }
    }

    /// Creates the input type that a type of code stands for, and answers a copy of it. It has the refusals of
    /// `T::create_type_info` alone, and `OutOfMemory` for the copy; after each the registry is as that call left it.
    pub fn create_fake_input_type<T: InputType>(&mut self) -> Result<MetaType, RegistryError>
        ensures { Faked T.named T.creates (registry_of self.old) (made_by meta_of result)
            (registry_of self.new) }
    {
        match T::create_type_info(self) {
            Ok(()) => match T::type_name(self.allocator()) {
                Ok(name) => match self.copy_at(name.as_str()) {
                    Ok(copy) => Ok(copy),
                    Err(e) => Err(RegistryError::from(e)),
                },
                Err(e) => Err(RegistryError::from(e)),
            },
            Err(e) => Err(e),
        }
    }

    /// Creates the object of event streams that a type of code stands for, and answers a copy of it. It has the refusals
    /// of `T::create_type_info` alone, and `OutOfMemory` for the copy; after each the registry is as that call left it.
    pub fn create_fake_subscription_type<T: SubscriptionType>(
        &mut self,
    ) -> Result<MetaType, RegistryError>
        ensures { Faked T.named T.creates (registry_of self.old) (made_by meta_of result)
            (registry_of self.new) }
    {
        match T::create_type_info(self) {
            Ok(()) => match T::type_name(self.allocator()) {
                Ok(name) => match self.copy_at(name.as_str()) {
                    Ok(copy) => Ok(copy),
                    Err(e) => Err(RegistryError::from(e)),
                },
                Err(e) => Err(RegistryError::from(e)),
            },
            Err(e) => Err(e),
        }
    }
}
