//! Types of code that stand for types of a schema, and directives of code.

use crate::registry::Registry;
use crate::registry_error::RegistryError;
use gql_text_lexer::OutOfMemory;
use std::alloc::Global;

/// A type of code that stands for an input type of a schema: section 3.4.2 of the GraphQL specification, October 2021.
/// Its name is `named`, and `creates` is the relation between the registry at entry, the answer and the registry at the
/// return of `create_type_info`.
pub trait InputType {
    ghost use Rattle.std.specs.Prelude.{◌≡◌, ◌++◌, codes, IfOk, OnOk, IsSome};
    ghost use Rattle.gql_registry_meta.specs.Parts.{Text, at_text};
    ghost use Rattle.gql_registry_meta.specs.Views.{text_of};
    ghost use Rattle.gql_registry.specs.Registry.{Contents, registry_of, types_of};
    ghost use Rattle.gql_registry.specs.Created.{Answer, answer_of};

    ghost named: { Text };

    ghost creates: { Contents → Answer → Contents → Type 0 };

    /// The name of the type. Each Ok is one and the same text.
    fn type_name(alloc: Global) -> Result<String, OutOfMemory>
        ensures { IfOk result (λ name. text_of name ≡ named) };

    /// The reference to the type where null is no value: the name and `!`, section 3.12.
    fn qualified_type_name(alloc: Global) -> Result<String, OutOfMemory>
        ensures { IfOk result (λ name. text_of name ≡ named ++ codes "!") };

    /// Puts the type to the registry, with what it needs. After Ok a type stands under the name.
    fn create_type_info(registry: &mut Registry) -> Result<(), RegistryError>
        ensures created { creates (registry_of registry.old) (answer_of result)
            (registry_of registry.new) }
        ensures stands { OnOk result (IsSome (at_text named (types_of registry.new))) };
}

/// A type of code that stands for an output type of a schema: section 3.4.2 of the GraphQL specification, October 2021.
/// Its name is `named`, and `creates` is the relation between the registry at entry, the answer and the registry at the
/// return of `create_type_info`.
pub trait OutputType {
    ghost use Rattle.std.specs.Prelude.{◌≡◌, ◌++◌, codes, IfOk, OnOk, IsSome};
    ghost use Rattle.gql_registry_meta.specs.Parts.{Text, at_text};
    ghost use Rattle.gql_registry_meta.specs.Views.{text_of};
    ghost use Rattle.gql_registry.specs.Registry.{Contents, registry_of, types_of};
    ghost use Rattle.gql_registry.specs.Created.{Answer, answer_of};

    ghost named: { Text };

    ghost creates: { Contents → Answer → Contents → Type 0 };

    /// The name of the type. Each Ok is one and the same text.
    fn type_name(alloc: Global) -> Result<String, OutOfMemory>
        ensures { IfOk result (λ name. text_of name ≡ named) };

    /// The reference to the type where null is no value: the name and `!`, section 3.12.
    fn qualified_type_name(alloc: Global) -> Result<String, OutOfMemory>
        ensures { IfOk result (λ name. text_of name ≡ named ++ codes "!") };

    /// Puts the type to the registry, with what it needs. After Ok a type stands under the name.
    fn create_type_info(registry: &mut Registry) -> Result<(), RegistryError>
        ensures created { creates (registry_of registry.old) (answer_of result)
            (registry_of registry.new) }
        ensures stands { OnOk result (IsSome (at_text named (types_of registry.new))) };
}

/// A type of code that stands for an object whose fields are event streams: section 3.3.1 of the GraphQL specification,
/// October 2021. Its name is `named`, and `creates` is the relation between the registry at entry, the answer and the
/// registry at the return of `create_type_info`.
pub trait SubscriptionType {
    ghost use Rattle.std.specs.Prelude.{◌≡◌, ◌++◌, codes, IfOk, OnOk, IsSome};
    ghost use Rattle.gql_registry_meta.specs.Parts.{Text, at_text};
    ghost use Rattle.gql_registry_meta.specs.Views.{text_of};
    ghost use Rattle.gql_registry.specs.Registry.{Contents, registry_of, types_of};
    ghost use Rattle.gql_registry.specs.Created.{Answer, answer_of};

    ghost named: { Text };

    ghost creates: { Contents → Answer → Contents → Type 0 };

    /// The name of the type. Each Ok is one and the same text.
    fn type_name(alloc: Global) -> Result<String, OutOfMemory>
        ensures { IfOk result (λ name. text_of name ≡ named) };

    /// The reference to the type where null is no value: the name and `!`, section 3.12.
    fn qualified_type_name(alloc: Global) -> Result<String, OutOfMemory>
        ensures { IfOk result (λ name. text_of name ≡ named ++ codes "!") };

    /// Puts the type to the registry, with what it needs. After Ok a type stands under the name.
    fn create_type_info(registry: &mut Registry) -> Result<(), RegistryError>
        ensures created { creates (registry_of registry.old) (answer_of result)
            (registry_of registry.new) }
        ensures stands { OnOk result (IsSome (at_text named (types_of registry.new))) };

    /// Whether the type has no field. It has some unless an implementation says otherwise.
    fn is_empty() -> bool {
        false
    }
}

/// A type of code that has fields.
pub trait ContainerType {
    /// Whether the type has no field. It has some unless an implementation says otherwise.
    fn is_empty() -> bool {
        false
    }
}

/// A type of code that stands for an object of a schema: section 3.6 of the GraphQL specification, October 2021.
pub trait ObjectType: OutputType + ContainerType {}

/// A value of code that stands for the definition of a directive: section 3.13 of the GraphQL specification, October
/// 2021. Its name is `named`, and `registers` is the relation between the registry at entry, the answer and the registry
/// at the return of `register`.
pub trait TypeDirective {
    ghost use Rattle.std.specs.Prelude.{◌≡◌};
    ghost use Rattle.gql_registry_meta.specs.Parts.{Text};
    ghost use Rattle.gql_registry.specs.Registry.{Contents, registry_of};
    ghost use Rattle.gql_registry.specs.Created.{Answer, answer_of};

    ghost named: { Self → Text };

    ghost registers: { Self → Contents → Answer → Contents → Type 0 };

    /// The name of the directive.
    fn name(&self) -> &str
        ensures { result.now ≡ named self.now };

    /// Puts the definition of the directive to the registry.
    fn register(&self, registry: &mut Registry) -> Result<(), RegistryError>
        ensures { registers self.now (registry_of registry.old) (answer_of result)
            (registry_of registry.new) };
}
