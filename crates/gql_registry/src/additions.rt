//! What is added to a registry step by step.

ghost use Rattle.std.specs.Prelude.{◌≡◌, OnOk, OnErr, map};
ghost use Rattle.gql_registry.specs.Registry.{IsUnchanged};
ghost use Rattle.gql_registry.specs.Additions.{object_with, missing_type, query_field, system_steps, introspection_steps};
ghost use Rattle.gql_registry.specs.Additions.{Makes, MakesAll, MakesSome};
ghost use Rattle.gql_registry.specs.Tables.{step_of};
ghost use Rattle.gql_registry_meta.specs.Parts.{name_of};
ghost use Rattle.gql_registry_meta.specs.Views.{text_of, field_of, meta_of};

use crate::introspection::{IntrospectionType, QueryField, introspection_type, query_field};
use crate::plain::scalar;
use crate::registry::Registry;
use crate::system::{SystemDirective, system_directive};
use gql_registry_meta::{MetaField, MetaType};
use gql_text_lexer::OutOfMemory;

/// One addition to a registry.
#[derive(Clone, Copy)]
pub(crate) enum Addition {
    /// In the place of a directive of that name.
    Directive(SystemDirective),
    /// Where no type of that name stands.
    Scalar(&'static str),
    /// Where no type of that name stands.
    Type(IntrospectionType),
    /// To the query root, where that is an object.
    QueryField(QueryField),
}

const SYSTEM: [Addition; 10] = [
    Addition::Directive(SystemDirective::Skip),
    Addition::Directive(SystemDirective::Include),
    Addition::Directive(SystemDirective::Deprecated),
    Addition::Directive(SystemDirective::SpecifiedBy),
    Addition::Directive(SystemDirective::OneOf),
    Addition::Scalar("Boolean"),
    Addition::Scalar("Int"),
    Addition::Scalar("Float"),
    Addition::Scalar("String"),
    Addition::Scalar("ID"),
];

const INTROSPECTION: [Addition; 10] = [
    Addition::Type(IntrospectionType::Schema),
    Addition::Type(IntrospectionType::Type),
    Addition::Type(IntrospectionType::Field),
    Addition::Type(IntrospectionType::InputValue),
    Addition::Type(IntrospectionType::EnumValue),
    Addition::Type(IntrospectionType::Directive),
    Addition::Type(IntrospectionType::TypeKind),
    Addition::Type(IntrospectionType::DirectiveLocation),
    Addition::QueryField(QueryField::Schema),
    Addition::QueryField(QueryField::Type),
];

/// Puts a field to an object, in the place of one of its name, and leaves any other type as it is.
fn add_field(ty: &mut MetaType, name: String, field: MetaField) -> Result<(), OutOfMemory>
    requires { text_of name ≡ text_of field.name }
    ensures field { OnOk result (meta_of ty.new ≡ object_with (field_of field) (meta_of ty.old)) }
    ensures name { name_of (meta_of ty.new) ≡ name_of (meta_of ty.old) }
    ensures err { OnErr result (meta_of ty.new ≡ meta_of ty.old) }
{
    match ty {
        MetaType::Object { fields, .. } => {
            fields.insert(name, field)?;
            Ok(())
        }
        MetaType::Scalar { .. } => Ok(()),
        MetaType::Interface { .. } => Ok(()),
        MetaType::Union { .. } => Ok(()),
        MetaType::Enum { .. } => Ok(()),
        MetaType::InputObject { .. } => Ok(()),
    }
}

impl Registry {
    fn add_missing(&mut self, ty: MetaType) -> Result<(), OutOfMemory>
        ensures made { OnOk result (Makes (missing_type (meta_of ty)) self.old self.new) }
        ensures err { OnErr result (IsUnchanged self.old self.new) }
    {
        if self.types.contains_key(ty.name()) {
            return Ok(());
        }
        self.put_type(ty)
    }

    fn add_query_field(&mut self, field: MetaField) -> Result<(), OutOfMemory>
        ensures made { OnOk result (Makes (query_field (field_of field)) self.old self.new) }
        ensures err { OnErr result (IsUnchanged self.old self.new) }
    {
        let name = field.name.clone()?;
        match self.types.get_mut(self.query_type.as_str()) {
            Some(ty) => add_field(ty, name, field),
            None => Ok(()),
        }
    }

    fn add(&mut self, addition: Addition) -> Result<(), OutOfMemory>
        ensures made { OnOk result (Makes (step_of addition) self.old self.new) }
        ensures err { OnErr result (IsUnchanged self.old self.new) }
    {
        let alloc = self.allocator();
        match addition {
            Addition::Directive(which) => self.add_directive(system_directive(alloc, which)?),
            Addition::Scalar(name) => self.add_missing(scalar(alloc, name)?),
            Addition::Type(which) => self.add_missing(introspection_type(alloc, which)?),
            Addition::QueryField(which) => self.add_query_field(query_field(alloc, which)?),
        }
    }

    fn add_all(&mut self, additions: &[Addition]) -> Result<(), OutOfMemory>
        ensures made { OnOk result (MakesAll (map step_of additions.now) self.old self.new) }
        ensures err { OnErr result (MakesSome (map step_of additions.now) self.old self.new) }
    {
        for addition in additions {
            self.add(*addition)?;
        }
        Ok(())
    }

    /// Adds the directives that every schema has, each in the place of one of its name: `skip`, `include`, `deprecated`,
    /// `specifiedBy`, `oneOf`. Then the scalars `Boolean`, `Int`, `Float`, `String` and `ID`, each where no type of its
    /// name stands. Where memory runs out, some first of these additions are made.
    pub fn add_system_types(&mut self) -> Result<(), OutOfMemory>
        ensures made { OnOk result (MakesAll system_steps self.old self.new) }
        ensures err { OnErr result (MakesSome system_steps self.old self.new) }
    {
        self.add_all(&SYSTEM)
    }

    /// Adds the eight introspection types, each where no type of its name stands, and then the fields `__schema` and
    /// `__type` to the query root, where that is an object; a field that it has under one of these names is replaced at
    /// its place. Section 4.2 of the GraphQL specification, October 2021. Where memory runs out, some first of these
    /// additions are made.
    pub fn create_introspection_types(&mut self) -> Result<(), OutOfMemory>
        ensures made { OnOk result (MakesAll introspection_steps self.old self.new) }
        ensures err { OnErr result (MakesSome introspection_steps self.old self.new) }
    {
        self.add_all(&INTROSPECTION)
    }
}
