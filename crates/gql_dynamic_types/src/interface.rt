//! Interfaces: section 3.7 of the GraphQL specification, October 2021.

ghost use Rattle.std.specs.Prelude.{◌≡◌, ◌++◌, ◌∷◌, [], Some, true, false, not, IfOk, IfErr, OnOk, map};
ghost use Rattle.std.specs.Map.{keys_of};
ghost use Rattle.gql_registry_meta.specs.Views.{text_of, meta_of, names_of};
ghost use Rattle.gql_parts.specs.BuilderViews.{field_parts, directive_use, fields_built};
ghost use Rattle.gql_registry_meta.specs.Parts.{is_among, is_empty};
ghost use Rattle.gql_dynamic_types.specs.Types.{with_last, new_interface, interface_meta, IsNew};
ghost use Rattle.gql_dynamic_types.specs.TypeViews.{ReportsRepeated, interface_parts};

use crate::error::BuildError;
use crate::keys::copied_keys;
use crate::members::{fields_meta, put_new, put_new_name};
use gql_parts::{Directive, InterfaceField};
use gql_registry_meta::{
    MetaDirectiveInvocation, MetaType, OutOfMemory, copy_invocations, copy_optional, copy_texts,
    owned_texts,
};
use indexmap::{IndexMap, IndexSet};
use std::alloc::Global;

/// An interface.
#[derive(Debug, Drop)]
pub struct Interface {
    alloc: Global,
    name: String,
    description: Option<String>,
    fields: IndexMap<String, InterfaceField>,
    implements: IndexSet<String>,
    keys: Vec<String>,
    extends: bool,
    inaccessible: bool,
    tags: Vec<String>,
    directives: Vec<MetaDirectiveInvocation>,
}

impl Interface {
    /// The interface of that name, of which no more is said.
    pub fn new(alloc: Global, name: &str) -> Result<Interface, OutOfMemory>
        ensures { IfOk result (λ interface. interface_parts interface ≡ new_interface name.now) }
    {
        Ok(Interface {
            alloc,
            name: String::from_str(alloc, name)?,
            description: None,
            fields: IndexMap::new(alloc),
            implements: IndexSet::new(alloc),
            keys: Vec::new(alloc),
            extends: false,
            inaccessible: false,
            tags: Vec::new(alloc),
            directives: Vec::new(alloc),
        })
    }

    /// Gives it a field, after those that it has.
    ///
    /// Answers `AlreadyExists` where it has a field of that name.
    pub fn field(mut self, mut field: InterfaceField) -> Result<Interface, BuildError>
        ensures added { IfOk result (λ interface. interface_parts interface
            ≡ record (interface_parts self) {
              fields = with_last (interface_parts self).fields (field_parts field).name (field_parts field);
            }) }
        ensures new { OnOk result (IsNew (field_parts field).name (interface_parts self).fields) }
        ensures repeated { IfErr result (
            ReportsRepeated (field_parts field).name (keys_of (interface_parts self).fields)) }
    {
        field.shrink_to_fit();
        let name = String::from_str(self.alloc, field.name())?;
        put_new(&mut self.fields, name, field)?;
        Ok(self)
    }

    /// Notes that it implements an interface, after those that it implements.
    ///
    /// Answers `AlreadyExists` where it implements that interface already.
    pub fn implement(mut self, interface: &str) -> Result<Interface, BuildError>
        ensures added { IfOk result (λ built. interface_parts built
            ≡ record (interface_parts self) { implements = (interface_parts self).implements ++ interface.now ∷ [] }) }
        ensures new { OnOk result (is_among interface.now (interface_parts self).implements
            ≡ false) }
        ensures repeated { IfErr result (
            ReportsRepeated interface.now (interface_parts self).implements) }
    {
        let name = String::from_str(self.alloc, interface)?;
        put_new_name(&mut self.implements, name)?;
        Ok(self)
    }

    /// Adds a key, for federation: the fields by which it is found, as a selection set without its braces.
    pub fn key(mut self, fields: &str) -> Result<Interface, OutOfMemory>
        ensures { IfOk result (λ interface. interface_parts interface
            ≡ record (interface_parts self) { keys = (interface_parts self).keys ++ fields.now ∷ [] }) }
    {
        self.keys.push(String::from_str(self.alloc, fields)?)?;
        Ok(self)
    }

    /// Describes it. The last call counts.
    pub fn description(mut self, text: &str) -> Result<Interface, OutOfMemory>
        ensures { IfOk result (λ interface. interface_parts interface
            ≡ record (interface_parts self) { description = Some text.now }) }
    {
        self.description = Some(String::from_str(self.alloc, text)?);
        Ok(self)
    }

    /// Marks it as an extension of a type of another service, for federation.
    pub fn extends(mut self) -> Interface
        ensures { interface_parts result ≡ record (interface_parts self) { extends = true } }
    {
        self.extends = true;
        self
    }

    /// Marks it as inaccessible, for federation.
    pub fn inaccessible(mut self) -> Interface
        ensures { interface_parts result ≡ record (interface_parts self) { inaccessible = true } }
    {
        self.inaccessible = true;
        self
    }

    /// Tags it, for federation. The last call counts.
    pub fn tags(mut self, tags: &[String]) -> Result<Interface, OutOfMemory>
        ensures { IfOk result (λ interface. interface_parts interface
            ≡ record (interface_parts self) { tags = map text_of tags.now }) }
    {
        self.tags = owned_texts(self.alloc, tags)?;
        Ok(self)
    }

    /// Uses a directive on it, after those that are used on it.
    pub fn directive(mut self, directive: Directive) -> Result<Interface, OutOfMemory>
        ensures { IfOk result (λ interface. interface_parts interface
            ≡ record (interface_parts self) { directives = (interface_parts self).directives ++ directive_use directive ∷ [] }) }
    {
        let invocation = MetaDirectiveInvocation::from(directive);
        self.directives.push(invocation)?;
        Ok(self)
    }

    /// The name of the interface.
    pub fn type_name(&self) -> &str
        ensures { result.now ≡ (interface_parts self.now).name }
    {
        self.name.as_str()
    }

    /// Its fields, each under its name and in the order in which they came.
    pub fn fields(&self) -> &IndexMap<String, InterfaceField>
        ensures { fields_built result.now ≡ (interface_parts self.now).fields }
    {
        &self.fields
    }

    /// The names of the interfaces that it implements, in the order in which they came.
    pub fn implements(&self) -> &IndexSet<String>
        ensures { names_of result.now ≡ (interface_parts self.now).implements }
    {
        &self.implements
    }

    /// Whether it has a key.
    pub fn is_entity(&self) -> bool
        ensures { result ≡ not (is_empty (interface_parts self.now).keys) }
    {
        !self.keys.is_empty()
    }

    /// Gives back the memory that its fields and its list of interfaces do not need.
    pub fn shrink_to_fit(&mut self)
        ensures { interface_parts self.new ≡ interface_parts self.old }
    {
        self.fields.shrink_to_fit();
        self.implements.shrink_to_fit();
    }

    /// The type that is registered. Its possible types are those that say that they implement it.
    pub fn meta(&self, alloc: Global) -> Result<MetaType, OutOfMemory>
        ensures { IfOk result (λ ty. meta_of ty ≡ interface_meta (interface_parts self.now)) }
    {
        Ok(MetaType::Interface {
            name: String::from_str(alloc, self.name.as_str())?,
            description: copy_optional(&self.description)?,
            fields: fields_meta(alloc, &self.fields)?,
            possible_types: IndexSet::new(alloc),
            extends: self.extends,
            keys: copied_keys(&self.keys)?,
            visible: None,
            inaccessible: self.inaccessible,
            tags: copy_texts(&self.tags)?,
            directive_invocations: copy_invocations(&self.directives)?,
            requires_scopes: Vec::new(alloc),
        })
    }
}
