//! Input objects: section 3.10 of the GraphQL specification, October 2021.

ghost use Rattle.std.specs.Prelude.{◌≡◌, ◌++◌, ◌∷◌, [], Some, true, false, IfOk, IfErr, OnOk, map};
ghost use Rattle.std.specs.Map.{keys_of};
ghost use Rattle.gql_registry_meta.specs.Views.{text_of, meta_of};
ghost use Rattle.gql_parts.specs.BuilderViews.{input_value_parts, directive_use, inputs_built};
ghost use Rattle.gql_dynamic_types.specs.Types.{with_last, new_input_object, input_object_meta, IsNew};
ghost use Rattle.gql_dynamic_types.specs.TypeViews.{ReportsRepeated, input_object_parts};

use crate::error::BuildError;
use crate::members::put_new;
use gql_parts::{Directive, InputValue, arguments_meta};
use gql_registry_meta::{
    MetaDirectiveInvocation, MetaType, OutOfMemory, copy_invocations, copy_optional, copy_texts,
    owned_texts,
};
use indexmap::IndexMap;
use std::alloc::Global;

/// An input object.
#[derive(Debug, Drop)]
pub struct InputObject {
    alloc: Global,
    name: String,
    description: Option<String>,
    fields: IndexMap<String, InputValue>,
    oneof: bool,
    inaccessible: bool,
    tags: Vec<String>,
    directives: Vec<MetaDirectiveInvocation>,
}

impl InputObject {
    /// The input object of that name, of which no more is said.
    pub fn new(alloc: Global, name: &str) -> Result<InputObject, OutOfMemory>
        ensures { IfOk result (λ object. input_object_parts object ≡ new_input_object name.now) }
    {
        Ok(InputObject {
            alloc,
            name: String::from_str(alloc, name)?,
            description: None,
            fields: IndexMap::new(alloc),
            oneof: false,
            inaccessible: false,
            tags: Vec::new(alloc),
            directives: Vec::new(alloc),
        })
    }

    /// Gives it a field, after those that it has.
    ///
    /// Answers `AlreadyExists` where it has a field of that name.
    pub fn field(mut self, field: InputValue) -> Result<InputObject, BuildError>
        ensures added { IfOk result (λ object. input_object_parts object
            ≡ record (input_object_parts self) {
              fields = with_last (input_object_parts self).fields (input_value_parts field).name (input_value_parts field);
            }) }
        ensures new { OnOk result (
            IsNew (input_value_parts field).name (input_object_parts self).fields) }
        ensures repeated { IfErr result (ReportsRepeated
            (input_value_parts field).name (keys_of (input_object_parts self).fields)) }
    {
        let name = String::from_str(self.alloc, field.name())?;
        put_new(&mut self.fields, name, field)?;
        Ok(self)
    }

    /// Marks it as one that has exactly one of its fields.
    pub fn oneof(mut self) -> InputObject
        ensures { input_object_parts result ≡ record (input_object_parts self) { oneof = true } }
    {
        self.oneof = true;
        self
    }

    /// Describes it. The last call counts.
    pub fn description(mut self, text: &str) -> Result<InputObject, OutOfMemory>
        ensures { IfOk result (λ object. input_object_parts object
            ≡ record (input_object_parts self) { description = Some text.now }) }
    {
        self.description = Some(String::from_str(self.alloc, text)?);
        Ok(self)
    }

    /// Marks it as inaccessible, for federation.
    pub fn inaccessible(mut self) -> InputObject
        ensures { input_object_parts result
            ≡ record (input_object_parts self) { inaccessible = true } }
    {
        self.inaccessible = true;
        self
    }

    /// Tags it, for federation. The last call counts.
    pub fn tags(mut self, tags: &[String]) -> Result<InputObject, OutOfMemory>
        ensures { IfOk result (λ object. input_object_parts object
            ≡ record (input_object_parts self) { tags = map text_of tags.now }) }
    {
        self.tags = owned_texts(self.alloc, tags)?;
        Ok(self)
    }

    /// Uses a directive on it, after those that are used on it.
    pub fn directive(mut self, directive: Directive) -> Result<InputObject, OutOfMemory>
        ensures { IfOk result (λ object. input_object_parts object
            ≡ record (input_object_parts self) { directives = (input_object_parts self).directives ++ directive_use directive ∷ [] }) }
    {
        let invocation = MetaDirectiveInvocation::from(directive);
        self.directives.push(invocation)?;
        Ok(self)
    }

    /// The name of the input object.
    pub fn type_name(&self) -> &str
        ensures { result.now ≡ (input_object_parts self.now).name }
    {
        self.name.as_str()
    }

    /// Its fields, each under its name and in the order in which they came.
    pub fn fields(&self) -> &IndexMap<String, InputValue>
        ensures { inputs_built result.now ≡ (input_object_parts self.now).fields }
    {
        &self.fields
    }

    /// Whether `oneof` was called.
    pub fn is_oneof(&self) -> bool
        ensures { result ≡ (input_object_parts self.now).oneof }
    {
        self.oneof
    }

    /// Gives back the memory that its fields do not need.
    pub fn shrink_to_fit(&mut self)
        ensures { input_object_parts self.new ≡ input_object_parts self.old }
    {
        self.fields.shrink_to_fit();
    }

    /// The type that is registered.
    pub fn meta(&self, alloc: Global) -> Result<MetaType, OutOfMemory>
        ensures { IfOk result (λ ty. meta_of ty ≡ input_object_meta (input_object_parts self.now)) }
    {
        Ok(MetaType::InputObject {
            name: String::from_str(alloc, self.name.as_str())?,
            description: copy_optional(&self.description)?,
            input_fields: arguments_meta(alloc, &self.fields)?,
            visible: None,
            inaccessible: self.inaccessible,
            tags: copy_texts(&self.tags)?,
            oneof: self.oneof,
            directive_invocations: copy_invocations(&self.directives)?,
        })
    }
}
