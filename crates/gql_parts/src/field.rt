//! Fields of objects and interfaces: section 3.6 of the GraphQL specification, October 2021.

ghost use Rattle.std.specs.Prelude.{◌≡◌, ◌++◌, ◌∷◌, [], Some, true, IfOk, map};
ghost use Rattle.std.specs.Option.{option_copied};
ghost use Rattle.gql_registry_meta.specs.Parts.{deprecated_for};
ghost use Rattle.gql_registry_meta.specs.Views.{text_of, field_of};
ghost use Rattle.gql_parts.specs.Builders.{new_field, field_meta, with_argument};
ghost use Rattle.gql_parts.specs.BuilderViews.{field_parts, input_value_parts, inputs_built, directive_use};

use crate::deprecation::deprecated;
use crate::directive::Directive;
use crate::input_value::{InputValue, arguments_meta, set_argument};
use gql_registry_meta::{
    CacheControl, Deprecation, MetaDirectiveInvocation, MetaField, OutOfMemory, copy_invocations,
    copy_optional, copy_texts, owned_texts,
};
use gql_text_values::TypeRef;
use indexmap::IndexMap;
use std::alloc::Global;
use std::marker::PhantomData;

/// The owner of a [`Field`].
#[derive(Debug, Drop)]
pub struct OfObject;

/// The owner of an [`InterfaceField`].
#[derive(Debug, Drop)]
pub struct OfInterface;

/// A field of an object.
pub type Field = FieldBuilder<OfObject>;

/// A field of an interface.
pub type InterfaceField = FieldBuilder<OfInterface>;

/// A field of a type of the kind `Owner`.
#[derive(Debug, Drop)]
pub struct FieldBuilder<Owner> {
    alloc: Global,
    owner: PhantomData<Owner>,
    name: String,
    ty: TypeRef,
    arguments: IndexMap<String, InputValue>,
    description: Option<String>,
    deprecation: Deprecation,
    external: bool,
    requires_fields: Option<String>,
    provides: Option<String>,
    shareable: bool,
    inaccessible: bool,
    tags: Vec<String>,
    override_from: Option<String>,
    directives: Vec<MetaDirectiveInvocation>,
}

impl<Owner: Drop> FieldBuilder<Owner> {
    /// The field of that name and type, of which no more is said.
    pub fn new(alloc: Global, name: &str, ty: TypeRef) -> Result<FieldBuilder<Owner>, OutOfMemory>
        ensures { IfOk result (λ field. field_parts field ≡ new_field name.now ty) }
    {
        Ok(FieldBuilder {
            alloc,
            owner: PhantomData,
            name: String::from_str(alloc, name)?,
            ty,
            arguments: IndexMap::new(alloc),
            description: None,
            deprecation: Deprecation::NoDeprecated,
            external: false,
            requires_fields: None,
            provides: None,
            shareable: false,
            inaccessible: false,
            tags: Vec::new(alloc),
            override_from: None,
            directives: Vec::new(alloc),
        })
    }

    /// Gives it an argument. One of that name is replaced at its place, and a new one goes last.
    pub fn argument(mut self, input_value: InputValue) -> Result<FieldBuilder<Owner>, OutOfMemory>
        ensures { IfOk result (λ field. field_parts field ≡ record (field_parts self) {
          arguments = with_argument (field_parts self).arguments (input_value_parts input_value);
        }) }
    {
        set_argument(self.alloc, &mut self.arguments, input_value)?;
        Ok(self)
    }

    /// Describes it. The last call counts.
    pub fn description(mut self, text: &str) -> Result<FieldBuilder<Owner>, OutOfMemory>
        ensures { IfOk result (λ field. field_parts field
            ≡ record (field_parts self) { description = Some text.now }) }
    {
        self.description = Some(String::from_str(self.alloc, text)?);
        Ok(self)
    }

    /// Deprecates it, with a reason or without one. The last call counts.
    pub fn deprecation(mut self, reason: Option<&str>) -> Result<FieldBuilder<Owner>, OutOfMemory>
        ensures { IfOk result (λ field. field_parts field
            ≡ record (field_parts self) { deprecation = deprecated_for (option_copied reason.entry) }) }
    {
        self.deprecation = deprecated(self.alloc, reason)?;
        Ok(self)
    }

    /// Marks it as external, for federation.
    pub fn external(mut self) -> FieldBuilder<Owner>
        ensures { field_parts result ≡ record (field_parts self) { external = true } }
    {
        self.external = true;
        self
    }

    /// Names the external fields that it requires, for federation. The last call counts.
    pub fn requires_fields(mut self, fields: &str) -> Result<FieldBuilder<Owner>, OutOfMemory>
        ensures { IfOk result (λ field. field_parts field
            ≡ record (field_parts self) { requires_fields = Some fields.now }) }
    {
        self.requires_fields = Some(String::from_str(self.alloc, fields)?);
        Ok(self)
    }

    /// Names the external fields that it provides, for federation. The last call counts.
    pub fn provides(mut self, fields: &str) -> Result<FieldBuilder<Owner>, OutOfMemory>
        ensures { IfOk result (λ field. field_parts field
            ≡ record (field_parts self) { provides = Some fields.now }) }
    {
        self.provides = Some(String::from_str(self.alloc, fields)?);
        Ok(self)
    }

    /// Marks it as shareable, for federation.
    pub fn shareable(mut self) -> FieldBuilder<Owner>
        ensures { field_parts result ≡ record (field_parts self) { shareable = true } }
    {
        self.shareable = true;
        self
    }

    /// Marks it as inaccessible, for federation.
    pub fn inaccessible(mut self) -> FieldBuilder<Owner>
        ensures { field_parts result ≡ record (field_parts self) { inaccessible = true } }
    {
        self.inaccessible = true;
        self
    }

    /// Tags it, for federation. The last call counts.
    pub fn tags(mut self, tags: &[String]) -> Result<FieldBuilder<Owner>, OutOfMemory>
        ensures { IfOk result (λ field. field_parts field
            ≡ record (field_parts self) { tags = map text_of tags.now }) }
    {
        self.tags = owned_texts(self.alloc, tags)?;
        Ok(self)
    }

    /// Names the service that it is taken over from, for federation. The last call counts.
    pub fn override_from(mut self, name: &str) -> Result<FieldBuilder<Owner>, OutOfMemory>
        ensures { IfOk result (λ field. field_parts field
            ≡ record (field_parts self) { override_from = Some name.now }) }
    {
        self.override_from = Some(String::from_str(self.alloc, name)?);
        Ok(self)
    }

    /// Uses a directive on it, after those that are used on it.
    pub fn directive(mut self, directive: Directive) -> Result<FieldBuilder<Owner>, OutOfMemory>
        ensures { IfOk result (λ field. field_parts field ≡ record (field_parts self) {
          directives = (field_parts self).directives ++ directive_use directive ∷ [];
        }) }
    {
        let invocation = MetaDirectiveInvocation::from(directive);
        self.directives.push(invocation)?;
        Ok(self)
    }

    /// The name of the field.
    pub fn name(&self) -> &str
        ensures { result.now ≡ (field_parts self.now).name }
    {
        self.name.as_str()
    }

    /// The type of its values.
    pub fn ty(&self) -> &TypeRef
        ensures { result.now ≡ (field_parts self.now).ty }
    {
        &self.ty
    }

    /// Its arguments, each under its name and in the order in which they came: section 3.6.1.
    pub fn arguments(&self) -> &IndexMap<String, InputValue>
        ensures { inputs_built result.now ≡ (field_parts self.now).arguments }
    {
        &self.arguments
    }

    /// Gives back the memory that its arguments do not need.
    pub fn shrink_to_fit(&mut self)
        ensures { field_parts self.new ≡ field_parts self.old }
    {
        self.arguments.shrink_to_fit();
    }

    /// The field that is registered. Its type is the text of `ty`.
    pub fn meta(&self, alloc: Global) -> Result<MetaField, OutOfMemory>
        ensures { IfOk result (λ field. field_of field ≡ field_meta (field_parts self.now)) }
    {
        Ok(MetaField {
            name: String::from_str(alloc, self.name.as_str())?,
            description: copy_optional(&self.description)?,
            args: arguments_meta(alloc, &self.arguments)?,
            ty: format!(in alloc; "{}", self.ty)?,
            deprecation: self.deprecation.try_clone(alloc)?,
            cache_control: CacheControl::default(),
            external: self.external,
            requires_fields: copy_optional(&self.requires_fields)?,
            provides: copy_optional(&self.provides)?,
            visible: None,
            shareable: self.shareable,
            inaccessible: self.inaccessible,
            tags: copy_texts(&self.tags)?,
            override_from: copy_optional(&self.override_from)?,
            directive_invocations: copy_invocations(&self.directives)?,
            requires_scopes: Vec::new(alloc),
        })
    }
}
