//! Fields of subscriptions: section 3.3.1 of the GraphQL specification, October 2021.

ghost use Rattle.std.specs.Prelude.{◌≡◌, Some, IfOk};
ghost use Rattle.std.specs.Option.{option_copied};
ghost use Rattle.gql_registry_meta.specs.Parts.{deprecated_for};
ghost use Rattle.gql_registry_meta.specs.Views.{field_of};
ghost use Rattle.gql_parts.specs.Builders.{new_subscription_field, subscription_field_meta, with_argument};
ghost use Rattle.gql_parts.specs.BuilderViews.{subscription_field_parts, input_value_parts, inputs_built};

use crate::deprecation::deprecated;
use crate::input_value::{InputValue, arguments_meta, set_argument};
use gql_registry_meta::{CacheControl, Deprecation, MetaField, OutOfMemory, copy_optional};
use gql_text_values::TypeRef;
use indexmap::IndexMap;
use std::alloc::Global;

/// A field of a subscription.
#[derive(Debug, Drop)]
pub struct SubscriptionField {
    alloc: Global,
    name: String,
    ty: TypeRef,
    arguments: IndexMap<String, InputValue>,
    description: Option<String>,
    deprecation: Deprecation,
}

impl SubscriptionField {
    /// The field of that name and type, of which no more is said.
    pub fn new(alloc: Global, name: &str, ty: TypeRef) -> Result<SubscriptionField, OutOfMemory>
        ensures { IfOk result (λ field.
            subscription_field_parts field ≡ new_subscription_field name.now ty) }
    {
        Ok(SubscriptionField {
            alloc,
            name: String::from_str(alloc, name)?,
            ty,
            arguments: IndexMap::new(alloc),
            description: None,
            deprecation: Deprecation::NoDeprecated,
        })
    }

    /// Gives it an argument. One of that name is replaced at its place, and a new one goes last.
    pub fn argument(mut self, input_value: InputValue) -> Result<SubscriptionField, OutOfMemory>
        ensures { IfOk result (λ field. subscription_field_parts field
            ≡ record (subscription_field_parts self) {
              arguments = with_argument (subscription_field_parts self).arguments (input_value_parts input_value);
            }) }
    {
        set_argument(self.alloc, &mut self.arguments, input_value)?;
        Ok(self)
    }

    /// Describes it. The last call counts.
    pub fn description(mut self, text: &str) -> Result<SubscriptionField, OutOfMemory>
        ensures { IfOk result (λ field. subscription_field_parts field
            ≡ record (subscription_field_parts self) { description = Some text.now }) }
    {
        self.description = Some(String::from_str(self.alloc, text)?);
        Ok(self)
    }

    /// Deprecates it, with a reason or without one. The last call counts.
    pub fn deprecation(mut self, reason: Option<&str>) -> Result<SubscriptionField, OutOfMemory>
        ensures { IfOk result (λ field. subscription_field_parts field
            ≡ record (subscription_field_parts self) { deprecation = deprecated_for (option_copied reason.entry) }) }
    {
        self.deprecation = deprecated(self.alloc, reason)?;
        Ok(self)
    }

    /// The name of the field.
    pub fn name(&self) -> &str
        ensures { result.now ≡ (subscription_field_parts self.now).name }
    {
        self.name.as_str()
    }

    /// The type of its values.
    pub fn ty(&self) -> &TypeRef
        ensures { result.now ≡ (subscription_field_parts self.now).ty }
    {
        &self.ty
    }

    /// Its arguments, each under its name and in the order in which they came: section 3.6.1.
    pub fn arguments(&self) -> &IndexMap<String, InputValue>
        ensures { inputs_built result.now ≡ (subscription_field_parts self.now).arguments }
    {
        &self.arguments
    }

    /// The field that is registered. Its type is the text of `ty`.
    pub fn meta(&self, alloc: Global) -> Result<MetaField, OutOfMemory>
        ensures { IfOk result (λ field.
            field_of field ≡ subscription_field_meta (subscription_field_parts self.now)) }
    {
        Ok(MetaField {
            name: String::from_str(alloc, self.name.as_str())?,
            description: copy_optional(&self.description)?,
            args: arguments_meta(alloc, &self.arguments)?,
            ty: format!(in alloc; "{}", self.ty)?,
            deprecation: self.deprecation.try_clone(alloc)?,
            cache_control: CacheControl::default(),
            external: false,
            requires_fields: None,
            provides: None,
            visible: None,
            shareable: false,
            inaccessible: false,
            tags: Vec::new(alloc),
            override_from: None,
            directive_invocations: Vec::new(alloc),
            requires_scopes: Vec::new(alloc),
        })
    }
}
