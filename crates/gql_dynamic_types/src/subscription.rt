//! Subscriptions: section 3.3.1 of the GraphQL specification, October 2021.

ghost use Rattle.std.specs.Prelude.{◌≡◌, Some, true, false, IfOk, IfErr, OnOk};
ghost use Rattle.std.specs.Map.{keys_of};
ghost use Rattle.gql_registry_meta.specs.Views.{meta_of};
ghost use Rattle.gql_parts.specs.BuilderViews.{subscription_field_parts, subscription_fields_built};
ghost use Rattle.gql_dynamic_types.specs.Types.{with_last, new_subscription, subscription_meta, IsNew};
ghost use Rattle.gql_dynamic_types.specs.TypeViews.{ReportsRepeated, subscription_parts};

use crate::error::BuildError;
use crate::members::{put_new, subscription_fields_meta};
use gql_parts::SubscriptionField;
use gql_registry_meta::{CacheControl, MetaType, OutOfMemory, copy_optional};
use indexmap::IndexMap;
use std::alloc::Global;

/// An object that is the root of subscriptions.
#[derive(Debug, Drop)]
pub struct Subscription {
    alloc: Global,
    name: String,
    description: Option<String>,
    fields: IndexMap<String, SubscriptionField>,
}

impl Subscription {
    /// The subscription of that name, of which no more is said.
    pub fn new(alloc: Global, name: &str) -> Result<Subscription, OutOfMemory>
        ensures { IfOk result (λ subscription. subscription_parts subscription
            ≡ new_subscription name.now) }
    {
        Ok(Subscription {
            alloc,
            name: String::from_str(alloc, name)?,
            description: None,
            fields: IndexMap::new(alloc),
        })
    }

    /// Gives it a field, after those that it has.
    ///
    /// Answers `AlreadyExists` where it has a field of that name.
    pub fn field(mut self, field: SubscriptionField) -> Result<Subscription, BuildError>
        ensures added { IfOk result (λ subscription. subscription_parts subscription
            ≡ record (subscription_parts self) {
              fields = with_last (subscription_parts self).fields (subscription_field_parts field).name (subscription_field_parts field);
            }) }
        ensures new { OnOk result (
            IsNew (subscription_field_parts field).name (subscription_parts self).fields) }
        ensures repeated { IfErr result (ReportsRepeated
            (subscription_field_parts field).name (keys_of (subscription_parts self).fields)) }
    {
        let name = String::from_str(self.alloc, field.name())?;
        put_new(&mut self.fields, name, field)?;
        Ok(self)
    }

    /// Describes it. The last call counts.
    pub fn description(mut self, text: &str) -> Result<Subscription, OutOfMemory>
        ensures { IfOk result (λ subscription. subscription_parts subscription
            ≡ record (subscription_parts self) { description = Some text.now }) }
    {
        self.description = Some(String::from_str(self.alloc, text)?);
        Ok(self)
    }

    /// The name of the subscription root.
    pub fn type_name(&self) -> &str
        ensures { result.now ≡ (subscription_parts self.now).name }
    {
        self.name.as_str()
    }

    /// Its fields, each under its name and in the order in which they came.
    pub fn fields(&self) -> &IndexMap<String, SubscriptionField>
        ensures { subscription_fields_built result.now ≡ (subscription_parts self.now).fields }
    {
        &self.fields
    }

    /// Gives back the memory that its fields do not need.
    pub fn shrink_to_fit(&mut self)
        ensures { subscription_parts self.new ≡ subscription_parts self.old }
    {
        self.fields.shrink_to_fit();
    }

    /// The type that is registered: an object that is marked as a subscription.
    pub fn meta(&self, alloc: Global) -> Result<MetaType, OutOfMemory>
        ensures { IfOk result (λ ty. meta_of ty ≡ subscription_meta (subscription_parts self.now)) }
    {
        Ok(MetaType::Object {
            name: String::from_str(alloc, self.name.as_str())?,
            description: copy_optional(&self.description)?,
            fields: subscription_fields_meta(alloc, &self.fields)?,
            cache_control: CacheControl::default(),
            extends: false,
            shareable: false,
            resolvable: true,
            keys: None,
            visible: None,
            inaccessible: false,
            interface_object: false,
            tags: Vec::new(alloc),
            is_subscription: true,
            directive_invocations: Vec::new(alloc),
            requires_scopes: Vec::new(alloc),
        })
    }
}
