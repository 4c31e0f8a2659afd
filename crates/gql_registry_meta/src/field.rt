//! Fields of objects and interfaces: section 3.6 of the GraphQL specification, October 2021.

ghost use Rattle.std.specs.Prelude.{◌≡◌, IfOk};
ghost use Rattle.gql_registry_meta.specs.Views.{field_of};

use crate::cache_control::CacheControl;
use crate::copies::{copy_input_values, copy_invocations, copy_optional, copy_texts};
use crate::deprecation::Deprecation;
use crate::directive_invocation::MetaDirectiveInvocation;
use crate::input_value::MetaInputValue;
use gql_text_lexer::OutOfMemory;
use indexmap::IndexMap;
use std::alloc::{AllocError, Global};

/// A field of an object or an interface. `ty` is the text of its type, and `visible` the rule that shows it. `external`,
/// `requires_fields`, `provides`, `shareable`, `inaccessible`, `tags` and `override_from` are for federation.
#[derive(Drop)]
pub struct MetaField {
    pub name: String,
    pub description: Option<String>,
    pub args: IndexMap<String, MetaInputValue>,
    pub ty: String,
    pub deprecation: Deprecation,
    pub cache_control: CacheControl,
    pub external: bool,
    pub requires_fields: Option<String>,
    pub provides: Option<String>,
    pub visible: Option<u32>,
    pub shareable: bool,
    pub inaccessible: bool,
    pub tags: Vec<String>,
    pub override_from: Option<String>,
    pub directive_invocations: Vec<MetaDirectiveInvocation>,
    pub requires_scopes: Vec<String>,
}

impl Clone for MetaField {
    ghost is_clone = { λ a b. field_of b ≡ field_of a };

    fn clone(&self) -> Result<Self, AllocError> {
        Ok(MetaField {
            name: self.name.clone()?,
            description: copy_optional(&self.description)?,
            args: copy_input_values(&self.args)?,
            ty: self.ty.clone()?,
            deprecation: self.deprecation.clone()?,
            cache_control: self.cache_control,
            external: self.external,
            requires_fields: copy_optional(&self.requires_fields)?,
            provides: copy_optional(&self.provides)?,
            visible: self.visible,
            shareable: self.shareable,
            inaccessible: self.inaccessible,
            tags: copy_texts(&self.tags)?,
            override_from: copy_optional(&self.override_from)?,
            directive_invocations: copy_invocations(&self.directive_invocations)?,
            requires_scopes: copy_texts(&self.requires_scopes)?,
        })
    }
}

impl MetaField {
    /// A value with equal parts.
    pub fn try_clone(&self, _alloc: Global) -> Result<MetaField, OutOfMemory>
        ensures { IfOk result (λ copy. field_of copy ≡ field_of self.now) }
    {
        Ok(self.clone()?)
    }
}
