//! Values of enums: section 3.9 of the GraphQL specification, October 2021.

ghost use Rattle.std.specs.Prelude.{◌≡◌, IfOk};
ghost use Rattle.gql_registry_meta.specs.Views.{enum_value_of};

use crate::copies::{copy_invocations, copy_optional, copy_texts};
use crate::deprecation::Deprecation;
use crate::directive_invocation::MetaDirectiveInvocation;
use gql_text_lexer::OutOfMemory;
use std::alloc::{AllocError, Global};

/// A value of an enum. `visible` is the rule that shows it, and None where it is always shown.
#[derive(Drop)]
pub struct MetaEnumValue {
    pub name: String,
    pub description: Option<String>,
    pub deprecation: Deprecation,
    pub visible: Option<u32>,
    pub inaccessible: bool,
    pub tags: Vec<String>,
    pub directive_invocations: Vec<MetaDirectiveInvocation>,
}

impl Clone for MetaEnumValue {
    ghost is_clone = { λ a b. enum_value_of b ≡ enum_value_of a };

    fn clone(&self) -> Result<Self, AllocError> {
        Ok(MetaEnumValue {
            name: self.name.clone()?,
            description: copy_optional(&self.description)?,
            deprecation: self.deprecation.clone()?,
            visible: self.visible,
            inaccessible: self.inaccessible,
            tags: copy_texts(&self.tags)?,
            directive_invocations: copy_invocations(&self.directive_invocations)?,
        })
    }
}

impl MetaEnumValue {
    /// A value with equal parts.
    pub fn try_clone(&self, _alloc: Global) -> Result<MetaEnumValue, OutOfMemory>
        ensures { IfOk result (λ copy. enum_value_of copy ≡ enum_value_of self.now) }
    {
        Ok(self.clone()?)
    }
}
