//! Arguments and input fields: sections 3.6.1 and 3.10 of the GraphQL specification, October 2021.

ghost use Rattle.std.specs.Prelude.{◌≡◌, IfOk};
ghost use Rattle.gql_registry_meta.specs.Views.{input_value_of};

use crate::copies::{copy_invocations, copy_optional, copy_texts};
use crate::deprecation::Deprecation;
use crate::directive_invocation::MetaDirectiveInvocation;
use gql_text_lexer::OutOfMemory;
use std::alloc::{AllocError, Global};

/// An argument of a field or a directive, or a field of an input object. `ty` is the text of its type, `default_value`
/// the text of its default, and `visible` the rule that shows it.
#[derive(Drop)]
pub struct MetaInputValue {
    pub name: String,
    pub description: Option<String>,
    pub ty: String,
    pub deprecation: Deprecation,
    pub default_value: Option<String>,
    pub visible: Option<u32>,
    pub inaccessible: bool,
    pub tags: Vec<String>,
    pub is_secret: bool,
    pub directive_invocations: Vec<MetaDirectiveInvocation>,
}

impl Clone for MetaInputValue {
    ghost is_clone = { λ a b. input_value_of b ≡ input_value_of a };

    fn clone(&self) -> Result<Self, AllocError> {
        Ok(MetaInputValue {
            name: self.name.clone()?,
            description: copy_optional(&self.description)?,
            ty: self.ty.clone()?,
            deprecation: self.deprecation.clone()?,
            default_value: copy_optional(&self.default_value)?,
            visible: self.visible,
            inaccessible: self.inaccessible,
            tags: copy_texts(&self.tags)?,
            is_secret: self.is_secret,
            directive_invocations: copy_invocations(&self.directive_invocations)?,
        })
    }
}

impl MetaInputValue {
    /// A value with equal parts.
    pub fn try_clone(&self, _alloc: Global) -> Result<MetaInputValue, OutOfMemory>
        ensures { IfOk result (λ copy. input_value_of copy ≡ input_value_of self.now) }
    {
        Ok(self.clone()?)
    }
}
