//! Definitions of directives: section 3.13 of the GraphQL specification, October 2021.

ghost use Rattle.std.specs.Prelude.{◌≡◌, IfOk};
ghost use Rattle.gql_registry_meta.specs.Views.{directive_of};

use crate::copies::{copy_input_values, copy_locations, copy_optional};
use crate::directive_location::DirectiveLocation;
use crate::input_value::MetaInputValue;
use gql_text_lexer::OutOfMemory;
use indexmap::IndexMap;
use std::alloc::{AllocError, Global};

/// The definition of a directive. `args` and `locations` keep their order; a location may stand twice. `visible` is the
/// rule that shows it, and `composable` the URL under which other schemas link to it.
#[derive(Drop)]
pub struct MetaDirective {
    pub name: String,
    pub description: Option<String>,
    pub locations: Vec<DirectiveLocation>,
    pub args: IndexMap<String, MetaInputValue>,
    pub is_repeatable: bool,
    pub visible: Option<u32>,
    pub composable: Option<String>,
}

impl Clone for MetaDirective {
    ghost is_clone = { λ a b. directive_of b ≡ directive_of a };

    fn clone(&self) -> Result<Self, AllocError> {
        Ok(MetaDirective {
            name: self.name.clone()?,
            description: copy_optional(&self.description)?,
            locations: copy_locations(&self.locations)?,
            args: copy_input_values(&self.args)?,
            is_repeatable: self.is_repeatable,
            visible: self.visible,
            composable: copy_optional(&self.composable)?,
        })
    }
}

impl MetaDirective {
    /// A value with equal parts.
    pub fn try_clone(&self, _alloc: Global) -> Result<MetaDirective, OutOfMemory>
        ensures { IfOk result (λ copy. directive_of copy ≡ directive_of self.now) }
    {
        Ok(self.clone()?)
    }
}
