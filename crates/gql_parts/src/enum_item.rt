//! Values of enums: section 3.9 of the GraphQL specification, October 2021.

ghost use Rattle.std.specs.Prelude.{◌≡◌, ◌++◌, ◌∷◌, [], Some, true, IfOk, map};
ghost use Rattle.std.specs.Option.{option_copied};
ghost use Rattle.gql_registry_meta.specs.Parts.{deprecated_for};
ghost use Rattle.gql_registry_meta.specs.Views.{text_of, enum_value_of};
ghost use Rattle.gql_parts.specs.Builders.{new_enum_item, enum_item_meta};
ghost use Rattle.gql_parts.specs.BuilderViews.{enum_item_parts, directive_use};

use crate::deprecation::deprecated;
use crate::directive::Directive;
use gql_registry_meta::{
    Deprecation, MetaDirectiveInvocation, MetaEnumValue, OutOfMemory, copy_invocations,
    copy_optional, copy_texts, owned_texts,
};
use std::alloc::Global;

/// A value of an enum.
#[derive(Debug, Drop)]
pub struct EnumItem {
    alloc: Global,
    name: String,
    description: Option<String>,
    deprecation: Deprecation,
    inaccessible: bool,
    tags: Vec<String>,
    directives: Vec<MetaDirectiveInvocation>,
}

impl EnumItem {
    /// The value of that name, of which no more is said.
    pub fn new(alloc: Global, name: &str) -> Result<EnumItem, OutOfMemory>
        ensures { IfOk result (λ item. enum_item_parts item ≡ new_enum_item name.now) }
    {
        Ok(EnumItem {
            alloc,
            name: String::from_str(alloc, name)?,
            description: None,
            deprecation: Deprecation::NoDeprecated,
            inaccessible: false,
            tags: Vec::new(alloc),
            directives: Vec::new(alloc),
        })
    }

    /// Describes it. The last call counts.
    pub fn description(mut self, text: &str) -> Result<EnumItem, OutOfMemory>
        ensures { IfOk result (λ item. enum_item_parts item
            ≡ record (enum_item_parts self) { description = Some text.now }) }
    {
        self.description = Some(String::from_str(self.alloc, text)?);
        Ok(self)
    }

    /// Deprecates it, with a reason or without one. The last call counts.
    pub fn deprecation(mut self, reason: Option<&str>) -> Result<EnumItem, OutOfMemory>
        ensures { IfOk result (λ item. enum_item_parts item
            ≡ record (enum_item_parts self) { deprecation = deprecated_for (option_copied reason.entry) }) }
    {
        self.deprecation = deprecated(self.alloc, reason)?;
        Ok(self)
    }

    /// Marks it as inaccessible, for federation.
    pub fn inaccessible(mut self) -> EnumItem
        ensures { enum_item_parts result ≡ record (enum_item_parts self) { inaccessible = true } }
    {
        self.inaccessible = true;
        self
    }

    /// Tags it, for federation. The last call counts.
    pub fn tags(mut self, tags: &[String]) -> Result<EnumItem, OutOfMemory>
        ensures { IfOk result (λ item. enum_item_parts item
            ≡ record (enum_item_parts self) { tags = map text_of tags.now }) }
    {
        self.tags = owned_texts(self.alloc, tags)?;
        Ok(self)
    }

    /// Uses a directive on it, after those that are used on it.
    pub fn directive(mut self, directive: Directive) -> Result<EnumItem, OutOfMemory>
        ensures { IfOk result (λ item. enum_item_parts item ≡ record (enum_item_parts self) {
          directives = (enum_item_parts self).directives ++ directive_use directive ∷ [];
        }) }
    {
        let invocation = MetaDirectiveInvocation::from(directive);
        self.directives.push(invocation)?;
        Ok(self)
    }

    /// The name of the value.
    pub fn name(&self) -> &str
        ensures { result.now ≡ (enum_item_parts self.now).name }
    {
        self.name.as_str()
    }

    /// The value that is registered.
    pub fn meta(&self, alloc: Global) -> Result<MetaEnumValue, OutOfMemory>
        ensures { IfOk result (λ value.
            enum_value_of value ≡ enum_item_meta (enum_item_parts self.now)) }
    {
        Ok(MetaEnumValue {
            name: String::from_str(alloc, self.name.as_str())?,
            description: copy_optional(&self.description)?,
            deprecation: self.deprecation.try_clone(alloc)?,
            visible: None,
            inaccessible: self.inaccessible,
            tags: copy_texts(&self.tags)?,
            directive_invocations: copy_invocations(&self.directives)?,
        })
    }
}
