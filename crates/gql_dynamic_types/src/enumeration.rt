//! Enums: section 3.9 of the GraphQL specification, October 2021.

ghost use Rattle.std.specs.Prelude.{◌≡◌, ◌++◌, ◌∷◌, [], Some, true, IfOk, OnOk, map, fold};
ghost use Rattle.gql_registry_meta.specs.Views.{text_of, meta_of};
ghost use Rattle.gql_parts.specs.BuilderViews.{enum_item_parts, directive_use, items_built};
ghost use Rattle.gql_dynamic_types.specs.Types.{with_item, new_enum, enum_meta};
ghost use Rattle.gql_dynamic_types.specs.TypeViews.{enum_parts};

use crate::members::enum_values_meta;
use gql_parts::{Directive, EnumItem};
use gql_registry_meta::{
    MetaDirectiveInvocation, MetaType, OutOfMemory, copy_invocations, copy_optional, copy_texts,
    owned_texts,
};
use indexmap::IndexMap;
use std::alloc::Global;

/// An enum.
#[derive(Debug, Drop)]
pub struct Enum {
    alloc: Global,
    name: String,
    description: Option<String>,
    items: IndexMap<String, EnumItem>,
    inaccessible: bool,
    tags: Vec<String>,
    directives: Vec<MetaDirectiveInvocation>,
}

impl Enum {
    /// The enum of that name, of which no more is said.
    pub fn new(alloc: Global, name: &str) -> Result<Enum, OutOfMemory>
        ensures { IfOk result (λ built. enum_parts built ≡ new_enum name.now) }
    {
        Ok(Enum {
            alloc,
            name: String::from_str(alloc, name)?,
            description: None,
            items: IndexMap::new(alloc),
            inaccessible: false,
            tags: Vec::new(alloc),
            directives: Vec::new(alloc),
        })
    }

    /// Gives it a value. One of that name is replaced at its place, and a new one goes last.
    pub fn item(mut self, item: EnumItem) -> Result<Enum, OutOfMemory>
        ensures { IfOk result (λ built. enum_parts built
            ≡ record (enum_parts self) { items = with_item (enum_parts self).items (enum_item_parts item) }) }
    {
        set_item(self.alloc, &mut self.items, item)?;
        Ok(self)
    }

    /// Gives it each of the values in turn, as `item` does.
    pub fn items(mut self, items: Vec<EnumItem>) -> Result<Enum, OutOfMemory>
        ensures { IfOk result (λ built. enum_parts built
            ≡ record (enum_parts self) { items = fold with_item (enum_parts self).items (map enum_item_parts items.items) }) }
    {
        set_items(self.alloc, &mut self.items, items)?;
        Ok(self)
    }

    /// Describes it. The last call counts.
    pub fn description(mut self, text: &str) -> Result<Enum, OutOfMemory>
        ensures { IfOk result (λ built. enum_parts built
            ≡ record (enum_parts self) { description = Some text.now }) }
    {
        self.description = Some(String::from_str(self.alloc, text)?);
        Ok(self)
    }

    /// Marks it as inaccessible, for federation.
    pub fn inaccessible(mut self) -> Enum
        ensures { enum_parts result ≡ record (enum_parts self) { inaccessible = true } }
    {
        self.inaccessible = true;
        self
    }

    /// Tags it, for federation. The last call counts.
    pub fn tags(mut self, tags: &[String]) -> Result<Enum, OutOfMemory>
        ensures { IfOk result (λ built. enum_parts built
            ≡ record (enum_parts self) { tags = map text_of tags.now }) }
    {
        self.tags = owned_texts(self.alloc, tags)?;
        Ok(self)
    }

    /// Uses a directive on it, after those that are used on it.
    pub fn directive(mut self, directive: Directive) -> Result<Enum, OutOfMemory>
        ensures { IfOk result (λ built. enum_parts built
            ≡ record (enum_parts self) { directives = (enum_parts self).directives ++ directive_use directive ∷ [] }) }
    {
        let invocation = MetaDirectiveInvocation::from(directive);
        self.directives.push(invocation)?;
        Ok(self)
    }

    /// The name of the enum.
    pub fn type_name(&self) -> &str
        ensures { result.now ≡ (enum_parts self.now).name }
    {
        self.name.as_str()
    }

    /// Its values, each under its name and in the order in which they came.
    pub fn enum_values(&self) -> &IndexMap<String, EnumItem>
        ensures { items_built result.now ≡ (enum_parts self.now).items }
    {
        &self.items
    }

    /// Gives back the memory that its values do not need.
    pub fn shrink_to_fit(&mut self)
        ensures { enum_parts self.new ≡ enum_parts self.old }
    {
        self.items.shrink_to_fit();
    }

    /// The type that is registered.
    pub fn meta(&self, alloc: Global) -> Result<MetaType, OutOfMemory>
        ensures { IfOk result (λ ty. meta_of ty ≡ enum_meta (enum_parts self.now)) }
    {
        Ok(MetaType::Enum {
            name: String::from_str(alloc, self.name.as_str())?,
            description: copy_optional(&self.description)?,
            enum_values: enum_values_meta(alloc, &self.items)?,
            visible: None,
            inaccessible: self.inaccessible,
            tags: copy_texts(&self.tags)?,
            directive_invocations: copy_invocations(&self.directives)?,
            requires_scopes: Vec::new(alloc),
        })
    }
}

/// The values with one more: one of its name is replaced at its place, and a new one goes last.
#[tactic(auto, using(gql_registry_meta::proofs::Entries::entries_with_insertion))]
fn set_item(
    alloc: Global,
    items: &mut IndexMap<String, EnumItem>,
    item: EnumItem,
) -> Result<(), OutOfMemory>
    ensures { OnOk result (items_built items.new
        ≡ with_item (items_built items.old) (enum_item_parts item)) }
{
    let key = String::from_str(alloc, item.name())?;
    items.insert(key, item)?;
    Ok(())
}

/// The values with each of the others, in turn.
fn set_items(
    alloc: Global,
    items: &mut IndexMap<String, EnumItem>,
    others: Vec<EnumItem>,
) -> Result<(), OutOfMemory>
    ensures { OnOk result (items_built items.new
        ≡ fold with_item (items_built items.old) (map enum_item_parts others.items)) }
{
    for item in others {
        set_item(alloc, items, item)?;
    }
    Ok(())
}
