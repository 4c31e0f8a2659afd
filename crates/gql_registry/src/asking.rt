//! What a registry is asked.

ghost use Rattle.std.specs.Prelude.{◌≡◌, ◌++◌, true, IfOk, OnOk};
ghost use Rattle.std.specs.Map.{keys_of};
ghost use Rattle.std.specs.Option.{option_map, option_copied};
ghost use Rattle.gql_text_values.specs.TypeRefs.{innermost, reference};
ghost use Rattle.gql_registry_meta.specs.Parts.{Text, at_text, is_among};
ghost use Rattle.gql_registry_meta.specs.Views.{texts_of, texts_in, meta_of};
ghost use Rattle.gql_registry_closures.specs.Links.{named_in};
ghost use Rattle.gql_registry_closures.specs.Reached.{Shown, is_system_name};
ghost use Rattle.gql_registry_closures.specs.Answers.{HoldsExactly, set_names};
ghost use Rattle.gql_registry_closures.specs.Names.{all_names, ListsOnce};
ghost use Rattle.gql_registry_closures.specs.Entities.{has_entities};
ghost use Rattle.gql_registry.specs.Registry.{registry_of, types_of, directives_of};
ghost use Rattle.gql_registry.specs.Asked.{root_listed, roots_of, parts_in};

use crate::registry::Registry;
use gql_registry_closures::{all_names, has_entities, visible_names};
use gql_registry_meta::{Context, MetaType, MetaTypeName};
use gql_text_lexer::OutOfMemory;
use gql_text_values::TypeRef;
use std::collections::BTreeSet;

/// Adds a root, if there is one.
fn push_root<'a>(roots: &mut Vec<&'a str>, root: Option<&'a str>) -> Result<(), OutOfMemory>
    ensures { OnOk result (texts_in roots.new.items
        ≡ texts_in roots.old.items ++ root_listed (option_copied root.entry)) }
{
    match root {
        None => Ok(()),
        Some(name) => {
            roots.push(name)?;
            Ok(())
        }
    }
}

impl Registry {
    /// The type that a reference names, which is written as a text: section 2.11 of the GraphQL specification, October 2021.
    pub fn concrete_type_by_name(&self, type_name: &str) -> Option<&MetaType>
        ensures { option_map meta_of (option_copied result)
            ≡ at_text (named_in type_name.now) (types_of self.now) }
    {
        self.type_at(MetaTypeName::concrete_typename(type_name))
    }

    /// The type that a reference names.
    pub fn concrete_type_by_parsed_type(&self, ty: &TypeRef) -> Option<&MetaType>
        ensures { option_map meta_of (option_copied result)
            ≡ at_text (innermost (reference ty.now)) (types_of self.now) }
    {
        self.type_at(ty.type_name())
    }

    /// The names of the definitions of directives and of their arguments, of the types, of their fields and arguments, of
    /// enum values and of input fields: each once, and in the order of names.
    pub fn names(&self) -> Result<Vec<String>, OutOfMemory>
        ensures { IfOk result (λ names.
            ListsOnce (all_names (types_of self.now) (directives_of self.now)) (texts_of names)) }
    {
        let names = all_names(self.allocator(), self.types(), self.directives())?;
        Ok(names)
    }

    /// Whether some object that can be resolved, or some interface, has a key: other schemas of a federation refer to it.
    pub fn has_entities(&self) -> bool
        ensures { result ≡ has_entities (types_of self.now) }
    {
        has_entities(self.types())
    }

    /// The names of the roots.
    pub(crate) fn roots(&self) -> Result<Vec<&str>, OutOfMemory>
        ensures { IfOk result (λ roots.
            texts_in roots.items ≡ roots_of (registry_of self.now)) }
    {
        let mut roots = Vec::new(self.allocator());
        roots.push(self.query_type())?;
        push_root(&mut roots, self.mutation_type())?;
        push_root(&mut roots, self.subscription_type())?;
        Ok(roots)
    }

    /// The names of the types that a reader may see, for whom the rules of the context hold: the system types, and those to
    /// which a chain of shown parts leads from where [`Registry::remove_unused_types`] begins. Then each interface that is
    /// shown, is not among them and has a possible type among them comes with all that it leads to, in name order.
    pub fn find_visible_types<C: Context>(&self, ctx: &C) -> Result<BTreeSet<String>, OutOfMemory>
        ensures exactly { IfOk result (λ names.
            HoldsExactly (Shown (C.rules ctx.now) (parts_in (registry_of self.now)))
            (keys_of (types_of self.now)) (set_names names)) }
        ensures registered { IfOk result (λ names. (name : Text) →
            is_among name (set_names names) ≡ true
            → is_among name (keys_of (types_of self.now)) ≡ true) }
        ensures system { IfOk result (λ names. (name : Text) → is_system_name name ≡ true →
            is_among name (set_names names) ≡ is_among name (keys_of (types_of self.now))) }
    {
        let roots = self.roots()?;
        let names = visible_names(
            self.allocator(),
            self.types(),
            self.directives(),
            &roots,
            ctx,
        )?;
        Ok(names)
    }
}
