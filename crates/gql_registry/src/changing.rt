//! Changes of what stands in a registry.

ghost use Rattle.std.specs.Prelude.{◌≡◌, Some, IfOk, OnOk, OnErr, map};
ghost use Rattle.std.specs.Map.{keys_of};
ghost use Rattle.std.specs.Option.{option_map};
ghost use Rattle.gql_registry_meta.specs.Parts.{at_text, name_of};
ghost use Rattle.gql_registry_meta.specs.Views.{text_of, texts_of, meta_of};
ghost use Rattle.gql_registry_closures.specs.Reached.{Needed};
ghost use Rattle.gql_registry_closures.specs.Answers.{Leaves};
ghost use Rattle.gql_registry.specs.Changes.{keys_with, with_key, described};
ghost use Rattle.gql_registry.specs.Registry.{Contents, registry_of, types_of, changed_at, IsUnchanged};
ghost use Rattle.gql_registry.specs.Created.{without_all};
ghost use Rattle.gql_registry.specs.Asked.{parts_in, KeepsUsed};

use crate::registry::Registry;
use gql_registry_closures::unused_names;
use gql_registry_meta::MetaType;
use gql_text_lexer::OutOfMemory;
use std::alloc::Global;

/// Adds a key, the last.
fn push_key(alloc: Global, keys: &mut Option<Vec<String>>, key: String) -> Result<(), OutOfMemory>
    ensures key { OnOk result (option_map texts_of keys.new
        ≡ keys_with (option_map texts_of keys.old) (text_of key)) }
    ensures err { OnErr result (option_map texts_of keys.new ≡ option_map texts_of keys.old) }
{
    match keys {
        Some(list) => {
            list.push(key)?;
            Ok(())
        }
        None => {
            let mut list = Vec::new(alloc);
            list.push(key)?;
            *keys = Some(list);
            Ok(())
        }
    }
}

/// Adds a key to an object or an interface, the last, and leaves any other type as it is.
fn add_key(alloc: Global, ty: &mut MetaType, key: String) -> Result<(), OutOfMemory>
    ensures key { OnOk result (meta_of ty.new ≡ with_key (text_of key) (meta_of ty.old)) }
    ensures name { name_of (meta_of ty.new) ≡ name_of (meta_of ty.old) }
    ensures err { OnErr result (meta_of ty.new ≡ meta_of ty.old) }
{
    match ty {
        MetaType::Object { keys, .. } => push_key(alloc, keys, key),
        MetaType::Interface { keys, .. } => push_key(alloc, keys, key),
        MetaType::Scalar { .. } => Ok(()),
        MetaType::Union { .. } => Ok(()),
        MetaType::Enum { .. } => Ok(()),
        MetaType::InputObject { .. } => Ok(()),
    }
}

/// Gives a type this description, in the place of the one that it had: section 3.2 of the GraphQL specification, October
/// 2021.
fn describe(ty: &mut MetaType, text: String)
    ensures described { meta_of ty.new ≡ described (text_of text) (meta_of ty.old) }
    ensures name { name_of (meta_of ty.new) ≡ name_of (meta_of ty.old) }
{
    match ty {
        MetaType::Scalar { description, .. } => *description = Some(text),
        MetaType::Object { description, .. } => *description = Some(text),
        MetaType::Interface { description, .. } => *description = Some(text),
        MetaType::Union { description, .. } => *description = Some(text),
        MetaType::Enum { description, .. } => *description = Some(text),
        MetaType::InputObject { description, .. } => *description = Some(text),
    }
}

impl Registry {
    /// Adds a key to the object or interface of that name, the last of its keys. Where the name is that of no object and no
    /// interface, nothing changes.
    pub fn add_keys(&mut self, ty: &str, keys: &str) -> Result<(), OutOfMemory>
        ensures contents { OnOk result (registry_of self.new ≡ record (registry_of self.old) {
          types = changed_at ty.now (with_key keys.now) (types_of self.old);
        }) }
        ensures err { OnErr result (IsUnchanged self.old self.new) }
    {
        let alloc = self.allocator();
        let key = String::from_str(alloc, keys)?;
        match self.types.get_mut(ty) {
            Some(ty) => add_key(alloc, ty, key),
            None => Ok(()),
        }
    }

    /// Gives the type of that name this description, in the place of the one that it had: section 3.2 of the GraphQL
    /// specification, October 2021. Where no type of the name stands, nothing changes.
    pub fn set_description(&mut self, name: &str, desc: &str) -> Result<(), OutOfMemory>
        ensures contents { OnOk result (registry_of self.new ≡ record (registry_of self.old) {
          types = changed_at name.now (described desc.now) (types_of self.old);
        }) }
        ensures err { OnErr result (IsUnchanged self.old self.new) }
    {
        let text = String::from_str(self.allocator(), desc)?;
        match self.types.get_mut(name) {
            Some(ty) => {
                describe(ty, text);
                Ok(())
            }
            None => Ok(()),
        }
    }

    /// The names of the types that are neither used nor system types.
    fn unused(&self) -> Result<Vec<String>, OutOfMemory>
        ensures { IfOk result (λ names. Leaves (Needed (parts_in (registry_of self.now)))
            (keys_of (types_of self.now)) (texts_of names)) }
    {
        let roots = self.roots()?;
        let names = unused_names(self.allocator(), self.types(), self.directives(), &roots)?;
        Ok(names)
    }

    /// Takes out what stands under these names.
    fn take_out_all(&mut self, names: &[String])
        ensures { registry_of self.new
            ≡ without_all (registry_of self.old) (map text_of names.now) }
    {
        for name in names {
            self.take_out(name.as_str());
        }
    }

    /// Removes the types that nothing leads to: what stays are the system types, and those to which a chain leads from the
    /// types of the arguments of directives, from the roots, or from objects and interfaces with a key. The lists of the
    /// interfaces that types implement stay as they are. Removing once more changes nothing.
    pub fn remove_unused_types(&mut self) -> Result<(), OutOfMemory>
        ensures contents { OnOk result (KeepsUsed (registry_of self.old) (registry_of self.new)) }
        ensures kept { OnOk result ((name : _) → Needed (parts_in (registry_of self.old)) name
            → at_text name (types_of self.new) ≡ at_text name (types_of self.old)) }
        ensures once { OnOk result ((third : Contents) → KeepsUsed (registry_of self.new) third
            → third ≡ registry_of self.new) }
        ensures err { OnErr result (IsUnchanged self.old self.new) }
    {
        let names = self.unused()?;
        self.take_out_all(&names);
        Ok(())
    }
}
