//! The registry of a schema.

ghost use Rattle.std.proofs.Props.{props};
ghost use Rattle.gql_registry.specs.Maps.{types_in, directives_in, HaveOwnNames, DirectivesHaveOwnNames};

use crate::lists::{add_to_list, make_listing, put_both};
use gql_registry_meta::{IntrospectionMode, MetaDirective, MetaType, owned_text};
use gql_text_lexer::OutOfMemory;
use indexmap::IndexSet;
use std::alloc::Global;
use std::collections::BTreeMap;

/// The types and directives of a schema, each under its own name and in name order, the interfaces that each type
/// implements, and the names of the roots.
#[derive(Drop)]
pub struct Registry {
    alloc: Global,
    pub(crate) types: BTreeMap<String, MetaType>,
    directives: BTreeMap<String, MetaDirective>,
    implements: BTreeMap<String, IndexSet<String>>,
    pub(crate) query_type: String,
    mutation_type: Option<String>,
    subscription_type: Option<String>,
    introspection_mode: IntrospectionMode,
    federation_subscription: bool,
    pub ghost own_types: { HaveOwnNames (types_in types) } by { Prim.hlevel props },
    pub ghost own_directives: { DirectivesHaveOwnNames (directives_in directives) } by { Prim.hlevel props },
}

impl Registry {
    ghost use Rattle.std.specs.Prelude.{◌≡◌, IfOk, OnOk, OnErr, false, length, suc};
    ghost use Rattle.std.specs.Map.{keys_of};
    ghost use Rattle.std.specs.Option.{option_map, option_copied};
    ghost use Rattle.gql_registry_meta.specs.Parts.{name_of, at_text, is_among};
    ghost use Rattle.gql_registry_meta.specs.Views.{names_of, meta_of, directive_of};
    ghost use Rattle.gql_registry.specs.Maps.{types_in, directives_in, HaveOwnNames, DirectivesHaveOwnNames};
    ghost use Rattle.gql_registry.specs.Registry.{registry_of, empty, types_of, directives_of, lists_of, query_of};
    ghost use Rattle.gql_registry.specs.Registry.{IsUnchanged, KeepsOthers, ImplementsOnce};
    ghost use Rattle.gql_registry.specs.Registry.{with_type, with_directive, with_implements, with_all_implements};

    /// A registry without types, directives and roots other than the empty query name, in mode `Enabled`.
    pub fn new(alloc: Global) -> Registry
        ensures contents { registry_of result ≡ empty }
        ensures allocator { result.alloc ≡ alloc }
    {
        Registry {
            alloc,
            types: BTreeMap::new(alloc),
            directives: BTreeMap::new(alloc),
            implements: BTreeMap::new(alloc),
            query_type: String::new(alloc),
            mutation_type: None,
            subscription_type: None,
            introspection_mode: IntrospectionMode::Enabled,
            federation_subscription: false,
        }
    }

    /// The allocator that `new` got.
    pub fn allocator(&self) -> Global
        ensures { result ≡ self.now.alloc }
    {
        self.alloc
    }

    /// The types, each under its own name and in name order.
    pub fn types(&self) -> &BTreeMap<String, MetaType>
        ensures types { types_in result.now ≡ types_of self.now }
        ensures own_names { HaveOwnNames (types_in result.now) }
    {
        &self.types
    }

    /// Whether a type of this name stands in it.
    pub fn has_type(&self, name: &str) -> bool
        ensures { result ≡ is_among name.now (keys_of (types_of self.now)) }
    {
        self.types.contains_key(name)
    }

    /// The definitions of directives, each under its own name and in name order: section 3.13.
    pub fn directives(&self) -> &BTreeMap<String, MetaDirective>
        ensures directives { directives_in result.now ≡ directives_of self.now }
        ensures own_names { DirectivesHaveOwnNames (directives_in result.now) }
    {
        &self.directives
    }

    /// The names of the interfaces that a type implements, in the order in which they were added; none where none was.
    pub fn implements_of(&self, ty: &str) -> Option<&IndexSet<String>>
        ensures { option_map (λ names. names_of names.now) result
            ≡ at_text ty.now (lists_of self.now) }
    {
        self.implements.get(ty)
    }

    /// The name of the root of queries: section 3.3.1. It is empty until it is set.
    pub fn query_type(&self) -> &str
        ensures { result.now ≡ query_of self.now }
    {
        self.query_type.as_str()
    }

    /// The name of the root of mutations, where there is one.
    pub fn mutation_type(&self) -> Option<&str>
        ensures { option_copied result ≡ (registry_of self.now).mutation }
    {
        self.mutation_type.as_deref()
    }

    /// The name of the root of subscriptions, where there is one.
    pub fn subscription_type(&self) -> Option<&str>
        ensures { option_copied result ≡ (registry_of self.now).subscription }
    {
        self.subscription_type.as_deref()
    }

    /// Whether the schema describes itself: section 4.
    pub fn introspection_mode(&self) -> IntrospectionMode
        ensures { result ≡ (registry_of self.now).introspection }
    {
        self.introspection_mode
    }

    /// Whether the subscription root is part of the text for federation.
    pub fn federation_subscription(&self) -> bool
        ensures { result ≡ (registry_of self.now).federation_subscription }
    {
        self.federation_subscription
    }

    /// Names the root of queries: section 3.3.1. It need not be the name of a type that stands in the registry.
    pub fn set_query_type(&mut self, name: &str) -> Result<(), OutOfMemory>
        ensures contents { OnOk result (registry_of self.new
            ≡ record (registry_of self.old) { query = name.now }) }
        ensures query { OnOk result (query_of self.new ≡ name.now) }
        ensures types { types_of self.new ≡ types_of self.old }
        ensures err { OnErr result (IsUnchanged self.old self.new) }
    {
        self.query_type = String::from_str(self.alloc, name)?;
        Ok(())
    }

    /// Names the root of mutations, or says that there is none.
    pub fn set_mutation_type(&mut self, name: Option<&str>) -> Result<(), OutOfMemory>
        ensures contents { OnOk result (registry_of self.new ≡ record (registry_of self.old) {
          mutation = option_copied name.entry;
        }) }
        ensures err { OnErr result (IsUnchanged self.old self.new) }
    {
        self.mutation_type = owned_text(self.alloc, name)?;
        Ok(())
    }

    /// Names the root of subscriptions, or says that there is none.
    pub fn set_subscription_type(&mut self, name: Option<&str>) -> Result<(), OutOfMemory>
        ensures contents { OnOk result (registry_of self.new ≡ record (registry_of self.old) {
          subscription = option_copied name.entry;
        }) }
        ensures err { OnErr result (IsUnchanged self.old self.new) }
    {
        self.subscription_type = owned_text(self.alloc, name)?;
        Ok(())
    }

    /// Says whether the schema describes itself: section 4. No type is added or removed by it.
    pub fn set_introspection_mode(&mut self, mode: IntrospectionMode)
        ensures { registry_of self.new ≡ record (registry_of self.old) { introspection = mode } }
    {
        self.introspection_mode = mode;
    }

    /// Says whether the subscription root is part of the text for federation.
    pub fn set_federation_subscription(&mut self, on: bool)
        ensures { registry_of self.new
            ≡ record (registry_of self.old) { federation_subscription = on } }
    {
        self.federation_subscription = on;
    }

    /// Puts a type under its name, and answers the one that stood there.
    pub fn insert_type(&mut self, ty: MetaType) -> Result<Option<MetaType>, OutOfMemory>
        ensures before { IfOk result (λ before.
            option_map meta_of before ≡ at_text (name_of (meta_of ty)) (types_of self.old)) }
        ensures contents { OnOk result (registry_of self.new ≡ record (registry_of self.old) {
          types = with_type (types_of self.old) (meta_of ty);
        }) }
        ensures types { OnOk result (types_of self.new
            ≡ with_type (types_of self.old) (meta_of ty)) }
        ensures query { query_of self.new ≡ query_of self.old }
        ensures err { OnErr result (IsUnchanged self.old self.new) }
    {
        let name = String::from_str(self.alloc, ty.name())?;
        Ok(self.types.insert(name, ty)?)
    }

    pub(crate) fn put_type(&mut self, ty: MetaType) -> Result<(), OutOfMemory>
        ensures contents { OnOk result (registry_of self.new ≡ record (registry_of self.old) {
          types = with_type (types_of self.old) (meta_of ty);
        }) }
        ensures err { OnErr result (IsUnchanged self.old self.new) }
    {
        match self.insert_type(ty) {
            Ok(_) => Ok(()),
            Err(e) => Err(e),
        }
    }

    /// Puts a directive under its name, in the place of one that stood there.
    pub fn add_directive(&mut self, directive: MetaDirective) -> Result<(), OutOfMemory>
        ensures contents { OnOk result (registry_of self.new ≡ record (registry_of self.old) {
          directives = with_directive (directives_of self.old) (directive_of directive);
        }) }
        ensures err { OnErr result (IsUnchanged self.old self.new) }
    {
        let name = String::from_str(self.alloc, directive.name.as_str())?;
        self.directives.insert(name, directive)?;
        Ok(())
    }

    /// Notes that a type implements an interface: a new one goes last in the type's list, and one that is in it keeps
    /// its place.
    pub fn add_implements(&mut self, ty: &str, interface: &str) -> Result<(), OutOfMemory>
        ensures contents { OnOk result (registry_of self.new ≡ record (registry_of self.old) {
          implements = with_implements ty.now (lists_of self.old) interface.now;
        }) }
        ensures once { OnOk result (ImplementsOnce ty.now (lists_of self.new) interface.now) }
        ensures others { OnOk result (KeepsOthers ty.now (lists_of self.old) (lists_of self.new)) }
        ensures err { OnErr result (IsUnchanged self.old self.new) }
    {
        add_to_list(self.alloc, &mut self.implements, ty, interface)
    }

    /// Puts a type under its name, and then notes each of the interfaces for it, in order: all of that, or nothing. Where
    /// no type of the name stood there, the registry has one type more.
    pub fn add_type(
        &mut self,
        ty: MetaType,
        interfaces: &IndexSet<String>,
    ) -> Result<(), OutOfMemory>
        ensures contents { OnOk result (registry_of self.new ≡ record (registry_of self.old) {
          types = with_type (types_of self.old) (meta_of ty);
          implements = with_all_implements (name_of (meta_of ty)) (lists_of self.old) (names_of interfaces.now);
        }) }
        ensures one_more { OnOk result (
            is_among (name_of (meta_of ty)) (keys_of (types_of self.old)) ≡ false
            → length (types_of self.new) ≡ suc (length (types_of self.old))) }
        ensures err { OnErr result (IsUnchanged self.old self.new) }
    {
        if interfaces.is_empty() {
            return self.put_type(ty);
        }
        let listing = make_listing(self.alloc, &self.implements, ty.name(), interfaces)?;
        put_both(
            &mut self.types,
            &mut self.implements,
            listing.name,
            ty,
            listing.key,
            listing.names,
        )
    }
}
