//! The numbers of the types of a schema: their places in name order.

ghost use Rattle.std.specs.Prelude.{◌≡◌, ◌<◌, IfOk, OnOk, length};
ghost use Rattle.std.specs.Option.{IfSome};
ghost use Rattle.std.specs.List.{IsDistinct};
ghost use Rattle.std.specs.Map.{keys_of};
ghost use Rattle.std.specs.Str.{bytes_eq};
ghost use Rattle.gql_registry_meta.specs.Views.{entries_of, meta_of};
ghost use Rattle.gql_registry_closures.specs.Table.{place_of};

use gql_registry_meta::MetaType;
use gql_text_lexer::OutOfMemory;
use indexmap::IndexSet;
use std::alloc::Global;
use std::collections::BTreeMap;
use std::marker::Model;

/// The names of the types, each at the place that is its number.
#[derive(Drop)]
pub(crate) struct Numbers<'a> {
    names: IndexSet<&'a str>,
}

impl<'a> Model for Numbers<'a> {
    ghost use Rattle.std.specs.Prelude.{List, ℕ};
    ghost use Rattle.gql_registry_meta.specs.Views.{texts_in};

    ghost Value = { List (List ℕ) };

    ghost view = { λ n. texts_in n.names.keys };
}

impl<'a> Numbers<'a> {
    /// The numbers of these types.
    pub(crate) fn new(
        alloc: Global,
        types: &'a BTreeMap<String, MetaType>,
    ) -> Result<Numbers<'a>, OutOfMemory>
        ensures names { IfOk result (λ numbers.
            numbers ≡ keys_of (entries_of meta_of types.now.entries)) }
        ensures distinct { OnOk result (IsDistinct bytes_eq
            (keys_of (entries_of meta_of types.now.entries))) }
    {
        let mut names = IndexSet::new(alloc);
        for name in types.keys() {
            names.insert(name.as_str())?;
        }
        Ok(Numbers { names })
    }

    /// The number of the type of this name, if there is one.
    pub(crate) fn get(&self, name: &str) -> Option<usize>
        ensures place { result ≡ place_of name.now self.now }
        ensures within { IfSome result (λ place. place < length self.now) }
    {
        self.names.get_index_of(name)
    }
}
