//! The names that types implement, each list under the name of its type.

ghost use Rattle.std.specs.Prelude.{◌≡◌, IfOk, IfErr, OnOk, OnErr, None, fold};
ghost use Rattle.gql_registry.specs.Maps.{types_in, lists_in};
ghost use Rattle.gql_registry.specs.Registry.{HasOnce, ImplementsOnce, names_of, implements_listed, with_name};
ghost use Rattle.gql_registry.specs.Registry.{with_list, with_implements, with_type};
ghost use Rattle.gql_registry_meta.specs.Parts.{name_of, at_text};
ghost use Rattle.gql_registry_meta.specs.Views.{text_of, meta_of};

use gql_registry_meta::MetaType;
use gql_text_lexer::OutOfMemory;
use indexmap::IndexSet;
use std::alloc::Global;
use std::collections::BTreeMap;

/// Adds a name, unless it is among the names.
#[tactic(auto, using(gql_registry_meta::proofs::Names::names_with))]
pub(crate) fn add_name(names: &mut IndexSet<String>, name: String) -> Result<(), OutOfMemory>
    ensures names { OnOk result (names_of names.new
        ≡ with_name (names_of names.old) (text_of name)) }
    ensures once { OnOk result (HasOnce (names_of names.new) (text_of name)) }
    ensures err { OnErr result (names_of names.new ≡ names_of names.old) }
{
    names.insert(name)?;
    Ok(())
}

/// Adds a copy of each of the others, in their order.
fn add_names(names: &mut IndexSet<String>, others: &IndexSet<String>) -> Result<(), OutOfMemory>
    ensures { OnOk result (names_of names.new
        ≡ fold with_name (names_of names.old) (names_of others.now)) }
{
    for other in others.iter() {
        add_name(names, other.clone()?)?;
    }
    Ok(())
}

/// A copy of the names that a type implements.
fn names_listed(
    alloc: Global,
    lists: &BTreeMap<String, IndexSet<String>>,
    ty: &str,
) -> Result<IndexSet<String>, OutOfMemory>
    ensures { IfOk result (λ names.
        names_of names ≡ implements_listed ty.now (lists_in lists.now)) }
{
    match lists.get(ty) {
        Some(names) => Ok(names.clone()?),
        None => Ok(IndexSet::new(alloc)),
    }
}

/// What the list of a type is made of: its name, the name again as the key of the list, and the names in it.
#[derive(Drop)]
pub(crate) struct Listing {
    pub(crate) name: String,
    pub(crate) key: String,
    pub(crate) names: IndexSet<String>,
}

/// The names that a type implements, and then the others in their order.
pub(crate) fn make_listing(
    alloc: Global,
    lists: &BTreeMap<String, IndexSet<String>>,
    ty: &str,
    others: &IndexSet<String>,
) -> Result<Listing, OutOfMemory>
    ensures name { IfOk result (λ made. text_of made.name ≡ ty.now) }
    ensures key { IfOk result (λ made. text_of made.key ≡ ty.now) }
    ensures names { IfOk result (λ made. names_of made.names
        ≡ fold with_name (implements_listed ty.now (lists_in lists.now)) (names_of others.now)) }
{
    let mut names = names_listed(alloc, lists, ty)?;
    add_names(&mut names, others)?;
    Ok(Listing {
        name: String::from_str(alloc, ty)?,
        key: String::from_str(alloc, ty)?,
        names,
    })
}

/// Adds a name to the list of a type, which begins with it where there is none.
pub(crate) fn add_to_list(
    alloc: Global,
    lists: &mut BTreeMap<String, IndexSet<String>>,
    ty: &str,
    interface: &str,
) -> Result<(), OutOfMemory>
    ensures lists { OnOk result (lists_in lists.new
        ≡ with_implements ty.now (lists_in lists.old) interface.now) }
    ensures once { OnOk result (ImplementsOnce ty.now (lists_in lists.new) interface.now) }
    ensures err { OnErr result (lists_in lists.new ≡ lists_in lists.old) }
{
    let interface = String::from_str(alloc, interface)?;
    match lists.get_mut(ty) {
        Some(names) => add_name(names, interface),
        None => begin_list(alloc, lists, ty, interface),
    }
}

fn begin_list(
    alloc: Global,
    lists: &mut BTreeMap<String, IndexSet<String>>,
    ty: &str,
    interface: String,
) -> Result<(), OutOfMemory>
    requires { at_text ty.now (lists_in lists.old) ≡ None }
    ensures lists { OnOk result (lists_in lists.new
        ≡ with_implements ty.now (lists_in lists.old) (text_of interface)) }
    ensures once { OnOk result (ImplementsOnce ty.now (lists_in lists.new) (text_of interface)) }
    ensures err { OnErr result (lists_in lists.new ≡ lists_in lists.old) }
{
    let mut names = IndexSet::new(alloc);
    add_name(&mut names, interface)?;
    let key = String::from_str(alloc, ty)?;
    lists.insert(key, names)?;
    Ok(())
}

/// Puts a type under its name and its list under the same name in `key`: both, or neither.
pub(crate) fn put_both(
    types: &mut BTreeMap<String, MetaType>,
    lists: &mut BTreeMap<String, IndexSet<String>>,
    name: String,
    ty: MetaType,
    key: String,
    names: IndexSet<String>,
) -> Result<(), OutOfMemory>
    requires name { text_of name ≡ name_of (meta_of ty) }
    requires key { text_of key ≡ name_of (meta_of ty) }
    ensures types { OnOk result (types_in types.new ≡ with_type (types_in types.old) (meta_of ty)) }
    ensures lists { OnOk result (lists_in lists.new
        ≡ with_list (name_of (meta_of ty)) (lists_in lists.old) (names_of names)) }
    ensures types_stay { OnErr result (types_in types.new ≡ types_in types.old) }
    ensures lists_stay { OnErr result (lists_in lists.new ≡ lists_in lists.old) }
{
    match lists.get_mut(key.as_str()) {
        Some(place) => {
            types.insert(name, ty)?;
            *place = names;
            Ok(())
        }
        None => put_first(types, lists, name, ty, key, names),
    }
}

/// Puts a type under its name, or gives the name back.
fn put_named(
    types: &mut BTreeMap<String, MetaType>,
    name: String,
    ty: MetaType,
) -> Result<(), String>
    requires { text_of name ≡ name_of (meta_of ty) }
    ensures types { OnOk result (types_in types.new ≡ with_type (types_in types.old) (meta_of ty)) }
    ensures stay { OnErr result (types_in types.new ≡ types_in types.old) }
    ensures back { IfErr result (λ name. text_of name ≡ name_of (meta_of ty)) }
{
    match types.insert(name, ty) {
        Ok(_) => Ok(()),
        Err(refused) => Err(refused.value.0),
    }
}

/// The same where the type has no list yet.
fn put_first(
    types: &mut BTreeMap<String, MetaType>,
    lists: &mut BTreeMap<String, IndexSet<String>>,
    name: String,
    ty: MetaType,
    key: String,
    names: IndexSet<String>,
) -> Result<(), OutOfMemory>
    requires name { text_of name ≡ name_of (meta_of ty) }
    requires key { text_of key ≡ name_of (meta_of ty) }
    requires none { at_text (text_of key) (lists_in lists.old) ≡ None }
    ensures types { OnOk result (types_in types.new ≡ with_type (types_in types.old) (meta_of ty)) }
    ensures lists { OnOk result (lists_in lists.new
        ≡ with_list (name_of (meta_of ty)) (lists_in lists.old) (names_of names)) }
    ensures types_stay { OnErr result (types_in types.new ≡ types_in types.old) }
    ensures lists_stay { OnErr result (lists_in lists.new ≡ lists_in lists.old) }
{
    lists.insert(key, names)?;
    if let Err(name) = put_named(types, name, ty) {
        lists.remove(name.as_str());
        return Err(OutOfMemory);
    }
    Ok(())
}
