//! The table of the types of a schema, by number.

ghost use Rattle.std.specs.Prelude.{◌≡◌, ◌++◌, ◌∷◌, [], IfOk, OnOk, map, flat_map};
ghost use Rattle.std.specs.Map.{keys_of, values_of};
ghost use Rattle.gql_registry_meta.specs.Kinds.{visible_of};
ghost use Rattle.gql_registry_meta.specs.Views.{entries_of, meta_of, directive_of, texts_in};
ghost use Rattle.gql_registry_closures.specs.Links.{plain_link, directive_links, keyed_links, starts_of, has_key};
ghost use Rattle.gql_registry_closures.specs.Answers.{parts_of};
ghost use Rattle.gql_registry_closures.specs.Table.{edges_of, all_edges, all_implementers, all_rules, lists, IsTableOf, IsWhole};

use crate::edges::{Edge, add_edge, add_inputs, edges_of, implementers_of};
use crate::numbers::Numbers;
use gql_registry_meta::{MetaDirective, MetaType};
use gql_text_lexer::OutOfMemory;
use std::alloc::Global;
use std::collections::BTreeMap;

/// Where one begins, and for each type by its number the rule that shows it, what it leads to, and the possible types of
/// an interface.
#[derive(Drop)]
pub(crate) struct Table {
    pub(crate) starts: Vec<Edge>,
    pub(crate) rules: Vec<Option<u32>>,
    pub(crate) edges: Vec<Vec<Edge>>,
    pub(crate) implementers: Vec<Vec<usize>>,
}

/// Adds what the arguments of the definitions of directives lead to.
fn add_directives(
    starts: &mut Vec<Edge>,
    numbers: &Numbers<'_>,
    directives: &BTreeMap<String, MetaDirective>,
) -> Result<(), OutOfMemory>
    ensures { OnOk result (starts.new.items ≡ starts.old.items ++ edges_of numbers.now
        (flat_map directive_links (values_of (entries_of directive_of directives.now.entries)))) }
{
    for directive in directives.values() {
        add_inputs(starts, numbers, directive.visible, &directive.args)?;
    }
    Ok(())
}

/// Adds the roots.
fn add_roots(
    starts: &mut Vec<Edge>,
    numbers: &Numbers<'_>,
    roots: &[&str],
) -> Result<(), OutOfMemory>
    ensures { OnOk result (starts.new.items ≡ starts.old.items
        ++ edges_of numbers.now (map plain_link (texts_in roots.now))) }
{
    for root in roots {
        add_edge(starts, numbers, None, None, root)?;
    }
    Ok(())
}

/// Whether the type is an object or an interface with a key.
pub(crate) fn has_key(ty: &MetaType) -> bool
    ensures { result ≡ has_key (meta_of ty.now) }
{
    match ty {
        MetaType::Object {
            keys: Some(keys),
            ..
        } => !keys.is_empty(),
        MetaType::Interface {
            keys: Some(keys),
            ..
        } => !keys.is_empty(),
        _ => false,
    }
}

/// Adds a type, if it has a key.
fn add_keyed(
    starts: &mut Vec<Edge>,
    numbers: &Numbers<'_>,
    name: &str,
    ty: &MetaType,
) -> Result<(), OutOfMemory>
    ensures { OnOk result (starts.new.items ≡ starts.old.items
        ++ edges_of numbers.now (keyed_links (name.now, meta_of ty.now))) }
{
    if has_key(ty) {
        return add_edge(starts, numbers, None, None, name);
    }
    Ok(())
}

/// Adds the types with a key.
fn add_all_keyed(
    starts: &mut Vec<Edge>,
    numbers: &Numbers<'_>,
    types: &BTreeMap<String, MetaType>,
) -> Result<(), OutOfMemory>
    ensures { OnOk result (starts.new.items ≡ starts.old.items ++ edges_of numbers.now
        (flat_map keyed_links (entries_of meta_of types.now.entries))) }
{
    for (name, ty) in types.iter() {
        add_keyed(starts, numbers, name.as_str(), ty)?;
    }
    Ok(())
}

/// Where one begins.
fn starts_of(
    alloc: Global,
    numbers: &Numbers<'_>,
    types: &BTreeMap<String, MetaType>,
    directives: &BTreeMap<String, MetaDirective>,
    roots: &[&str],
) -> Result<Vec<Edge>, OutOfMemory>
    ensures { IfOk result (λ starts. starts.items ≡ edges_of numbers.now
        (starts_of (parts_of types.now directives.now (texts_in roots.now)))) }
{
    let mut starts = Vec::new(alloc);
    add_directives(&mut starts, numbers, directives)?;
    add_roots(&mut starts, numbers, roots)?;
    add_all_keyed(&mut starts, numbers, types)?;
    Ok(starts)
}

/// The rules that show the types.
fn rules_of(
    alloc: Global,
    types: &BTreeMap<String, MetaType>,
) -> Result<Vec<Option<u32>>, OutOfMemory>
    ensures { IfOk result (λ rules.
        rules.items ≡ all_rules (entries_of meta_of types.now.entries)) }
{
    let mut rules = Vec::new(alloc);
    for ty in types.values() {
        rules.push(rule_of(ty))?;
    }
    Ok(rules)
}

/// The rule that shows a type.
fn rule_of(ty: &MetaType) -> Option<u32>
    ensures { result ≡ visible_of (meta_of ty.now) }
{
    match ty {
        MetaType::Scalar { visible, .. } => *visible,
        MetaType::Object { visible, .. } => *visible,
        MetaType::Interface { visible, .. } => *visible,
        MetaType::Union { visible, .. } => *visible,
        MetaType::Enum { visible, .. } => *visible,
        MetaType::InputObject { visible, .. } => *visible,
    }
}

/// What the types lead to.
fn all_edges(
    alloc: Global,
    numbers: &Numbers<'_>,
    types: &BTreeMap<String, MetaType>,
) -> Result<Vec<Vec<Edge>>, OutOfMemory>
    ensures { IfOk result (λ edges. lists edges.items
        ≡ all_edges numbers.now (entries_of meta_of types.now.entries)) }
{
    let mut edges = Vec::new(alloc);
    for ty in types.values() {
        edges.push(edges_of(alloc, numbers, ty)?)?;
    }
    Ok(edges)
}

/// The possible types of the interfaces.
fn all_implementers(
    alloc: Global,
    numbers: &Numbers<'_>,
    types: &BTreeMap<String, MetaType>,
) -> Result<Vec<Vec<usize>>, OutOfMemory>
    ensures { IfOk result (λ implementers. lists implementers.items
        ≡ all_implementers numbers.now (entries_of meta_of types.now.entries)) }
{
    let mut implementers = Vec::new(alloc);
    for ty in types.values() {
        implementers.push(implementers_of(alloc, numbers, ty)?)?;
    }
    Ok(implementers)
}

impl Table {
    /// The table of a schema, by the numbers of its types.
    pub(crate) fn new(
        alloc: Global,
        numbers: &Numbers<'_>,
        types: &BTreeMap<String, MetaType>,
        directives: &BTreeMap<String, MetaDirective>,
        roots: &[&str],
    ) -> Result<Table, OutOfMemory>
        requires { numbers.now ≡ keys_of (entries_of meta_of types.now.entries) }
        ensures table { IfOk result (λ table.
            IsTableOf (parts_of types.now directives.now (texts_in roots.now)) table) }
        ensures whole { IfOk result (λ table. IsWhole table) }
    {
        Ok(Table {
            starts: starts_of(alloc, numbers, types, directives, roots)?,
            rules: rules_of(alloc, types)?,
            edges: all_edges(alloc, numbers, types)?,
            implementers: all_implementers(alloc, numbers, types)?,
        })
    }
}
