//! The names of the types that are used, and of those that are visible.

ghost use Rattle.std.specs.Prelude.{◌≡◌, ◌++◌, ◌||◌, ◌∷◌, [], IfOk, OnOk, filter, length};
ghost use Rattle.std.specs.Map.{keys_of};
ghost use Rattle.gql_registry_meta.specs.Parts.{Text, is_among};
ghost use Rattle.gql_registry_meta.specs.Views.{text_of, texts_of, texts_in, entries_of, meta_of};
ghost use Rattle.gql_registry_closures.specs.Reached.{is_system_name, Needed, Shown};
ghost use Rattle.gql_registry_closures.specs.Answers.{parts_of, Leaves, HoldsExactly, set_names};
ghost use Rattle.gql_registry_closures.specs.Walk.{is_name_kept, left_of};

use crate::numbers::Numbers;
use crate::search::{join_all, reached};
use crate::table::Table;
use gql_registry_meta::{Context, Everything, MetaDirective, MetaType};
use gql_text_lexer::{OutOfMemory, is_reserved};
use std::alloc::Global;
use std::collections::{BTreeMap, BTreeSet};

/// Whether a name begins with two underscores or is that of a scalar that every schema has: sections 2.1.9 and 3.5 of the
/// GraphQL specification, October 2021.
pub fn is_system_name(name: &str) -> bool
    ensures { result ≡ is_system_name name.now }
{
    is_reserved(name)
        || name == "Boolean"
        || name == "Int"
        || name == "Float"
        || name == "String"
        || name == "ID"
}

/// Whether a name is that of a system type or of a type that is marked.
fn is_kept(numbers: &Numbers<'_>, marks: &[bool], name: &str) -> bool
    requires { length marks.now ≡ length numbers.now }
    ensures { result ≡ is_name_kept numbers.now marks.now name.now }
{
    if is_system_name(name) {
        return true;
    }
    match numbers.get(name) {
        Some(place) => marks[place],
        None => false,
    }
}

/// Adds the name, unless it is kept.
fn add_left(
    names: &mut Vec<String>,
    numbers: &Numbers<'_>,
    marks: &[bool],
    name: &String,
) -> Result<(), OutOfMemory>
    requires { length marks.now ≡ length numbers.now }
    ensures { OnOk result (texts_of names.new ≡ texts_of names.old
        ++ left_of numbers.now marks.now (text_of name.now ∷ [])) }
{
    if is_kept(numbers, marks, name.as_str()) {
        return Ok(());
    }
    names.push(name.clone()?)?;
    Ok(())
}

/// The names of the types that are not kept.
fn left_names(
    alloc: Global,
    numbers: &Numbers<'_>,
    types: &BTreeMap<String, MetaType>,
    marks: &[bool],
) -> Result<Vec<String>, OutOfMemory>
    requires { length marks.now ≡ length numbers.now }
    ensures { IfOk result (λ names. texts_of names ≡ left_of numbers.now marks.now
        (keys_of (entries_of meta_of types.now.entries))) }
{
    let mut names = Vec::new(alloc);
    for name in types.keys() {
        add_left(&mut names, numbers, marks, name)?;
    }
    Ok(names)
}

/// Adds the name, if it is kept.
fn add_kept(
    names: &mut BTreeSet<String>,
    numbers: &Numbers<'_>,
    marks: &[bool],
    name: &String,
) -> Result<(), OutOfMemory>
    requires { length marks.now ≡ length numbers.now }
    ensures { OnOk result ((other : Text) → is_among other (set_names names.new)
        ≡ (is_among other (set_names names.old)
        || is_among other (filter (is_name_kept numbers.now marks.now) (text_of name.now ∷ [])))) }
{
    if is_kept(numbers, marks, name.as_str()) {
        names.insert(name.clone()?)?;
        return Ok(());
    }
    Ok(())
}

/// The names of the types that are kept.
fn kept_names(
    alloc: Global,
    numbers: &Numbers<'_>,
    types: &BTreeMap<String, MetaType>,
    marks: &[bool],
) -> Result<BTreeSet<String>, OutOfMemory>
    requires { length marks.now ≡ length numbers.now }
    ensures { IfOk result (λ names. (other : Text) → is_among other (set_names names)
        ≡ is_among other (filter (is_name_kept numbers.now marks.now)
        (keys_of (entries_of meta_of types.now.entries)))) }
{
    let mut names = BTreeSet::new(alloc);
    for name in types.keys() {
        add_kept(&mut names, numbers, marks, name)?;
    }
    Ok(names)
}

/// The names of the types that a schema does not need, in name order: those of all types but the system types and the
/// ones that a chain reaches. A chain begins at the types of the arguments of directives, at the roots, and at objects and
/// interfaces with a key; it goes on by fields, their arguments, input fields and possible types. `roots` are the names of
/// section 3.3.1 of the GraphQL specification, October 2021. The work is linear in what the types lead to.
pub fn unused_names(
    alloc: Global,
    types: &BTreeMap<String, MetaType>,
    directives: &BTreeMap<String, MetaDirective>,
    roots: &[&str],
) -> Result<Vec<String>, OutOfMemory>
    ensures { IfOk result (λ names.
        Leaves (Needed (parts_of types.now directives.now (texts_in roots.now)))
        (keys_of (entries_of meta_of types.now.entries)) (texts_of names)) }
{
    let numbers = Numbers::new(alloc, types)?;
    let table = Table::new(alloc, &numbers, types, directives, roots)?;
    let marks = reached(alloc, &Everything, &table)?;
    let names = left_names(alloc, &numbers, types, &marks)?;
    Ok(names)
}

/// The names of the types that a reader may see: the system types, and those that a chain reaches by parts that are shown
/// to it. Then each interface that is shown, is not among them and has a possible type among them comes with all that it
/// reaches, in name order. The work is linear in what the types lead to.
pub fn visible_names<C: Context>(
    alloc: Global,
    types: &BTreeMap<String, MetaType>,
    directives: &BTreeMap<String, MetaDirective>,
    roots: &[&str],
    ctx: &C,
) -> Result<BTreeSet<String>, OutOfMemory>
    ensures { IfOk result (λ names. HoldsExactly (Shown (C.rules ctx.now)
        (parts_of types.now directives.now (texts_in roots.now)))
        (keys_of (entries_of meta_of types.now.entries)) (set_names names)) }
{
    let numbers = Numbers::new(alloc, types)?;
    let table = Table::new(alloc, &numbers, types, directives, roots)?;
    let mut marks = reached(alloc, ctx, &table)?;
    join_all(alloc, ctx, &table, &mut marks)?;
    let names = kept_names(alloc, &numbers, types, &marks)?;
    Ok(names)
}
