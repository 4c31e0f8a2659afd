//! Names that repeat among those of one owner.

ghost use Rattle.std.specs.Prelude.{◌≡◌, IfOk, OnOk, map};
ghost use Rattle.gql_text_syntax.specs.declared.syntax.PlacedName.{PlacedName};
ghost use Rattle.gql_text.specs.Faults.{first_after};
ghost use Rattle.gql_text.specs.Owners.{duplicates, no_names, repeated, with_seen_name};
ghost use Rattle.gql_text.specs.Roots.{operation_word};
ghost use Rattle.gql_text.specs.Seen.{key_repeated, names_among, names_in};
ghost use Rattle.gql_text.specs.WrittenRoots.{root_key};

use crate::owner_fault::{FaultKind, OwnerFault, note};
use gql_text_lexer::Text;
use gql_text_syntax::{
    Argument, EnumValue, Field, InputValue, Literal, OperationType, PlacedName, Root,
};
use std::alloc::{AllocError, Global};
use std::collections::BTreeSet;

/// Below this number the names of one owner are compared one with another.
const FEW: usize = 8;

/// Enters a name, and answers whether it was there before.
fn enter<'t>(names: &mut BTreeSet<&'t str>, name: &'t str) -> Result<bool, AllocError>
    ensures known { IfOk result (λ known. known ≡ names_in names.old name.now) }
    ensures names { OnOk result (names_in names.new
        ≡ with_seen_name name.now (names_in names.old)) }
{
    let is_new = names.insert(name)?;
    Ok(!is_new)
}

pub(crate) fn check_name<'t>(
    alloc: Global,
    name: &'t str,
    at: usize,
    earlier: &mut BTreeSet<&'t str>,
    first: &mut Option<OwnerFault>,
) -> Result<(), AllocError>
    ensures names { OnOk result (names_in earlier.new
        ≡ with_seen_name name.now (names_in earlier.old)) }
    ensures faults { OnOk result (first.new
        ≡ first_after first.old (repeated (names_in earlier.old) name.now at)) }
{
    if !enter(earlier, name)? {
        return Ok(());
    }
    note(first, FaultKind::Duplicate(Text::new(alloc, name)?), at);
    Ok(())
}

/// What stands under a name.
pub(crate) trait Keyed {
    ghost key: { Self → PlacedName };

    fn name(&self) -> &str
        ensures { result.now ≡ (key self.now).name };

    fn place(&self) -> usize
        ensures { result ≡ (key self.now).at };
}

fn is_among<T: Keyed>(items: &[T], name: &str) -> bool
    ensures { result ≡ names_among T.key items.now name.now }
{
    items.iter().any(|item| item.name() == name)
}

/// The name of an item, where it is among those of the earlier ones.
fn check_item<T: Keyed>(
    alloc: Global,
    earlier: &[T],
    item: &T,
    first: &mut Option<OwnerFault>,
) -> Result<(), AllocError>
    ensures { OnOk result (first.new
        ≡ first_after first.old (key_repeated (names_among T.key earlier.now) (T.key item.now))) }
{
    let name = item.name();
    if !is_among(earlier, name) {
        return Ok(());
    }
    note(
        first,
        FaultKind::Duplicate(Text::new(alloc, name)?),
        item.place(),
    );
    Ok(())
}

/// Each name that repeats an earlier one, without a set.
fn check_few<T: Keyed>(
    alloc: Global,
    items: &[T],
    first: &mut Option<OwnerFault>,
) -> Result<(), AllocError>
    ensures { OnOk result (first.new
        ≡ first_after first.old (duplicates no_names (map T.key items.now))) }
{
    for index in 0..items.len() {
        check_item(alloc, &items[..index], &items[index], first)?;
    }
    Ok(())
}

/// Each name that repeats an earlier one, with a set of those before it.
fn check_many<T: Keyed>(
    alloc: Global,
    items: &[T],
    first: &mut Option<OwnerFault>,
) -> Result<(), AllocError>
    ensures { OnOk result (first.new
        ≡ first_after first.old (duplicates no_names (map T.key items.now))) }
{
    let mut earlier = BTreeSet::new(alloc);
    for item in items {
        check_name(alloc, item.name(), item.place(), &mut earlier, first)?;
    }
    Ok(())
}

/// Each name that repeats an earlier one. Few names are compared one with another, which takes no memory.
pub(crate) fn check_names<T: Keyed>(
    alloc: Global,
    items: &[T],
    first: &mut Option<OwnerFault>,
) -> Result<(), AllocError>
    ensures { OnOk result (first.new
        ≡ first_after first.old (duplicates no_names (map T.key items.now))) }
{
    if items.len() < FEW {
        check_few(alloc, items, first)
    } else {
        check_many(alloc, items, first)
    }
}

impl<'t> Keyed for PlacedName<'t> {
    ghost key = { λ k. k };

    fn name(&self) -> &str {
        self.name.as_str()
    }

    fn place(&self) -> usize {
        self.at
    }
}

impl<'t> Keyed for (PlacedName<'t>, Literal<'t>) {
    ghost key = { λ e. e.0 };

    fn name(&self) -> &str {
        self.0.name.as_str()
    }

    fn place(&self) -> usize {
        self.0.at
    }
}

impl<'t> Keyed for Argument<'t> {
    ghost key = { λ a. a.key };

    fn name(&self) -> &str {
        self.key.name.as_str()
    }

    fn place(&self) -> usize {
        self.key.at
    }
}

impl<'t> Keyed for InputValue<'t> {
    ghost key = { λ i. i.key };

    fn name(&self) -> &str {
        self.key.name.as_str()
    }

    fn place(&self) -> usize {
        self.key.at
    }
}

impl<'t> Keyed for Field<'t> {
    ghost key = { λ f. f.key };

    fn name(&self) -> &str {
        self.key.name.as_str()
    }

    fn place(&self) -> usize {
        self.key.at
    }
}

impl<'t> Keyed for EnumValue<'t> {
    ghost key = { λ v. v.key };

    fn name(&self) -> &str {
        self.key.name.as_str()
    }

    fn place(&self) -> usize {
        self.key.at
    }
}

/// The first word of a root line.
fn operation_word(kind: OperationType) -> &'static str
    ensures { result.now ≡ operation_word kind }
{
    match kind {
        OperationType::Query => "query",
        OperationType::Mutation => "mutation",
        OperationType::Subscription => "subscription",
    }
}

impl<'t> Keyed for Root<'t> {
    ghost key = { root_key };

    fn name(&self) -> &str {
        operation_word(self.kind)
    }

    fn place(&self) -> usize {
        self.at
    }
}
