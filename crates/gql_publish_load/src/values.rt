//! Constant values and texts, made of the values that are written.

ghost use Rattle.std.specs.Prelude.{◌≡◌, IfOk, map};
ghost use Rattle.std.specs.Option.{option_map, option_copied};
ghost use Rattle.gql_text.specs.DocumentOf.{const_value_of, const_entry_of};

use gql_text::{ConstValue, Items, Literal, Name, OutOfMemory, PlacedName, Text};
use std::alloc::Global;

#[cycle(const_values)]
fn const_items(alloc: Global, items: &[Literal<'_>]) -> Result<Items<ConstValue>, OutOfMemory>
    ensures { IfOk result (λ found. found ≡ map const_value_of items.now) }
{
    let mut found = Items::new(alloc);
    for item in items {
        found.push(const_value(alloc, item)?)?;
    }
    Ok(found)
}

#[cycle(const_values)]
fn const_entries(
    alloc: Global,
    entries: &[(PlacedName<'_>, Literal<'_>)],
) -> Result<Items<(Name, ConstValue)>, OutOfMemory>
    ensures { IfOk result (λ found. found ≡ map const_entry_of entries.now) }
{
    let mut found = Items::new(alloc);
    for entry in entries {
        let key = entry.0.name.to_name(alloc)?;
        found.push((key, const_value(alloc, &entry.1)?))?;
    }
    Ok(found)
}

/// The value, with copies of its names and texts.
#[cycle(const_values)]
#[tactic(auto, using(gql_text::proofs::Constants::const_values))]
pub(crate) fn const_value(alloc: Global, literal: &Literal<'_>) -> Result<ConstValue, OutOfMemory>
    ensures { IfOk result (λ value. value ≡ const_value_of literal.now) }
{
    match literal {
        Literal::Null => Ok(ConstValue::Null),
        Literal::Number(number) => Ok(ConstValue::Number(*number)),
        Literal::String(text) => Ok(ConstValue::String(text.to_text(alloc)?)),
        Literal::Boolean(truth) => Ok(ConstValue::Boolean(*truth)),
        Literal::Enum(name) => Ok(ConstValue::Enum(name.to_name(alloc)?)),
        Literal::List(items) => {
            let items = const_items(alloc, items.as_slice())?;
            Ok(ConstValue::List(items))
        }
        Literal::Object(entries) => {
            let entries = const_entries(alloc, entries.as_slice())?;
            Ok(ConstValue::Object(entries))
        }
    }
}

/// The text, where there is one.
pub(crate) fn lent(text: &Option<Text>) -> Option<&str>
    ensures { option_copied result ≡ text.now }
{
    match text {
        None => None,
        Some(found) => Some(found.as_str()),
    }
}
