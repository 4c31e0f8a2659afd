//! The constant value that a written one stands for.

ghost use Rattle.std.specs.Prelude.{◌≡◌, IfOk, map};
ghost use Rattle.std.specs.Option.{option_map};
ghost use Rattle.gql_text.specs.DocumentOf.{const_value_of, const_entry_of};

use gql_text_lexer::{Name, OutOfMemory};
use gql_text_syntax::{Literal, PlacedName};
use gql_text_values::ConstValue;
use sqlite_items::Items;
use std::alloc::Global;

#[cycle(const_values)]
fn const_items(alloc: Global, items: &[Literal<'_>]) -> Result<Items<ConstValue>, OutOfMemory>
    ensures { IfOk result (λ found. found ≡ map const_value_of items.now) }
{
    let mut found = Items::new(alloc);
    for item in items {
        found.push(const_value(alloc, item)?)?;
    }
    Ok(found)
}

#[cycle(const_values)]
fn const_entries(
    alloc: Global,
    entries: &[(PlacedName<'_>, Literal<'_>)],
) -> Result<Items<(Name, ConstValue)>, OutOfMemory>
    ensures { IfOk result (λ found. found ≡ map const_entry_of entries.now) }
{
    let mut found = Items::new(alloc);
    for entry in entries {
        let key = entry.0.name.to_name(alloc)?;
        found.push((key, const_value(alloc, &entry.1)?))?;
    }
    Ok(found)
}

#[cycle(const_values)]
#[tactic(auto, using(crate::proofs::Constants::const_values))]
pub(crate) fn const_value(alloc: Global, literal: &Literal<'_>) -> Result<ConstValue, OutOfMemory>
    ensures { IfOk result (λ value. value ≡ const_value_of literal.now) }
{
    match literal {
        Literal::Null => Ok(ConstValue::Null),
        Literal::Number(number) => Ok(ConstValue::Number(*number)),
        Literal::String(text) => Ok(ConstValue::String(text.to_text(alloc)?)),
        Literal::Boolean(truth) => Ok(ConstValue::Boolean(*truth)),
        Literal::Enum(name) => Ok(ConstValue::Enum(name.to_name(alloc)?)),
        Literal::List(items) => {
            let items = const_items(alloc, items.as_slice())?;
            Ok(ConstValue::List(items))
        }
        Literal::Object(entries) => {
            let entries = const_entries(alloc, entries.as_slice())?;
            Ok(ConstValue::Object(entries))
        }
    }
}

pub(crate) fn default_value(
    alloc: Global,
    default: &Option<Literal<'_>>,
) -> Result<Option<ConstValue>, OutOfMemory>
    ensures { IfOk result (λ value. value ≡ option_map const_value_of default.now) }
{
    match default {
        None => Ok(None),
        Some(literal) => {
            let value = const_value(alloc, literal)?;
            Ok(Some(value))
        }
    }
}
