//! Constant values: section 2.9 of the GraphQL specification, October 2021.

ghost use Rattle.std.specs.Prelude.{◌≡◌, ◌↔◌, IsTrue, ◌++◌, codes, string_bytes, IfOk, OnOk};
ghost use Rattle.std.specs.Cmp.{on_equiv, partial_equiv_from_equiv};
ghost use Rattle.gql_text_values.specs.ConstValues.{Appends, items_text, keyed_text, value_text};
ghost use Rattle.gql_text_values.specs.SameValue.{plain, plain_values, plain_entries, same, same_values, same_entries};
ghost use Rattle.gql_text_values.specs.EqualValues.{same_equivalence};

use gql_text_lexer::{Name, Number, OutOfMemory, Text, quote};
use sqlite_items::Items;
use std::alloc::Global;

/// A value without variables. An object is the list of its entries in their order, which may repeat a key. Two values
/// are equal where they are of the same kind with the same content; two objects, where they have the same entries in
/// the same order.
#[derive(Debug, Drop)]
pub enum ConstValue {
    /// `null`: section 2.9.5.
    Null,
    /// A whole number: section 2.9.1.
    Number(Number),
    /// A text: section 2.9.4.
    String(Text),
    /// `true` or `false`: section 2.9.3.
    Boolean(bool),
    /// The name of an enum value: section 2.9.6.
    Enum(Name),
    /// `[a, b]`: section 2.9.7.
    List(Items<ConstValue>),
    /// `{k: v, l: w}`: section 2.9.8.
    Object(Items<(Name, ConstValue)>),
}

impl ConstValue {
    /// The value as it is written: `null`, a decimal number, a quoted string (as `quote` writes it), `true` or `false`,
    /// the name of an enum value, `[a, b]`, or `{k: v, l: w}` with each entry in its order.
    pub fn text(&self, alloc: Global) -> Result<String, OutOfMemory>
        ensures { IfOk result (λ s. string_bytes s ≡ value_text self.now) }
    {
        let mut out = String::new(alloc);
        self.write(alloc, &mut out)?;
        Ok(out)
    }

    /// An equal value.
    #[cycle(clone)]
    pub fn try_clone(&self, alloc: Global) -> Result<ConstValue, OutOfMemory>
        ensures { IfOk result (λ copy. copy ≡ self.now) }
    {
        Ok(match self {
            ConstValue::Null => ConstValue::Null,
            ConstValue::Number(number) => ConstValue::Number(*number),
            ConstValue::String(text) => ConstValue::String(text.try_clone(alloc)?),
            ConstValue::Boolean(b) => ConstValue::Boolean(*b),
            ConstValue::Enum(name) => ConstValue::Enum(name.try_clone(alloc)?),
            ConstValue::List(items) => ConstValue::List(clone_items(alloc, items.as_slice())?),
            ConstValue::Object(entries) => {
                ConstValue::Object(clone_entries(alloc, entries.as_slice())?)
            }
        })
    }

    /// Whether both are of the same kind with the same content.
    #[cycle(same)]
    fn is_same(&self, other: &ConstValue) -> bool
        ensures { result ≡ same (plain self.now) (plain other.now) }
    {
        match (self, other) {
            (ConstValue::Null, ConstValue::Null) => true,
            (ConstValue::Number(a), ConstValue::Number(b)) => a == b,
            (ConstValue::String(a), ConstValue::String(b)) => a == b,
            (ConstValue::Boolean(a), ConstValue::Boolean(b)) => a == b,
            (ConstValue::Enum(a), ConstValue::Enum(b)) => a == b,
            (ConstValue::List(a), ConstValue::List(b)) => same_items(a.as_slice(), b.as_slice()),
            (ConstValue::Object(a), ConstValue::Object(b)) => same_entries(
                a.as_slice(),
                b.as_slice(),
            ),
            _ => false,
        }
    }

    /// Writes the value at the end.
    #[cycle(write)]
    fn write(&self, alloc: Global, out: &mut String) -> Result<(), OutOfMemory>
        ensures { OnOk result (Appends out.old out.new (value_text self.now)) }
    {
        match self {
            ConstValue::Null => out.push_str("null")?,
            ConstValue::Number(number) => out.push_str(format!(in alloc; "{number}")?.as_str())?,
            ConstValue::String(text) => out.push_str(quote(alloc, text.as_str())?.as_str())?,
            ConstValue::Boolean(b) => out.push_str(if *b { "true" } else { "false" })?,
            ConstValue::Enum(name) => out.push_str(name.as_str())?,
            ConstValue::List(items) => {
                out.push_str("[")?;
                write_items(alloc, out, items.as_slice())?;
                out.push_str("]")?;
            }
            ConstValue::Object(entries) => {
                out.push_str("{")?;
                write_entries(alloc, out, entries.as_slice())?;
                out.push_str("}")?;
            }
        }
        Ok(())
    }
}

/// Writes the items at the end, with a comma and a space between them.
#[cycle(write)]
fn write_items(alloc: Global, out: &mut String, items: &[ConstValue]) -> Result<(), OutOfMemory>
    ensures { OnOk result (Appends out.old out.new (items_text items.now)) }
{
    let Some((first, more)) = items.split_first() else {
        return Ok(());
    };
    first.write(alloc, out)?;
    for item in more {
        out.push_str(", ")?;
        item.write(alloc, out)?;
    }
    Ok(())
}

/// Writes the key of an entry at the end.
fn write_key(out: &mut String, key: &Name) -> Result<(), OutOfMemory>
    ensures { OnOk result (Appends out.old out.new (key.now ++ codes ": ")) }
{
    out.push_str(key.as_str())?;
    out.push_str(": ")?;
    Ok(())
}

/// Writes the entries at the end, with a comma and a space between them.
#[cycle(write)]
fn write_entries(
    alloc: Global,
    out: &mut String,
    entries: &[(Name, ConstValue)],
) -> Result<(), OutOfMemory>
    ensures { OnOk result (Appends out.old out.new (keyed_text entries.now)) }
{
    let Some((first, more)) = entries.split_first() else {
        return Ok(());
    };
    write_key(out, &first.0)?;
    first.1.write(alloc, out)?;
    for entry in more {
        out.push_str(", ")?;
        write_key(out, &entry.0)?;
        entry.1.write(alloc, out)?;
    }
    Ok(())
}

/// Equal items.
#[cycle(clone)]
fn clone_items(alloc: Global, items: &[ConstValue]) -> Result<Items<ConstValue>, OutOfMemory>
    ensures { IfOk result (λ copies. copies ≡ items.now) }
{
    let mut copies = Items::new(alloc);
    for item in items {
        copies.push(item.try_clone(alloc)?)?;
    }
    Ok(copies)
}

/// Equal entries.
#[cycle(clone)]
fn clone_entries(
    alloc: Global,
    entries: &[(Name, ConstValue)],
) -> Result<Items<(Name, ConstValue)>, OutOfMemory>
    ensures { IfOk result (λ copies. copies ≡ entries.now) }
{
    let mut copies = Items::new(alloc);
    for entry in entries {
        copies.push((entry.0.try_clone(alloc)?, entry.1.try_clone(alloc)?))?;
    }
    Ok(copies)
}

/// Whether the items are equal, one by one.
#[cycle(same)]
fn same_items(items: &[ConstValue], others: &[ConstValue]) -> bool
    ensures { result ≡ same_values (plain_values items.now) (plain_values others.now) }
{
    let mut rest = others;
    for item in items {
        let Some((other, more)) = rest.split_first() else {
            return false;
        };
        if !item.is_same(other) {
            return false;
        }
        rest = more;
    }
    rest.is_empty()
}

/// Whether the entries are equal, one by one.
#[cycle(same)]
fn same_entries(entries: &[(Name, ConstValue)], others: &[(Name, ConstValue)]) -> bool
    ensures { result ≡ same_entries (plain_entries entries.now) (plain_entries others.now) }
{
    let mut rest = others;
    for entry in entries {
        let Some((other, more)) = rest.split_first() else {
            return false;
        };
        if entry.0 != other.0 || !entry.1.is_same(&other.1) {
            return false;
        }
        rest = more;
    }
    rest.is_empty()
}

impl PartialEq for ConstValue {
    ghost eq = { λ a b. same (plain a) (plain b) };

    ghost laws = { partial_equiv_from_equiv (on_equiv plain same_equivalence) };

    fn eq(&self, other: &ConstValue) -> bool
        ensures tested { result ≡ same (plain self.now) (plain other.now) }
        ensures equal { IsTrue result ↔ (self.now ≡ other.now) }
    {
        self.is_same(other)
    }
}

impl Eq for ConstValue {
    ghost laws = { on_equiv plain same_equivalence };
}
