//! Type references and values: sections 2.9 and 2.11 of the GraphQL specification, October 2021.

use crate::asserting::{got, printed, same};
use gql_text::{ConstValue, Name, Number, Text, TypeRef};
use sqlite_items::{Boxed, Items};
use std::alloc::Global;
use std::process::Abort;

/// The type reference of a form over a name.
fn reference(rt: &impl Abort, alloc: Global, name: &str, form: &str) -> TypeRef {
    let made = match form {
        "N!" => TypeRef::named_nn(alloc, name),
        "[N]" => TypeRef::named_list(alloc, name),
        "[N!]" => TypeRef::named_nn_list(alloc, name),
        "[N]!" => TypeRef::named_list_nn(alloc, name),
        "[N!]!" => TypeRef::named_nn_list_nn(alloc, name),
        "[[N]]" => return nested(rt, alloc, name),
        _ => TypeRef::named(alloc, name),
    };
    got(rt, made)
}

/// A list of lists.
fn nested(rt: &impl Abort, alloc: Global, name: &str) -> TypeRef {
    let inner = got(rt, TypeRef::named_list(alloc, name));
    TypeRef::List(got(rt, Boxed::new(alloc, inner)))
}

#[test]
fn type_references_are_printed_so(rt: HostRuntime) {
    let rows = [
        ("N", "MyObj"),
        ("N!", "MyObj!"),
        ("[N]", "[MyObj]"),
        ("[N!]", "[MyObj!]"),
        ("[N]!", "[MyObj]!"),
        ("[N!]!", "[MyObj!]!"),
        ("[[N]]", "[[MyObj]]"),
    ];
    for (form, want) in rows {
        let ty = reference(&rt, rt.alloc(), "MyObj", form);
        same(&rt, printed(&rt, rt.alloc(), &ty).as_str(), want, form);
    }
}

#[test]
fn system_scalars_have_these_names(rt: HostRuntime) {
    let names = [
        (TypeRef::INT, "Int"),
        (TypeRef::FLOAT, "Float"),
        (TypeRef::STRING, "String"),
        (TypeRef::BOOLEAN, "Boolean"),
        (TypeRef::ID, "ID"),
        (TypeRef::UPLOAD, "Upload"),
    ];
    for (name, want) in names {
        same(&rt, name, want, want);
    }
}

fn name(rt: &impl Abort, alloc: Global, text: &str) -> Name {
    got(rt, Name::new(alloc, text))
}

fn string(rt: &impl Abort, alloc: Global, text: &str) -> ConstValue {
    ConstValue::String(got(rt, Text::new(alloc, text)))
}

/// The list of a number, null, an enum value and a string.
fn list(rt: &impl Abort, alloc: Global) -> ConstValue {
    let mut items = Items::new(alloc);
    got(rt, items.push(ConstValue::Number(Number::from_i64(1))));
    got(rt, items.push(ConstValue::Null));
    got(rt, items.push(ConstValue::Enum(name(rt, alloc, "E"))));
    got(rt, items.push(string(rt, alloc, "x")));
    ConstValue::List(items)
}

/// An object of the list and an empty object.
pub(crate) fn object(rt: &impl Abort, alloc: Global) -> ConstValue {
    let mut entries = Items::new(alloc);
    got(rt, entries.push((name(rt, alloc, "a"), list(rt, alloc))));
    let empty = ConstValue::Object(Items::new(alloc));
    got(rt, entries.push((name(rt, alloc, "b"), empty)));
    ConstValue::Object(entries)
}

/// Asserts that a value is written so.
fn is_written(rt: &impl Abort, alloc: Global, value: &ConstValue, want: &str) {
    same(rt, got(rt, value.text(alloc)).as_str(), want, "a value");
}

#[test]
fn values_are_written_so(rt: HostRuntime) {
    let alloc = rt.alloc();
    let whole = object(&rt, alloc);
    is_written(&rt, alloc, &whole, "{a: [1, null, E, \"x\"], b: {}}");
    is_written(&rt, alloc, &ConstValue::List(Items::new(alloc)), "[]");
    is_written(&rt, alloc, &ConstValue::Boolean(true), "true");
    is_written(&rt, alloc, &ConstValue::Boolean(false), "false");
    let escaped = string(&rt, alloc, "\"\\\n\u{1}");
    is_written(&rt, alloc, &escaped, "\"\\\"\\\\\\n\\u0001\"");
}

#[test]
fn numbers_are_written_so(rt: HostRuntime) {
    let alloc = rt.alloc();
    let least = ConstValue::Number(Number::from_i64(i64::MIN));
    is_written(&rt, alloc, &least, "-9223372036854775808");
    let greatest = ConstValue::Number(Number::from_u64(u64::MAX));
    is_written(&rt, alloc, &greatest, "18446744073709551615");
}
