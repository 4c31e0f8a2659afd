//! Long chains of input objects, each of which needs the next.

use crate::asserting::{got, same};
use crate::check_tests::{QUERY, begun, first_cycle, sentence};
use gql_check::SchemaBuilder;
use gql_dynamic::{InputObject, InputValue, Type};
use gql_text::TypeRef;
use std::alloc::Global;
use std::process::Abort;

/// An input object of this name with fields of one type, which is not null.
fn input(rt: &impl Abort, alloc: Global, name: &str, fields: &[&str], needed: &str) -> Type {
    let mut object = got(rt, InputObject::new(alloc, name));
    for field in fields {
        let ty = got(rt, TypeRef::named_nn(alloc, needed));
        let field = got(rt, InputValue::new(alloc, field, ty));
        object = got(rt, object.field(field));
    }
    Type::from(object)
}

/// The name of an input object with this number.
fn numbered(rt: &impl Abort, alloc: Global, number: usize) -> String {
    got(rt, format!(in alloc; "I{number}"))
}

/// The input object with this number, whose fields need the one with another number.
fn link(rt: &impl Abort, alloc: Global, number: usize, fields: &[&str], next: usize) -> Type {
    let name = numbered(rt, alloc, number);
    let next = numbered(rt, alloc, next);
    input(rt, alloc, name.as_str(), fields, next.as_str())
}

/// A builder of input objects each of which needs the next, and the last one a type of this name.
fn chain(
    rt: &impl Abort,
    alloc: Global,
    links: usize,
    fields: &[&str],
    needed: &str,
) -> SchemaBuilder {
    let mut builder = begun(rt, alloc, &[QUERY]);
    for number in 0..links {
        builder = got(
            rt,
            builder.register(link(rt, alloc, number, fields, number + 1)),
        );
    }
    let name = numbered(rt, alloc, links);
    let last = input(rt, alloc, name.as_str(), &["c"], needed);
    got(rt, builder.register(last))
}

#[test]
fn a_long_chain_of_inputs_has_no_cycle(rt: HostRuntime) {
    let builder = chain(&rt, rt.alloc(), 99_999, &["b"], "Int");
    let sentence = sentence(&rt, rt.alloc(), builder.types());
    same(&rt, sentence.as_str(), "ok", "a chain");
}

#[test]
fn the_first_of_a_cycle_behind_a_chain_is_reported(rt: HostRuntime) {
    let builder = chain(&rt, rt.alloc(), 1_000, &["a", "b"], "I500");
    let first = first_cycle(&rt, rt.alloc(), builder.types());
    same(&rt, first.as_str(), "I500", "a chain");
}
