//! Schemas that are built in code, and the registries that are made of them.

use crate::asserting::{add_word, debugged, got, same};
use crate::rows::Reference::Named;
use crate::rows::{Member, Row, built};
use gql_check::{Registry, Schema, SchemaBuilder};
use gql_dynamic::{Field, Object};
use gql_registry::{MetaDirective, MetaType};
use gql_text::TypeRef;
use std::alloc::Global;
use std::process::Abort;

const V: Member = ("v", Named("Int"));

/// A builder with a query root of one field.
fn begun(rt: &impl Abort, alloc: Global) -> SchemaBuilder {
    let builder = got(rt, Schema::build(alloc, "Query", None, None));
    let query = built(rt, alloc, Row::Object("Query", &[V], &[]));
    got(rt, builder.register(query))
}

/// A schema of three objects that implement an interface.
fn implementers(rt: &impl Abort, alloc: Global) -> Schema {
    let mut builder = got(rt, Schema::build(alloc, "Query", None, None));
    for row in [
        Row::Object("Query", &[V], &["I"]),
        Row::Object("B", &[V], &["I"]),
        Row::Object("A", &[V], &["I"]),
        Row::Interface("I", &[V]),
    ] {
        builder = got(rt, builder.register(built(rt, alloc, row)));
    }
    got(rt, builder.finish())
}

/// The names of the possible types of a type.
fn possible_types(rt: &impl Abort, alloc: Global, ty: Option<&MetaType>) -> String {
    let mut out = String::new(alloc);
    if let Some(names) = ty.and_then(|ty| ty.possible_types()) {
        for name in names.iter() {
            add_word(rt, &mut out, name.as_str());
        }
    }
    out
}

#[test]
fn implementers_are_possible_types_in_the_order_of_registration(rt: HostRuntime) {
    let schema = implementers(&rt, rt.alloc());
    let interface = schema.registry().types().get("I");
    let names = possible_types(&rt, rt.alloc(), interface);
    same(&rt, names.as_str(), "Query B A ", "I");
}

/// The definition of a system directive.
fn directive(rt: &impl Abort, alloc: Global, name: &str) -> MetaDirective {
    let mut registry = Registry::new(alloc);
    got(rt, registry.add_system_types());
    match registry.directives().get(name) {
        Some(directive) => got(rt, directive.try_clone(alloc)),
        None => panic!(rt; "no directive"),
    }
}

/// Each directive of a registry, and whether it is repeatable.
fn directives(rt: &impl Abort, alloc: Global, registry: &Registry) -> String {
    let mut out = String::new(alloc);
    for directive in registry.directives().values() {
        add_word(rt, &mut out, directive.name.as_str());
        if directive.is_repeatable {
            add_word(rt, &mut out, "repeatable");
        }
    }
    out
}

/// The definition of `skip`, which may be used again in one place.
fn repeatable_skip(rt: &impl Abort, alloc: Global) -> MetaDirective {
    let mut skip = directive(rt, alloc, "skip");
    skip.is_repeatable = true;
    skip
}

/// A schema with a query root of one field, and a definition of `skip`.
fn with_skip(rt: &impl Abort, alloc: Global) -> Schema {
    let skip = repeatable_skip(rt, alloc);
    let builder = got(rt, begun(rt, alloc).directive(skip));
    got(rt, builder.finish())
}

#[test]
fn an_added_directive_takes_the_place_of_the_systems(rt: HostRuntime) {
    let schema = with_skip(&rt, rt.alloc());
    let told = directives(&rt, rt.alloc(), schema.registry());
    let want = "deprecated include oneOf skip repeatable specifiedBy ";
    same(&rt, told.as_str(), want, "the directives");
}

fn field(rt: &impl Abort, alloc: Global) -> Field {
    let ty = got(rt, TypeRef::named(alloc, "Int"));
    got(rt, Field::new(alloc, "a", ty))
}

/// An object with a field.
fn object(rt: &impl Abort, alloc: Global) -> Object {
    let object = got(rt, Object::new(alloc, "O"));
    got(rt, object.field(field(rt, alloc)))
}

#[test]
fn an_object_takes_a_field_once(rt: HostRuntime) {
    let alloc = rt.alloc();
    let again = object(&rt, alloc).field(field(&rt, alloc)).map(|_| ());
    let told = debugged(&rt, alloc, &again);
    same(&rt, told.as_str(), "Err(AlreadyExists(\"a\"))", "a");
}
