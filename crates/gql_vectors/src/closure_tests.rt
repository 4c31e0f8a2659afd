//! What a registry is asked, and what is made in it on demand.

use crate::asserting::{add_word, got, same};
use gql_dynamic::{Field, Object, Scalar, TypeRef};
use gql_merged::{EmptyMutation, EmptySubscription, MergedObject, Upload};
use gql_registry::{
    Context, CreatesTypes, Everything, InputType, MetaType, MetaTypeId, OutputType, Registry,
    RegistryError, SubscriptionType,
};
use std::alloc::Global;
use std::process::Abort;

/// The context in which no rule holds.
struct Nothing;

impl Context for Nothing {
    ghost use Rattle.std.specs.Prelude.{false};

    ghost rules = { λ _ _. false };

    fn holds(&self, _rule: u32) -> bool {
        false
    }
}

/// Shows a scalar where rule 7 holds.
fn hide(ty: &mut MetaType) {
    if let MetaType::Scalar { visible, .. } = ty {
        *visible = Some(7);
    }
}

/// Puts the scalars `A`, which rule 7 shows, and `B` into a registry.
fn add_scalars(rt: &impl Abort, registry: &mut Registry) {
    let alloc = registry.allocator();
    let mut first = got(rt, got(rt, Scalar::new(alloc, "A")).meta(alloc));
    hide(&mut first);
    got(rt, registry.insert_type(first));
    let second = got(rt, got(rt, Scalar::new(alloc, "B")).meta(alloc));
    got(rt, registry.insert_type(second));
}

/// Puts `type Query { v: A }`, the query root, and these scalars into a registry.
fn fill(rt: &impl Abort, registry: &mut Registry) {
    let alloc = registry.allocator();
    let field = got(
        rt,
        Field::new(alloc, "v", got(rt, TypeRef::named(alloc, "A"))),
    );
    let query = got(rt, got(rt, Object::new(alloc, "Query")).field(field));
    let query = got(rt, query.meta(alloc));
    got(rt, registry.insert_type(query));
    got(rt, registry.set_query_type("Query"));
    add_scalars(rt, registry);
}

/// The names of the types that a reader may see, each with a space after it.
fn visible<C: Context>(rt: &impl Abort, registry: &Registry, ctx: &C) -> String {
    let names = got(rt, registry.find_visible_types(ctx));
    let mut out = String::new(registry.allocator());
    for name in names.iter() {
        add_word(rt, &mut out, name.as_str());
    }
    out
}

/// The names of the types of a registry, each with a space after it.
fn types(rt: &impl Abort, registry: &Registry) -> String {
    let mut out = String::new(registry.allocator());
    for name in registry.types().keys() {
        add_word(rt, &mut out, name.as_str());
    }
    out
}

/// All names of a registry, each with a space after it.
fn names(rt: &impl Abort, registry: &Registry) -> String {
    let mut out = String::new(registry.allocator());
    for name in got(rt, registry.names()) {
        add_word(rt, &mut out, name.as_str());
    }
    out
}

#[test]
fn a_registry_is_asked(rt: HostRuntime) {
    let mut registry = Registry::new(rt.alloc());
    fill(&rt, &mut registry);
    same(
        &rt,
        names(&rt, &registry).as_str(),
        "A B Query v ",
        "the names",
    );
    same(
        &rt,
        visible(&rt, &registry, &Everything).as_str(),
        "A Query ",
        "every rule",
    );
    same(
        &rt,
        visible(&rt, &registry, &Nothing).as_str(),
        "Query ",
        "no rule",
    );
    assert!(rt; !registry.has_entities());
    assert!(rt; registry.concrete_type_by_name("[A!]!").is_some());
    assert!(rt; registry.concrete_type_by_name("C").is_none());
}

#[test]
fn types_that_nothing_leads_to_are_removed(rt: HostRuntime) {
    let mut registry = Registry::new(rt.alloc());
    fill(&rt, &mut registry);
    got(&rt, registry.add_implements("Query", "I"));
    got(&rt, registry.add_implements("Query", "I"));
    got(&rt, registry.add_keys("B", "k"));
    same(
        &rt,
        types(&rt, &registry).as_str(),
        "A B Query ",
        "a scalar gets no key",
    );
    assert!(rt; !registry.has_entities());
    got(&rt, registry.remove_unused_types());
    same(&rt, types(&rt, &registry).as_str(), "A Query ", "the types");
    let names = registry.implements_of("Query");
    assert!(rt; names.is_some_and(|names| names.len() == 1 && names.contains("I")));
}

#[test]
fn a_type_with_a_key_is_kept(rt: HostRuntime) {
    let alloc = rt.alloc();
    let mut registry = Registry::new(alloc);
    fill(&rt, &mut registry);
    let object = got(&rt, got(&rt, Object::new(alloc, "C")).meta(alloc));
    got(&rt, registry.insert_type(object));
    got(&rt, registry.add_keys("C", "id"));
    got(&rt, registry.remove_unused_types());
    same(
        &rt,
        types(&rt, &registry).as_str(),
        "A C Query ",
        "the types",
    );
    assert!(rt; registry.has_entities());
}

/// The description of a scalar.
fn description(ty: &MetaType) -> &str {
    match ty {
        MetaType::Scalar {
            description: Some(text),
            ..
        } => text.as_str(),
        _ => "",
    }
}

#[test]
fn a_type_is_described(rt: HostRuntime) {
    let mut registry = Registry::new(rt.alloc());
    fill(&rt, &mut registry);
    got(&rt, registry.set_description("A", "d"));
    let reference = got(&rt, TypeRef::named_nn(rt.alloc(), "A"));
    match registry.concrete_type_by_parsed_type(&reference) {
        Some(ty) => same(&rt, description(ty), "d", "the description"),
        None => panic!(rt; "no type"),
    }
}

/// An object of this name.
fn make(alloc: Global, name: &str) -> Result<MetaType, RegistryError> {
    let object = Object::new(alloc, name)?.meta(alloc)?;
    Ok(object)
}

#[test]
fn types_are_made_where_they_are_missing(rt: HostRuntime) {
    let alloc = rt.alloc();
    let mut registry = Registry::new(alloc);
    let made = registry.create_output_type("T", MetaTypeId::Object, |_registry: &mut Registry| {
        make(alloc, "T")
    });
    assert!(rt; made.is_ok());
    let again = registry.create_input_type(
        "T",
        MetaTypeId::InputObject,
        |_registry: &mut Registry| { make(alloc, "T") },
    );
    assert!(rt; matches!(again, Err(RegistryError::KindConflict { .. })));
    let other = registry.create_subscription_type("S", |_registry: &mut Registry| make(alloc, "U"));
    assert!(rt; matches!(other, Err(RegistryError::NameMismatch { .. })));
    same(&rt, types(&rt, &registry).as_str(), "T ", "the types");
}

/// A type that stands for an output type, through its bound.
fn output<T: OutputType>(rt: &impl Abort, registry: &mut Registry) -> MetaType {
    got(rt, registry.create_fake_output_type::<T>())
}

/// A type that stands for an input type, through its bound.
fn input<T: InputType>(rt: &impl Abort, registry: &mut Registry) -> MetaType {
    got(rt, registry.create_fake_input_type::<T>())
}

/// A type that stands for event streams, through its bound.
fn subscription<T: SubscriptionType>(rt: &impl Abort, registry: &mut Registry) -> MetaType {
    got(rt, registry.create_fake_subscription_type::<T>())
}

#[test]
fn types_of_code_are_made_and_copied(rt: HostRuntime) {
    let mut registry = Registry::new(rt.alloc());
    let merged = output::<MergedObject<EmptyMutation, EmptyMutation>>(&rt, &mut registry);
    same(
        &rt,
        merged.name(),
        "EmptyMutation_EmptyMutation",
        "a merged object",
    );
    assert!(rt; merged.type_id() == MetaTypeId::Object);
    let upload = input::<Upload>(&rt, &mut registry);
    assert!(rt; upload.type_id() == MetaTypeId::Scalar);
    let events = subscription::<EmptySubscription>(&rt, &mut registry);
    assert!(rt; events.type_id() == MetaTypeId::Object);
    assert!(rt; events.fields().is_none_or(|fields| fields.is_empty()));
    assert!(rt; merged.fields().is_none_or(|fields| fields.is_empty()));
}
