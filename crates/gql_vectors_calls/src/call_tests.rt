//! Each call that takes memory, with ample memory; copies; and the validators that registered scalars keep.

use crate::asserting::{add_word, debugged, got, printed, same};
use crate::builders::{
    directive, enum_item, enumeration, field, input_object, input_value, interface, is_number,
    object, scalar, subscription, subscription_field, union,
};
use gql_dynamic::{Directive, ScalarValidator, SchemaError, Type, to_meta_directive_invocation};
use gql_registry::{
    ConstValue, Deprecation, MetaDirective, MetaDirectiveInvocation, MetaType, Registry,
};
use gql_text::Number;
use std::alloc::Global;
use std::process::Abort;

/// A use of a directive as it is written.
fn written(rt: &impl Abort, alloc: Global, invocation: &MetaDirectiveInvocation) -> String {
    got(rt, invocation.sdl(alloc))
}

/// The invocation of a directive, through the bound.
fn converted<T: From<Directive>>(directive: Directive) -> T {
    T::from(directive)
}

const USE: &str = "@testDirective(int_value: 1, str_value: \"abc\")";

#[test]
fn a_use_of_a_directive_is_converted_and_copied(rt: HostRuntime) {
    let alloc = rt.alloc();
    let copy = got(&rt, directive(&rt, alloc).try_clone(alloc));
    let invocation: MetaDirectiveInvocation = converted(copy);
    same(&rt, written(&rt, alloc, &invocation).as_str(), USE, "a use");
    let copy = got(&rt, invocation.try_clone(alloc));
    same(&rt, written(&rt, alloc, &copy).as_str(), USE, "a copy");
}

#[test]
fn a_use_of_a_directive_is_written(rt: HostRuntime) {
    let alloc = rt.alloc();
    let invocation = got(&rt, directive(&rt, alloc).meta(alloc));
    same(&rt, written(&rt, alloc, &invocation).as_str(), USE, "a use");
}

#[test]
fn uses_of_directives_are_converted_together(rt: HostRuntime) {
    let alloc = rt.alloc();
    let mut directives = Vec::new(alloc);
    got(&rt, directives.push(directive(&rt, alloc)));
    let invocations = got(&rt, to_meta_directive_invocation(alloc, directives));
    assert_eq!(rt; invocations.len(), 1);
    same(
        &rt,
        written(&rt, alloc, &invocations[0]).as_str(),
        USE,
        "a use",
    );
}

#[test]
fn a_registered_part_is_copied(rt: HostRuntime) {
    let alloc = rt.alloc();
    let value = got(&rt, enum_item(&rt, alloc, "A").meta(alloc));
    let copy = got(&rt, value.try_clone(alloc));
    same(&rt, copy.name.as_str(), "A", "an enum value");
    let value = got(&rt, input_value(&rt, alloc).meta(alloc));
    let copy = got(&rt, value.try_clone(alloc));
    same(&rt, copy.name.as_str(), "a", "an input value");
}

#[test]
fn a_registered_field_is_copied(rt: HostRuntime) {
    let alloc = rt.alloc();
    let meta = got(&rt, field(&rt, alloc).meta(alloc));
    let copy = got(&rt, meta.try_clone(alloc));
    same(&rt, copy.name.as_str(), "f", "a field");
    let meta = got(&rt, subscription_field(&rt, alloc).meta(alloc));
    same(&rt, meta.name.as_str(), "f", "a field of a subscription");
}

/// Asserts that a type has this name.
fn is_named(rt: &impl Abort, ty: &MetaType, want: &str) {
    same(rt, ty.name(), want, "a type");
}

#[test]
fn builders_answer_the_types_that_they_stand_for(rt: HostRuntime) {
    let alloc = rt.alloc();
    is_named(&rt, &got(&rt, scalar(&rt, alloc).meta(alloc)), "S");
    is_named(&rt, &got(&rt, object(&rt, alloc).meta(alloc)), "O");
    is_named(&rt, &got(&rt, interface(&rt, alloc).meta(alloc)), "I");
    is_named(&rt, &got(&rt, union(&rt, alloc).meta(alloc)), "U");
    is_named(&rt, &got(&rt, enumeration(&rt, alloc).meta(alloc)), "E");
    is_named(&rt, &got(&rt, input_object(&rt, alloc).meta(alloc)), "P");
    is_named(&rt, &got(&rt, subscription(&rt, alloc).meta(alloc)), "T");
}

/// Adds a type to a registry.
fn register(rt: &impl Abort, registry: &mut Registry, ty: Type) {
    got(rt, ty.register(registry));
}

/// A registry of types of all kinds.
fn registered(rt: &impl Abort, alloc: Global) -> Registry {
    let mut registry = Registry::new(alloc);
    register(rt, &mut registry, Type::from(scalar(rt, alloc)));
    register(rt, &mut registry, Type::from(object(rt, alloc)));
    register(rt, &mut registry, Type::from(interface(rt, alloc)));
    register(rt, &mut registry, Type::from(union(rt, alloc)));
    register(rt, &mut registry, Type::from(enumeration(rt, alloc)));
    register(rt, &mut registry, Type::from(input_object(rt, alloc)));
    register(rt, &mut registry, Type::from(subscription(rt, alloc)));
    register(rt, &mut registry, Type::Upload);
    registry
}

/// The name and the kind of a copy of a type.
fn copied(rt: &impl Abort, alloc: Global, ty: &MetaType, out: &mut String) {
    let copy = got(rt, ty.try_clone(alloc));
    add_word(rt, out, copy.name());
    add_word(rt, out, printed(rt, alloc, &copy.type_id()).as_str());
}

#[test]
fn types_of_all_kinds_are_registered_and_copied(rt: HostRuntime) {
    let registry = registered(&rt, rt.alloc());
    let mut out = String::new(rt.alloc());
    for ty in registry.types().values() {
        copied(&rt, rt.alloc(), ty, &mut out);
    }
    same(
        &rt,
        out.as_str(),
        "E Enum I Interface O Object P InputObject S Scalar T Object U Union Upload Scalar ",
        "the registry",
    );
}

fn one() -> ConstValue {
    ConstValue::Number(Number::from_i64(1))
}

/// Whether the validator of a scalar accepts numbers alone.
fn accepts_numbers(ty: &MetaType) -> bool {
    match ty {
        MetaType::Scalar {
            is_valid: Some(validator),
            ..
        } => validator.check(&one()) && !validator.check(&ConstValue::Null),
        _ => false,
    }
}

#[test]
fn a_registered_scalar_keeps_its_validator(rt: HostRuntime) {
    let mut registry = Registry::new(rt.alloc());
    register(&rt, &mut registry, Type::from(scalar(&rt, rt.alloc())));
    match registry.types().get("S") {
        Some(ty) => {
            assert!(rt; accepts_numbers(ty));
            let copy = got(&rt, ty.try_clone(rt.alloc()));
            assert!(rt; accepts_numbers(&copy));
        }
        None => panic!(rt; "the scalar is not registered"),
    }
}

#[test]
fn a_scalar_asks_its_validator(rt: HostRuntime) {
    let scalar = scalar(&rt, rt.alloc());
    assert!(rt; scalar.validate(&one()));
    assert!(rt; !scalar.validate(&ConstValue::Null));
    let validator = ScalarValidator::new(is_number);
    assert!(rt; validator.check(&one()));
    assert!(rt; !validator.check(&ConstValue::Null));
}

#[test]
fn a_scalar_is_printed_without_its_validator(rt: HostRuntime) {
    let scalar = got(&rt, gql_dynamic::Scalar::new(rt.alloc(), "S"));
    let scalar = scalar.validator(ScalarValidator::new(is_number));
    same(
        &rt,
        debugged(&rt, rt.alloc(), &scalar).as_str(),
        "Scalar { name: \"S\", description: None, specified_by_url: None, inaccessible: false, tags: [], directives: [] }",
        "a scalar",
    );
}

#[test]
fn a_deprecation_is_copied(rt: HostRuntime) {
    let copy = got(&rt, Deprecation::NoDeprecated.try_clone(rt.alloc()));
    assert!(rt; !copy.is_deprecated());
}

/// A copy of the definition of a system directive.
fn copied_directive(rt: &impl Abort, alloc: Global, registry: &Registry) -> MetaDirective {
    match registry.directives().get("skip") {
        Some(skip) => got(rt, skip.try_clone(alloc)),
        None => panic!(rt; "no directive"),
    }
}

#[test]
fn a_directive_is_copied(rt: HostRuntime) {
    let mut registry = Registry::new(rt.alloc());
    got(&rt, registry.add_system_types());
    let copy = copied_directive(&rt, rt.alloc(), &registry);
    same(&rt, copy.name.as_str(), "skip", "a directive");
}

#[test]
fn want_of_memory_has_a_sentence(rt: HostRuntime) {
    let sentence = got(&rt, SchemaError::OutOfMemory.message(rt.alloc()));
    same(&rt, sentence.as_str(), "out of memory", "out of memory");
}
