//! Each impl that is written by hand, through its bound.

use crate::asserting::{debugged, got, printed, same};
use crate::builders::type_ref;
use gql_registry::{CacheControl, Deprecation, IntrospectionMode};
use gql_text::{ConstValue, Name, NameError, Number, OutOfMemory, ReadError, Text, TypeRef};
use sqlite_items::Items;
use std::alloc::{AllocFailed, Global};
use std::fmt::Debug;
use std::hash::{DefaultHasher, Hash, Hasher};
use std::process::Abort;

fn are_equal<T: PartialEq>(a: &T, b: &T) -> bool {
    *a == *b
}

fn hash_of<T: Hash>(value: &T) -> u64 {
    let mut state = DefaultHasher::new();
    value.hash(&mut state);
    state.finish()
}

/// Whether two values are equal and have one hash.
fn are_alike<T: PartialEq + Hash>(a: &T, b: &T) -> bool {
    are_equal(a, b) && hash_of(a) == hash_of(b)
}

fn name(rt: &impl Abort, alloc: Global, text: &str) -> Name {
    got(rt, Name::new(alloc, text))
}

#[test]
fn a_name_equals_its_copy(rt: HostRuntime) {
    let name = name(&rt, rt.alloc(), "ab");
    let copy = got(&rt, name.try_clone(rt.alloc()));
    assert!(rt; are_alike(&name, &copy));
    let other = self::name(&rt, rt.alloc(), "aB");
    assert!(rt; !are_equal(&name, &other));
    let again = got(&rt, Name::from_valid(rt.alloc(), name.as_str()));
    assert!(rt; are_equal(&name, &again));
}

#[test]
fn a_text_equals_its_copy(rt: HostRuntime) {
    let text = got(&rt, Text::new(rt.alloc(), "a b"));
    let copy = got(&rt, text.try_clone(rt.alloc()));
    assert!(rt; are_alike(&text, &copy));
    let moved = Text::from_string(copy.into_string());
    assert!(rt; are_equal(&text, &moved));
}

#[test]
fn a_type_reference_equals_its_copy(rt: HostRuntime) {
    let ty = got(&rt, TypeRef::named_nn_list_nn(rt.alloc(), "A"));
    let copy = got(&rt, ty.try_clone(rt.alloc()));
    assert!(rt; are_alike(&ty, &copy));
    let other = got(&rt, TypeRef::named_nn_list(rt.alloc(), "A"));
    assert!(rt; !are_equal(&ty, &other));
}

/// The list of null and `true`.
fn list(rt: &impl Abort, alloc: Global) -> ConstValue {
    let mut items = Items::new(alloc);
    got(rt, items.push(ConstValue::Null));
    got(rt, items.push(ConstValue::Boolean(true)));
    ConstValue::List(items)
}

#[test]
fn a_value_equals_its_copy(rt: HostRuntime) {
    let value = list(&rt, rt.alloc());
    let copy = got(&rt, value.try_clone(rt.alloc()));
    assert!(rt; are_equal(&value, &copy));
    assert!(rt; !are_equal(&value, &ConstValue::Null));
}

#[test]
fn numbers_are_equal_by_their_values(rt: HostRuntime) {
    assert!(rt; are_equal(&Number::from_i64(7), &Number::from_u64(7)));
    assert!(rt; !are_equal(&Number::from_i64(i64::MIN), &Number::from_i64(i64::MAX)));
}

fn default_of<T: Default>() -> T {
    T::default()
}

#[test]
fn defaults_are_these(rt: HostRuntime) {
    let hint: CacheControl = default_of();
    assert!(rt;
        hint == CacheControl {
            public: true,
            max_age: 0
        }
    );
    let mode: IntrospectionMode = default_of();
    assert!(rt; mode == IntrospectionMode::Enabled);
    let deprecation: Deprecation = default_of();
    assert!(rt; !deprecation.is_deprecated());
}

/// How the error is printed that is made of a value which found no memory.
fn refused<E: From<AllocFailed<u8>> + Debug + Drop>(rt: &impl Abort, alloc: Global) -> String {
    debugged(rt, alloc, &E::from(AllocFailed { value: 1 }))
}

#[test]
fn a_value_without_memory_is_out_of_memory(rt: HostRuntime) {
    let want = "OutOfMemory";
    same(
        &rt,
        refused::<OutOfMemory>(&rt, rt.alloc()).as_str(),
        want,
        "OutOfMemory",
    );
    same(
        &rt,
        refused::<NameError>(&rt, rt.alloc()).as_str(),
        want,
        "NameError",
    );
    same(
        &rt,
        refused::<ReadError>(&rt, rt.alloc()).as_str(),
        want,
        "ReadError",
    );
    same(
        &rt,
        refused::<gql_dynamic::BuildError>(&rt, rt.alloc()).as_str(),
        want,
        "BuildError",
    );
    same(
        &rt,
        refused::<gql_dynamic::SchemaError>(&rt, rt.alloc()).as_str(),
        want,
        "SchemaError",
    );
}

#[test]
fn refusals_of_builders_are_printed_so(rt: HostRuntime) {
    let error = gql_dynamic::BuildError::AlreadyExists(crate::asserting::text(
        &rt,
        rt.alloc(),
        "a",
    ));
    same(
        &rt,
        printed(&rt, rt.alloc(), &error).as_str(),
        "`a` already exists",
        "a repeated name",
    );
    same(
        &rt,
        printed(&rt, rt.alloc(), &NameError::NotAName).as_str(),
        "not a name",
        "no name",
    );
}
