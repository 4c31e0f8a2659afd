//! What registries hold after their calls.

use crate::asserting::got;
use gql_registry::Registry;

#[test]
fn what_every_schema_has_is_added(rt: HostRuntime) {
    let mut registry = Registry::new(rt.alloc());
    got(&rt, registry.add_system_types());
    got(&rt, registry.create_introspection_types());
    assert_eq!(rt; registry.types().len(), 13);
    assert_eq!(rt; registry.directives().len(), 5);
}

#[test]
fn names_are_recorded(rt: HostRuntime) {
    let mut registry = Registry::new(rt.alloc());
    got(&rt, registry.set_query_type("Query"));
    got(&rt, registry.set_mutation_type(Some("M")));
    got(&rt, registry.set_subscription_type(Some("S")));
    got(&rt, registry.add_implements("Query", "I"));
    got(&rt, registry.add_implements("Query", "I"));
    got(&rt, registry.add_possible_type("I", "Query"));
    let names = registry.implements_of("Query");
    assert!(rt; names.is_some_and(|names| names.len() == 1));
}
