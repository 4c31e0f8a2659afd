//! Options, views and canonical texts of registries and of directive definitions.

use crate::asserting::{debugged, got, same, text};
use gql_registry::{Deprecation, DirectiveLocation, MetaDirective, MetaInputValue, Registry};
use gql_sdl::{SDLExportOptions, directive_sdl, export_sdl, spell, view_of};
use indexmap::IndexMap;
use std::alloc::Global;
use std::process::Abort;

#[test]
fn options_are_off_at_first(rt: HostRuntime) {
    let want = "SDLExportOptions { sorted_fields: false, sorted_arguments: false, \
        sorted_enum_items: false, federation: false, prefer_single_line_descriptions: false, \
        include_specified_by: false, compose_directive: false, use_space_ident: false, \
        indent_width: 2 }";
    let options = SDLExportOptions::default();
    same(
        &rt,
        debugged(&rt, rt.alloc(), &options).as_str(),
        want,
        "options",
    );
}

/// A directive without arguments.
fn directive(
    rt: &impl Abort,
    alloc: Global,
    name: &str,
    locations: &[DirectiveLocation],
) -> MetaDirective {
    MetaDirective {
        name: text(rt, alloc, name),
        description: None,
        locations: got(rt, Vec::from_slice(alloc, locations)),
        args: IndexMap::new(alloc),
        is_repeatable: false,
        visible: None,
        composable: None,
    }
}

#[test]
fn a_repeatable_directive_says_so(rt: HostRuntime) {
    let alloc = rt.alloc();
    let locations = [DirectiveLocation::Object, DirectiveLocation::Interface];
    let rows = [
        (false, "directive @testDirective on OBJECT | INTERFACE"),
        (
            true,
            "directive @testDirective repeatable on OBJECT | INTERFACE",
        ),
    ];
    for (is_repeatable, want) in rows {
        let mut definition = directive(&rt, alloc, "testDirective", &locations);
        definition.is_repeatable = is_repeatable;
        let sdl = got(
            &rt,
            directive_sdl(alloc, &definition, SDLExportOptions::new()),
        );
        same(&rt, sdl.as_str(), want, "testDirective");
    }
}

/// An argument of the type `String`.
fn argument(
    rt: &impl Abort,
    alloc: Global,
    name: &str,
    default_value: Option<String>,
) -> MetaInputValue {
    MetaInputValue {
        name: text(rt, alloc, name),
        description: None,
        ty: text(rt, alloc, "String"),
        deprecation: Deprecation::NoDeprecated,
        default_value,
        visible: None,
        inaccessible: false,
        tags: Vec::new(alloc),
        is_secret: false,
        directive_invocations: Vec::new(alloc),
    }
}

/// Puts an argument of the type `String` to a directive.
fn add_argument(rt: &impl Abort, directive: &mut MetaDirective, argument: MetaInputValue) {
    let name = got(rt, argument.name.clone());
    got(rt, directive.args.insert(name, argument));
}

/// A directive of two arguments, one of which has a default.
fn with_arguments(rt: &impl Abort, alloc: Global, name: &str) -> MetaDirective {
    let locations = [
        DirectiveLocation::FieldDefinition,
        DirectiveLocation::Object,
    ];
    let mut definition = directive(rt, alloc, name, &locations);
    add_argument(rt, &mut definition, argument(rt, alloc, "a", None));
    let default_value = text(rt, alloc, "\"DEFAULT\"");
    let with_default = argument(rt, alloc, "b", Some(default_value));
    add_argument(rt, &mut definition, with_default);
    definition
}

/// Asserts that a registry and its view are printed so.
fn are_printed(rt: &impl Abort, alloc: Global, registry: &Registry, want: &str) {
    let sdl = got(rt, export_sdl(alloc, registry, SDLExportOptions::new()));
    same(rt, sdl.as_str(), want, "a registry");
    let view = got(rt, view_of(alloc, registry, SDLExportOptions::new()));
    let spelled = got(rt, spell(alloc, &view, SDLExportOptions::new()));
    same(rt, spelled.as_str(), want, "a view");
}

#[test]
fn a_registry_is_printed_so(rt: HostRuntime) {
    let mut registry = Registry::new(rt.alloc());
    got(&rt, registry.set_query_type("Query"));
    for name in ["d"] {
        let definition = with_arguments(&rt, rt.alloc(), name);
        got(&rt, registry.add_directive(definition));
    }
    let want = "directive @d(a: String, b: String = \"DEFAULT\") on FIELD_DEFINITION | OBJECT\n\
        schema {\n\tquery: Query\n}\n";
    are_printed(&rt, rt.alloc(), &registry, want);
}
