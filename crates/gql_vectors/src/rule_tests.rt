//! The rules of a schema, each with the sentence that reports it: section 3 of the GraphQL specification, October 2021.

use crate::program_tests::is_refused;
use crate::publish_tests::is_told;
use std::alloc::Global;
use std::process::Abort;

/// Asserts that the library and the program refuse each document with its sentence.
fn are_refused(rt: &impl Abort, alloc: Global, cases: &[(&str, &str)]) {
    for (document, sentence) in cases {
        is_told(rt, alloc, document, sentence);
        is_refused(rt, alloc, document, sentence);
    }
}

const NAMES: [(&str, &str); 11] = [
    ("scalar Int type Query{v:X}", "Type \"Int\" already exists"),
    ("scalar A", "Type \"Query\" not found"),
    (
        "schema{query:Query mutation:M} type Query{v:Int}",
        "Type \"M\" not found",
    ),
    ("type Query{v:X}", "Type \"X\" not found"),
    ("type Query{v(a:X):Int}", "Type \"X\" not found"),
    ("type Query implements X{v:Int}", "Type \"X\" not found"),
    ("type Query{v:Int} interface I{v:X}", "Type \"X\" not found"),
    (
        "type Query{v:Int} type Subscription{v:X}",
        "Type \"X\" not found",
    ),
    ("type Query{v:Int} input A{a:X}", "Type \"X\" not found"),
    ("type Query{v:Int} union U=X", "Type \"X\" not found"),
    ("type Query implements Y{v:X}", "Type \"X\" not found"),
];

#[test]
fn names_exist_and_are_not_those_of_system_scalars(rt: HostRuntime) {
    are_refused(&rt, rt.alloc(), &NAMES);
}

const KINDS: [(&str, &str); 10] = [
    ("enum Query{A}", "The query root must be an object"),
    (
        "schema{query:Query mutation:E} type Query{v:Int} enum E{A}",
        "The mutation root must be an object",
    ),
    (
        "schema{query:Query subscription:E} type Query{v:Int} enum E{A}",
        "The subscription root must be a subscription object",
    ),
    (
        "type Query",
        "Object \"Query\" must define one or more fields",
    ),
    (
        "type Query{__v:Int}",
        "Field \"Query.__v\" must not have a name which begins with the characters \"__\" (two underscores)",
    ),
    (
        "input In{a:Int} type Query{v:In}",
        "Field \"Query.v\" must return a output type",
    ),
    (
        "type Query{v(__a:Int):Int}",
        "Argument \"Query.v.__a\" must not have a name which begins with the characters \"__\" (two underscores)",
    ),
    (
        "type Query{v(a:Query):Int}",
        "Argument \"Query.v.a\" must accept a input type",
    ),
    (
        "enum E{A} type Query implements E{v:Int}",
        "Type \"E\" is not interface",
    ),
    (
        "union U=E enum E{A} type Query{v:Int}",
        "Member \"E\" of union \"U\" is not an object",
    ),
];

#[test]
fn roots_objects_and_unions_keep_their_rules(rt: HostRuntime) {
    are_refused(&rt, rt.alloc(), &KINDS);
}

const IMPLEMENTATIONS: [(&str, &str); 10] = [
    (
        "interface I{w:Int} type Query implements I{v:Int}",
        "Object \"Query\" requires field \"w\" defined by interface \"I\"",
    ),
    (
        "type Query{v:Int} interface I{w:Int} interface J implements I{v:Int}",
        "Interface \"J\" requires field \"w\" defined by interface \"I\"",
    ),
    (
        "interface I{v(a:Int!):Int} type Query implements I{v:Int}",
        "Field \"Query.v\" requires argument \"a\" defined by interface \"I.v\"",
    ),
    (
        "interface N{f(a:Int):Int} type Query implements N{f(a:Int!):Int}",
        "Argument \"N.f.a\" is not sub-type of \"Query.f.a\"",
    ),
    (
        "interface N{id:Int!} type Query implements N{id:Int}",
        "Field \"Query.id\" is not sub-type of \"N.id\"",
    ),
    (
        "interface N{v:Int} type Query implements N{v:[Int!]!}",
        "Field \"Query.v\" is not sub-type of \"N.v\"",
    ),
    (
        "type Query{v:Int} interface I implements I{__v:Int}",
        "Field \"I.__v\" must not have a name which begins with the characters \"__\" (two underscores)",
    ),
    (
        "type Query{v:Int} interface I implements I{v:Int}",
        "Interface \"I\" may not implement itself",
    ),
    (
        "type Query{v:Int} interface I implements Int{v:Int __w:Int}",
        "Type \"Int\" is not interface",
    ),
    (
        "type Query{v:Int} interface I implements I{v:Int __w:Int}",
        "Interface \"I\" may not implement itself",
    ),
];

#[test]
fn types_implement_what_they_declare(rt: HostRuntime) {
    are_refused(&rt, rt.alloc(), &IMPLEMENTATIONS);
}

const INPUTS: [(&str, &str); 6] = [
    (
        "type Query{v:Int} input A{__a:Int}",
        "Field \"A.__a\" must not have a name which begins with the characters \"__\" (two underscores)",
    ),
    (
        "type Query{v:Int} input A{a:Query}",
        "Field \"A.a\" must accept a input type",
    ),
    (
        "input MyInput @oneOf{a:Int b:Int!} type Query{v(i:MyInput):Int}",
        "Field \"MyInput.b\" must be nullable",
    ),
    (
        "input MyInput @oneOf{a:Int b:Int=10} type Query{v(i:MyInput):Int}",
        "Field \"MyInput.b\" must not have a default value",
    ),
    (
        "input A{b:B!} input B{a:A!} type Query{v:Int}",
        "\"A\" references itself either directly or through referenced Input Objects, at least one of the fields in the chain of references must be either a nullable or a List type.",
    ),
    (
        "input A{b:B!} input B{c:C!} input C{b:B!} type Query{v:Int}",
        "\"B\" references itself either directly or through referenced Input Objects, at least one of the fields in the chain of references must be either a nullable or a List type.",
    ),
];

#[test]
fn input_objects_keep_their_rules(rt: HostRuntime) {
    are_refused(&rt, rt.alloc(), &INPUTS);
}
