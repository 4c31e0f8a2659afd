//! Documents that are published, by the library and by the program: each has the text of its view.

use crate::asserting::{got, same, text};
use crate::program_tests::{canonical, is_read_again, is_written};
use gql_publish::{PublishError, Published, SDLExportOptions, load, publish};
use std::alloc::Global;
use std::process::Abort;

fn text_in(published: Published) -> String {
    published.text
}

/// The text that is published of a document, or the sentence of the rule that it breaks.
fn told(rt: &impl Abort, alloc: Global, document: &str, options: SDLExportOptions) -> String {
    match publish(alloc, document.as_bytes(), options) {
        Ok(published) => text_in(published),
        Err(PublishError::Schema(error)) => got(rt, error.message(alloc)),
        Err(_) => text(rt, alloc, "no document"),
    }
}

/// Asserts what is told of a document under no options.
pub(crate) fn is_told(rt: &impl Abort, alloc: Global, document: &str, want: &str) {
    let told = told(rt, alloc, document, SDLExportOptions::new());
    same(rt, told.as_str(), want, document);
}

const PUBLISHED: [(&str, &str); 17] = [
    (
        "schema{query:Query} type Query{v:Int}",
        "type Query {\n\tv: Int\n}\n\n",
    ),
    ("type Query{v:Int}", "type Query {\n\tv: Int\n}\n\n"),
    (
        "schema{query:Query} scalar B,type Query{v:[B!]!}#c\nscalar A",
        "scalar A\n\nscalar B\n\ntype Query {\n\tv: [B!]!\n}\n\n",
    ),
    (
        "scalar B,type Query{v:Int}#c\nscalar A",
        "scalar A\n\nscalar B\n\ntype Query {\n\tv: Int\n}\n\n",
    ),
    (
        "scalar A scalar B type Query{v:Int}",
        "scalar A\n\nscalar B\n\ntype Query {\n\tv: Int\n}\n\n",
    ),
    (
        "type Query{type:scalar,b:[[Int!]]a:ID!}scalar scalar",
        "type Query {\n\ttype: scalar\n\tb: [[Int!]]\n\ta: ID!\n}\n\nscalar scalar\n\n",
    ),
    (
        "\"\\\"\\\"\\\"\" scalar A \"  \" scalar B \"x\\n\" scalar C \"\" scalar D type Query{v:Int}",
        "\"\\\"\\\"\\\"\"\nscalar A\n\n\"  \"\nscalar B\n\n\"x\\n\"\nscalar C\n\n\"\"\"\n\n\"\"\"\nscalar D\n\ntype Query {\n\tv: Int\n}\n\n",
    ),
    (
        "interface I{a:Int @deprecated} type Query{v:Int}",
        "interface I {\n\ta: Int @deprecated\n}\n\ntype Query {\n\tv: Int\n}\n\n",
    ),
    (
        "type Query{v(a:ID=18446744073709551615,b:ID=-9223372036854775808,c:ID=-0):Int}",
        "type Query {\n\tv(a: ID = 18446744073709551615, b: ID = -9223372036854775808, c: ID = 0): Int\n}\n\n",
    ),
    (
        "interface N{id:Int n:N} type U implements N{id:Int! n:U} type Query{u:U}",
        "interface N {\n\tid: Int\n\tn: N\n}\n\ntype Query {\n\tu: U\n}\n\ntype U implements N {\n\tid: Int!\n\tn: U\n}\n\n",
    ),
    (
        "union U type Query{v:Int}",
        "type Query {\n\tv: Int\n}\n\nunion U\n\n",
    ),
    (
        "type Query{v(\"x\" a:Int,b:Int):Int}",
        "type Query {\n\tv(\n\t\t\"\"\"\n\t\tx\n\t\t\"\"\"\n\t\ta: Int,\t\tb: Int\n\t): Int\n}\n\n",
    ),
    (
        "interface N{f(a:Int!):Int} type Query implements N{f(a:Int):Int}",
        "interface N {\n\tf(a: Int!): Int\n}\n\ntype Query implements N {\n\tf(a: Int): Int\n}\n\n",
    ),
    (
        "input A{b:B!} input B{a:[A!]!} type Query{v:Int}",
        "input A {\n\tb: B!\n}\n\ninput B {\n\ta: [A!]!\n}\n\ntype Query {\n\tv: Int\n}\n\n",
    ),
    (
        "\"d\" scalar Upload type Query{v:Upload}",
        "type Query {\n\tv: Upload\n}\n\n\"\"\"\nd\n\"\"\"\nscalar Upload\n\n",
    ),
    (
        "interface I{} type Query implements I @a(b:{c:[1,E]}) {v:Int}",
        "interface I\n\ntype Query implements I @a(b: {c: [1, E]}) {\n\tv: Int\n}\n\n",
    ),
    (
        "type Query{\"two\\r\\nlines\" v:Int \"\"\"\n  a\n   b\n\"\"\" w(\"c\" a:Int):Int}",
        "type Query {\n\t\"two\\r\\nlines\"\n\tv: Int\n\t\"\"\"\n\ta\n\t b\n\t\"\"\"\n\tw(\n\t\t\"\"\"\n\t\tc\n\t\t\"\"\"\n\t\ta: Int\n\t): Int\n}\n\n",
    ),
];

#[test]
fn documents_are_published(rt: HostRuntime) {
    for (document, types) in PUBLISHED {
        let want = canonical(&rt, rt.alloc(), types);
        is_told(&rt, rt.alloc(), document, want.as_str());
        is_written(&rt, rt.alloc(), document, want.as_str());
    }
}

/// Documents, each with its whole text.
const WHOLE: [(&str, &str); 4] = [
    (
        "directive @deprecated(reason: String) on FIELD_DEFINITION directive @specifiedBy(url: String!) on SCALAR directive @oneOf on INPUT_OBJECT directive @skip on FIELD directive @unused(a: [Int] = [1, -0]) repeatable on QUERY | ENUM type Query @a { v(a: Int = -0 @deprecated @x): Int @y @deprecated(reason: \"r\") @z } input I @w @oneOf { a: Int @deprecated @u b: Upload } scalar Upload @b scalar S @v @specifiedBy(url: \"u\") enum E { __A @x @deprecated }",
        "enum E {\n\t__A @deprecated @x\n}\n\ninput I @oneOf @w {\n\ta: Int @deprecated @u\n\tb: Upload\n}\n\ntype Query @a {\n\tv(a: Int = 0 @deprecated @x): Int @deprecated(reason: \"r\") @y @z\n}\n\nscalar S @specifiedBy(url: \"u\") @v\n\nscalar Upload @b\n\ndirective @deprecated(reason: String) on FIELD_DEFINITION\n\"\"\"\nDirects the executor to include this field or fragment only when the `if` argument is true.\n\"\"\"\ndirective @include(if: Boolean!) on FIELD | FRAGMENT_SPREAD | INLINE_FRAGMENT\ndirective @oneOf on INPUT_OBJECT\ndirective @skip on FIELD\ndirective @specifiedBy(url: String!) on SCALAR\ndirective @unused(a: [Int] = [1, 0]) repeatable on QUERY | ENUM\nschema {\n\tquery: Query\n}\n",
    ),
    (
        "type Query{v:Int @deprecated(reason: \"say \\\"no\\\" \\\\ \\u0001\")}",
        "type Query {\n\tv: Int @deprecated(reason: \"say \\\"no\\\" \\\\ \\u0001\")\n}\n\n\"\"\"\nMarks an element of a GraphQL schema as no longer supported.\n\"\"\"\ndirective @deprecated(reason: String = \"No longer supported\") on FIELD_DEFINITION | ARGUMENT_DEFINITION | INPUT_FIELD_DEFINITION | ENUM_VALUE\n\"\"\"\nDirects the executor to include this field or fragment only when the `if` argument is true.\n\"\"\"\ndirective @include(if: Boolean!) on FIELD | FRAGMENT_SPREAD | INLINE_FRAGMENT\n\"\"\"\nDirects the executor to skip this field or fragment when the `if` argument is true.\n\"\"\"\ndirective @skip(if: Boolean!) on FIELD | FRAGMENT_SPREAD | INLINE_FRAGMENT\nschema {\n\tquery: Query\n}\n",
    ),
    (
        "schema{query:Query subscription:S} type Query{v:Int}",
        "type Query {\n\tv: Int\n}\n\n\"\"\"\nDirects the executor to include this field or fragment only when the `if` argument is true.\n\"\"\"\ndirective @include(if: Boolean!) on FIELD | FRAGMENT_SPREAD | INLINE_FRAGMENT\n\"\"\"\nDirects the executor to skip this field or fragment when the `if` argument is true.\n\"\"\"\ndirective @skip(if: Boolean!) on FIELD | FRAGMENT_SPREAD | INLINE_FRAGMENT\nschema {\n\tquery: Query\n\tsubscription: S\n}\n",
    ),
    (
        "directive @skip(a: Int = 1 @x) repeatable on FIELD directive @__d on OBJECT type Query @__d {v:E} enum E{__A B @deprecated(reason:\"r\") @x(a:[1,{b:null}])}",
        "enum E {\n\t__A\n\tB @deprecated(reason: \"r\") @x(a: [1, {b: null}])\n}\n\ntype Query @__d {\n\tv: E\n}\n\ndirective @__d on OBJECT\n\"\"\"\nMarks an element of a GraphQL schema as no longer supported.\n\"\"\"\ndirective @deprecated(reason: String = \"No longer supported\") on FIELD_DEFINITION | ARGUMENT_DEFINITION | INPUT_FIELD_DEFINITION | ENUM_VALUE\n\"\"\"\nDirects the executor to include this field or fragment only when the `if` argument is true.\n\"\"\"\ndirective @include(if: Boolean!) on FIELD | FRAGMENT_SPREAD | INLINE_FRAGMENT\ndirective @skip(a: Int = 1) repeatable on FIELD\nschema {\n\tquery: Query\n}\n",
    ),
];

#[test]
fn needed_definitions_and_roots_are_published(rt: HostRuntime) {
    for (document, want) in WHOLE {
        is_told(&rt, rt.alloc(), document, want);
        is_written(&rt, rt.alloc(), document, want);
    }
}

const SHOP: &str =
    "\"A moment in ISO 8601.\"\nscalar DateTime @specifiedBy(url: \"https://example.org/date-time\")\nscalar Upload\ninterface Node { id: ID! }\nenum Status { OPEN SENT OLD @deprecated }\ntype Order implements Node @key(fields: \"id\") {\n  id: ID! status: Status! placed: DateTime\n  lines(first: Int = 10, after: String): [Line!]! }\ntype Line { order: Order! count: Int! }\nunion Found = Order\ninput Filter { status: Status = OPEN and: [Filter!] }\ninput By @oneOf { id: ID name: String }\ntype Query { node(id: ID!): Node find(filter: Filter!, by: By): [Found!]! }\ntype Mutation { send(file: Upload!): Order }\ntype Subscription { sent: Order! }\n";

const SHOP_TEXT: &str =
    "input By @oneOf {\n\tid: ID\n\tname: String\n}\n\n\"\"\"\nA moment in ISO 8601.\n\"\"\"\nscalar DateTime @specifiedBy(url: \"https://example.org/date-time\")\n\ninput Filter {\n\tstatus: Status = OPEN\n\tand: [Filter!]\n}\n\nunion Found = Order\n\ntype Line {\n\torder: Order!\n\tcount: Int!\n}\n\ntype Mutation {\n\tsend(file: Upload!): Order\n}\n\ninterface Node {\n\tid: ID!\n}\n\ntype Order implements Node @key(fields: \"id\") {\n\tid: ID!\n\tstatus: Status!\n\tplaced: DateTime\n\tlines(first: Int = 10, after: String): [Line!]!\n}\n\ntype Query {\n\tnode(id: ID!): Node\n\tfind(filter: Filter!, by: By): [Found!]!\n}\n\nenum Status {\n\tOPEN\n\tSENT\n\tOLD @deprecated\n}\n\ntype Subscription {\n\tsent: Order!\n}\n\nscalar Upload\n\n\"\"\"\nMarks an element of a GraphQL schema as no longer supported.\n\"\"\"\ndirective @deprecated(reason: String = \"No longer supported\") on FIELD_DEFINITION | ARGUMENT_DEFINITION | INPUT_FIELD_DEFINITION | ENUM_VALUE\n\"\"\"\nDirects the executor to include this field or fragment only when the `if` argument is true.\n\"\"\"\ndirective @include(if: Boolean!) on FIELD | FRAGMENT_SPREAD | INLINE_FRAGMENT\n\"\"\"\nIndicates that an Input Object is a OneOf Input Object (and thus requires exactly one of its field be provided)\n\"\"\"\ndirective @oneOf on INPUT_OBJECT\n\"\"\"\nDirects the executor to skip this field or fragment when the `if` argument is true.\n\"\"\"\ndirective @skip(if: Boolean!) on FIELD | FRAGMENT_SPREAD | INLINE_FRAGMENT\n\"\"\"\nProvides a scalar specification URL for specifying the behavior of custom scalar types.\n\"\"\"\ndirective @specifiedBy(url: String!) on SCALAR\nschema {\n\tquery: Query\n\tmutation: Mutation\n\tsubscription: Subscription\n}\n";

#[test]
fn a_shop_is_published(rt: HostRuntime) {
    is_told(&rt, rt.alloc(), SHOP, SHOP_TEXT);
    is_written(&rt, rt.alloc(), SHOP, SHOP_TEXT);
}

/// A description as it is written; before its scalar in a text; and there where single lines are preferred.
const DESCRIPTIONS: [(&str, &str, &str); 11] = [
    ("\"x\"", "\"\"\"\nx\n\"\"\"", "\"x\""),
    ("\"\"", "\"\"\"\n\n\"\"\"", "\"\""),
    ("\"a \"", "\"\"\"\na \n\"\"\"", "\"a \""),
    ("\"a\\nb\"", "\"\"\"\na\nb\n\"\"\"", "\"\"\"\na\nb\n\"\"\""),
    ("\"a\\\\b\"", "\"\"\"\na\\b\n\"\"\"", "\"a\\\\b\""),
    ("\"\\\"\\\"\\\"\"", "\"\\\"\\\"\\\"\"", "\"\\\"\\\"\\\"\""),
    ("\"\\na\"", "\"\\na\"", "\"\\na\""),
    ("\"a\\n  \"", "\"a\\n  \"", "\"a\\n  \""),
    ("\" a\"", "\" a\"", "\" a\""),
    ("\"a\\r\\nb\"", "\"a\\r\\nb\"", "\"a\\r\\nb\""),
    ("\"\\u0001\"", "\"\\u0001\"", "\"\\u0001\""),
];

/// A document whose scalar has this description.
fn described(rt: &impl Abort, alloc: Global, description: &str) -> String {
    got(
        rt,
        format!(in alloc; "{description} scalar D type Query{{v:Int}}"),
    )
}

/// What a text begins with whose scalar has this description.
fn beginning(rt: &impl Abort, alloc: Global, description: &str) -> String {
    got(
        rt,
        format!(in alloc; "{description}\nscalar D\n\ntype Query {{\n"),
    )
}

/// Asserts that a text begins with the scalar of this description.
fn begins(rt: &impl Abort, alloc: Global, text: &str, description: &str) {
    let beginning = beginning(rt, alloc, description);
    assert!(rt; text.starts_with(beginning.as_str()), "of {description}");
}

#[test]
fn a_description_is_a_block_where_that_reads_back(rt: HostRuntime) {
    let single = SDLExportOptions::new().prefer_single_line_descriptions();
    for (written, block, line) in DESCRIPTIONS {
        let document = described(&rt, rt.alloc(), written);
        let text = told(&rt, rt.alloc(), document.as_str(), SDLExportOptions::new());
        begins(&rt, rt.alloc(), text.as_str(), block);
        let text = told(&rt, rt.alloc(), document.as_str(), single);
        begins(&rt, rt.alloc(), text.as_str(), line);
        is_read_again(&rt, rt.alloc(), document.as_str());
    }
}

/// All that sorts, single lines, and two spaces.
fn options() -> SDLExportOptions {
    SDLExportOptions::new()
        .sorted_fields()
        .sorted_arguments()
        .sorted_enum_items()
        .prefer_single_line_descriptions()
        .use_space_ident()
}

const SORTED: &str =
    "enum E {\n  X\n  Y\n}\n\n\"d\"\ntype Query {\n  a: Int\n  b(y: Int, z: Int): E\n}\n\n\"Directs the executor to include this field or fragment only when the `if` argument is true.\"\ndirective @include(if: Boolean!) on FIELD | FRAGMENT_SPREAD | INLINE_FRAGMENT\n\"Directs the executor to skip this field or fragment when the `if` argument is true.\"\ndirective @skip(if: Boolean!) on FIELD | FRAGMENT_SPREAD | INLINE_FRAGMENT\nschema {\n  query: Query\n}\n";

#[test]
fn members_are_sorted_where_that_is_asked(rt: HostRuntime) {
    let document = "\"d\" type Query{b(z:Int y:Int):E a:Int} enum E{Y X}";
    let told = told(&rt, rt.alloc(), document, options());
    same(&rt, told.as_str(), SORTED, document);
}

#[test]
fn a_document_is_loaded(rt: HostRuntime) {
    assert!(rt; load(rt.alloc(), SHOP.as_bytes()).is_ok());
}
