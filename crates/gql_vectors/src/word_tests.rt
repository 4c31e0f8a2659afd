//! Runs of the program with words.

use crate::asserting::{got, text};
use crate::program_tests::{ROOM, TAIL, ends, ran};
use std::alloc::Global;
use std::process::Abort;

const LINES: &str =
    "\"Directs the executor to include this field or fragment only when the `if` argument is true.\"\ndirective @include(if: Boolean!) on FIELD | FRAGMENT_SPREAD | INLINE_FRAGMENT\n\"Directs the executor to skip this field or fragment when the `if` argument is true.\"\ndirective @skip(if: Boolean!) on FIELD | FRAGMENT_SPREAD | INLINE_FRAGMENT\n";

const INPUT: &str = "\"d\" type Query{b(z:Int y:Int):E a:Int} enum E{Y X}";

/// The words of a line, with one space between them.
fn words_of(rt: &impl Abort, alloc: Global, line: &str) -> Vec<String> {
    let mut words = Vec::new(alloc);
    for word in line.split(' ') {
        got(rt, words.push(text(rt, alloc, word)));
    }
    words
}

/// Asserts how a run with the words of a line ends.
fn ends_with(rt: &impl Abort, alloc: Global, line: &str, status: u8, output: &str, report: &str) {
    let words = words_of(rt, alloc, line);
    let ending = ran(rt, alloc, INPUT.as_bytes(), Vec::new(alloc), ROOM, &words);
    ends(rt, &ending, status, output, report, line);
}

/// Words, and the text that they ask for: its types, its directives and its schema block.
const LAYOUTS: [(&str, &str, &str, &str); 9] = [
    (
        "--sorted-fields",
        "enum E {\n\tY\n\tX\n}\n\n\"\"\"\nd\n\"\"\"\ntype Query {\n\ta: Int\n\tb(z: Int, y: Int): E\n}\n\n",
        TAIL,
        "schema {\n\tquery: Query\n}\n",
    ),
    (
        "--sorted-arguments",
        "enum E {\n\tY\n\tX\n}\n\n\"\"\"\nd\n\"\"\"\ntype Query {\n\tb(y: Int, z: Int): E\n\ta: Int\n}\n\n",
        TAIL,
        "schema {\n\tquery: Query\n}\n",
    ),
    (
        "--sorted-enum-items",
        "enum E {\n\tX\n\tY\n}\n\n\"\"\"\nd\n\"\"\"\ntype Query {\n\tb(z: Int, y: Int): E\n\ta: Int\n}\n\n",
        TAIL,
        "schema {\n\tquery: Query\n}\n",
    ),
    (
        "--single-line",
        "enum E {\n\tY\n\tX\n}\n\n\"d\"\ntype Query {\n\tb(z: Int, y: Int): E\n\ta: Int\n}\n\n",
        LINES,
        "schema {\n\tquery: Query\n}\n",
    ),
    (
        "--indent 3",
        "enum E {\n   Y\n   X\n}\n\n\"\"\"\nd\n\"\"\"\ntype Query {\n   b(z: Int, y: Int): E\n   a: Int\n}\n\n",
        TAIL,
        "schema {\n   query: Query\n}\n",
    ),
    (
        "--indent=00001",
        "enum E {\n Y\n X\n}\n\n\"\"\"\nd\n\"\"\"\ntype Query {\n b(z: Int, y: Int): E\n a: Int\n}\n\n",
        TAIL,
        "schema {\n query: Query\n}\n",
    ),
    (
        "--indent 0",
        "enum E {\nY\nX\n}\n\n\"\"\"\nd\n\"\"\"\ntype Query {\nb(z: Int, y: Int): E\na: Int\n}\n\n",
        TAIL,
        "schema {\nquery: Query\n}\n",
    ),
    (
        "--sorted-fields --sorted-arguments --sorted-enum-items --single-line --indent 2",
        "enum E {\n  X\n  Y\n}\n\n\"d\"\ntype Query {\n  a: Int\n  b(y: Int, z: Int): E\n}\n\n",
        LINES,
        "schema {\n  query: Query\n}\n",
    ),
    (
        "--indent=2 --single-line --sorted-enum-items --sorted-fields --sorted-arguments",
        "enum E {\n  X\n  Y\n}\n\n\"d\"\ntype Query {\n  a: Int\n  b(y: Int, z: Int): E\n}\n\n",
        LINES,
        "schema {\n  query: Query\n}\n",
    ),
];

#[test]
fn words_ask_for_a_layout(rt: HostRuntime) {
    let alloc = rt.alloc();
    for (line, types, directives, schema) in LAYOUTS {
        let output = got(&rt, format!(in alloc; "{types}{directives}{schema}"));
        ends_with(&rt, alloc, line, 0, output.as_str(), "");
    }
}

/// Unknown, repeated, without a value, out of form, out of range, and after `--`.
const BAD: [&str; 24] = [
    "--type A",
    "--type A --sample 1",
    "--help",
    "--version",
    "--sorted",
    "word",
    "",
    "--single-line --single-line",
    "--indent 2 --indent 2",
    "--single-line=true",
    "--indent",
    "--sample",
    "--indent=",
    "--indent 000001",
    "--indent 256",
    "--indent -1",
    "--indent +1",
    "--indent 1a",
    "--sample 0",
    "--sample 20001",
    "--sample 100000",
    "--sample -1",
    "--sample 1 --indent 256",
    "-- --single-line",
];

#[test]
fn bad_words_are_reported(rt: HostRuntime) {
    for line in BAD {
        ends_with(&rt, rt.alloc(), line, 2, "", "bad words\n");
    }
}

/// Words that ask for a sample, and its summary.
const SAMPLES: [(&str, &str); 2] = [
    ("--sample 1", "types 1 in 41 out 425\n"),
    ("--sample 20000", "types 20000 in 501131 out 651507\n"),
];

#[test]
fn a_sample_is_summarized(rt: HostRuntime) {
    for (line, summary) in SAMPLES {
        ends_with(&rt, rt.alloc(), line, 0, summary, "");
    }
}
