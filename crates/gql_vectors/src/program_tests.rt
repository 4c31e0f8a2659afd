//! Runs of the program over memory. The documents of other tables are run too, where they stand.

use crate::asserting::{got, same, text};
use gql_publish::{MemorySink, MemorySource, SureSink, SureSource, run};
use std::alloc::Global;
use std::process::Abort;

pub(crate) const TAIL: &str =
    "\"\"\"\nDirects the executor to include this field or fragment only when the `if` argument is true.\n\"\"\"\ndirective @include(if: Boolean!) on FIELD | FRAGMENT_SPREAD | INLINE_FRAGMENT\n\"\"\"\nDirects the executor to skip this field or fragment when the `if` argument is true.\n\"\"\"\ndirective @skip(if: Boolean!) on FIELD | FRAGMENT_SPREAD | INLINE_FRAGMENT\n";

const SCHEMA: &str = "schema {\n\tquery: Query\n}\n";

pub(crate) const ROOM: usize = 1_048_576;

/// How a run ended: the status, the output and the line.
#[derive(Drop)]
pub(crate) struct Ending {
    status: u8,
    output: String,
    line: String,
}

fn text_of(rt: &impl Abort, alloc: Global, bytes: &[u8]) -> String {
    match str::from_utf8(bytes) {
        Ok(written) => text(rt, alloc, written),
        Err(_) => text(rt, alloc, "no text"),
    }
}

fn source(rt: &impl Abort, alloc: Global, input: &[u8], failing: Vec<u64>) -> MemorySource {
    MemorySource::new(got(rt, Vec::from_slice(alloc, input)), 3, failing)
}

fn sink(rt: &impl Abort, alloc: Global, room: usize) -> MemorySink {
    got(rt, MemorySink::new(alloc, room, 4, Vec::new(alloc)))
}

/// Runs on an input that is read three bytes at a time and written four bytes at a time.
pub(crate) fn ran(
    rt: &impl Abort,
    alloc: Global,
    input: &[u8],
    failing: Vec<u64>,
    room: usize,
    words: &[String],
) -> Ending {
    let mut input = source(rt, alloc, input, failing);
    let mut output = sink(rt, alloc, room);
    let mut faults = sink(rt, alloc, ROOM);
    let status = run(alloc, words, &mut input, &mut output, &mut faults);
    let output = text_of(rt, alloc, output.written());
    let line = text_of(rt, alloc, faults.written());
    Ending {
        status,
        output,
        line,
    }
}

/// A run without words over an outside that never fails.
fn ran_on(rt: &impl Abort, alloc: Global, input: &[u8]) -> Ending {
    let words: Vec<String> = Vec::new(alloc);
    ran(rt, alloc, input, Vec::new(alloc), ROOM, &words)
}

/// Asserts how a run ended.
pub(crate) fn ends(
    rt: &impl Abort,
    ending: &Ending,
    status: u8,
    output: &str,
    line: &str,
    input: &str,
) {
    same(rt, ending.line.as_str(), line, input);
    same(rt, ending.output.as_str(), output, input);
    assert!(rt; ending.status == status, "of {input}");
}

/// The types, the definitions of the system directives, and the schema block.
pub(crate) fn canonical(rt: &impl Abort, alloc: Global, types: &str) -> String {
    got(rt, format!(in alloc; "{types}{TAIL}{SCHEMA}"))
}

/// Asserts that a run on the document writes this text, and writes it again where the text is its input.
pub(crate) fn is_written(rt: &impl Abort, alloc: Global, document: &str, text: &str) {
    let ending = ran_on(rt, alloc, document.as_bytes());
    ends(rt, &ending, 0, text, "", document);
    let again = ran_on(rt, alloc, text.as_bytes());
    ends(rt, &again, 0, text, "", text);
}

/// Asserts that a run on the document refuses it and reports this.
pub(crate) fn is_refused(rt: &impl Abort, alloc: Global, document: &str, report: &str) {
    let ending = ran_on(rt, alloc, document.as_bytes());
    let line = got(rt, format!(in alloc; "{report}\n"));
    ends(rt, &ending, 1, "", line.as_str(), document);
}

const FAULTS: [(&str, &str); 28] = [
    (
        "type Query{v(a:ID=-9223372036854775809):Int}",
        "number out of range at 18",
    ),
    (
        "type Query{v(a:ID=340282366920938463463374607431768211456):Int}",
        "number out of range at 18",
    ),
    (
        "type Query{v(a:ID=-340282366920938463463374607431768211456):Int}",
        "number out of range at 18",
    ),
    ("type Query{v(a:ID=[1.5", "unsupported float at 19"),
    ("type Query{v:1.5}", "syntax error at 13"),
    ("type Query{v(a:Int=01", "syntax error at 19"),
    ("type Query{v:Int", "syntax error at 16"),
    ("type Query{v:Int}\"", "syntax error at 17"),
    ("type Query{v:Int}\u{1}", "syntax error at 17"),
    ("type Query{v:Int} extend", "unsupported extend at 18"),
    ("\"d\" extend type T", "syntax error at 4"),
    ("union U = type Query{v:Int}", "syntax error at 15"),
    ("#\u{e9}\u{20ac}\u{1f600}\n%", "syntax error at 11"),
    ("\"\u{e9}\u{20ac}\u{1f600}\" scalar 1", "syntax error at 19"),
    (
        "scalar __A scalar __A type Query{v:Int}",
        "\"__A\" is a reserved name at 7",
    ),
    ("", "syntax error at 0"),
    (
        "type Query{v(a:ID=18446744073709551616):Int}",
        "number out of range at 18",
    ),
    ("type Query{v(a:ID=1.5):Int}", "unsupported float at 18"),
    (
        "type __A{a:Int} type __A{a:Int} type Query{v:Int}",
        "\"__A\" is a reserved name at 5",
    ),
    ("type Query{v:Int} union U =", "syntax error at 27"),
    ("type Query{v:Int v:Int}", "\"v\" is repeated at 17"),
    (
        "type Query{v:Int} extend type Query{w:Int}",
        "unsupported extend at 18",
    ),
    (
        "schema{query:Query}schema{query:Query}type Query{v:Int}",
        "unsupported second schema block at 19",
    ),
    (
        "schema{mutation:M}type M{v:Int}",
        "unsupported schema block without query at 0",
    ),
    (
        "\"d\" schema{query:Query}type Query{v:Int}",
        "unsupported decorated schema block at 0",
    ),
    (
        "type Query{v:Int} type Subscription @x{v:Int}",
        "unsupported decorated subscription root at 36",
    ),
    (
        "type Query @deprecated{v:Int}",
        "unsupported misused attribute at 11",
    ),
    ("\"\u{e9}\" type Query{v:Int} }", "syntax error at 23"),
];

#[test]
fn the_first_fault_of_the_reader_is_reported_at_its_place(rt: HostRuntime) {
    for (input, line) in FAULTS {
        is_refused(&rt, rt.alloc(), input, line);
    }
    let ending = ran_on(&rt, rt.alloc(), b"scalar A\xff");
    ends(
        &rt,
        &ending,
        1,
        "",
        "not UTF-8 at 8\n",
        "a byte that begins no character",
    );
}

/// `type Query{v:`, brackets round `Int`, and `}`.
fn bracketed(rt: &impl Abort, alloc: Global, count: usize) -> String {
    let mut text = text(rt, alloc, "type Query{v:");
    for _ in 0..count {
        got(rt, text.push('['));
    }
    got(rt, text.push_str("Int"));
    for _ in 0..count {
        got(rt, text.push(']'));
    }
    got(rt, text.push('}'));
    text
}

/// Asserts that what is written of a document is read again, and written as it was.
pub(crate) fn is_read_again(rt: &impl Abort, alloc: Global, document: &str) {
    let first = ran_on(rt, alloc, document.as_bytes());
    is_written(rt, alloc, document, first.output.as_str());
}

const READ_AGAIN: [&str; 4] = [
    "schema{query:Query} scalar B,type Query{v:[B!]!}#c\nscalar A",
    "schema{query:schema} type schema{query:type} scalar type",
    "type B{a:C} type Query{z:B a:A!} scalar C scalar A",
    "type Query{a:Int b:Int! c:[Int] d:[Int]! e:[Int!] f:[Int!]! g:[[Int]] h:[[Int!]!]! i:[[[Query]]!]}",
];

#[test]
fn what_is_written_is_read_again(rt: HostRuntime) {
    for document in READ_AGAIN {
        is_read_again(&rt, rt.alloc(), document);
    }
}

#[test]
fn sixty_four_brackets_may_be_open(rt: HostRuntime) {
    let deepest = bracketed(&rt, rt.alloc(), 64);
    is_read_again(&rt, rt.alloc(), deepest.as_str());
    for count in [65, 1000] {
        let input = bracketed(&rt, rt.alloc(), count);
        is_refused(&rt, rt.alloc(), input.as_str(), "nested too deep at 77");
    }
}

const INPUT: &str = "schema{query:Query} type Query{v:Int}";

#[test]
fn a_fault_of_the_source_is_reported(rt: HostRuntime) {
    let alloc = rt.alloc();
    let failing = got(&rt, Vec::from_slice(alloc, &[2]));
    let words: Vec<String> = Vec::new(alloc);
    let ending = ran(&rt, alloc, INPUT.as_bytes(), failing, ROOM, &words);
    ends(&rt, &ending, 3, "", "read fault\n", "a source that fails");
}

#[test]
fn a_fault_of_the_sink_is_reported(rt: HostRuntime) {
    let alloc = rt.alloc();
    let words: Vec<String> = Vec::new(alloc);
    let ending = ran(&rt, alloc, INPUT.as_bytes(), Vec::new(alloc), 5, &words);
    ends(
        &rt,
        &ending,
        4,
        "type ",
        "write fault\n",
        "a sink with little room",
    );
}

/// A document of this size: blanks stand after the type.
fn padded(rt: &impl Abort, alloc: Global, size: usize) -> Vec<u8> {
    let mut bytes = got(rt, Vec::from_slice(alloc, b"type Query{v:Int}"));
    got(rt, bytes.resize(size, b' '));
    bytes
}

/// The status of a run on a document of this size, and how many bytes it writes.
fn ran_at(rt: &impl Abort, alloc: Global, size: usize) -> (u8, u64) {
    let mut input = SureSource::new(padded(rt, alloc, size));
    let mut output = SureSink::new();
    let mut faults = SureSink::new();
    let words: Vec<String> = Vec::new(alloc);
    let status = run(alloc, &words, &mut input, &mut output, &mut faults);
    (status, output.count())
}

#[test]
fn an_input_has_a_limit(rt: HostRuntime) {
    assert!(rt; ran_at(&rt, rt.alloc(), 16_777_216) == (0, 394));
    assert!(rt; ran_at(&rt, rt.alloc(), 16_777_217) == (6, 0));
}
