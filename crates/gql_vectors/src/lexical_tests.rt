//! Tokens, strings and names: sections 2.1 and 2.9 of the GraphQL specification, October 2021.

use crate::asserting::{add_word, got, printed, same, text};
use gql_text::{Name, NameError, Token, TokenKind, block_value, lex, quote, string_value};
use std::alloc::Global;
use std::process::Abort;

fn letter(kind: TokenKind) -> &'static str {
    match kind {
        TokenKind::Punctuator => "P",
        TokenKind::Name => "N",
        TokenKind::Whole => "W",
        TokenKind::Float => "F",
        TokenKind::Quoted => "Q",
        TokenKind::Block => "B",
    }
}

/// The kinds of the tokens of a text in short, and the place where they stop.
fn kinds(rt: &impl Abort, alloc: Global, text: &str) -> String {
    let lexed = got(rt, lex(alloc, text));
    let mut out = String::new(alloc);
    for token in lexed.tokens.iter() {
        got(rt, out.push_str(letter(token.kind)));
    }
    match lexed.stop {
        None => out,
        Some(at) => got(rt, format!(in alloc; "{out} {at}")),
    }
}

/// Asserts that texts have tokens of these kinds, and where they stop.
fn have_kinds(rt: &impl Abort, alloc: Global, rows: &[(&str, &str)]) {
    for (text, want) in rows {
        same(rt, kinds(rt, alloc, text).as_str(), want, text);
    }
}

const WORDS: [(&str, &str); 16] = [
    ("a..b", "N 1"),
    ("a...b", "NPN"),
    ("....", "P 3"),
    ("\u{feff} a,#c\u{e9}\nb", "NN"),
    ("{a(b:$c)@d|e&f![g]=1}", "PNPNPPNPPNPNPNPPNPPWP"),
    ("a\u{1}", "N 1"),
    ("", ""),
    ("_", "N"),
    ("a\u{feff}b", "NN"),
    ("\u{fefe}", " 0"),
    ("a #c", "N"),
    ("a #", "N"),
    ("#\u{1f600}\ta", ""),
    ("#a\u{7}", " 2"),
    ("#a\rb", "N"),
    ("\u{1f600}", " 0"),
];

#[test]
fn names_and_punctuators_are_tokens(rt: HostRuntime) {
    have_kinds(&rt, rt.alloc(), &WORDS);
}

const NUMBERS: [(&str, &str); 9] = [
    ("-0 0 01", "WW 5"),
    ("1.5e-3 1e5 -2.0", "FFF"),
    ("1.", " 0"),
    ("1a", " 0"),
    ("-", " 0"),
    ("-01", " 0"),
    ("1e5x", " 0"),
    ("1.5.", " 0"),
    ("9223372036854775808 -9223372036854775809", "WW"),
];

#[test]
fn numbers_are_tokens(rt: HostRuntime) {
    have_kinds(&rt, rt.alloc(), &NUMBERS);
}

const QUOTED: [(&str, &str); 14] = [
    ("\"\" \"a\\\"b\" \"\\u0041\"", "QQQ"),
    ("\"\\ud800\"", " 0"),
    ("\"a", " 0"),
    ("\"a\nb\"", " 0"),
    ("\"\u{1f600}\"", "Q"),
    ("\"\" \"", "Q 3"),
    ("\"\\udfff\"", " 0"),
    ("\"\\ud83d\\ude00\"", " 0"),
    ("\"\\ud7ff\\uE000\"", "Q"),
    ("\"\\u00g0\"", " 0"),
    ("\"\\x\"", " 0"),
    ("\"a\\", " 0"),
    ("\"\\u0041", " 0"),
    ("\"\"\"\"", " 0"),
];

#[test]
fn quoted_strings_are_tokens(rt: HostRuntime) {
    have_kinds(&rt, rt.alloc(), &QUOTED);
}

const BLOCKS: [(&str, &str); 8] = [
    ("\"\"\"a\"b\\\"\"\"c\"\"\"", "B"),
    ("\"\"\"\"\"\"", "B"),
    ("\"\"\"a", " 0"),
    ("\"\"\"\"\"", " 0"),
    ("\"\"\"\\\"\"\"\"\"\"", "B"),
    ("\"\"\"\\\"\"\"", " 0"),
    ("\"\"\"a\rb\r\nc\nd\u{1f600}\"\"\"", "B"),
    ("\"\"\"a\u{0}\"\"\"", " 0"),
];

#[test]
fn block_strings_are_tokens(rt: HostRuntime) {
    have_kinds(&rt, rt.alloc(), &BLOCKS);
}

/// The tokens of a text, each with its place.
fn places(rt: &impl Abort, alloc: Global, text: &str) -> String {
    let lexed = got(rt, lex(alloc, text));
    let mut out = String::new(alloc);
    for token in lexed.tokens.iter() {
        add_word(rt, &mut out, token.text);
        add_word(rt, &mut out, printed(rt, alloc, &token.at).as_str());
    }
    out
}

#[test]
fn tokens_have_their_texts_and_places(rt: HostRuntime) {
    let rows = [
        ("a..b", "a 0 "),
        ("\u{feff}\"\u{e9}\" b...-1", "\"\u{e9}\" 3 b 8 ... 9 -1 12 "),
    ];
    for (text, want) in rows {
        same(&rt, places(&rt, rt.alloc(), text).as_str(), want, text);
    }
}

/// The value of a string as it is written.
fn value(rt: &impl Abort, alloc: Global, written: &str) -> String {
    let token = Token {
        kind: TokenKind::Quoted,
        text: written,
        at: 0,
    };
    match got(rt, string_value(alloc, &token)) {
        Some(value) => value,
        None => text(rt, alloc, "no string"),
    }
}

const STRING_VALUES: [(&str, &str); 17] = [
    ("\"\\u0041\"", "A"),
    ("\"\\b\\f\\n\\r\\t\\/\\\\\\\"\"", "\u{8}\u{c}\n\r\t/\\\""),
    ("\"\"", ""),
    ("\"\u{e9}\\u00e9\"", "\u{e9}\u{e9}"),
    ("\"\"\"\n  a\n    b\n\"\"\"", "a\n  b"),
    ("\"\"\"a \\\"\"\" b\"\"\"", "a \"\"\" b"),
    ("\"\"\"\\n\"\"\"", "\\n"),
    ("\"\u{1f600}\\uFFFF\"", "\u{1f600}\u{ffff}"),
    ("\"\"\"\"\"\"", ""),
    ("\"\"\"a\rb\r\nc\nd\"\"\"", "a\nb\nc\nd"),
    ("a", "no string"),
    ("", "no string"),
    ("\"a", "no string"),
    ("\"a\" ", "no string"),
    ("\"\"\"\"", "no string"),
    ("\"\\ud800\"", "no string"),
    ("\"a\"\"b\"", "no string"),
];

#[test]
fn strings_have_these_values(rt: HostRuntime) {
    for (written, want) in STRING_VALUES {
        same(&rt, value(&rt, rt.alloc(), written).as_str(), want, written);
    }
}

const BLOCK_VALUES: [(&str, &str); 12] = [
    ("\n  a\n    b\n", "a\n  b"),
    ("", ""),
    (" a\r\n  b\r  c\n\n \t ", " a\nb\nc"),
    ("\n\n", ""),
    ("a\n b\n\n\tc", "a\nb\n\nc"),
    ("\n  x\n \n  y", "x\n\ny"),
    ("\r\r\n  a\n\r  b", "a\n\nb"),
    ("  a\n  b", "  a\nb"),
    ("\n \ta\n\t  b", "a\n b"),
    ("\n  a\n b", " a\nb"),
    ("\n  \u{1f600}\n  \\\"\"\"", "\u{1f600}\n\\\"\"\""),
    ("\n\u{a0}a", "\u{a0}a"),
];

#[test]
fn blocks_have_these_values(rt: HostRuntime) {
    for (raw, want) in BLOCK_VALUES {
        let value = got(&rt, block_value(rt.alloc(), raw));
        same(&rt, value.as_str(), want, raw);
    }
}

const QUOTATIONS: [(&str, &str); 5] = [
    ("a\"\u{1}", "\"a\\\"\\u0001\""),
    ("1\\\u{8}d\u{c}3\n4\r5\t6", "\"1\\\\\\bd\\f3\\n4\\r5\\t6\""),
    ("\u{1f}\u{7f}\u{e9}", "\"\\u001F\u{7f}\u{e9}\""),
    ("", "\"\""),
    ("/\u{1f600}\u{0}", "\"/\u{1f600}\\u0000\""),
];

#[test]
fn texts_are_quoted_so(rt: HostRuntime) {
    for (text, want) in QUOTATIONS {
        let quoted = got(&rt, quote(rt.alloc(), text));
        same(&rt, quoted.as_str(), want, text);
    }
}

/// A name of this text, or why there is none.
fn name(rt: &impl Abort, alloc: Global, written: &str) -> String {
    match Name::new(alloc, written) {
        Ok(name) => text(rt, alloc, name.as_str()),
        Err(NameError::NotAName) => text(rt, alloc, "not a name"),
        Err(NameError::OutOfMemory) => text(rt, alloc, "out of memory"),
    }
}

#[test]
fn these_texts_are_names(rt: HostRuntime) {
    for written in ["a1", "a", "_", "__Type_9", "true"] {
        same(
            &rt,
            name(&rt, rt.alloc(), written).as_str(),
            written,
            written,
        );
    }
    for written in ["1a", "", "9", "a-b", "a ", "\u{e9}", "a\u{e9}"] {
        same(
            &rt,
            name(&rt, rt.alloc(), written).as_str(),
            "not a name",
            written,
        );
    }
}
