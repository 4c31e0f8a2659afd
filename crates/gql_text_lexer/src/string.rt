//! The forms of strings: section 2.9.4 of the GraphQL specification, October 2021.

ghost use Rattle.std.specs.Prelude.{◌≡◌, ◌<◌, ◌≤◌, ◌+◌, true, false, ◌∷◌, drop, length, option_map, IfSome, IfNone};
ghost use Rattle.gql_text_lexer.specs.Forms.{hex_value, is_unicode, part_text};
ghost use Rattle.gql_text_lexer.specs.Scan.{unicode_at, escape_at, part_at, after_closing, more_of, closed, of_kind, string};

use crate::bytes::{from, is_escape, is_plain, is_source, plain_len, quotes_at};
use crate::token::{Shape, TokenKind};

/// A part of a string, as it is written.
#[derive(Clone, Copy, Debug)]
pub(crate) enum Part {
    /// A byte that stands for itself.
    Plain(u8),
    /// A backslash and this byte.
    Escape(u8),
    /// `\u` and four hexadecimal digits.
    Unicode(u8, u8, u8, u8),
    /// `\"""` in a block string.
    Quotes,
}

/// The value of a hexadecimal digit, or 16.
pub(crate) fn hex_value(b: u8) -> u32
    ensures value { result ≡ hex_value b }
    ensures bound { result ≤ 16 }
{
    match b {
        b'0'..=b'9' => (b - b'0') as u32,
        b'A'..=b'F' => (b - b'A' + 10) as u32,
        b'a'..=b'f' => (b - b'a' + 10) as u32,
        _ => 16,
    }
}

/// Whether these are four hexadecimal digits of no surrogate.
fn is_unicode(a: u8, b: u8, c: u8, d: u8) -> bool
    ensures { result ≡ is_unicode a b c d }
{
    let (a, b, c, d) = (hex_value(a), hex_value(b), hex_value(c), hex_value(d));
    if a >= 16 || b >= 16 || c >= 16 || d >= 16 {
        return false;
    }
    let code = ((a * 16 + b) * 16 + c) * 16 + d;
    code < 0xD800 || code >= 0xE000
}

/// Four hexadecimal digits after `\u`.
fn unicode_at(text: &[u8]) -> Option<Part>
    ensures { result ≡ unicode_at text.now }
{
    match text {
        [a, b, c, d, ..] if is_unicode(*a, *b, *c, *d) => Some(Part::Unicode(*a, *b, *c, *d)),
        _ => None,
    }
}

/// An escape after its backslash.
fn escape_at(text: &[u8]) -> Option<Part>
    ensures { result ≡ escape_at text.now }
{
    let (first, rest) = text.split_first()?;
    if is_escape(*first) {
        Some(Part::Escape(*first))
    } else if *first == b'u' {
        unicode_at(rest)
    } else {
        None
    }
}

/// The part that a byte begins in a quoted string.
fn quoted_part(first: u8, rest: &[u8]) -> Option<Part>
    ensures { result ≡ part_at false (first ∷ rest.now) }
{
    if first == b'\\' {
        escape_at(rest)
    } else if is_plain(first) {
        Some(Part::Plain(first))
    } else {
        None
    }
}

/// The part that a byte begins in a block string.
fn block_part(first: u8, rest: &[u8]) -> Option<Part>
    ensures { result ≡ part_at true (first ∷ rest.now) }
{
    if first == b'\\' && quotes_at(rest, 0) {
        Some(Part::Quotes)
    } else if is_source(first) {
        Some(Part::Plain(first))
    } else {
        None
    }
}

/// The part at the start of a text that no closing quotes begin.
fn part_at(block: bool, text: &[u8]) -> Option<Part>
    ensures { result ≡ part_at block text.now }
{
    let (first, rest) = text.split_first()?;
    if block {
        block_part(*first, rest)
    } else {
        quoted_part(*first, rest)
    }
}

/// The text after the closing quotes, if they stand at the start.
pub(crate) fn after_closing(block: bool, text: &[u8]) -> Option<&[u8]>
    ensures { option_map (λ r. r.now) result ≡ after_closing block text.now }
{
    if block {
        if quotes_at(text, 0) {
            Some(from(text, 3))
        } else {
            None
        }
    } else {
        match text.split_first() {
            Some((b'"', rest)) => Some(rest),
            _ => None,
        }
    }
}

/// How many bytes a part has after its first.
fn more_of(part: Part) -> usize
    ensures { result ≡ more_of part }
{
    match part {
        Part::Plain(_) => 0,
        Part::Escape(_) => 1,
        Part::Unicode(_, _, _, _) => 5,
        Part::Quotes => 3,
    }
}

/// The part at the start, and what is after it.
pub(crate) fn next_part(block: bool, text: &[u8]) -> Option<(Part, &[u8])>
    ensures found { IfSome result (λ p. (part_at block text.now ≡ Some p.0)
        × (p.1.now ≡ drop (more_of p.0 + 1) text.now) × (length p.1.now < length text.now)) }
    ensures none { IfNone result (part_at block text.now ≡ None) }
{
    let part = part_at(block, text)?;
    Some((part, from(text, more_of(part) + 1)))
}

/// The text after the closing quotes.
fn closed(block: bool, text: &[u8]) -> Option<&[u8]>
    ensures { option_map (λ r. r.now) result ≡ closed block text.now 0 }
{
    let mut rest = text;
    'parts: loop {
        let part = from(rest, plain_len(rest));
        if let Some(end) = after_closing(block, part) {
            return Some(end);
        }
        let Some((_, more)) = next_part(block, part) else {
            return None;
        };
        rest = more;
    }
}

/// A token of this kind.
fn of_kind(kind: TokenKind, rest: Option<&[u8]>) -> Option<(Shape, &[u8])>
    ensures { option_map (λ p. (p.0, p.1.now)) result
        ≡ of_kind kind (option_map (λ r. r.now) rest.entry) }
{
    Some((Shape::Token(kind), rest?))
}

/// A string, after its first quote.
#[tactic(auto, unfolding(crate::specs::Scan::string))]
pub(crate) fn string(text: &[u8]) -> Option<(Shape, &[u8])>
    ensures { option_map (λ p. (p.0, p.1.now)) result ≡ string text.now }
{
    if text.len() >= 2 && text[0] == b'"' && text[1] == b'"' {
        of_kind(TokenKind::Block, closed(true, from(text, 2)))
    } else {
        of_kind(TokenKind::Quoted, closed(false, text))
    }
}
