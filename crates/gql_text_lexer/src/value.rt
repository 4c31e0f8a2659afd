//! The values of strings: section 2.9.4 of the GraphQL specification, October 2021.

ghost use Rattle.std.specs.Prelude.{◌≡◌, ◌≤◌, ◌↔◌, ◌⊎◌, ◌++◌, Bool, true, List, length, ℕ, option_map, string_bytes, encode_utf8, OnOk, IfOk, IfSome, IsSome};
ghost use Rattle.std.specs.Str.{IsUtf8};
ghost use Rattle.gql_text_lexer.specs.Forms.{hex_code, is_unicode, IsQuoted, IsBlock};
ghost use Rattle.gql_text_lexer.specs.Values.{HasValue, IsPart, escaped, part_value, unescaped, body, value_by, string_value, string_text};

use crate::bytes::{from, plain_len};
use crate::error::OutOfMemory;
use crate::lines::{block_value, into_text};
use crate::piece::piece;
use crate::string::{Part, after_closing, hex_value, next_part};
use crate::text::Text;
use crate::token::{Shape, Token, TokenKind};
use std::alloc::Global;

/// The character that a letter stands for after a backslash.
fn escaped(c: u8) -> u8
    ensures { result ≡ escaped c }
{
    match c {
        b'b' => 8,
        b'f' => 12,
        b'n' => b'\n',
        b'r' => b'\r',
        b't' => b'\t',
        _ => c,
    }
}

/// The character of four hexadecimal digits.
fn character(a: u8, b: u8, c: u8, d: u8) -> char
    requires { is_unicode a b c d ≡ true }
    ensures { result ≡ hex_code a b c d }
{
    let (a, b, c, d) = (hex_value(a), hex_value(b), hex_value(c), hex_value(d));
    let code = ((a * 16 + b) * 16 + c) * 16 + d;
    match char::from_u32(code) {
        Some(c) => c,
        None => unreachable!(),
    }
}

/// Appends a character in UTF-8.
fn push_character(out: &mut Vec<u8>, c: char) -> Result<(), OutOfMemory>
    ensures { OnOk result (out.new.items ≡ out.old.items ++ encode_utf8 c) }
{
    let mut buffer = [0; 4];
    let text = c.encode_utf8(&mut buffer);
    out.extend_from_slice(text.as_bytes())?;
    Ok(())
}

/// Appends what a part stands for.
fn push_part(out: &mut Vec<u8>, part: Part) -> Result<(), OutOfMemory>
    requires { IsPart part }
    ensures { OnOk result (out.new.items ≡ out.old.items ++ part_value part) }
{
    match part {
        Part::Plain(b) => out.push(b)?,
        Part::Escape(c) => out.push(escaped(c))?,
        Part::Unicode(a, b, c, d) => push_character(out, character(a, b, c, d))?,
        Part::Quotes => out.extend_from_slice(b"\"\"\"")?,
    }
    Ok(())
}

/// Appends the bytes at the start that stand for themselves, and gives the text after them.
fn push_plain<'t>(out: &mut Vec<u8>, text: &'t [u8]) -> Result<&'t [u8], OutOfMemory>
    ensures value { IfOk result (λ rest. (block : Bool) →
        out.new.items ++ unescaped block rest.now ≡ out.old.items ++ unescaped block text.now) }
    ensures within { IfOk result (λ rest. length rest.now ≤ length text.now) }
{
    let len = plain_len(text);
    out.extend_from_slice(&text[..len])?;
    Ok(from(text, len))
}

/// The value of the parts up to the closing quotes.
fn unescaped(alloc: Global, block: bool, text: &[u8]) -> Result<Vec<u8>, OutOfMemory>
    ensures { IfOk result (λ v. v.items ≡ unescaped block text.now) }
{
    let mut out = Vec::new(alloc);
    let mut rest = text;
    'parts: loop {
        let next = push_plain(&mut out, rest)?;
        if let Some(_) = after_closing(block, next) {
            return Ok(out);
        }
        let Some((part, more)) = next_part(block, next) else {
            return Ok(out);
        };
        push_part(&mut out, part)?;
        rest = more;
    }
}

/// Whether the text is a block string, and what stands after its opening quotes.
fn body(text: &[u8]) -> Option<(bool, &[u8])>
    ensures { option_map (λ p. (p.0, p.1.now)) result ≡ body text.now }
{
    let (shape, rest) = piece(text)?;
    if !rest.is_empty() {
        return None;
    }
    let Shape::Token(kind) = shape else {
        return None;
    };
    match kind {
        TokenKind::Quoted => Some((false, from(text, 1))),
        TokenKind::Block => Some((true, from(text, 3))),
        _ => None,
    }
}

/// The value of a string by its body.
fn value_by(alloc: Global, block: bool, text: &[u8]) -> Result<String, OutOfMemory>
    requires { IsUtf8 (unescaped block text.now) }
    ensures { IfOk result (λ s. string_bytes s ≡ value_by block text.now) }
{
    let text = into_text(unescaped(alloc, block, text)?);
    if block {
        block_value(alloc, text.as_str())
    } else {
        Ok(text)
    }
}

/// The value of a text that is a string.
fn text_value(alloc: Global, text: &str) -> Result<Option<String>, OutOfMemory>
    ensures { IfOk result (λ o. option_map string_bytes o ≡ string_value text.now) }
{
    let Some((block, inner)) = body(text.as_bytes()) else {
        return Ok(None);
    };
    let value = value_by(alloc, block, inner)?;
    Ok(Some(value))
}

/// The value of a token by its text (section 2.9.4): the characters of a quoted string with each escape replaced, or
/// those of a block string by the steps of [`block_value`](crate::block_value). None where the text is no string; the
/// kind and the place of the token do not count. The only error is `OutOfMemory`.
pub fn string_value(alloc: Global, token: &Token<'_>) -> Result<Option<String>, OutOfMemory>
    ensures found { IfOk result (λ o.
        IfSome o (λ s. HasValue token.now.text.now (string_bytes s))) }
    ensures only { IfOk result (λ o. (value : List ℕ) →
        HasValue token.now.text.now value → option_map string_bytes o ≡ Some value) }
    ensures string { IfOk result (λ o.
        IsSome o ↔ (IsQuoted token.now.text.now ⊎ IsBlock token.now.text.now)) }
{
    text_value(alloc, token.text)
}

/// What the text of a string token stands for (section 2.9.4); no byte where the text is no string.
pub fn string_text(alloc: Global, text: &str) -> Result<Text, OutOfMemory>
    ensures { IfOk result (λ t. t ≡ string_text text.now) }
{
    match text_value(alloc, text)? {
        Some(value) => Ok(Text::from_string(value)),
        None => Ok(Text::new(alloc, "")?),
    }
}

/// Carries a law and does nothing: what [`string_text`] gives for a quoted string or a block string is its value, and
/// its only one.
pub fn string_text_law()
    ensures { (text value : List ℕ) → IsQuoted text ⊎ IsBlock text →
        (HasValue text value ↔ (value ≡ string_text text)) }
{}
