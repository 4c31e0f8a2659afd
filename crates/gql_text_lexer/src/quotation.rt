//! A text as one quoted string: the escapes of section 2.9.4 of the GraphQL specification, October 2021.

ghost use Rattle.std.specs.Prelude.{◌≡◌, ◌<◌, ◌++◌, string_bytes, OnOk, IfOk};
ghost use Rattle.gql_text_lexer.specs.Forms.{part_text};
ghost use Rattle.gql_text_lexer.specs.Quoting.{hex_digit, control, quoting, quoted_byte, quote};
ghost use Rattle.gql_text_lexer.specs.Tokens.{IsOneQuoted};
ghost use Rattle.gql_text_lexer.specs.Values.{HasValue};

use crate::error::OutOfMemory;
use crate::lines::into_text;
use crate::string::Part;
use std::alloc::Global;

/// An upper-case hexadecimal digit.
fn hex_digit(n: u8) -> u8
    requires { n < 16 }
    ensures { result ≡ hex_digit n }
{
    if n < 10 { b'0' + n } else { b'A' - 10 + n }
}

/// A byte below 32 as `\u00` and two digits.
fn control(b: u8) -> Part
    requires { b < 32 }
    ensures { result ≡ control b }
{
    if b < 16 {
        Part::Unicode(b'0', b'0', b'0', hex_digit(b))
    } else {
        Part::Unicode(b'0', b'0', b'1', hex_digit(b - 16))
    }
}

/// The part that stands for a byte.
fn quoting(b: u8) -> Part
    ensures { result ≡ quoting b }
{
    match b {
        b'"' | b'\\' => Part::Escape(b),
        8 => Part::Escape(b'b'),
        12 => Part::Escape(b'f'),
        b'\n' => Part::Escape(b'n'),
        b'\r' => Part::Escape(b'r'),
        b'\t' => Part::Escape(b't'),
        0..32 => control(b),
        _ => Part::Plain(b),
    }
}

/// Appends a part as it is written.
fn push_written(out: &mut Vec<u8>, part: Part) -> Result<(), OutOfMemory>
    ensures { OnOk result (out.new.items ≡ out.old.items ++ part_text part) }
{
    match part {
        Part::Plain(b) => out.push(b)?,
        Part::Escape(c) => out.extend_from_slice(&[b'\\', c])?,
        Part::Unicode(a, b, c, d) => out.extend_from_slice(&[b'\\', b'u', a, b, c, d])?,
        Part::Quotes => out.extend_from_slice(b"\\\"\"\"")?,
    }
    Ok(())
}

/// The bytes of a quoted string.
fn quoted_bytes(alloc: Global, text: &[u8]) -> Result<Vec<u8>, OutOfMemory>
    ensures { IfOk result (λ v. v.items ≡ quote text.now) }
{
    let mut out = Vec::new(alloc);
    out.push(b'"')?;
    for b in text {
        push_written(&mut out, quoting(*b))?;
    }
    out.push(b'"')?;
    Ok(out)
}

/// The text as one quoted string (section 2.9.4). `"` and `\` get a backslash; U+0008, U+000C, LF, CR and tab are `\b`,
/// `\f`, `\n`, `\r` and `\t`; each other character below U+0020 is `\u00` and two upper-case hexadecimal digits. The only
/// error is `OutOfMemory`.
pub fn quote(alloc: Global, text: &str) -> Result<String, OutOfMemory>
    ensures text { IfOk result (λ s. string_bytes s ≡ quote text.now) }
    ensures token { IfOk result (λ s. IsOneQuoted (string_bytes s)) }
    ensures value { IfOk result (λ s. HasValue (string_bytes s) text.now) }
{
    Ok(into_text(quoted_bytes(alloc, text.as_bytes())?))
}
