//! Descriptions: section 2.9.4 of the GraphQL specification, October 2021.

ghost use Rattle.std.specs.Prelude.{◌≡◌, ◌&&◌, not, false, OnOk, IfOk, string_bytes, encode_utf8};
ghost use Rattle.std.specs.Option.{option_map};
ghost use Rattle.std.specs.Str.{bytes_eq};
ghost use Rattle.gql_text_lexer.specs.Bytes.{is_source, all_of, quotes_at};
ghost use Rattle.gql_text_lexer.specs.Lines.{block_value};
ghost use Rattle.gql_text_lexer.specs.Quoting.{quote};
ghost use Rattle.gql_registry_meta.specs.Views.{text_of};
ghost use Rattle.gql_sdl_readback.specs.Descriptions.{indented, block_inside, has_three_quotes, is_permitted, has_line_feed, string_of, description_text};
ghost use Rattle.gql_sdl_view.specs.Descriptions.{described};
ghost use Rattle.gql_sdl_text.specs.Growth.{Grows};

use crate::writer::{push, push_all};
use gql_text_lexer::{OutOfMemory, block_value, quote};
use std::alloc::Global;

/// Whether the byte is one of a source character.
fn is_source(b: u8) -> bool
    ensures { result ≡ is_source b }
{
    b >= b' ' || b == b'\t' || b == b'\n' || b == b'\r'
}

/// Whether each byte is one of a source character.
fn are_source(text: &[u8]) -> bool
    ensures { result ≡ all_of is_source text.now }
{
    let mut rest = text;
    while let Some((first, more)) = rest.split_first() {
        if !is_source(*first) {
            return false;
        }
        rest = more;
    }
    true
}

/// Whether the text begins with three quotation marks.
fn starts_with_quotes(text: &[u8]) -> bool
    ensures { result ≡ quotes_at 0 text.now }
{
    text.len() > 2 && text[0] == b'"' && text[1] == b'"' && text[2] == b'"'
}

/// Whether three quotation marks stand in a row.
fn has_three_quotes(text: &[u8]) -> bool
    ensures { result ≡ has_three_quotes text.now }
{
    let mut rest = text;
    while let Some((_, more)) = rest.split_first() {
        if starts_with_quotes(rest) {
            return true;
        }
        rest = more;
    }
    false
}

/// Whether the text has a line feed.
fn has_line_feed(text: &[u8]) -> bool
    ensures { result ≡ has_line_feed text.now }
{
    let mut rest = text;
    while let Some((first, more)) = rest.split_first() {
        if *first == b'\n' {
            return true;
        }
        rest = more;
    }
    false
}

/// Whether what stands inside a block string is read again as the text.
fn reads_back(alloc: Global, inside: &str, text: &str) -> Result<bool, OutOfMemory>
    ensures { IfOk result (λ b. b ≡ (all_of is_source inside.now
        && not (has_three_quotes inside.now) && bytes_eq (block_value inside.now) text.now)) }
{
    if !are_source(inside.as_bytes()) || has_three_quotes(inside.as_bytes()) {
        return Ok(false);
    }
    let value = block_value(alloc, inside)?;
    Ok(value.as_str() == text)
}

/// Writes a character, and the indent after a line feed.
fn push_indented_char(out: &mut String, indent: &str, c: char) -> Result<(), OutOfMemory>
    ensures { OnOk result (Grows out.old out.new (indented indent.now (encode_utf8 c))) }
{
    if c == '\n' {
        return push_all(out, &["\n", indent]);
    }
    out.push(c)?;
    Ok(())
}

/// Writes the text with the indent after each line feed.
fn push_indented(out: &mut String, indent: &str, text: &str) -> Result<(), OutOfMemory>
    ensures { OnOk result (Grows out.old out.new (indented indent.now text.now)) }
{
    for c in text.chars() {
        push_indented_char(out, indent, c)?;
    }
    Ok(())
}

/// What stands between the quotes of a block string.
fn block_inside(alloc: Global, indent: &str, text: &str) -> Result<String, OutOfMemory>
    ensures { IfOk result (λ inside. string_bytes inside ≡ block_inside indent.now text.now) }
{
    let mut inside = String::new(alloc);
    push_all(&mut inside, &["\n", indent])?;
    push_indented(&mut inside, indent, text)?;
    push_all(&mut inside, &["\n", indent])?;
    Ok(inside)
}

/// Writes the text as a quoted string.
pub(crate) fn push_quoted(alloc: Global, out: &mut String, text: &str) -> Result<(), OutOfMemory>
    ensures { OnOk result (Grows out.old out.new (quote text.now)) }
{
    let quoted = quote(alloc, text)?;
    push(out, quoted.as_str())
}

/// Writes the text as a block string where it is read again as one, and else as a quoted string.
fn push_block(alloc: Global, out: &mut String, indent: &str, text: &str) -> Result<(), OutOfMemory>
    ensures { OnOk result (Grows out.old out.new (string_of false indent.now text.now)) }
{
    let inside = block_inside(alloc, indent, text)?;
    if reads_back(alloc, inside.as_str(), text)? {
        push_all(out, &["\"\"\"", inside.as_str(), "\"\"\""])
    } else {
        push_quoted(alloc, out, text)
    }
}

/// Writes the text as a string.
fn push_string(
    alloc: Global,
    out: &mut String,
    single: bool,
    indent: &str,
    text: &str,
) -> Result<(), OutOfMemory>
    ensures { OnOk result (Grows out.old out.new (string_of single indent.now text.now)) }
{
    if single && !has_line_feed(text.as_bytes()) {
        push_quoted(alloc, out, text)
    } else {
        push_block(alloc, out, indent, text)
    }
}

/// Writes a description on lines of its own, after this indent.
pub(crate) fn push_description(
    alloc: Global,
    out: &mut String,
    single: bool,
    indent: &str,
    text: &str,
) -> Result<(), OutOfMemory>
    ensures { OnOk result (Grows out.old out.new (description_text single indent.now text.now)) }
{
    push(out, indent)?;
    push_string(alloc, out, single, indent, text)?;
    push(out, "\n")
}

/// Writes a description on lines of its own before its owner, if there is one.
pub(crate) fn push_described(
    alloc: Global,
    out: &mut String,
    single: bool,
    indent: &str,
    description: &Option<String>,
) -> Result<(), OutOfMemory>
    ensures { OnOk result (Grows out.old out.new
        (described single indent.now (option_map text_of description.now))) }
{
    match description {
        None => Ok(()),
        Some(text) => push_description(alloc, out, single, indent, text.as_str()),
    }
}
