//! The value of a block string: section 2.9.4 of the GraphQL specification, October 2021, BlockStringValue.

ghost use Rattle.std.specs.Prelude.{◌≡◌, ◌<◌, ◌≤◌, ◌∷◌, ◌++◌, take, drop, OnOk, string_bytes, length, map, option_map, IfOk, IfSome};
ghost use Rattle.std.specs.List.{prefix_len};
ghost use Rattle.std.specs.Str.{IsUtf8};
ghost use Rattle.gql_text_lexer.specs.Lines.{is_white, is_blank_line, lines, least, with_line, common, cut, unindented, trim_start, trim_end, joined, join, block_value, in_one_line, after_break, more_lines};

use crate::bytes::from;
use crate::error::OutOfMemory;
use std::alloc::Global;

/// Whether the byte is a space or a tab.
fn is_white(b: u8) -> bool
    ensures { result ≡ is_white b }
{
    b == b' ' || b == b'\t'
}

/// Whether the line holds only spaces and tabs.
fn is_blank_line(line: &[u8]) -> bool
    ensures { result ≡ is_blank_line line.now }
{
    let mut rest = line;
    while let Some((first, more)) = rest.split_first() {
        if !is_white(*first) {
            return false;
        }
        rest = more;
    }
    true
}

/// How many spaces and tabs stand at the start.
fn indent(line: &[u8]) -> usize
    ensures { result ≡ prefix_len is_white line.now }
{
    line.iter().take_while(|b| is_white(**b)).count()
}

/// What stands after the line break at the start.
fn after_break(text: &[u8]) -> Option<&[u8]>
    ensures { option_map (λ r. r.now) result ≡ after_break text.now }
{
    match text.split_first() {
        Some((b'\n', more)) => Some(more),
        Some((b'\r', more)) => match more.split_first() {
            Some((b'\n', rest)) => Some(rest),
            _ => Some(more),
        },
        _ => None,
    }
}

/// How many bytes the first line has.
fn line_len(text: &[u8]) -> usize
    ensures { result ≡ prefix_len in_one_line text.now }
{
    text.iter()
        .take_while(|b| **b != b'\n' && **b != b'\r')
        .count()
}

/// The first line, and what stands after its line break.
fn first_line(text: &[u8]) -> (&[u8], Option<&[u8]>)
    ensures lines { lines text.now
        ≡ result.0.now ∷ more_lines (option_map (λ r. r.now) result.1) }
    ensures shorter { IfSome result.1 (λ r. length r.now < length text.now) }
{
    let len = line_len(text);
    (&text[..len], after_break(from(text, len)))
}

/// The lesser of a number and the least one so far.
fn least(n: usize, best: Option<usize>) -> Option<usize>
    ensures { result ≡ least n best }
{
    match best {
        None => Some(n),
        Some(m) => Some(n.min(m)),
    }
}

/// The common indent of the lines.
fn common(text: &[u8]) -> Option<usize>
    ensures { result ≡ common (lines text.now) }
{
    let mut best = None;
    let mut rest = text;
    'lines: loop {
        let (line, more) = first_line(rest);
        best = with_line(best, line);
        let Some(next) = more else {
            return best;
        };
        rest = next;
    }
}

/// The least indent, with that of a further line; a blank line does not count.
fn with_line(best: Option<usize>, line: &[u8]) -> Option<usize>
    ensures { result ≡ with_line best line.now }
{
    if is_blank_line(line) {
        best
    } else {
        least(indent(line), best)
    }
}

/// The line without this indent.
fn cut(indent: Option<usize>, line: &[u8]) -> &[u8]
    ensures { result.now ≡ cut indent line.now }
{
    match indent {
        None => line,
        Some(n) => from(line, n.min(line.len())),
    }
}

/// The lines, each but the first without the common indent.
fn unindented(alloc: Global, text: &[u8]) -> Result<Vec<&[u8]>, OutOfMemory>
    ensures { IfOk result (λ v. map (λ l. l.now) v.items ≡ unindented (lines text.now)) }
{
    let mut lines = Vec::new(alloc);
    let (first, more) = first_line(text);
    lines.push(first)?;
    let Some(second) = more else {
        return Ok(lines);
    };
    let indent = common(second);
    let mut rest = second;
    'lines: loop {
        let (line, more) = first_line(rest);
        lines.push(cut(indent, line))?;
        let Some(next) = more else {
            return Ok(lines);
        };
        rest = next;
    }
}

/// How many blank lines stand at the start.
fn leading_blank(lines: &[&[u8]]) -> usize
    ensures within { result ≤ length lines.now }
    ensures rest { map (λ l. l.now) (drop result lines.now)
        ≡ trim_start (map (λ l. l.now) lines.now) }
{
    let mut at = 0;
    while at < lines.len() && is_blank_line(lines[at]) {
        at += 1;
    }
    at
}

/// How many lines stand before the blank ones at the end.
fn before_blank(lines: &[&[u8]]) -> usize
    ensures within { result ≤ length lines.now }
    ensures kept { map (λ l. l.now) (take result lines.now)
        ≡ trim_end (map (λ l. l.now) lines.now) }
{
    let mut end = lines.len();
    while end > 0 && is_blank_line(lines[end - 1]) {
        end -= 1;
    }
    end
}

/// Appends each line after an LF.
fn push_joined(out: &mut Vec<u8>, lines: &[&[u8]]) -> Result<(), OutOfMemory>
    ensures { OnOk result (out.new.items
        ≡ out.old.items ++ joined (map (λ l. l.now) lines.now)) }
{
    for line in lines {
        out.push(b'\n')?;
        out.extend_from_slice(line)?;
    }
    Ok(())
}

/// The lines with LF between them.
fn join(alloc: Global, lines: &[&[u8]]) -> Result<Vec<u8>, OutOfMemory>
    ensures { IfOk result (λ v. v.items ≡ join (map (λ l. l.now) lines.now)) }
{
    let mut out = Vec::new(alloc);
    let Some((first, more)) = lines.split_first() else {
        return Ok(out);
    };
    out.extend_from_slice(first)?;
    push_joined(&mut out, more)?;
    Ok(out)
}

/// The lines that are left, joined.
fn kept(alloc: Global, lines: &[&[u8]]) -> Result<Vec<u8>, OutOfMemory>
    ensures { IfOk result (λ v.
        v.items ≡ join (trim_end (trim_start (map (λ l. l.now) lines.now)))) }
{
    let rest = &lines[leading_blank(lines)..];
    join(alloc, &rest[..before_blank(rest)])
}

/// Bytes that are UTF-8 as a text.
pub(crate) fn into_text(bytes: Vec<u8>) -> String
    requires { IsUtf8 bytes.items }
    ensures { string_bytes result ≡ bytes.items }
{
    match String::from_utf8(bytes) {
        Ok(text) => text,
        Err(_) => unreachable!(),
    }
}

/// The value of a block string from the text between its quotes, in which each `\"""` was replaced by `"""` (section
/// 2.9.4): without the common indent of the lines but the first, without blank lines at both ends, and with LF for each
/// line break. The text may be any text, and a `\"""` in it stays. The only error is `OutOfMemory`.
#[tactic(auto, unfolding(crate::specs::Lines::block_value))]
pub fn block_value(alloc: Global, raw: &str) -> Result<String, OutOfMemory>
    ensures { IfOk result (λ s. string_bytes s ≡ block_value raw.now) }
{
    let lines = unindented(alloc, raw.as_bytes())?;
    let bytes = kept(alloc, lines.as_slice())?;
    Ok(into_text(bytes))
}
