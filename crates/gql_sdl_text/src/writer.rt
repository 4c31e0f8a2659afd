//! Texts that are written at the end of a growing one, and lists of parts.

ghost use Rattle.std.specs.Prelude.{◌≡◌, ◌++◌, OnOk};
ghost use Rattle.std.specs.List.{flat_map, join_by};
ghost use Rattle.gql_sdl_view.specs.Spelling.{body_text};
ghost use Rattle.gql_registry_meta.specs.Parts.{Text};
ghost use Rattle.gql_sdl_text.specs.Growth.{Grows};

use gql_text_lexer::OutOfMemory;
use std::alloc::Global;

/// How parts of one kind are written.
pub(crate) trait Writer<Part> {
    ghost text: { Self → Part → Text };

    /// Writes the text of a part at the end.
    fn push(&self, alloc: Global, out: &mut String, part: &Part) -> Result<(), OutOfMemory>
        ensures { OnOk result (Grows out.old out.new (text self.now part.now)) };
}

/// Writes the text.
pub(crate) fn push(out: &mut String, text: &str) -> Result<(), OutOfMemory>
    ensures { OnOk result (Grows out.old out.new text.now) }
{
    out.push_str(text)?;
    Ok(())
}

/// Writes the texts, one after another.
pub(crate) fn push_all(out: &mut String, texts: &[&str]) -> Result<(), OutOfMemory>
    ensures { OnOk result (Grows out.old out.new (flat_map (λ text. text.now) texts.now)) }
{
    for text in texts {
        out.push_str(text)?;
    }
    Ok(())
}

/// Writes the parts, one after another.
pub(crate) fn push_each<Part, W: Writer<Part>>(
    alloc: Global,
    out: &mut String,
    writer: &W,
    parts: &[&Part],
) -> Result<(), OutOfMemory>
    ensures { OnOk result (Grows out.old out.new
        (flat_map (λ part. W.text writer.now part.now) parts.now)) }
{
    for part in parts {
        writer.push(alloc, out, part)?;
    }
    Ok(())
}

/// Writes the parts, each after the separator.
fn push_after<Part, W: Writer<Part>>(
    alloc: Global,
    out: &mut String,
    writer: &W,
    separator: &str,
    parts: &[&Part],
) -> Result<(), OutOfMemory>
    ensures { OnOk result (Grows out.old out.new
        (flat_map (λ part. separator.now ++ W.text writer.now part.now) parts.now)) }
{
    for part in parts {
        out.push_str(separator)?;
        writer.push(alloc, out, part)?;
    }
    Ok(())
}

/// Writes the parts with the separator between them.
pub(crate) fn push_joined<Part, W: Writer<Part>>(
    alloc: Global,
    out: &mut String,
    writer: &W,
    separator: &str,
    parts: &[&Part],
) -> Result<(), OutOfMemory>
    ensures { OnOk result (Grows out.old out.new
        (join_by (λ part. W.text writer.now part.now) separator.now parts.now)) }
{
    let Some((first, more)) = parts.split_first() else {
        return Ok(());
    };
    writer.push(alloc, out, first)?;
    push_after(alloc, out, writer, separator, more)
}

/// Writes the members between braces, if there are any.
pub(crate) fn push_body<Part, W: Writer<Part>>(
    alloc: Global,
    out: &mut String,
    writer: &W,
    parts: &[&Part],
) -> Result<(), OutOfMemory>
    ensures { OnOk result (Grows out.old out.new
        (body_text (λ part. W.text writer.now part.now) parts.now)) }
{
    if parts.is_empty() {
        return Ok(());
    }
    push(out, " {\n")?;
    push_each(alloc, out, writer, parts)?;
    push(out, "}")
}

/// Writes the opening, the parts with the separator between them, and the texts of the closing.
pub(crate) fn push_enclosed<Part, W: Writer<Part>>(
    alloc: Global,
    out: &mut String,
    writer: &W,
    opening: &str,
    separator: &str,
    closing: &[&str],
    parts: &[&Part],
) -> Result<(), OutOfMemory>
    ensures { OnOk result (Grows out.old out.new (opening.now
        ++ (join_by (λ part. W.text writer.now part.now) separator.now parts.now
        ++ flat_map (λ text. text.now) closing.now))) }
{
    push(out, opening)?;
    push_joined(alloc, out, writer, separator, parts)?;
    push_all(out, closing)
}
