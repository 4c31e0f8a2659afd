//! Sample texts: schema documents with a given number of types beside the query root.
#![tactic(auto)]

ghost use Rattle.std.specs.Prelude.{◌≡◌, ◌++◌, ◌≤◌, IfOk, OnOk, string_bytes};
ghost use Rattle.gql_publish_sample.specs.Sample.{kind_at, line_of, sample, AreValid};

pub use gql_text_lexer::OutOfMemory;
use std::alloc::{AllocError, Global};

/// Writes the line of the type with this number at the end. Its name is `T` and the number, and its kind is that of its
/// turn.
fn write_line(text: &mut String, number: u32) -> Result<(), AllocError>
    ensures { OnOk result (string_bytes text.new
        ≡ string_bytes text.old ++ line_of (kind_at number) number) }
{
    match number % 4 {
        0 => write!(text, "type T{number}{{b:Int a:Query}}\n"),
        1 => write!(text, "interface T{number}{{a:Query}}\n"),
        2 => write!(text, "enum T{number}{{B A}}\n"),
        _ => write!(text, "input T{number}{{b:T{}! a:Int=-1}}\n", number - 1),
    }
}

/// A schema document with the type `Query` and this number of types more, 1 to 20,000. The last of them stands first, and
/// objects, interfaces, enums and input objects take turns. It is a valid document, as [`sample_laws`] says.
pub fn sample_text(alloc: Global, types: u32) -> Result<String, OutOfMemory>
    requires least { 1 ≤ types }
    requires most { types ≤ 20000 }
    ensures { IfOk result (λ text. string_bytes text ≡ sample types) }
{
    let mut text = String::from_str(alloc, "type Query{v:Int}\n")?;
    for number in (0..types).rev() {
        write_line(&mut text, number)?;
    }
    Ok(text)
}

/// A law of sample texts, to be named by the proofs of callers: each of them is a valid document.
pub fn sample_laws()
    ensures { AreValid }
{}
