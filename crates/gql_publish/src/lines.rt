//! The lines that report why bytes are refused.

ghost use Rattle.std.specs.Prelude.{◌≡◌, ◌++◌, codes, IfOk};
ghost use Rattle.gql_publish.specs.Lines.{IsLine, what_text, at_line, line_of};

use gql_publish_load::{PublishError, What};
use gql_text::OutOfMemory;
use std::alloc::Global;

fn what_text(what: What) -> &'static str
    ensures { result.now ≡ what_text what }
{
    match what {
        What::Float => "float",
        What::Extend => "extend",
        What::SecondSchema => "second schema block",
        What::NoQuery => "schema block without query",
        What::SchemaDecoration => "decorated schema block",
        What::SubscriptionDecoration => "decorated subscription root",
        What::Attribute => "misused attribute",
    }
}

/// What is wrong, and its place.
fn at_line(alloc: Global, what: &str, at: usize) -> Result<String, OutOfMemory>
    ensures { IfOk result (λ line. IsLine line (at_line what.now at)) }
{
    Ok(format!(in alloc; "{what} at {at}")?)
}

/// What is wrong with a name, and its place.
fn name_line(alloc: Global, name: &str, what: &str, at: usize) -> Result<String, OutOfMemory>
    ensures { IfOk result (λ line.
        IsLine line (at_line (codes "\"" ++ (name.now ++ what.now)) at)) }
{
    Ok(format!(in alloc; "\"{name}{what} at {at}")?)
}

fn unsupported_line(alloc: Global, what: What, at: usize) -> Result<String, OutOfMemory>
    ensures { IfOk result (λ line.
        IsLine line (at_line (codes "unsupported " ++ what_text what) at)) }
{
    let what = what_text(what);
    Ok(format!(in alloc; "unsupported {what} at {at}")?)
}

/// The line that reports an error, without a line feed: what is wrong and the byte where it stands, or the sentence of the
/// broken rule.
pub fn fault_line(alloc: Global, error: &PublishError) -> Result<String, OutOfMemory>
    ensures { IfOk result (λ line. IsLine line (line_of error.now)) }
{
    match error {
        PublishError::NotUtf8(at) => at_line(alloc, "not UTF-8", *at),
        PublishError::Syntax(at) => at_line(alloc, "syntax error", *at),
        PublishError::TooDeep(at) => at_line(alloc, "nested too deep", *at),
        PublishError::NumberRange(at) => at_line(alloc, "number out of range", *at),
        PublishError::Unsupported(what, at) => unsupported_line(alloc, *what, *at),
        PublishError::Duplicate(name, at) => {
            name_line(alloc, name.as_str(), "\" is repeated", *at)
        }
        PublishError::ReservedName(name, at) => {
            name_line(alloc, name.as_str(), "\" is a reserved name", *at)
        }
        PublishError::Schema(error) => error.message(alloc),
        PublishError::OutOfMemory => Ok(String::from_str(alloc, "out of memory")?),
    }
}
