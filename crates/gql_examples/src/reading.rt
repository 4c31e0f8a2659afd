//! A document that is read without a copy of its text, and walked: the fields of its objects, each with its type.

use gql_text::{Field, Kind, ReadError, WrittenDefinition, read_document};
use std::alloc::{AllocError, Global};

const DOCUMENT: &str = "type Query { orders: [Order!]! } type Order { id: ID! }";

/// Adds a line for a field of an object.
fn push_field(out: &mut String, object: &str, field: &Field) -> Result<(), AllocError> {
    out.push_str(object)?;
    out.push_str(".")?;
    out.push_str(field.key.name.as_str())?;
    out.push_str(" leads to ")?;
    out.push_str(field.ty.type_name())?;
    out.push_str("\n")
}

/// Adds a line for each field of an object, and nothing for another definition.
fn push_fields(out: &mut String, definition: &WrittenDefinition) -> Result<(), AllocError> {
    if let Kind::Object(object) = &definition.kind {
        for field in object.fields.as_slice() {
            push_field(out, object.key.name.as_str(), field)?;
        }
    }
    Ok(())
}

/// A line for each field of each object of a document.
fn fields(alloc: Global, document: &[u8]) -> Result<String, ReadError> {
    let document = read_document(alloc, document)?;
    let mut out = String::new(alloc);
    for definition in document.as_slice() {
        push_fields(&mut out, definition)?;
    }
    Ok(out)
}

pub(crate) fn example(alloc: Global) -> Option<String> {
    fields(alloc, DOCUMENT.as_bytes()).ok()
}
