//! The canonical SDL of a document.

use gql_publish::{PublishError, SDLExportOptions, canonical_sdl};
use std::alloc::Global;

const DOCUMENT: &str = r#"
directive @auth(scope: String!) on FIELD_DEFINITION
interface Node { id: ID! }
type Query { node(id: ID!): Node @auth(scope: "staff") }
"What a customer ordered." type Order implements Node {
  id: ID!, total: Int @deprecated(reason: "Use lines."), lines(first: Int = 10): [String!]! }
"#;

/// The canonical SDL of a document, with fields in name order and an indent of two spaces.
fn canonical(alloc: Global, document: &[u8]) -> Result<String, PublishError> {
    let options = SDLExportOptions::new().sorted_fields().use_space_ident();
    canonical_sdl(alloc, document, options)
}

pub(crate) fn example(alloc: Global) -> Option<String> {
    canonical(alloc, DOCUMENT.as_bytes()).ok()
}
