//! Names, values, tokens and type references of GraphQL, and the reader of schema documents. A user of the reader takes
//! all that it needs from here.
//!
//! ```rust
//! let document = read_document(alloc, b"type Query { orders: [Order!]! }")?;
//! for definition in document.as_slice() {
//!     if let Kind::Object(object) = &definition.kind {
//!         names.push(object.key.name.as_str())?;
//!     }
//! }
//! ```
#![tactic(auto)]

mod conversion;
mod document;
mod owner_document;
mod owner_fault;
mod owner_members;
mod owner_names;
mod owner_roots;
mod owner_types;
mod owner_uses;
mod owner_values;
mod roots;
mod sdl;
mod value_conversion;
mod written_document;

pub use document::{
    Definition, DirectiveDef, DirectiveUse, Document, EnumValueDef, FieldDef, InputDef, RootLine,
    TypeHead,
};
pub use gql_text_lexer::{
    Lexed, Name, NameError, Number, OutOfMemory, Text, Token, TokenKind, block_value, is_reserved,
    lex, next_token, quote, string_text, string_value,
};
pub use gql_text_syntax::{
    Argument, Description, EnumValue, Field, Implements, InputValue, Kind, Literal, NameSpan,
    ObjectLike, OperationType, PlacedName, ReadError, Root, TextSpan, TypeTree, Use, What,
    WrittenDefinition,
};
pub use gql_text_values::{ConstValue, TypeRef};
pub use sdl::{read_document, read_sdl};
pub use sqlite_items::{Boxed, Items};
pub use written_document::WrittenDocument;
