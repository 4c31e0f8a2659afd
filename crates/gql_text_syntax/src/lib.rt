//! The tree of a schema document as it is written, and the reader of it.
#![tactic(auto)]

mod cursor;
mod error;
mod item;
mod operation;
mod read_definition;
mod read_document;
mod read_member;
mod read_names;
mod read_type;
mod read_value;
mod sort;
mod span;
mod stopped;
mod syntax;

pub use error::{ReadError, What};
pub use operation::OperationType;
pub use read_document::read_written;
pub use span::{NameSpan, TextSpan};
pub use syntax::{
    Argument, Description, EnumValue, Field, Implements, InputValue, Kind, Literal, ObjectLike,
    PlacedName, Root, TypeTree, Use, WrittenDefinition,
};
