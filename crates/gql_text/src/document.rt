//! A schema document as its reader gives it. Each `at` is a place in the source, a byte offset: that of the name
//! unless the field says otherwise.

use gql_text_lexer::{Name, Text};
use gql_text_syntax::OperationType;
use gql_text_values::{ConstValue, TypeRef};
use sqlite_items::Items;

/// A schema document: section 3 of the GraphQL specification, October 2021.
#[derive(Debug, Drop)]
pub struct Document {
    pub definitions: Items<Definition>,
}

/// One definition of a document.
#[derive(Debug, Drop)]
pub enum Definition {
    /// `at` is the place of the word `schema`.
    SchemaBlock {
        roots: Items<RootLine>,
        at: usize,
    },
    Scalar(TypeHead),
    Object {
        head: TypeHead,
        implements: Items<Name>,
        fields: Items<FieldDef>,
    },
    Interface {
        head: TypeHead,
        implements: Items<Name>,
        fields: Items<FieldDef>,
    },
    Union {
        head: TypeHead,
        members: Items<Name>,
    },
    Enum {
        head: TypeHead,
        values: Items<EnumValueDef>,
    },
    Input {
        head: TypeHead,
        fields: Items<InputDef>,
    },
    Directive(DirectiveDef),
}

/// What all definitions of types have.
#[derive(Debug, Drop)]
pub struct TypeHead {
    pub name: Name,
    pub description: Option<Text>,
    pub uses: Items<DirectiveUse>,
    pub at: usize,
}

/// One line of a schema block. `at` is the place of its first word.
#[derive(Debug, Drop)]
pub struct RootLine {
    pub kind: OperationType,
    pub name: Name,
    pub at: usize,
}

/// A field of an object or of an interface.
#[derive(Debug, Drop)]
pub struct FieldDef {
    pub name: Name,
    pub description: Option<Text>,
    pub args: Items<InputDef>,
    pub ty: TypeRef,
    pub uses: Items<DirectiveUse>,
    pub at: usize,
}

/// An argument, or a field of an input object.
#[derive(Debug, Drop)]
pub struct InputDef {
    pub name: Name,
    pub description: Option<Text>,
    pub ty: TypeRef,
    pub default: Option<ConstValue>,
    pub uses: Items<DirectiveUse>,
    pub at: usize,
}

/// A value of an enum.
#[derive(Debug, Drop)]
pub struct EnumValueDef {
    pub name: Name,
    pub description: Option<Text>,
    pub uses: Items<DirectiveUse>,
    pub at: usize,
}

/// A use of a directive. `at` is the place of its `@`.
#[derive(Debug, Drop)]
pub struct DirectiveUse {
    pub name: Name,
    pub args: Items<(Name, ConstValue)>,
    pub at: usize,
}

/// The definition of a directive.
#[derive(Debug, Drop)]
pub struct DirectiveDef {
    pub name: Name,
    pub description: Option<Text>,
    pub args: Items<InputDef>,
    pub repeatable: bool,
    pub locations: Items<Name>,
    pub at: usize,
}
