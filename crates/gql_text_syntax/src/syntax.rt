//! The tree of a document as it is written, with each place at which a fault can stand.

ghost use Rattle.std.specs.Prelude.{◌≡◌, IfOk};
ghost use Rattle.gql_text_values.specs.TypeRefs.{innermost, reference};
ghost use Rattle.gql_text_syntax.specs.Types.{type_of};

use crate::operation::OperationType;
use crate::span::{NameSpan, TextSpan};
use gql_text_lexer::{Number, OutOfMemory};
use gql_text_values::TypeRef;
use sqlite_items::{Boxed, Items};
use std::alloc::Global;

/// A name and its place.
#[derive(Debug, Drop)]
pub struct PlacedName<'t> {
    pub name: NameSpan<'t>,
    pub at: usize,
}

/// A type as it is written, section 2.11: `N`, `T!` or `[T]`.
#[derive(Debug, Drop)]
pub enum TypeTree<'t> {
    /// `N`
    Named(NameSpan<'t>),
    /// `T!`
    NonNull(Boxed<TypeTree<'t>>),
    /// `[T]`
    List(Boxed<TypeTree<'t>>),
}

impl<'t> TypeTree<'t> {
    /// The name within all lists and marks of non-null.
    pub fn type_name(&self) -> &'t str
        ensures { result.now ≡ innermost (reference (type_of self.now)) }
    {
        match self {
            TypeTree::Named(name) => name.as_str(),
            TypeTree::NonNull(inner) => inner.get().type_name(),
            TypeTree::List(inner) => inner.get().type_name(),
        }
    }

    /// The type reference that is built alike, with a copy of the name.
    pub fn to_type_ref(&self, alloc: Global) -> Result<TypeRef, OutOfMemory>
        ensures { IfOk result (λ t. t ≡ type_of self.now) }
    {
        Ok(match self {
            TypeTree::Named(name) => TypeRef::Named(name.to_text(alloc)?),
            TypeTree::NonNull(inner) => {
                TypeRef::NonNull(Boxed::new(alloc, inner.get().to_type_ref(alloc)?)?)
            }
            TypeTree::List(inner) => {
                TypeRef::List(Boxed::new(alloc, inner.get().to_type_ref(alloc)?)?)
            }
        })
    }
}

/// A value as it is written, with the places of the keys of its objects.
#[derive(Debug, Drop)]
pub enum Literal<'t> {
    Null,
    Number(Number),
    String(TextSpan<'t>),
    Boolean(bool),
    Enum(NameSpan<'t>),
    List(Items<Literal<'t>>),
    Object(Items<(PlacedName<'t>, Literal<'t>)>),
}

/// The value of a description, and the place of its token.
#[derive(Debug, Drop)]
pub struct Description<'t> {
    pub text: TextSpan<'t>,
    pub at: usize,
}

/// An argument of a use of a directive, section 2.6.
#[derive(Debug, Drop)]
pub struct Argument<'t> {
    pub key: PlacedName<'t>,
    pub value: Literal<'t>,
}

/// A use of a directive, with the place of its `@`.
#[derive(Debug, Drop)]
pub struct Use<'t> {
    pub at: usize,
    pub name: NameSpan<'t>,
    pub arguments: Items<Argument<'t>>,
}

/// An argument, or a field of an input object.
#[derive(Debug, Drop)]
pub struct InputValue<'t> {
    pub description: Option<Description<'t>>,
    pub key: PlacedName<'t>,
    pub ty: TypeTree<'t>,
    pub default: Option<Literal<'t>>,
    pub uses: Items<Use<'t>>,
}

/// A field of an object or of an interface, section 3.6.
#[derive(Debug, Drop)]
pub struct Field<'t> {
    pub description: Option<Description<'t>>,
    pub key: PlacedName<'t>,
    pub arguments: Items<InputValue<'t>>,
    pub ty: TypeTree<'t>,
    pub uses: Items<Use<'t>>,
}

/// A value of an enum, section 3.9.
#[derive(Debug, Drop)]
pub struct EnumValue<'t> {
    pub description: Option<Description<'t>>,
    pub key: PlacedName<'t>,
    pub uses: Items<Use<'t>>,
}

/// A line of a schema block, with the place of its first word.
#[derive(Debug, Drop)]
pub struct Root<'t> {
    pub kind: OperationType,
    pub at: usize,
    pub name: NameSpan<'t>,
}

/// The word `implements` and what follows it.
#[derive(Debug, Drop)]
pub struct Implements<'t> {
    pub at: usize,
    pub names: Items<PlacedName<'t>>,
}

/// What an object or an interface has after its word.
#[derive(Debug, Drop)]
pub struct ObjectLike<'t> {
    pub key: PlacedName<'t>,
    pub implements: Option<Implements<'t>>,
    pub uses: Items<Use<'t>>,
    pub fields: Items<Field<'t>>,
}

/// A definition after its description.
#[derive(Debug, Drop)]
pub enum Kind<'t> {
    Schema {
        at: usize,
        uses: Items<Use<'t>>,
        roots: Items<Root<'t>>,
    },
    Scalar {
        key: PlacedName<'t>,
        uses: Items<Use<'t>>,
    },
    Object(ObjectLike<'t>),
    Interface(ObjectLike<'t>),
    Union {
        key: PlacedName<'t>,
        uses: Items<Use<'t>>,
        members: Items<PlacedName<'t>>,
    },
    Enum {
        key: PlacedName<'t>,
        uses: Items<Use<'t>>,
        values: Items<EnumValue<'t>>,
    },
    Input {
        key: PlacedName<'t>,
        uses: Items<Use<'t>>,
        fields: Items<InputValue<'t>>,
    },
    Directive {
        key: PlacedName<'t>,
        arguments: Items<InputValue<'t>>,
        repeatable: bool,
        locations: Items<NameSpan<'t>>,
    },
}

/// A definition with its description, section 3.
#[derive(Debug, Drop)]
pub struct WrittenDefinition<'t> {
    pub description: Option<Description<'t>>,
    pub kind: Kind<'t>,
}
