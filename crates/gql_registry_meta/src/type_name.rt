//! Type references that are read off their text: section 2.11 of the GraphQL specification, October 2021.

ghost use Rattle.std.specs.Prelude.{◌≡◌, ◌<◌, Some, length};
ghost use Rattle.std.specs.Option.{MatchOption};
ghost use Rattle.gql_text_values.specs.TypeRefs.{Reference, innermost, reference, type_text};
ghost use Rattle.gql_registry_meta.specs.TypeNames.{type_name_of, type_name_text, outer, reference_read, reference_of, is_subtype, is_list};
ghost use Rattle.gql_registry_meta.specs.TypeNames.{is_non_null, without_non_null, last_is, reference_text, outer_of, IsPrinted};

use gql_text_values::TypeRef;
use std::fmt;

/// One level of a type reference, and the text of what is inside. It is printed as `[T]`, `T!` or `N`.
#[derive(Clone, Copy, Debug, PartialEq, Eq)]
pub enum MetaTypeName<'a> {
    List(&'a str),
    NonNull(&'a str),
    Named(&'a str),
}

impl<'a> MetaTypeName<'a> {
    /// A text that ends in `!` is `NonNull` of the rest; one of two or more bytes with `[` first and `]` last is `List` of
    /// the middle; every other text is `Named`.
    pub fn create(type_name: &'a str) -> MetaTypeName<'a>
        ensures level { type_name_of result ≡ outer type_name.now }
        ensures text { type_name_text (type_name_of result) ≡ type_name.now }
        ensures printed { (ty : Reference) → IsPrinted type_name.now ty
            → type_name_of result ≡ outer_of ty }
    {
        level_of(type_name)
    }

    /// What `create` comes to at the innermost level: the first `Named`.
    pub fn concrete_typename(type_name: &'a str) -> &'a str
        ensures name { result.now ≡ innermost (reference_read type_name.now) }
        ensures printed { (ty : Reference) → IsPrinted type_name.now ty
            → result.now ≡ innermost ty }
    {
        innermost_of(type_name)
    }

    /// True exactly for `NonNull`.
    pub fn is_non_null(&self) -> bool
        ensures { result ≡ is_non_null (type_name_of self.now) }
    {
        match self {
            MetaTypeName::NonNull(_) => true,
            _ => false,
        }
    }

    /// The level within a `NonNull`; else the same.
    pub fn unwrap_non_null(&self) -> MetaTypeName<'a>
        ensures { type_name_of result ≡ without_non_null (type_name_of self.now) }
    {
        match self {
            MetaTypeName::NonNull(inner) => MetaTypeName::create(inner),
            _ => *self,
        }
    }

    /// Whether a value of the type `sub` may stand where this type is asked for: a `NonNull` or `Named` and a `NonNull`
    /// by the levels that their texts have, two `Named` where they are equal, two `List` by the levels of their texts,
    /// and no others.
    #[tactic(auto, using(crate::proofs::Levels::read_by_level))]
    pub fn is_subtype(&self, sub: &MetaTypeName<'_>) -> bool
        ensures { result ≡ is_subtype (reference_of self.now) (reference_of sub.now) }
    {
        let mut name = *self;
        let mut sub = *sub;
        loop {
            let (inner, sub_inner) = match (name, sub) {
                (MetaTypeName::NonNull(inner), MetaTypeName::NonNull(sub_inner)) => (
                    inner, sub_inner,
                ),
                (MetaTypeName::Named(text), MetaTypeName::NonNull(sub_inner)) => (text, sub_inner),
                (MetaTypeName::List(inner), MetaTypeName::List(sub_inner)) => (inner, sub_inner),
                (MetaTypeName::Named(text), MetaTypeName::Named(sub_text)) => {
                    return text == sub_text;
                }
                _ => return false,
            };
            name = MetaTypeName::create(inner);
            sub = MetaTypeName::create(sub_inner);
        }
    }

    /// True for `List`; for `NonNull` that of the level within; for `Named` whether its text ends in `]`.
    #[tactic(auto, using(crate::proofs::Levels::read_by_level))]
    pub fn is_list(&self) -> bool
        ensures { result ≡ is_list (reference_of self.now) }
    {
        let mut name = *self;
        loop {
            match name {
                MetaTypeName::List(_) => return true,
                MetaTypeName::NonNull(inner) => name = MetaTypeName::create(inner),
                MetaTypeName::Named(text) => return ends_in(text, b']'),
            }
        }
    }
}

/// The level that stands outside.
fn level_of(type_name: &str) -> MetaTypeName<'_>
    ensures level { type_name_of result ≡ outer type_name.now }
    ensures text { type_name_text (type_name_of result) ≡ type_name.now }
{
    let end = type_name.len();
    if ends_in(type_name, b'!') {
        MetaTypeName::NonNull(&type_name[..end - 1])
    } else if end >= 2 && type_name.as_bytes()[0] == b'[' && ends_in(type_name, b']') {
        MetaTypeName::List(&type_name[1..end - 1])
    } else {
        MetaTypeName::Named(type_name)
    }
}

/// The text of the innermost level.
#[tactic(auto, using(crate::proofs::Levels::read_by_level))]
fn innermost_of(type_name: &str) -> &str
    ensures { result.now ≡ innermost (reference_read type_name.now) }
{
    let mut rest = type_name;
    loop {
        match level_of(rest) {
            MetaTypeName::Named(name) => return name,
            MetaTypeName::NonNull(inner) => rest = inner,
            MetaTypeName::List(inner) => rest = inner,
        }
    }
}

/// Whether the text ends in the byte.
fn ends_in(text: &str, byte: u8) -> bool
    ensures { result ≡ last_is byte text.now }
{
    match text.as_bytes().last() {
        Some(last) => *last == byte,
        None => false,
    }
}

/// Carries a law: that a type reference is printed level by level, as `MetaTypeName::create` reads it.
pub fn printed_levels(ty: &TypeRef)
    ensures { type_text ty.now ≡ reference_text (reference ty.now) }
{
    let _ty = ty;
}

impl fmt::Display for MetaTypeName<'_> {
    ghost output = { λ name. Some (type_name_text (type_name_of name)) };

    fn fmt<W: fmt::Write>(&self, f: &mut fmt::Formatter<W>) -> fmt::Result {
        match self {
            MetaTypeName::Named(name) => f.write_str(name),
            MetaTypeName::NonNull(inner) => {
                f.write_str(inner)?;
                f.write_str("!")
            }
            MetaTypeName::List(inner) => {
                f.write_str("[")?;
                f.write_str(inner)?;
                f.write_str("]")
            }
        }
    }
}
