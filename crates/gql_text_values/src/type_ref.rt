//! Type references: sections 2.11 and 3.4.1 of the GraphQL specification, October 2021.

ghost use Rattle.std.specs.Prelude.{◌≡◌, ◌↔◌, IsTrue, IfOk, Some};
ghost use Rattle.std.specs.Cmp.{on_equiv, partial_equiv_from_equiv};
ghost use Rattle.std.specs.Hash as fed;
ghost use Rattle.std.specs.Hash.{same_Alike, on_Alike};
ghost use Rattle.gql_text_values.specs.declared.type_ref.TypeRef.TheVariants as ty;
ghost use Rattle.gql_text_values.specs.TypeRefs.{Reference, type_text, reference, innermost, is_nullable, is_subtype, IsSingle};
ghost use Rattle.gql_text_values.specs.Shapes.{Shape, Fits};
ghost use Rattle.gql_text_values.specs.SameType.{same, writes};
ghost use Rattle.gql_text_values.specs.EqualTypes.{same_decides, same_equivalence};

use gql_text_lexer::{OutOfMemory, Text};
use sqlite_items::Boxed;
use std::alloc::Global;
use std::fmt;
use std::hash::{Hash, Hasher};

/// A type as it is written: a name, a type that is not null, or a list. It is printed as `N`, `T!` and `[T]`. Two are
/// equal where they are built alike from equal names.
#[derive(Debug, Drop)]
pub enum TypeRef {
    /// `N`
    Named(Text),
    /// `T!`
    NonNull(Boxed<TypeRef>),
    /// `[T]`
    List(Boxed<TypeRef>),
}

impl TypeRef {
    /// The name of the scalar of whole numbers of 32 bits: section 3.5.1.
    pub const INT: &'static str = "Int";
    /// The name of the scalar of floating-point numbers: section 3.5.2.
    pub const FLOAT: &'static str = "Float";
    /// The name of the scalar of texts: section 3.5.3.
    pub const STRING: &'static str = "String";
    /// The name of the scalar of `true` and `false`: section 3.5.4.
    pub const BOOLEAN: &'static str = "Boolean";
    /// The name of the scalar of identifiers: section 3.5.5.
    pub const ID: &'static str = "ID";
    /// The name of the scalar of files that a client sends.
    pub const UPLOAD: &'static str = "Upload";

    /// `N`, of any text.
    pub fn named(alloc: Global, type_name: &str) -> Result<TypeRef, OutOfMemory>
        ensures { IfOk result (λ t. t ≡ ty.Named type_name.now) }
    {
        Ok(TypeRef::Named(Text::new(alloc, type_name)?))
    }

    /// `N!`
    pub fn named_nn(alloc: Global, type_name: &str) -> Result<TypeRef, OutOfMemory>
        ensures { IfOk result (λ t. t ≡ ty.NonNull (ty.Named type_name.now)) }
    {
        TypeRef::named(alloc, type_name)?.non_null(alloc)
    }

    /// `[N]`
    pub fn named_list(alloc: Global, type_name: &str) -> Result<TypeRef, OutOfMemory>
        ensures { IfOk result (λ t. t ≡ ty.List (ty.Named type_name.now)) }
    {
        TypeRef::named(alloc, type_name)?.listed(alloc)
    }

    /// `[N!]`
    pub fn named_nn_list(alloc: Global, type_name: &str) -> Result<TypeRef, OutOfMemory>
        ensures { IfOk result (λ t. t ≡ ty.List (ty.NonNull (ty.Named type_name.now))) }
    {
        TypeRef::named_nn(alloc, type_name)?.listed(alloc)
    }

    /// `[N]!`
    pub fn named_list_nn(alloc: Global, type_name: &str) -> Result<TypeRef, OutOfMemory>
        ensures { IfOk result (λ t. t ≡ ty.NonNull (ty.List (ty.Named type_name.now))) }
    {
        TypeRef::named_list(alloc, type_name)?.non_null(alloc)
    }

    /// `[N!]!`
    pub fn named_nn_list_nn(alloc: Global, type_name: &str) -> Result<TypeRef, OutOfMemory>
        ensures { IfOk result (λ t.
            t ≡ ty.NonNull (ty.List (ty.NonNull (ty.Named type_name.now)))) }
    {
        TypeRef::named_nn_list(alloc, type_name)?.non_null(alloc)
    }

    /// `T!`
    fn non_null(self, alloc: Global) -> Result<TypeRef, OutOfMemory>
        ensures { IfOk result (λ t. t ≡ ty.NonNull self) }
    {
        Ok(TypeRef::NonNull(Boxed::new(alloc, self)?))
    }

    /// `[T]`
    fn listed(self, alloc: Global) -> Result<TypeRef, OutOfMemory>
        ensures { IfOk result (λ t. t ≡ ty.List self) }
    {
        Ok(TypeRef::List(Boxed::new(alloc, self)?))
    }

    /// The name within all lists and marks of non-null.
    pub fn type_name(&self) -> &str
        ensures { result.now ≡ innermost (reference self.now) }
    {
        match self {
            TypeRef::Named(name) => name.as_str(),
            TypeRef::NonNull(inner) => inner.get().type_name(),
            TypeRef::List(inner) => inner.get().type_name(),
        }
    }

    /// Whether null is a value of the type: false exactly for `T!`.
    pub fn is_nullable(&self) -> bool
        ensures { result ≡ is_nullable (reference self.now) }
    {
        match self {
            TypeRef::NonNull(_) => false,
            _ => true,
        }
    }

    /// Whether a value of the type `sub` may stand where `self` is asked for (section 5.8.5, AreTypesCompatible): two
    /// non-null types by their insides, any type and a non-null `sub` by the inside of `sub`, two names where they are
    /// equal, two lists by their items, and no others.
    pub fn is_subtype(&self, sub: &TypeRef) -> bool
        ensures cases { result ≡ is_subtype (reference self.now) (reference sub.now) }
        ensures shapes { IsSingle (reference self.now) → IsSingle (reference sub.now) →
            (IsTrue result ↔ ((s : Shape) → Fits (reference sub.now) s → Fits (reference self.now) s)) }
    {
        self.is_wider(sub)
    }

    /// The cases of `is_subtype`.
    fn is_wider(&self, sub: &TypeRef) -> bool
        ensures { result ≡ is_subtype (reference self.now) (reference sub.now) }
    {
        match (self, sub) {
            (TypeRef::NonNull(a), TypeRef::NonNull(b)) => a.get().is_wider(b.get()),
            (_, TypeRef::NonNull(b)) => self.is_wider(b.get()),
            (TypeRef::Named(a), TypeRef::Named(b)) => a.as_str() == b.as_str(),
            (TypeRef::List(a), TypeRef::List(b)) => a.get().is_wider(b.get()),
            _ => false,
        }
    }

    /// Whether both are built alike from equal names.
    fn is_same(&self, other: &TypeRef) -> bool
        ensures tested { result ≡ same (reference self.now) (reference other.now) }
        ensures equal { IsTrue result ↔ (self.now ≡ other.now) }
    {
        match (self, other) {
            (TypeRef::Named(a), TypeRef::Named(b)) => a.as_str() == b.as_str(),
            (TypeRef::NonNull(a), TypeRef::NonNull(b)) => a.get().is_same(b.get()),
            (TypeRef::List(a), TypeRef::List(b)) => a.get().is_same(b.get()),
            _ => false,
        }
    }

    /// An equal type reference.
    pub fn try_clone(&self, alloc: Global) -> Result<TypeRef, OutOfMemory>
        ensures { IfOk result (λ copy. copy ≡ self.now) }
    {
        Ok(match self {
            TypeRef::Named(name) => TypeRef::Named(name.try_clone(alloc)?),
            TypeRef::NonNull(inner) => {
                TypeRef::NonNull(Boxed::new(alloc, inner.get().try_clone(alloc)?)?)
            }
            TypeRef::List(inner) => {
                TypeRef::List(Boxed::new(alloc, inner.get().try_clone(alloc)?)?)
            }
        })
    }
}

/// That `is_subtype` is reflexive and transitive where no `!` stands twice in a row.
pub fn subtype_laws()
    ensures reflexive { (a : Reference) → IsSingle a → IsTrue (is_subtype a a) }
    ensures transitive { (a b c : Reference) → IsSingle a → IsSingle c →
        IsTrue (is_subtype a b) → IsTrue (is_subtype b c) → IsTrue (is_subtype a c) }
{}

impl fmt::Display for TypeRef {
    ghost output = { λ t. Some (type_text t) };

    fn fmt<W: fmt::Write>(&self, f: &mut fmt::Formatter<W>) -> fmt::Result {
        match self {
            TypeRef::Named(name) => f.write_str(name.as_str()),
            TypeRef::NonNull(inner) => {
                inner.get().fmt(f)?;
                f.write_str("!")
            }
            TypeRef::List(inner) => {
                f.write_str("[")?;
                inner.get().fmt(f)?;
                f.write_str("]")
            }
        }
    }
}

impl PartialEq for TypeRef {
    ghost eq = { λ a b. same (reference a) (reference b) };

    ghost laws = { partial_equiv_from_equiv (on_equiv reference same_equivalence) };

    fn eq(&self, other: &TypeRef) -> bool
        ensures tested { result ≡ same (reference self.now) (reference other.now) }
        ensures equal { IsTrue result ↔ (self.now ≡ other.now) }
    {
        self.is_same(other)
    }
}

impl Eq for TypeRef {
    ghost laws = { on_equiv reference same_equivalence };
}

impl Hash for TypeRef {
    ghost hash_input = { λ t. writes (reference t) };

    ghost respects_eq = { (on_Alike reference (same_Alike writes same_decides)).fed };

    fn hash<H: Hasher>(&self, state: &mut H) {
        match self {
            TypeRef::Named(name) => {
                state.write_u8(0);
                name.as_str().hash(state);
            }
            TypeRef::NonNull(inner) => {
                state.write_u8(1);
                inner.get().hash(state);
            }
            TypeRef::List(inner) => {
                state.write_u8(2);
                inner.get().hash(state);
            }
        }
    }
}
