//! Kinds of types: section 3.4 of the GraphQL specification, October 2021.

ghost use Rattle.std.specs.Prelude.{◌≡◌, Some};
ghost use Rattle.gql_registry_meta.specs.Kinds.{kind_text};

use std::fmt;

/// The kind of a type. It is printed as the name of its variant.
#[derive(Clone, Copy, Debug, PartialEq, Eq)]
pub enum MetaTypeId {
    Scalar,
    Object,
    Interface,
    Union,
    Enum,
    InputObject,
}

impl MetaTypeId {
    /// The name of its variant, as it is printed.
    pub fn as_str(&self) -> &'static str
        ensures { result.now ≡ kind_text self.now }
    {
        match self {
            MetaTypeId::Scalar => "Scalar",
            MetaTypeId::Object => "Object",
            MetaTypeId::Interface => "Interface",
            MetaTypeId::Union => "Union",
            MetaTypeId::Enum => "Enum",
            MetaTypeId::InputObject => "InputObject",
        }
    }
}

impl fmt::Display for MetaTypeId {
    ghost output = { λ kind. Some (kind_text kind) };

    fn fmt<W: fmt::Write>(&self, f: &mut fmt::Formatter<W>) -> fmt::Result {
        f.write_str(self.as_str())
    }
}
