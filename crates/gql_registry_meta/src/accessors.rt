//! What a type is, and what it has: sections 3.4 to 3.10 of the GraphQL specification, October 2021.

ghost use Rattle.std.specs.Prelude.{◌≡◌, Some};
ghost use Rattle.std.specs.Option.{option_map, option_copied};
ghost use Rattle.gql_registry_meta.specs.Parts.{name_of};
ghost use Rattle.gql_registry_meta.specs.Views.{names_of, field_of, fields_in, meta_of};
ghost use Rattle.gql_registry_meta.specs.Kinds.{kind_of, is_composite, is_abstract, is_leaf, is_input, fields_of, field_under};
ghost use Rattle.gql_registry_meta.specs.Kinds.{possible_types_of, is_possible_type, has_possible, type_overlap, visible_of, is_shown};

use crate::context::{Context, is_shown};
use crate::field::MetaField;
use crate::meta_type::MetaType;
use crate::type_id::MetaTypeId;
use indexmap::{IndexMap, IndexSet};

impl MetaType {
    /// The kind of the type.
    pub fn type_id(&self) -> MetaTypeId
        ensures { result ≡ kind_of (meta_of self.now) }
    {
        match self {
            MetaType::Scalar { .. } => MetaTypeId::Scalar,
            MetaType::Object { .. } => MetaTypeId::Object,
            MetaType::Interface { .. } => MetaTypeId::Interface,
            MetaType::Union { .. } => MetaTypeId::Union,
            MetaType::Enum { .. } => MetaTypeId::Enum,
            MetaType::InputObject { .. } => MetaTypeId::InputObject,
        }
    }

    /// The name of the type.
    pub fn name(&self) -> &str
        ensures { result.now ≡ name_of (meta_of self.now) }
    {
        match self {
            MetaType::Scalar { name, .. } => name.as_str(),
            MetaType::Object { name, .. } => name.as_str(),
            MetaType::Interface { name, .. } => name.as_str(),
            MetaType::Union { name, .. } => name.as_str(),
            MetaType::Enum { name, .. } => name.as_str(),
            MetaType::InputObject { name, .. } => name.as_str(),
        }
    }

    /// The fields of an object or an interface.
    pub fn fields(&self) -> Option<&IndexMap<String, MetaField>>
        ensures { option_map (λ fields. fields_in fields.now) result
            ≡ fields_of (meta_of self.now) }
    {
        match self {
            MetaType::Object { fields, .. } => Some(fields),
            MetaType::Interface { fields, .. } => Some(fields),
            _ => None,
        }
    }

    /// The field under a key, of an object or an interface.
    pub fn field_by_name(&self, name: &str) -> Option<&MetaField>
        ensures { option_map field_of (option_copied result)
            ≡ field_under name.now (meta_of self.now) }
    {
        self.fields()?.get(name)
    }

    /// The rule that shows the type.
    fn visible(&self) -> Option<u32>
        ensures { result ≡ visible_of (meta_of self.now) }
    {
        match self {
            MetaType::Scalar { visible, .. } => *visible,
            MetaType::Object { visible, .. } => *visible,
            MetaType::Interface { visible, .. } => *visible,
            MetaType::Union { visible, .. } => *visible,
            MetaType::Enum { visible, .. } => *visible,
            MetaType::InputObject { visible, .. } => *visible,
        }
    }

    /// Whether the type is shown: always without a rule, and else where its rule holds.
    pub fn is_visible<C: Context>(&self, ctx: &C) -> bool
        ensures { result ≡ is_shown (C.rules ctx.now) (visible_of (meta_of self.now)) }
    {
        is_shown(ctx, self.visible())
    }

    /// True for objects, interfaces and unions.
    pub fn is_composite(&self) -> bool
        ensures { result ≡ is_composite (kind_of (meta_of self.now)) }
    {
        matches!(
            self,
            MetaType::Object { .. } | MetaType::Interface { .. } | MetaType::Union { .. }
        )
    }

    /// True for interfaces and unions.
    pub fn is_abstract(&self) -> bool
        ensures { result ≡ is_abstract (kind_of (meta_of self.now)) }
    {
        matches!(self, MetaType::Interface { .. } | MetaType::Union { .. })
    }

    /// True for scalars and enums.
    pub fn is_leaf(&self) -> bool
        ensures { result ≡ is_leaf (kind_of (meta_of self.now)) }
    {
        matches!(self, MetaType::Scalar { .. } | MetaType::Enum { .. })
    }

    /// True for scalars, enums and input objects: section 3.4.2.
    pub fn is_input(&self) -> bool
        ensures { result ≡ is_input (kind_of (meta_of self.now)) }
    {
        matches!(
            self,
            MetaType::Scalar { .. } | MetaType::Enum { .. } | MetaType::InputObject { .. }
        )
    }

    /// Whether an object of this name is a value of the type: it is among the possible types of an interface or a union,
    /// or it is the object itself. No type of another kind has such values.
    #[tactic(auto, using(crate::proofs::Names::names_have_text))]
    pub fn is_possible_type(&self, type_name: &str) -> bool
        ensures { result ≡ is_possible_type type_name.now (meta_of self.now) }
    {
        match self {
            MetaType::Object { name, .. } => name.as_str() == type_name,
            MetaType::Interface { possible_types, .. } => possible_types.contains(type_name),
            MetaType::Union { possible_types, .. } => possible_types.contains(type_name),
            _ => false,
        }
    }

    /// The possible types of an interface or a union.
    pub fn possible_types(&self) -> Option<&IndexSet<String>>
        ensures { option_map (λ names. names_of names.now) result
            ≡ possible_types_of (meta_of self.now) }
    {
        match self {
            MetaType::Interface { possible_types, .. } => Some(possible_types),
            MetaType::Union { possible_types, .. } => Some(possible_types),
            _ => None,
        }
    }

    /// Whether the types have one name, or some object may be a value of both: two abstract types where a possible type
    /// of the first is one of the second, and an abstract type and another where the name of the other is a possible
    /// type.
    pub fn type_overlap(&self, ty: &MetaType) -> bool
        ensures { result ≡ type_overlap (meta_of self.now) (meta_of ty.now) }
    {
        if self.name() == ty.name() {
            return true;
        }
        match (self.is_abstract(), ty.is_abstract()) {
            (true, true) => match self.possible_types() {
                None => false,
                Some(names) => has_possible(names, ty),
            },
            (true, false) => self.is_possible_type(ty.name()),
            (false, true) => ty.is_possible_type(self.name()),
            (false, false) => false,
        }
    }
}

/// Whether one of the names is that of a possible type.
fn has_possible(names: &IndexSet<String>, ty: &MetaType) -> bool
    ensures { result ≡ has_possible (Some (names_of names.now)) (meta_of ty.now) }
{
    for name in names.iter() {
        if ty.is_possible_type(name.as_str()) {
            return true;
        }
    }
    false
}
