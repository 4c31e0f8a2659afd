//! Copies of types.

ghost use Rattle.std.specs.Prelude.{◌≡◌, IfOk};
ghost use Rattle.gql_registry_meta.specs.Kinds.{kind_of};
ghost use Rattle.gql_registry_meta.specs.Views.{meta_of, validator_of};
ghost use Rattle.gql_registry_meta.specs.declared.type_id.MetaTypeId.TheVariants as kind;

use crate::copies::{
    copy_common, copy_enum_values, copy_fields, copy_input_values, copy_names, copy_optional,
    copy_optional_texts, copy_texts,
};
use crate::meta_type::MetaType;
use gql_text_lexer::OutOfMemory;
use std::alloc::{AllocError, Global};

impl Clone for MetaType {
    ghost is_clone = { λ a b. (meta_of b ≡ meta_of a) × (validator_of b ≡ validator_of a) };

    fn clone(&self) -> Result<Self, AllocError> {
        match self {
            MetaType::Scalar { .. } => copy_scalar(self),
            MetaType::Object { .. } => copy_object(self),
            MetaType::Interface { .. } => copy_interface(self),
            MetaType::Union { .. } => copy_union(self),
            MetaType::Enum { .. } => copy_enumeration(self),
            MetaType::InputObject { .. } => copy_input_object(self),
        }
    }
}

impl MetaType {
    /// A value with equal parts.
    pub fn try_clone(&self, _alloc: Global) -> Result<MetaType, OutOfMemory>
        ensures parts { IfOk result (λ copy. meta_of copy ≡ meta_of self.now) }
        ensures validator { IfOk result (λ copy. validator_of copy ≡ validator_of self.now) }
    {
        Ok(self.clone()?)
    }
}

/// A copy of a scalar.
fn copy_scalar(ty: &MetaType) -> Result<MetaType, AllocError>
    requires { kind_of (meta_of ty.now) ≡ kind.Scalar }
    ensures parts { IfOk result (λ copy. meta_of copy ≡ meta_of ty.now) }
    ensures validator { IfOk result (λ copy. validator_of copy ≡ validator_of ty.now) }
{
    let MetaType::Scalar {
        name,
        description,
        is_valid,
        visible,
        inaccessible,
        tags,
        specified_by_url,
        directive_invocations,
        requires_scopes,
    } = ty
    else {
        unreachable!()
    };
    let common = copy_common(name, description, tags, directive_invocations)?;
    let specified_by_url = copy_optional(specified_by_url)?;
    let requires_scopes = copy_texts(requires_scopes)?;
    Ok(MetaType::Scalar {
        name: common.name,
        description: common.description,
        is_valid: *is_valid,
        visible: *visible,
        inaccessible: *inaccessible,
        tags: common.tags,
        specified_by_url,
        directive_invocations: common.directive_invocations,
        requires_scopes,
    })
}

/// A copy of an object.
fn copy_object(ty: &MetaType) -> Result<MetaType, AllocError>
    requires { kind_of (meta_of ty.now) ≡ kind.Object }
    ensures parts { IfOk result (λ copy. meta_of copy ≡ meta_of ty.now) }
    ensures validator { IfOk result (λ copy. validator_of copy ≡ validator_of ty.now) }
{
    let MetaType::Object {
        name,
        description,
        fields,
        cache_control,
        extends,
        shareable,
        resolvable,
        keys,
        visible,
        inaccessible,
        interface_object,
        tags,
        is_subscription,
        directive_invocations,
        requires_scopes,
    } = ty
    else {
        unreachable!()
    };
    let common = copy_common(name, description, tags, directive_invocations)?;
    let fields = copy_fields(fields)?;
    let keys = copy_optional_texts(keys)?;
    let requires_scopes = copy_texts(requires_scopes)?;
    Ok(MetaType::Object {
        name: common.name,
        description: common.description,
        fields,
        cache_control: *cache_control,
        extends: *extends,
        shareable: *shareable,
        resolvable: *resolvable,
        keys,
        visible: *visible,
        inaccessible: *inaccessible,
        interface_object: *interface_object,
        tags: common.tags,
        is_subscription: *is_subscription,
        directive_invocations: common.directive_invocations,
        requires_scopes,
    })
}

/// A copy of an interface.
fn copy_interface(ty: &MetaType) -> Result<MetaType, AllocError>
    requires { kind_of (meta_of ty.now) ≡ kind.Interface }
    ensures parts { IfOk result (λ copy. meta_of copy ≡ meta_of ty.now) }
    ensures validator { IfOk result (λ copy. validator_of copy ≡ validator_of ty.now) }
{
    let MetaType::Interface {
        name,
        description,
        fields,
        possible_types,
        extends,
        keys,
        visible,
        inaccessible,
        tags,
        directive_invocations,
        requires_scopes,
    } = ty
    else {
        unreachable!()
    };
    let common = copy_common(name, description, tags, directive_invocations)?;
    let fields = copy_fields(fields)?;
    let possible_types = copy_names(possible_types)?;
    let keys = copy_optional_texts(keys)?;
    let requires_scopes = copy_texts(requires_scopes)?;
    Ok(MetaType::Interface {
        name: common.name,
        description: common.description,
        fields,
        possible_types,
        extends: *extends,
        keys,
        visible: *visible,
        inaccessible: *inaccessible,
        tags: common.tags,
        directive_invocations: common.directive_invocations,
        requires_scopes,
    })
}

/// A copy of a union.
fn copy_union(ty: &MetaType) -> Result<MetaType, AllocError>
    requires { kind_of (meta_of ty.now) ≡ kind.Union }
    ensures parts { IfOk result (λ copy. meta_of copy ≡ meta_of ty.now) }
    ensures validator { IfOk result (λ copy. validator_of copy ≡ validator_of ty.now) }
{
    let MetaType::Union {
        name,
        description,
        possible_types,
        visible,
        inaccessible,
        tags,
        directive_invocations,
    } = ty
    else {
        unreachable!()
    };
    let common = copy_common(name, description, tags, directive_invocations)?;
    let possible_types = copy_names(possible_types)?;
    Ok(MetaType::Union {
        name: common.name,
        description: common.description,
        possible_types,
        visible: *visible,
        inaccessible: *inaccessible,
        tags: common.tags,
        directive_invocations: common.directive_invocations,
    })
}

/// A copy of an enum.
fn copy_enumeration(ty: &MetaType) -> Result<MetaType, AllocError>
    requires { kind_of (meta_of ty.now) ≡ kind.Enum }
    ensures parts { IfOk result (λ copy. meta_of copy ≡ meta_of ty.now) }
    ensures validator { IfOk result (λ copy. validator_of copy ≡ validator_of ty.now) }
{
    let MetaType::Enum {
        name,
        description,
        enum_values,
        visible,
        inaccessible,
        tags,
        directive_invocations,
        requires_scopes,
    } = ty
    else {
        unreachable!()
    };
    let common = copy_common(name, description, tags, directive_invocations)?;
    let enum_values = copy_enum_values(enum_values)?;
    let requires_scopes = copy_texts(requires_scopes)?;
    Ok(MetaType::Enum {
        name: common.name,
        description: common.description,
        enum_values,
        visible: *visible,
        inaccessible: *inaccessible,
        tags: common.tags,
        directive_invocations: common.directive_invocations,
        requires_scopes,
    })
}

/// A copy of an input object.
fn copy_input_object(ty: &MetaType) -> Result<MetaType, AllocError>
    requires { kind_of (meta_of ty.now) ≡ kind.InputObject }
    ensures parts { IfOk result (λ copy. meta_of copy ≡ meta_of ty.now) }
    ensures validator { IfOk result (λ copy. validator_of copy ≡ validator_of ty.now) }
{
    let MetaType::InputObject {
        name,
        description,
        input_fields,
        visible,
        inaccessible,
        tags,
        oneof,
        directive_invocations,
    } = ty
    else {
        unreachable!()
    };
    let common = copy_common(name, description, tags, directive_invocations)?;
    let input_fields = copy_input_values(input_fields)?;
    Ok(MetaType::InputObject {
        name: common.name,
        description: common.description,
        input_fields,
        visible: *visible,
        inaccessible: *inaccessible,
        tags: common.tags,
        oneof: *oneof,
        directive_invocations: common.directive_invocations,
    })
}
