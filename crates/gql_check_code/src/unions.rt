//! The rules of unions.

ghost use Rattle.std.specs.Prelude.{map};
ghost use Rattle.gql_registry_meta.specs.Views.{text_of};
ghost use Rattle.gql_check_rules.specs.Rules.{member_fault, union_fault};
ghost use Rattle.gql_dynamic.specs.Errors.{Tells};
ghost use Rattle.gql_check_code.specs.CheckedViews.{schema_of, definition_of, checked_types, TellsFirst};

use crate::names::names_object;
use crate::types::SchemaTypes;
use gql_dynamic::{SchemaError, SchemaType};
use indexmap::IndexSet;
use std::alloc::Global;

fn check_member(
    alloc: Global,
    types: &SchemaTypes,
    ty: &str,
    member: &str,
) -> Result<(), SchemaError>
    ensures { Tells result (member_fault (schema_of types.now) ty.now member.now) }
{
    if names_object(types, member) {
        return Ok(());
    }
    Err(SchemaError::MemberNotObject {
        ty: String::from_str(alloc, ty)?,
        member: String::from_str(alloc, member)?,
    })
}

fn check_members(
    alloc: Global,
    types: &SchemaTypes,
    ty: &str,
    members: &IndexSet<String>,
) -> Result<(), SchemaError>
    ensures { TellsFirst result (member_fault (schema_of types.now) ty.now)
        (map text_of members.now.keys) }
{
    for member in members {
        check_member(alloc, types, ty, member)?;
    }
    Ok(())
}

fn check_type(
    alloc: Global,
    types: &SchemaTypes,
    name: &str,
    ty: &SchemaType,
) -> Result<(), SchemaError>
    ensures { Tells result (union_fault (schema_of types.now) (name.now, definition_of ty.now)) }
{
    match ty {
        SchemaType::Union(own) => check_members(alloc, types, name, own.possible_types()),
        _ => Ok(()),
    }
}

pub(crate) fn check_unions(alloc: Global, types: &SchemaTypes) -> Result<(), SchemaError>
    ensures { TellsFirst result (union_fault (schema_of types.now)) (checked_types types.now) }
{
    for (name, ty) in &types.types {
        check_type(alloc, types, name, ty)?;
    }
    Ok(())
}
