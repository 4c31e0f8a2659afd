//! The kinds of the roots.

ghost use Rattle.gql_check_rules.specs.Schema.{is_object, is_subscription};
ghost use Rattle.gql_check_rules.specs.Faults.{query_root, mutation_root, subscription_root};
ghost use Rattle.gql_check_rules.specs.Rules.{roots_fault, root_fault, optional_root_fault};
ghost use Rattle.gql_dynamic.specs.Errors.{Tells};
ghost use Rattle.gql_check_code.specs.CheckedViews.{schema_of};

use crate::names::{exists, names_object, names_subscription};
use crate::types::SchemaTypes;
use gql_dynamic::SchemaError;

fn check_query(types: &SchemaTypes) -> Result<(), SchemaError>
    ensures { Tells result
        (root_fault (schema_of types.now) is_object query_root (schema_of types.now).query) }
{
    if exists(types, types.query.as_str()) && !names_object(types, types.query.as_str()) {
        return Err(SchemaError::QueryRoot);
    }
    Ok(())
}

fn check_mutation(types: &SchemaTypes) -> Result<(), SchemaError>
    ensures { Tells result
        (optional_root_fault (schema_of types.now) is_object mutation_root
        (schema_of types.now).mutation) }
{
    let Some(name) = &types.mutation else {
        return Ok(());
    };
    if exists(types, name.as_str()) && !names_object(types, name.as_str()) {
        return Err(SchemaError::MutationRoot);
    }
    Ok(())
}

fn check_subscription(types: &SchemaTypes) -> Result<(), SchemaError>
    ensures { Tells result
        (optional_root_fault (schema_of types.now) is_subscription subscription_root
        (schema_of types.now).subscription) }
{
    let Some(name) = &types.subscription else {
        return Ok(());
    };
    if exists(types, name.as_str()) && !names_subscription(types, name.as_str()) {
        return Err(SchemaError::SubscriptionRoot);
    }
    Ok(())
}

/// A root that exists is of its kind.
pub(crate) fn check_roots(types: &SchemaTypes) -> Result<(), SchemaError>
    ensures { Tells result (roots_fault (schema_of types.now)) }
{
    check_query(types)?;
    check_mutation(types)?;
    check_subscription(types)
}
