//! The registry of a schema, stage by stage.

ghost use Rattle.std.specs.Prelude.{◌≡◌, None, IfOk, IfErr, OnOk, false};
ghost use Rattle.std.specs.Map.{keys_of};
ghost use Rattle.gql_registry.specs.Registry.{registry_of, types_of, empty};
ghost use Rattle.gql_registry.specs.Additions.{made};
ghost use Rattle.gql_registry_meta.specs.Parts.{is_among};
ghost use Rattle.gql_dynamic.specs.SchemaTypes.{type_name};
ghost use Rattle.gql_dynamic.specs.SchemaViews.{type_parts};
ghost use Rattle.gql_dynamic.specs.Errors.{fault_of};
ghost use Rattle.gql_check_rules.specs.Rules.{first_fault};
ghost use Rattle.gql_check_code.specs.CheckedViews.{schema_of};
ghost use Rattle.gql_check.specs.Recorded.{mode, type_step, roots_alone, system_contents, type_contents, directive_contents, possible_contents, schema_contents};
ghost use Rattle.gql_check.specs.Recordings.{recorded_of};

use crate::builder::SchemaBuilder;
use gql_dynamic::{OutOfMemory, SchemaError, Type};
use gql_registry::{IntrospectionMode, Registry};

fn mode(is_disabled: bool) -> IntrospectionMode
    ensures { result ≡ mode is_disabled }
{
    if is_disabled {
        IntrospectionMode::Disabled
    } else {
        IntrospectionMode::Enabled
    }
}

/// Gives an empty registry the names of the roots and the mode.
fn set_roots(registry: &mut Registry, builder: &SchemaBuilder) -> Result<(), OutOfMemory>
    requires { registry_of registry.old ≡ empty }
    ensures { OnOk result (registry_of registry.new ≡ roots_alone (recorded_of builder.now)) }
{
    let types = &builder.types;
    registry.set_query_type(types.query())?;
    registry.set_mutation_type(types.mutation())?;
    registry.set_subscription_type(types.subscription())?;
    registry.set_introspection_mode(mode(builder.is_disabled));
    Ok(())
}

/// Registers a type of a name that is new.
fn add_type(registry: &mut Registry, ty: &Type) -> Result<(), SchemaError>
    requires new { is_among (type_name (type_parts ty.now))
        (keys_of (types_of registry.old)) ≡ false }
    ensures added { OnOk result
        (registry_of registry.new ≡ made (registry_of registry.old)
        (type_step (type_parts ty.now))) }
    ensures memory { IfErr result (λ error. fault_of error ≡ None) }
{
    ty.register(registry)
}

/// Adds the types, which break no rule, to what every schema has.
fn add_types(registry: &mut Registry, builder: &SchemaBuilder) -> Result<(), SchemaError>
    requires valid { first_fault (schema_of builder.now.types) ≡ None }
    requires before { registry_of registry.old ≡ system_contents (recorded_of builder.now) }
    ensures added { OnOk result
        (registry_of registry.new ≡ type_contents (recorded_of builder.now)) }
    ensures memory { IfErr result (λ error. fault_of error ≡ None) }
{
    for (_, ty) in builder.types.types().iter() {
        add_type(registry, ty)?;
    }
    Ok(())
}

/// Then the added directives.
fn add_directives(registry: &mut Registry, builder: &SchemaBuilder) -> Result<(), OutOfMemory>
    requires { registry_of registry.old ≡ type_contents (recorded_of builder.now) }
    ensures { OnOk result
        (registry_of registry.new ≡ directive_contents (recorded_of builder.now)) }
{
    let directives = builder.directives.as_slice();
    for directive in directives {
        registry.add_directive(directive.try_clone(builder.alloc)?)?;
    }
    Ok(())
}

/// Then each object as a possible type of the interfaces that it implements, in the order of registration.
fn add_possible_types(registry: &mut Registry, builder: &SchemaBuilder) -> Result<(), OutOfMemory>
    requires { registry_of registry.old ≡ directive_contents (recorded_of builder.now) }
    ensures { OnOk result (registry_of registry.new
        ≡ possible_contents (recorded_of builder.now)) }
{
    for ty in builder.types.types().values() {
        let Some(object) = ty.as_object() else {
            continue;
        };
        for interface in object.implements().iter() {
            registry.add_possible_type(interface.as_str(), object.type_name())?;
        }
    }
    Ok(())
}

/// Then what a schema says about itself, unless that is disabled.
fn add_introspection(registry: &mut Registry, builder: &SchemaBuilder) -> Result<(), OutOfMemory>
    requires { registry_of registry.old ≡ possible_contents (recorded_of builder.now) }
    ensures { OnOk result (registry_of registry.new ≡ schema_contents (recorded_of builder.now)) }
{
    if builder.is_disabled {
        return Ok(());
    }
    registry.create_introspection_types()
}

/// The registry of a schema that breaks no rule.
pub(crate) fn made_registry(builder: &SchemaBuilder) -> Result<Registry, SchemaError>
    requires { first_fault (schema_of builder.now.types) ≡ None }
    ensures contents { IfOk result
        (λ registry. registry_of registry ≡ schema_contents (recorded_of builder.now)) }
    ensures memory { IfErr result (λ error. fault_of error ≡ None) }
{
    let mut registry = Registry::new(builder.alloc);
    set_roots(&mut registry, builder)?;
    registry.add_system_types()?;
    add_types(&mut registry, builder)?;
    add_directives(&mut registry, builder)?;
    add_possible_types(&mut registry, builder)?;
    add_introspection(&mut registry, builder)?;
    Ok(registry)
}
