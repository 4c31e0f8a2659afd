//! Makers of parts of which little is said beside their names.

ghost use Rattle.std.specs.Prelude.{◌≡◌, IsTrue, IfOk, OnOk};
ghost use Rattle.gql_registry_meta.specs.Views.{texts_in, input_value_of, inputs_in, field_of, fields_in};
ghost use Rattle.gql_registry_meta.specs.Views.{enum_value_of, enum_values_in, directive_of, meta_of};
ghost use Rattle.gql_registry.specs.Plain.{arguments, plain_field, plain_value, plain_directive, plain_scalar};
ghost use Rattle.gql_registry.specs.Plain.{plain_object, plain_enum};
ghost use Rattle.gql_registry.specs.Tables.{argument_at, arguments_at, are_distinct, with_value, all_values};

use gql_registry_meta::{
    CacheControl, Deprecation, DirectiveLocation, MetaDirective, MetaEnumValue, MetaField,
    MetaInputValue, MetaType, owned_text,
};
use gql_text_lexer::OutOfMemory;
use indexmap::IndexMap;
use std::alloc::Global;

const NO_HINT: CacheControl = CacheControl {
    public: true,
    max_age: 0,
};

/// What is said of an argument.
#[derive(Clone, Copy)]
pub(crate) struct Argument {
    pub(crate) name: &'static str,
    pub(crate) ty: &'static str,
    pub(crate) description: Option<&'static str>,
    pub(crate) default_value: Option<&'static str>,
}

fn input_value(alloc: Global, argument: Argument) -> Result<MetaInputValue, OutOfMemory>
    ensures { IfOk result (λ made. input_value_of made ≡ argument_at argument) }
{
    Ok(MetaInputValue {
        name: String::from_str(alloc, argument.name)?,
        description: owned_text(alloc, argument.description)?,
        ty: String::from_str(alloc, argument.ty)?,
        deprecation: Deprecation::NoDeprecated,
        default_value: owned_text(alloc, argument.default_value)?,
        visible: None,
        inaccessible: false,
        tags: Vec::new(alloc),
        is_secret: false,
        directive_invocations: Vec::new(alloc),
    })
}

/// The argument alone under its name, or no argument.
pub(crate) fn lone(
    alloc: Global,
    argument: Option<Argument>,
) -> Result<IndexMap<String, MetaInputValue>, OutOfMemory>
    ensures { IfOk result (λ made. inputs_in made ≡ arguments (arguments_at argument)) }
{
    let mut args = IndexMap::new(alloc);
    match argument {
        None => Ok(args),
        Some(argument) => {
            let name = String::from_str(alloc, argument.name)?;
            args.insert(name, input_value(alloc, argument)?)?;
            Ok(args)
        }
    }
}

pub(crate) fn field(alloc: Global, name: &str, ty: &str) -> Result<MetaField, OutOfMemory>
    ensures { IfOk result (λ made. field_of made ≡ plain_field name.now ty.now) }
{
    Ok(MetaField {
        name: String::from_str(alloc, name)?,
        description: None,
        args: IndexMap::new(alloc),
        ty: String::from_str(alloc, ty)?,
        deprecation: Deprecation::NoDeprecated,
        cache_control: NO_HINT,
        external: false,
        requires_fields: None,
        provides: None,
        visible: None,
        shareable: false,
        inaccessible: false,
        tags: Vec::new(alloc),
        override_from: None,
        directive_invocations: Vec::new(alloc),
        requires_scopes: Vec::new(alloc),
    })
}

fn enum_value(alloc: Global, name: &str) -> Result<MetaEnumValue, OutOfMemory>
    ensures { IfOk result (λ made. enum_value_of made ≡ plain_value name.now) }
{
    Ok(MetaEnumValue {
        name: String::from_str(alloc, name)?,
        description: None,
        deprecation: Deprecation::NoDeprecated,
        visible: None,
        inaccessible: false,
        tags: Vec::new(alloc),
        directive_invocations: Vec::new(alloc),
    })
}

pub(crate) fn directive(
    alloc: Global,
    name: &str,
    description: &str,
    locations: &[DirectiveLocation],
    argument: Option<Argument>,
) -> Result<MetaDirective, OutOfMemory>
    ensures { IfOk result (λ made. directive_of made
        ≡ plain_directive name.now description.now locations.now (arguments_at argument)) }
{
    Ok(MetaDirective {
        name: String::from_str(alloc, name)?,
        description: Some(String::from_str(alloc, description)?),
        locations: Vec::from_slice(alloc, locations)?,
        args: lone(alloc, argument)?,
        is_repeatable: false,
        visible: None,
        composable: None,
    })
}

pub(crate) fn scalar(alloc: Global, name: &str) -> Result<MetaType, OutOfMemory>
    ensures { IfOk result (λ made. meta_of made ≡ plain_scalar name.now) }
{
    Ok(MetaType::Scalar {
        name: String::from_str(alloc, name)?,
        description: None,
        is_valid: None,
        visible: None,
        inaccessible: false,
        tags: Vec::new(alloc),
        specified_by_url: None,
        directive_invocations: Vec::new(alloc),
        requires_scopes: Vec::new(alloc),
    })
}

pub(crate) fn object(
    alloc: Global,
    name: &str,
    fields: IndexMap<String, MetaField>,
) -> Result<MetaType, OutOfMemory>
    ensures { IfOk result (λ made. meta_of made ≡ plain_object name.now (fields_in fields)) }
{
    Ok(MetaType::Object {
        name: String::from_str(alloc, name)?,
        description: None,
        fields,
        cache_control: NO_HINT,
        extends: false,
        shareable: false,
        resolvable: true,
        keys: None,
        visible: None,
        inaccessible: false,
        interface_object: false,
        tags: Vec::new(alloc),
        is_subscription: false,
        directive_invocations: Vec::new(alloc),
        requires_scopes: Vec::new(alloc),
    })
}

/// An enum of values with these names, of which no two are the same.
pub(crate) fn enumeration(
    alloc: Global,
    name: &str,
    values: &[&str],
) -> Result<MetaType, OutOfMemory>
    requires { IsTrue (are_distinct (texts_in values.now)) }
    ensures { IfOk result (λ made. meta_of made ≡ plain_enum name.now (all_values values.now)) }
{
    Ok(MetaType::Enum {
        name: String::from_str(alloc, name)?,
        description: None,
        enum_values: enum_values(alloc, values)?,
        visible: None,
        inaccessible: false,
        tags: Vec::new(alloc),
        directive_invocations: Vec::new(alloc),
        requires_scopes: Vec::new(alloc),
    })
}

fn enum_values(
    alloc: Global,
    names: &[&str],
) -> Result<IndexMap<String, MetaEnumValue>, OutOfMemory>
    requires { IsTrue (are_distinct (texts_in names.now)) }
    ensures { IfOk result (λ made. enum_values_in made ≡ all_values names.now) }
{
    let mut values = IndexMap::new(alloc);
    for name in names {
        add_value(alloc, &mut values, name)?;
    }
    Ok(values)
}

#[tactic(auto, using(gql_registry_meta::proofs::Entries::entries_with_insertion))]
fn add_value(
    alloc: Global,
    values: &mut IndexMap<String, MetaEnumValue>,
    name: &str,
) -> Result<(), OutOfMemory>
    ensures { OnOk result (enum_values_in values.new
        ≡ with_value (enum_values_in values.old) name.now) }
{
    let key = String::from_str(alloc, name)?;
    values.insert(key, enum_value(alloc, name)?)?;
    Ok(())
}
