//! Unions, enums, input objects and the subscription root: sections 3.8 to 3.10 and 3.3.1 of the GraphQL specification,
//! October 2021.

ghost use Rattle.std.specs.Prelude.{◌≡◌, [], List, None, false, IfOk, map, refl};
ghost use Rattle.gql_text.specs.DocumentOf.{bare_names_of, description_of, enum_value_of, field_def_of, head_of, input_of, use_of};
ghost use Rattle.gql_registry_meta.specs.Parts.{Text};
ghost use Rattle.gql_parts.specs.Builders.{EnumItemParts, InputValueParts, SubscriptionFieldParts};
ghost use Rattle.gql_dynamic_types.specs.Types.{EnumParts, InputObjectParts, SubscriptionParts, UnionParts};
ghost use Rattle.gql_dynamic_types.specs.TypeViews.{enum_parts, input_object_parts, subscription_parts, union_parts};
ghost use Rattle.gql_dynamic.specs.SchemaTypes.{enum as enum_type, input_object as input_object_type, subscription as subscription_type, union as union_type};
ghost use Rattle.gql_publish_document.specs.Uses.{has_one_of};
ghost use Rattle.gql_publish_document.specs.Members.{input_parts, inputs_parts, subscription_field_parts, subscription_fields_parts, value_parts, values_parts};
ghost use Rattle.gql_publish_document.specs.Types.{enum_parts as document_enum, input_object_parts as document_input_object, subscription_parts as document_subscription, union_parts as document_union};
ghost use Rattle.gql_publish_document.specs.Clean.{AreCleanFields, AreCleanInputs, AreCleanUses, AreCleanValues, AreDistinct, IsCleanField, IsCleanInput, IsCleanValue};
ghost use Rattle.gql_publish_load.specs.Taking.{is_new_entry, is_new_name};

use crate::attributes::has_one_of;
use crate::enum_values::built_value;
use crate::fields::built_subscription_field;
use crate::inputs::built_input;
use crate::taking::{IsUsedOn, Takes, take_all, take_uses};
use gql_check::{BuildError, Directive, Enum, InputObject, Subscription, Union};
use gql_text::{
    Description, EnumValue, Field as WrittenField, InputValue as WrittenInput, ObjectLike,
    OutOfMemory, PlacedName, Use,
};
use std::alloc::Global;

// ---- unions

impl IsUsedOn for Union {
    ghost Parts = { UnionParts };

    ghost parts = { union_parts };

    ghost uses = { λ p. p.directives };

    ghost with_uses = { λ p l. record p { directives = l } };

    ghost unchanged = { λ p. refl };

    ghost taken = { λ p l. refl };

    ghost last = { λ p l m. refl };

    fn with_use(self, directive: Directive) -> Result<Union, OutOfMemory> {
        self.directive(directive)
    }
}

impl<'t> Takes<PlacedName<'t>> for Union {
    ghost Parts = { UnionParts };

    ghost Item = { Text };

    ghost parts = { union_parts };

    ghost items = { λ p. p.possible_types };

    ghost with_items = { λ p l. record p { possible_types = l } };

    ghost item = { λ n. n.name };

    ghost is_new = { is_new_name };

    ghost is_clean = { λ _. Unit {0} };

    ghost unchanged = { λ p. refl };

    ghost taken = { λ p l. refl };

    ghost last = { λ p l m. refl };

    fn take(self, _alloc: Global, source: &PlacedName<'t>) -> Result<Union, OutOfMemory> {
        self.possible_type(source.name.as_str())
    }
}

fn described_union(
    alloc: Global,
    union: Union,
    description: &Option<Description<'_>>,
) -> Result<Union, OutOfMemory>
    requires { (union_parts union).description ≡ None }
    ensures { IfOk result (λ more. union_parts more
        ≡ record (union_parts union) { description = description_of description.now }) }
{
    match description {
        None => Ok(union),
        Some(found) => union.description(found.text.to_text(alloc)?.as_str()),
    }
}

fn with_members(
    alloc: Global,
    union: Union,
    members: &[PlacedName<'_>],
) -> Result<Union, OutOfMemory>
    requires none { (union_parts union).possible_types ≡ [] }
    requires clean { AreDistinct (bare_names_of members.now) }
    ensures { IfOk result (λ more. union_parts more
        ≡ record (union_parts union) { possible_types = bare_names_of members.now }) }
{
    take_all(alloc, union, members)
}

/// The union that is written.
pub(crate) fn built_union(
    alloc: Global,
    description: &Option<Description<'_>>,
    key: &PlacedName<'_>,
    uses: &[Use<'_>],
    members: &[PlacedName<'_>],
) -> Result<Union, OutOfMemory>
    requires uses { AreCleanUses (map use_of uses.now) }
    requires members { AreDistinct (bare_names_of members.now) }
    ensures { IfOk result (λ built. union_type (union_parts built)
        ≡ document_union (head_of description.now key.now uses.now) (bare_names_of members.now)) }
{
    let built = Union::new(alloc, key.name.as_str())?;
    let built = described_union(alloc, built, description)?;
    let built = take_uses(alloc, built, uses)?;
    with_members(alloc, built, members)
}

// ---- enums

impl IsUsedOn for Enum {
    ghost Parts = { EnumParts };

    ghost parts = { enum_parts };

    ghost uses = { λ p. p.directives };

    ghost with_uses = { λ p l. record p { directives = l } };

    ghost unchanged = { λ p. refl };

    ghost taken = { λ p l. refl };

    ghost last = { λ p l m. refl };

    fn with_use(self, directive: Directive) -> Result<Enum, OutOfMemory> {
        self.directive(directive)
    }
}

impl<'t> Takes<EnumValue<'t>> for Enum {
    ghost Parts = { EnumParts };

    ghost Item = { Text × EnumItemParts };

    ghost parts = { enum_parts };

    ghost items = { λ p. p.items };

    ghost with_items = { λ p l. record p { items = l } };

    ghost item = { λ v. (v.key.name, value_parts (enum_value_of v)) };

    ghost is_new = { is_new_entry };

    ghost is_clean = { λ v. IsCleanValue (enum_value_of v) };

    ghost unchanged = { λ p. refl };

    ghost taken = { λ p l. refl };

    ghost last = { λ p l m. refl };

    fn take(self, alloc: Global, source: &EnumValue<'t>) -> Result<Enum, OutOfMemory> {
        let value = built_value(alloc, source)?;
        self.item(value)
    }
}

fn described_enum(
    alloc: Global,
    built: Enum,
    description: &Option<Description<'_>>,
) -> Result<Enum, OutOfMemory>
    requires { (enum_parts built).description ≡ None }
    ensures { IfOk result (λ more. enum_parts more
        ≡ record (enum_parts built) { description = description_of description.now }) }
{
    match description {
        None => Ok(built),
        Some(found) => built.description(found.text.to_text(alloc)?.as_str()),
    }
}

fn with_values(alloc: Global, built: Enum, values: &[EnumValue<'_>]) -> Result<Enum, OutOfMemory>
    requires none { (enum_parts built).items ≡ [] }
    requires clean { AreCleanValues (map enum_value_of values.now) }
    ensures { IfOk result (λ more. enum_parts more
        ≡ record (enum_parts built) { items = values_parts (map enum_value_of values.now) }) }
{
    take_all(alloc, built, values)
}

/// The enum that is written.
pub(crate) fn built_enum(
    alloc: Global,
    description: &Option<Description<'_>>,
    key: &PlacedName<'_>,
    uses: &[Use<'_>],
    values: &[EnumValue<'_>],
) -> Result<Enum, OutOfMemory>
    requires uses { AreCleanUses (map use_of uses.now) }
    requires values { AreCleanValues (map enum_value_of values.now) }
    ensures { IfOk result (λ built. enum_type (enum_parts built)
        ≡ document_enum (head_of description.now key.now uses.now) (map enum_value_of values.now)) }
{
    let built = Enum::new(alloc, key.name.as_str())?;
    let built = described_enum(alloc, built, description)?;
    let built = take_uses(alloc, built, uses)?;
    with_values(alloc, built, values)
}

// ---- input objects

impl IsUsedOn for InputObject {
    ghost Parts = { InputObjectParts };

    ghost parts = { input_object_parts };

    ghost uses = { λ p. p.directives };

    ghost with_uses = { λ p l. record p { directives = l } };

    ghost unchanged = { λ p. refl };

    ghost taken = { λ p l. refl };

    ghost last = { λ p l m. refl };

    fn with_use(self, directive: Directive) -> Result<InputObject, OutOfMemory> {
        self.directive(directive)
    }
}

impl<'t> Takes<WrittenInput<'t>> for InputObject {
    ghost Parts = { InputObjectParts };

    ghost Item = { Text × InputValueParts };

    ghost parts = { input_object_parts };

    ghost items = { λ p. p.fields };

    ghost with_items = { λ p l. record p { fields = l } };

    ghost item = { λ i. (i.key.name, input_parts (input_of i)) };

    ghost is_new = { is_new_entry };

    ghost is_clean = { λ i. IsCleanInput (input_of i) };

    ghost unchanged = { λ p. refl };

    ghost taken = { λ p l. refl };

    ghost last = { λ p l m. refl };

    fn take(self, alloc: Global, source: &WrittenInput<'t>) -> Result<InputObject, OutOfMemory> {
        match self.field(built_input(alloc, source)?) {
            Ok(more) => Ok(more),
            Err(BuildError::AlreadyExists(_)) => unreachable!(),
            Err(BuildError::OutOfMemory) => Err(OutOfMemory),
        }
    }
}

fn described_input_object(
    alloc: Global,
    object: InputObject,
    description: &Option<Description<'_>>,
) -> Result<InputObject, OutOfMemory>
    requires { (input_object_parts object).description ≡ None }
    ensures { IfOk result (λ more. input_object_parts more
        ≡ record (input_object_parts object) { description = description_of description.now }) }
{
    match description {
        None => Ok(object),
        Some(found) => object.description(found.text.to_text(alloc)?.as_str()),
    }
}

fn marked(object: InputObject, uses: &[Use<'_>]) -> InputObject
    requires { (input_object_parts object).oneof ≡ false }
    ensures { input_object_parts result
        ≡ record (input_object_parts object) { oneof = has_one_of (map use_of uses.now) } }
{
    if has_one_of(uses) {
        object.oneof()
    } else {
        object
    }
}

fn with_input_fields(
    alloc: Global,
    object: InputObject,
    fields: &[WrittenInput<'_>],
) -> Result<InputObject, OutOfMemory>
    requires none { (input_object_parts object).fields ≡ [] }
    requires clean { AreCleanInputs (map input_of fields.now) }
    ensures { IfOk result (λ more. input_object_parts more
        ≡ record (input_object_parts object) { fields = inputs_parts (map input_of fields.now) }) }
{
    take_all(alloc, object, fields)
}

/// The input object that is written.
pub(crate) fn built_input_object(
    alloc: Global,
    description: &Option<Description<'_>>,
    key: &PlacedName<'_>,
    uses: &[Use<'_>],
    fields: &[WrittenInput<'_>],
) -> Result<InputObject, OutOfMemory>
    requires uses { AreCleanUses (map use_of uses.now) }
    requires fields { AreCleanInputs (map input_of fields.now) }
    ensures { IfOk result (λ built. input_object_type (input_object_parts built)
        ≡ document_input_object (head_of description.now key.now uses.now) (map input_of fields.now)) }
{
    let built = InputObject::new(alloc, key.name.as_str())?;
    let built = described_input_object(alloc, built, description)?;
    let built = marked(built, uses);
    let built = take_uses(alloc, built, uses)?;
    with_input_fields(alloc, built, fields)
}

// ---- the subscription root

impl<'t> Takes<WrittenField<'t>> for Subscription {
    ghost Parts = { SubscriptionParts };

    ghost Item = { Text × SubscriptionFieldParts };

    ghost parts = { subscription_parts };

    ghost items = { λ p. p.fields };

    ghost with_items = { λ p l. record p { fields = l } };

    ghost item = { λ f. (f.key.name, subscription_field_parts (field_def_of f)) };

    ghost is_new = { is_new_entry };

    ghost is_clean = { λ f. IsCleanField (field_def_of f) };

    ghost unchanged = { λ p. refl };

    ghost taken = { λ p l. refl };

    ghost last = { λ p l m. refl };

    fn take(self, alloc: Global, source: &WrittenField<'t>) -> Result<Subscription, OutOfMemory> {
        match self.field(built_subscription_field(alloc, source)?) {
            Ok(more) => Ok(more),
            Err(BuildError::AlreadyExists(_)) => unreachable!(),
            Err(BuildError::OutOfMemory) => Err(OutOfMemory),
        }
    }
}

fn described_subscription(
    alloc: Global,
    subscription: Subscription,
    description: &Option<Description<'_>>,
) -> Result<Subscription, OutOfMemory>
    requires { (subscription_parts subscription).description ≡ None }
    ensures { IfOk result (λ more. subscription_parts more
        ≡ record (subscription_parts subscription) { description = description_of description.now }) }
{
    match description {
        None => Ok(subscription),
        Some(found) => subscription.description(found.text.to_text(alloc)?.as_str()),
    }
}

fn with_root_fields(
    alloc: Global,
    subscription: Subscription,
    fields: &[WrittenField<'_>],
) -> Result<Subscription, OutOfMemory>
    requires none { (subscription_parts subscription).fields ≡ [] }
    requires clean { AreCleanFields (map field_def_of fields.now) }
    ensures { IfOk result (λ more. subscription_parts more
        ≡ record (subscription_parts subscription) { fields = subscription_fields_parts (map field_def_of fields.now) }) }
{
    take_all(alloc, subscription, fields)
}

/// The subscription root that is written.
pub(crate) fn built_subscription(
    alloc: Global,
    description: &Option<Description<'_>>,
    object: &ObjectLike<'_>,
) -> Result<Subscription, OutOfMemory>
    requires { AreCleanFields (map field_def_of object.now.fields) }
    ensures { IfOk result (λ built. subscription_type (subscription_parts built)
        ≡ document_subscription (head_of description.now object.now.key object.now.uses) (map field_def_of object.now.fields)) }
{
    let built = Subscription::new(alloc, object.key.name.as_str())?;
    let built = described_subscription(alloc, built, description)?;
    with_root_fields(alloc, built, object.fields.as_slice())
}
