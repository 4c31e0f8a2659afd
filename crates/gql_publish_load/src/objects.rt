//! Objects and interfaces: sections 3.6 and 3.7 of the GraphQL specification, October 2021.

ghost use Rattle.std.specs.Prelude.{◌≡◌, [], List, None, IfOk, map, refl};
ghost use Rattle.gql_text.specs.DocumentOf.{bare_names_of, description_of, field_def_of, head_of, implements_of, use_of};
ghost use Rattle.gql_registry_meta.specs.Parts.{Text};
ghost use Rattle.gql_parts.specs.Builders.{FieldParts};
ghost use Rattle.gql_dynamic_types.specs.Types.{InterfaceParts, ObjectParts};
ghost use Rattle.gql_dynamic_types.specs.TypeViews.{interface_parts, object_parts};
ghost use Rattle.gql_dynamic.specs.SchemaTypes.{interface as interface_type, object as object_type};
ghost use Rattle.gql_publish_document.specs.Members.{field_parts, fields_parts};
ghost use Rattle.gql_publish_document.specs.Types.{interface_parts as document_interface, object_parts as document_object};
ghost use Rattle.gql_publish_document.specs.Clean.{AreCleanFields, AreDistinct, IsCleanField};
ghost use Rattle.gql_publish_load.specs.Taking.{IsCleanObject, is_new_entry, is_new_name};

use crate::fields::built_field;
use crate::taking::{IsUsedOn, Takes, take_all, take_uses};
use gql_check::{BuildError, Directive, Interface, Object};
use gql_text::{
    Description, Field as WrittenField, Implements, ObjectLike, OutOfMemory, PlacedName,
};
use std::alloc::Global;

/// The names that a type implements.
fn implemented<'d, 't>(implements: &'d Option<Implements<'t>>) -> &'d [PlacedName<'t>]
    ensures { bare_names_of result.now ≡ implements_of implements.now }
{
    match implements {
        None => &[],
        Some(found) => found.names.as_slice(),
    }
}

// ---- objects

impl IsUsedOn for Object {
    ghost Parts = { ObjectParts };

    ghost parts = { object_parts };

    ghost uses = { λ p. p.directives };

    ghost with_uses = { λ p l. record p { directives = l } };

    ghost unchanged = { λ p. refl };

    ghost taken = { λ p l. refl };

    ghost last = { λ p l m. refl };

    fn with_use(self, directive: Directive) -> Result<Object, OutOfMemory> {
        self.directive(directive)
    }
}

impl<'t> Takes<PlacedName<'t>> for Object {
    ghost Parts = { ObjectParts };

    ghost Item = { Text };

    ghost parts = { object_parts };

    ghost items = { λ p. p.implements };

    ghost with_items = { λ p l. record p { implements = l } };

    ghost item = { λ n. n.name };

    ghost is_new = { is_new_name };

    ghost is_clean = { λ _. Unit {0} };

    ghost unchanged = { λ p. refl };

    ghost taken = { λ p l. refl };

    ghost last = { λ p l m. refl };

    fn take(self, _alloc: Global, source: &PlacedName<'t>) -> Result<Object, OutOfMemory> {
        match self.implement(source.name.as_str()) {
            Ok(more) => Ok(more),
            Err(BuildError::AlreadyExists(_)) => unreachable!(),
            Err(BuildError::OutOfMemory) => Err(OutOfMemory),
        }
    }
}

impl<'t> Takes<WrittenField<'t>> for Object {
    ghost Parts = { ObjectParts };

    ghost Item = { Text × FieldParts };

    ghost parts = { object_parts };

    ghost items = { λ p. p.fields };

    ghost with_items = { λ p l. record p { fields = l } };

    ghost item = { λ f. (f.key.name, field_parts (field_def_of f)) };

    ghost is_new = { is_new_entry };

    ghost is_clean = { λ f. IsCleanField (field_def_of f) };

    ghost unchanged = { λ p. refl };

    ghost taken = { λ p l. refl };

    ghost last = { λ p l m. refl };

    fn take(self, alloc: Global, source: &WrittenField<'t>) -> Result<Object, OutOfMemory> {
        match self.field(built_field(alloc, source)?) {
            Ok(more) => Ok(more),
            Err(BuildError::AlreadyExists(_)) => unreachable!(),
            Err(BuildError::OutOfMemory) => Err(OutOfMemory),
        }
    }
}

fn described_object(
    alloc: Global,
    object: Object,
    description: &Option<Description<'_>>,
) -> Result<Object, OutOfMemory>
    requires { (object_parts object).description ≡ None }
    ensures { IfOk result (λ more. object_parts more
        ≡ record (object_parts object) { description = description_of description.now }) }
{
    match description {
        None => Ok(object),
        Some(found) => object.description(found.text.to_text(alloc)?.as_str()),
    }
}

fn object_with_names(
    alloc: Global,
    object: Object,
    names: &[PlacedName<'_>],
) -> Result<Object, OutOfMemory>
    requires none { (object_parts object).implements ≡ [] }
    requires clean { AreDistinct (bare_names_of names.now) }
    ensures { IfOk result (λ more. object_parts more
        ≡ record (object_parts object) { implements = bare_names_of names.now }) }
{
    take_all(alloc, object, names)
}

fn object_with_fields(
    alloc: Global,
    object: Object,
    fields: &[WrittenField<'_>],
) -> Result<Object, OutOfMemory>
    requires none { (object_parts object).fields ≡ [] }
    requires clean { AreCleanFields (map field_def_of fields.now) }
    ensures { IfOk result (λ more. object_parts more
        ≡ record (object_parts object) { fields = fields_parts (map field_def_of fields.now) }) }
{
    take_all(alloc, object, fields)
}

/// The object with the names and the fields that are written.
fn object_with_members(
    alloc: Global,
    object: Object,
    written: &ObjectLike<'_>,
) -> Result<Object, OutOfMemory>
    requires no_names { (object_parts object).implements ≡ [] }
    requires no_fields { (object_parts object).fields ≡ [] }
    requires clean { IsCleanObject written.now }
    ensures { IfOk result (λ more. object_parts more ≡ record (object_parts object) {
      implements = implements_of written.now.implements;
      fields = fields_parts (map field_def_of written.now.fields);
    }) }
{
    let named = object_with_names(alloc, object, implemented(&written.implements))?;
    object_with_fields(alloc, named, written.fields.as_slice())
}

/// The object that is written.
pub(crate) fn built_object(
    alloc: Global,
    description: &Option<Description<'_>>,
    object: &ObjectLike<'_>,
) -> Result<Object, OutOfMemory>
    requires { IsCleanObject object.now }
    ensures { IfOk result (λ built. object_type (object_parts built)
        ≡ document_object (head_of description.now object.now.key object.now.uses) (implements_of object.now.implements) (map field_def_of object.now.fields)) }
{
    let built = Object::new(alloc, object.key.name.as_str())?;
    let built = described_object(alloc, built, description)?;
    let built = take_uses(alloc, built, object.uses.as_slice())?;
    object_with_members(alloc, built, object)
}

// ---- interfaces

impl IsUsedOn for Interface {
    ghost Parts = { InterfaceParts };

    ghost parts = { interface_parts };

    ghost uses = { λ p. p.directives };

    ghost with_uses = { λ p l. record p { directives = l } };

    ghost unchanged = { λ p. refl };

    ghost taken = { λ p l. refl };

    ghost last = { λ p l m. refl };

    fn with_use(self, directive: Directive) -> Result<Interface, OutOfMemory> {
        self.directive(directive)
    }
}

impl<'t> Takes<PlacedName<'t>> for Interface {
    ghost Parts = { InterfaceParts };

    ghost Item = { Text };

    ghost parts = { interface_parts };

    ghost items = { λ p. p.implements };

    ghost with_items = { λ p l. record p { implements = l } };

    ghost item = { λ n. n.name };

    ghost is_new = { is_new_name };

    ghost is_clean = { λ _. Unit {0} };

    ghost unchanged = { λ p. refl };

    ghost taken = { λ p l. refl };

    ghost last = { λ p l m. refl };

    fn take(self, _alloc: Global, source: &PlacedName<'t>) -> Result<Interface, OutOfMemory> {
        match self.implement(source.name.as_str()) {
            Ok(more) => Ok(more),
            Err(BuildError::AlreadyExists(_)) => unreachable!(),
            Err(BuildError::OutOfMemory) => Err(OutOfMemory),
        }
    }
}

impl<'t> Takes<WrittenField<'t>> for Interface {
    ghost Parts = { InterfaceParts };

    ghost Item = { Text × FieldParts };

    ghost parts = { interface_parts };

    ghost items = { λ p. p.fields };

    ghost with_items = { λ p l. record p { fields = l } };

    ghost item = { λ f. (f.key.name, field_parts (field_def_of f)) };

    ghost is_new = { is_new_entry };

    ghost is_clean = { λ f. IsCleanField (field_def_of f) };

    ghost unchanged = { λ p. refl };

    ghost taken = { λ p l. refl };

    ghost last = { λ p l m. refl };

    fn take(self, alloc: Global, source: &WrittenField<'t>) -> Result<Interface, OutOfMemory> {
        match self.field(built_field(alloc, source)?) {
            Ok(more) => Ok(more),
            Err(BuildError::AlreadyExists(_)) => unreachable!(),
            Err(BuildError::OutOfMemory) => Err(OutOfMemory),
        }
    }
}

fn described_interface(
    alloc: Global,
    interface: Interface,
    description: &Option<Description<'_>>,
) -> Result<Interface, OutOfMemory>
    requires { (interface_parts interface).description ≡ None }
    ensures { IfOk result (λ more. interface_parts more
        ≡ record (interface_parts interface) { description = description_of description.now }) }
{
    match description {
        None => Ok(interface),
        Some(found) => interface.description(found.text.to_text(alloc)?.as_str()),
    }
}

fn interface_with_names(
    alloc: Global,
    interface: Interface,
    names: &[PlacedName<'_>],
) -> Result<Interface, OutOfMemory>
    requires none { (interface_parts interface).implements ≡ [] }
    requires clean { AreDistinct (bare_names_of names.now) }
    ensures { IfOk result (λ more. interface_parts more
        ≡ record (interface_parts interface) { implements = bare_names_of names.now }) }
{
    take_all(alloc, interface, names)
}

fn interface_with_fields(
    alloc: Global,
    interface: Interface,
    fields: &[WrittenField<'_>],
) -> Result<Interface, OutOfMemory>
    requires none { (interface_parts interface).fields ≡ [] }
    requires clean { AreCleanFields (map field_def_of fields.now) }
    ensures { IfOk result (λ more. interface_parts more
        ≡ record (interface_parts interface) { fields = fields_parts (map field_def_of fields.now) }) }
{
    take_all(alloc, interface, fields)
}

/// The interface with the names and the fields that are written.
fn interface_with_members(
    alloc: Global,
    interface: Interface,
    written: &ObjectLike<'_>,
) -> Result<Interface, OutOfMemory>
    requires no_names { (interface_parts interface).implements ≡ [] }
    requires no_fields { (interface_parts interface).fields ≡ [] }
    requires clean { IsCleanObject written.now }
    ensures { IfOk result (λ more. interface_parts more ≡ record (interface_parts interface) {
      implements = implements_of written.now.implements;
      fields = fields_parts (map field_def_of written.now.fields);
    }) }
{
    let named = interface_with_names(alloc, interface, implemented(&written.implements))?;
    interface_with_fields(alloc, named, written.fields.as_slice())
}

/// The interface that is written.
pub(crate) fn built_interface(
    alloc: Global,
    description: &Option<Description<'_>>,
    object: &ObjectLike<'_>,
) -> Result<Interface, OutOfMemory>
    requires { IsCleanObject object.now }
    ensures { IfOk result (λ built. interface_type (interface_parts built)
        ≡ document_interface (head_of description.now object.now.key object.now.uses) (implements_of object.now.implements) (map field_def_of object.now.fields)) }
{
    let built = Interface::new(alloc, object.key.name.as_str())?;
    let built = described_interface(alloc, built, description)?;
    let built = take_uses(alloc, built, object.uses.as_slice())?;
    interface_with_members(alloc, built, object)
}
