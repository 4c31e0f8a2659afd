//! The document that a written tree stands for, with copies of its names and texts.

ghost use Rattle.std.specs.Prelude.{◌≡◌, IfOk, map};
ghost use Rattle.gql_text.specs.DocumentOf.{argument_of, definition_of, description_of, enum_value_of, field_def_of, head_of, implements_of, input_of, kind_of, root_line_of, use_of};
ghost use Rattle.gql_text_syntax.specs.declared.syntax.Kind.TheVariants as kind;

use crate::document::{
    Definition, DirectiveDef, DirectiveUse, EnumValueDef, FieldDef, InputDef, RootLine, TypeHead,
};
use crate::value_conversion::{const_value, default_value};
use gql_text_lexer::{Name, OutOfMemory, Text};
use gql_text_syntax::{
    Argument, Description, EnumValue, Field, Implements, InputValue, Kind, NameSpan, ObjectLike,
    PlacedName, Root, Use, WrittenDefinition,
};
use gql_text_values::ConstValue;
use sqlite_items::Items;
use std::alloc::Global;

/// A part of the written tree, and what it becomes in the document.
pub(crate) trait Becomes<U>: Sized {
    ghost becomes: { Self → U };

    fn owned(&self, alloc: Global) -> Result<U, OutOfMemory>
        ensures { IfOk result (λ part. part ≡ becomes self.now) };
}

/// Each item in its place.
pub(crate) fn each<T: Becomes<U>, U: Drop>(
    alloc: Global,
    items: &Items<T>,
) -> Result<Items<U>, OutOfMemory>
    ensures { IfOk result (λ found. found ≡ map T.becomes items.now) }
{
    let mut found = Items::new(alloc);
    for item in items.as_slice() {
        found.push(item.owned(alloc)?)?;
    }
    Ok(found)
}

impl<'t> Becomes<Name> for PlacedName<'t> {
    ghost becomes = { λ n. n.name };

    fn owned(&self, alloc: Global) -> Result<Name, OutOfMemory> {
        self.name.to_name(alloc)
    }
}

impl<'t> Becomes<Name> for NameSpan<'t> {
    ghost becomes = { λ n. n };

    fn owned(&self, alloc: Global) -> Result<Name, OutOfMemory> {
        self.to_name(alloc)
    }
}

impl<'t> Becomes<(Name, ConstValue)> for Argument<'t> {
    ghost becomes = { argument_of };

    fn owned(&self, alloc: Global) -> Result<(Name, ConstValue), OutOfMemory> {
        let name = self.key.name.to_name(alloc)?;
        let value = const_value(alloc, &self.value)?;
        Ok((name, value))
    }
}

impl<'t> Becomes<DirectiveUse> for Use<'t> {
    ghost becomes = { use_of };

    fn owned(&self, alloc: Global) -> Result<DirectiveUse, OutOfMemory> {
        let name = self.name.to_name(alloc)?;
        let args = each(alloc, &self.arguments)?;
        Ok(DirectiveUse {
            name,
            args,
            at: self.at,
        })
    }
}

fn description_text(
    alloc: Global,
    description: &Option<Description<'_>>,
) -> Result<Option<Text>, OutOfMemory>
    ensures { IfOk result (λ text. text ≡ description_of description.now) }
{
    match description {
        None => Ok(None),
        Some(found) => Ok(Some(found.text.to_text(alloc)?)),
    }
}

impl<'t> Becomes<InputDef> for InputValue<'t> {
    ghost becomes = { input_of };

    fn owned(&self, alloc: Global) -> Result<InputDef, OutOfMemory> {
        let name = self.key.name.to_name(alloc)?;
        let description = description_text(alloc, &self.description)?;
        let ty = self.ty.to_type_ref(alloc)?;
        let default = default_value(alloc, &self.default)?;
        let uses = each(alloc, &self.uses)?;
        Ok(InputDef {
            name,
            description,
            ty,
            default,
            uses,
            at: self.key.at,
        })
    }
}

impl<'t> Becomes<FieldDef> for Field<'t> {
    ghost becomes = { field_def_of };

    fn owned(&self, alloc: Global) -> Result<FieldDef, OutOfMemory> {
        let name = self.key.name.to_name(alloc)?;
        let description = description_text(alloc, &self.description)?;
        let args = each(alloc, &self.arguments)?;
        let ty = self.ty.to_type_ref(alloc)?;
        let uses = each(alloc, &self.uses)?;
        Ok(FieldDef {
            name,
            description,
            args,
            ty,
            uses,
            at: self.key.at,
        })
    }
}

impl<'t> Becomes<EnumValueDef> for EnumValue<'t> {
    ghost becomes = { enum_value_of };

    fn owned(&self, alloc: Global) -> Result<EnumValueDef, OutOfMemory> {
        let name = self.key.name.to_name(alloc)?;
        let description = description_text(alloc, &self.description)?;
        let uses = each(alloc, &self.uses)?;
        Ok(EnumValueDef {
            name,
            description,
            uses,
            at: self.key.at,
        })
    }
}

impl<'t> Becomes<RootLine> for Root<'t> {
    ghost becomes = { root_line_of };

    fn owned(&self, alloc: Global) -> Result<RootLine, OutOfMemory> {
        let name = self.name.to_name(alloc)?;
        Ok(RootLine {
            kind: self.kind,
            name,
            at: self.at,
        })
    }
}

fn implemented(
    alloc: Global,
    implements: &Option<Implements<'_>>,
) -> Result<Items<Name>, OutOfMemory>
    ensures { IfOk result (λ names. names ≡ implements_of implements.now) }
{
    match implements {
        None => Ok(Items::new(alloc)),
        Some(found) => each(alloc, &found.names),
    }
}

fn head(
    alloc: Global,
    description: &Option<Description<'_>>,
    key: &PlacedName<'_>,
    uses: &Items<Use<'_>>,
) -> Result<TypeHead, OutOfMemory>
    ensures { IfOk result (λ head. head ≡ head_of description.now key.now uses.now) }
{
    let name = key.name.to_name(alloc)?;
    let description = description_text(alloc, description)?;
    let uses = each(alloc, uses)?;
    Ok(TypeHead {
        name,
        description,
        uses,
        at: key.at,
    })
}

fn object(
    alloc: Global,
    description: &Option<Description<'_>>,
    object: &ObjectLike<'_>,
) -> Result<Definition, OutOfMemory>
    ensures { IfOk result (λ found. found ≡ kind_of description.now (kind.Object object.now)) }
{
    let head = head(alloc, description, &object.key, &object.uses)?;
    let implements = implemented(alloc, &object.implements)?;
    let fields = each(alloc, &object.fields)?;
    Ok(Definition::Object {
        head,
        implements,
        fields,
    })
}

fn interface(
    alloc: Global,
    description: &Option<Description<'_>>,
    object: &ObjectLike<'_>,
) -> Result<Definition, OutOfMemory>
    ensures { IfOk result (λ found. found
        ≡ kind_of description.now (kind.Interface object.now)) }
{
    let head = head(alloc, description, &object.key, &object.uses)?;
    let implements = implemented(alloc, &object.implements)?;
    let fields = each(alloc, &object.fields)?;
    Ok(Definition::Interface {
        head,
        implements,
        fields,
    })
}

fn directive(
    alloc: Global,
    description: &Option<Description<'_>>,
    key: &PlacedName<'_>,
    arguments: &Items<InputValue<'_>>,
    repeatable: bool,
    locations: &Items<NameSpan<'_>>,
) -> Result<Definition, OutOfMemory>
    ensures { IfOk result (λ found. found
        ≡ kind_of description.now (kind.Directive key.now arguments.now repeatable locations.now)) }
{
    let name = key.name.to_name(alloc)?;
    let description = description_text(alloc, description)?;
    let args = each(alloc, arguments)?;
    let locations = each(alloc, locations)?;
    Ok(Definition::Directive(DirectiveDef {
        name,
        description,
        args,
        repeatable,
        locations,
        at: key.at,
    }))
}

fn definition(
    alloc: Global,
    description: &Option<Description<'_>>,
    kind: &Kind<'_>,
) -> Result<Definition, OutOfMemory>
    ensures { IfOk result (λ found. found ≡ kind_of description.now kind.now) }
{
    match kind {
        Kind::Schema { at, roots, .. } => {
            let roots = each(alloc, roots)?;
            Ok(Definition::SchemaBlock { roots, at: *at })
        }
        Kind::Scalar { key, uses } => {
            let head = head(alloc, description, key, uses)?;
            Ok(Definition::Scalar(head))
        }
        Kind::Object(found) => object(alloc, description, found),
        Kind::Interface(found) => interface(alloc, description, found),
        Kind::Union { key, uses, members } => {
            let head = head(alloc, description, key, uses)?;
            let members = each(alloc, members)?;
            Ok(Definition::Union { head, members })
        }
        Kind::Enum { key, uses, values } => {
            let head = head(alloc, description, key, uses)?;
            let values = each(alloc, values)?;
            Ok(Definition::Enum { head, values })
        }
        Kind::Input { key, uses, fields } => {
            let head = head(alloc, description, key, uses)?;
            let fields = each(alloc, fields)?;
            Ok(Definition::Input { head, fields })
        }
        Kind::Directive {
            key,
            arguments,
            repeatable,
            locations,
        } => directive(alloc, description, key, arguments, *repeatable, locations),
    }
}

impl<'t> Becomes<Definition> for WrittenDefinition<'t> {
    ghost becomes = { definition_of };

    fn owned(&self, alloc: Global) -> Result<Definition, OutOfMemory> {
        definition(alloc, &self.description, &self.kind)
    }
}
