//! The canonical text of a document, written one type after another.

ghost use Rattle.std.specs.Prelude.{◌≡◌, true, None, Ok, Err, IfOk, IfErr, OnOk, List, Option, map, string_bytes};
ghost use Rattle.std.specs.Map.{values_of};
ghost use Rattle.gql_text.specs.declared.document.Document.{Document};
ghost use Rattle.gql_registry_meta.specs.Parts.{Meta, Text, text_cmp};
ghost use Rattle.gql_registry_meta.specs.Views.{directive_of};
ghost use Rattle.gql_registry.specs.Additions.{all_made, directive, system_steps};
ghost use Rattle.gql_registry.specs.Registry.{empty, registry_of};
ghost use Rattle.gql_dynamic.specs.SchemaTypes.{interfaces, type_meta, type_name};
ghost use Rattle.gql_dynamic.specs.SchemaViews.{type_parts};
ghost use Rattle.gql_check_rules.specs.Rules.{first_fault};
ghost use Rattle.gql_check.specs.Recordings.{recorded_of};
ghost use Rattle.gql_sdl.specs.Needs.{needs_of};
ghost use Rattle.gql_sdl.specs.Values.{options_of};
ghost use Rattle.gql_sdl.specs.Writing.{with_directives, with_type, written_by};
ghost use Rattle.gql_sdl_view.specs.Ordered.{arranged};
ghost use Rattle.gql_publish_document.specs.Clean.{IsClean};
ghost use Rattle.gql_publish_document.specs.Document.{document_recorded, document_schema};
ghost use Rattle.gql_publish_document.specs.Published.{canonical_text};
ghost use Rattle.gql_publish_document.specs.Verdict.{HasVerdict, Verdict};
ghost use Rattle.gql_publish_load.specs.Canonical.{AnswersText, IsCanonical, defined, with_types};
ghost use Rattle.gql_publish_load.specs.Errors.{Refuses};
ghost use Rattle.gql_publish_load.specs.Loading.{IsRefusedFor};

use crate::error::PublishError;
use crate::loading::{filled, query_root};
use gql_check::{MetaDirective, OutOfMemory, Registry, Scalar, Schema, SchemaBuilder, Type, check};
use gql_publish_order::canonical_laws;
use gql_sdl::{SDLExportOptions, SDLWriter};
use gql_text::{OperationType, WrittenDocument, read_document};
use indexmap::{IndexMap, IndexSet};
use std::alloc::{AllocError, Global};

// ---- types

/// Writes what is registered for a type.
fn push_built(alloc: Global, writer: &mut SDLWriter, ty: &Type) -> Result<(), OutOfMemory>
    ensures { (subscription : Option Text) → OnOk result (written_by writer.new ≡ with_type
        subscription (written_by writer.old)
        (interfaces (type_parts ty.now)) (type_meta (type_parts ty.now))) }
{
    let none = IndexSet::new(alloc);
    match ty {
        Type::Scalar(ty) => writer.push_type(&ty.meta(alloc)?, &none),
        Type::Object(ty) => writer.push_type(&ty.meta(alloc)?, ty.implements()),
        Type::InputObject(ty) => writer.push_type(&ty.meta(alloc)?, &none),
        Type::Enum(ty) => writer.push_type(&ty.meta(alloc)?, &none),
        Type::Interface(ty) => writer.push_type(&ty.meta(alloc)?, ty.implements()),
        Type::Union(ty) => writer.push_type(&ty.meta(alloc)?, &none),
        Type::Subscription(ty) => writer.push_type(&ty.meta(alloc)?, &none),
        Type::Upload => {
            let upload = Scalar::new(alloc, "Upload")?;
            writer.push_type(&upload.meta(alloc)?, &none)
        }
    }
}

/// Writes the types, one after another. What is registered for one is gone before the next.
fn push_types(alloc: Global, writer: &mut SDLWriter, types: &[&Type]) -> Result<(), OutOfMemory>
    ensures { (subscription : Option Text) → OnOk result (written_by writer.new ≡ with_types
        subscription (written_by writer.old) (map (λ ty. type_parts ty.now) types.now)) }
{
    for ty in types {
        push_built(alloc, writer, ty)?;
    }
    Ok(())
}

/// The types, lent in their order.
fn lent<'a>(alloc: Global, types: &'a IndexMap<String, Type>) -> Result<Vec<&'a Type>, OutOfMemory>
    ensures { IfOk result (λ lent. map (λ ty. ty.now) lent.items ≡ values_of types.now.entries) }
{
    let mut lent = Vec::new(alloc);
    for ty in types.values() {
        lent.push(ty)?;
    }
    Ok(lent)
}

/// Puts types in the order of their names; those of one name keep their order.
fn arrange(types: &mut Vec<&Type>) -> Result<(), AllocError>
    ensures { OnOk result (types.new.items
        ≡ arranged (λ ty. type_name (type_parts ty.now)) true types.old.items) }
{
    types.sort_by(
        |a, b|
            ensures { result
                ≡ text_cmp (type_name (type_parts a.now.now)) (type_name (type_parts b.now.now)) }
        { a.name().cmp(b.name()) },
    )?;
    Ok(())
}

// ---- directives

/// Adds definitions of directives to those that every schema has.
fn add_directives(
    alloc: Global,
    registry: &mut Registry,
    directives: &[MetaDirective],
) -> Result<(), OutOfMemory>
    requires { registry_of registry.old ≡ all_made empty system_steps }
    ensures { OnOk result (registry_of registry.new ≡ all_made (all_made empty system_steps)
        (map directive (map directive_of directives.now))) }
{
    for directive in directives {
        registry.add_directive(directive.try_clone(alloc)?)?;
    }
    Ok(())
}

/// Writes these definitions of directives and those that every schema has, where a type needs them.
fn push_directives(
    alloc: Global,
    writer: &mut SDLWriter,
    directives: &[MetaDirective],
) -> Result<(), OutOfMemory>
    ensures { (types : List Meta) → (written_by writer.old).needs ≡ needs_of types →
        OnOk result (written_by writer.new ≡ with_directives types (written_by writer.old)
        (values_of (defined (map directive_of directives.now)))) }
{
    let mut registry = Registry::new(alloc);
    registry.add_system_types()?;
    add_directives(alloc, &mut registry, directives)?;
    writer.push_directives(&registry)?;
    Ok(())
}

// ---- documents

/// The text of what is recorded of a valid document.
fn recorded_text(
    alloc: Global,
    builder: &SchemaBuilder,
    options: SDLExportOptions,
) -> Result<String, OutOfMemory>
    ensures { (d : Document) → IsClean d → first_fault (document_schema d) ≡ None →
        recorded_of builder.now ≡ document_recorded d →
        IfOk result (λ text. string_bytes text ≡ canonical_text (options_of options) d) }
{
    let types = &builder.types;
    let mut ordered = lent(alloc, types.types())?;
    arrange(&mut ordered)?;
    let mut writer = SDLWriter::new(alloc, options)?;
    push_types(alloc, &mut writer, ordered.as_slice())?;
    push_directives(alloc, &mut writer, builder.directives.as_slice())?;
    let text = writer.finish(types.query(), types.mutation(), types.subscription())?;
    Ok(text)
}

/// The text of a document. The document is gone before the rules are asked.
fn document_text(
    alloc: Global,
    document: WrittenDocument<'_>,
    options: SDLExportOptions,
) -> Result<String, PublishError>
    requires { IsClean document }
    ensures valid { OnOk result (first_fault (document_schema document.entry) ≡ None) }
    ensures text { IfOk result (λ text.
        string_bytes text ≡ canonical_text (options_of options) document.entry) }
    ensures refused { IfErr result (Refuses (IsRefusedFor document.entry)) }
{
    let (query, mutation) = (
        query_root(&document),
        document.root(OperationType::Mutation),
    );
    let subscription = document.root(OperationType::Subscription);
    let builder = Schema::build(alloc, query, mutation, subscription)?;
    let full = filled(builder, document)?;
    match check(alloc, &full.types) {
        Ok(()) => {
            let text = recorded_text(alloc, &full, options)?;
            Ok(text)
        }
        Err(error) => Err(PublishError::from(error)),
    }
}

/// The canonical text of the document that the bytes are, without its schema: the text that [`publish`] writes, with less
/// time and memory. Nothing looks at `federation`, `compose_directive` and `include_specified_by`.
///
/// The text is the spelling of the document's view under the options. It is itself a valid document with the same view, and
/// each valid document has this text exactly where it has this view.
///
/// The refusals are those of [`load`], and come exactly where they come there.
///
/// [`load`]: crate::load
/// [`publish`]: crate::publish
pub fn canonical_sdl(
    alloc: Global,
    bytes: &[u8],
    options: SDLExportOptions,
) -> Result<String, PublishError>
    ensures published { IfOk result (λ text. (d : Document) × HasVerdict bytes.now (Ok d)
        × IsCanonical (options_of options) d (string_bytes text)) }
    ensures refused { IfErr result (Refuses (λ refusal. HasVerdict bytes.now (Err refusal))) }
    ensures exactly { (verdict : Verdict) → HasVerdict bytes.now verdict →
        AnswersText (options_of options) verdict result }
{
    canonical_laws();
    match read_document(alloc, bytes) {
        Ok(document) => document_text(alloc, document, options),
        Err(error) => Err(PublishError::from(error)),
    }
}
