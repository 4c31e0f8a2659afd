//! The canonical text of a document, and its schema.

ghost use Rattle.std.specs.Prelude.{◌≡◌, Ok, Err, IfOk, IfErr, string_bytes};
ghost use Rattle.gql_text.specs.declared.document.Document.{Document};
ghost use Rattle.gql_sdl.specs.Values.{options_of};
ghost use Rattle.gql_publish_document.specs.Verdict.{HasVerdict, Verdict};
ghost use Rattle.gql_publish_load.specs.Errors.{Refuses};
ghost use Rattle.gql_publish_load.specs.Loading.{contents_of};
ghost use Rattle.gql_publish_load.specs.Publishing.{AnswersPublished, Publishes, registry_spelling};

use crate::error::PublishError;
use crate::loading::load;
use gql_check::Schema;
use gql_publish_order::canonical_laws;
use gql_publish_views::view_laws;
use gql_sdl::{OutOfMemory, SDLExportOptions, export_sdl};
use std::alloc::Global;

/// The canonical text of a document, and its schema.
#[derive(Drop)]
pub struct Published {
    pub text: String,
    pub schema: Schema,
}

/// The text of the registry of a schema, with the URLs of its scalars.
fn registry_text(
    alloc: Global,
    schema: &Schema,
    options: SDLExportOptions,
) -> Result<String, OutOfMemory>
    ensures { IfOk result (λ text. string_bytes text
        ≡ registry_spelling (options_of options) (contents_of schema.now)) }
{
    export_sdl(alloc, schema.registry(), options.include_specified_by())
}

/// The canonical text of the document that the bytes are, and its schema. The URLs of scalars are published, and nothing
/// looks at `federation` and `compose_directive`.
///
/// The text is the spelling of the document's view under the options. It is itself a valid document with the same view, and
/// each valid document has this text exactly where it has this view. The registry of the schema stands for the document.
///
/// The refusals are those of [`load`], and come exactly where they come there.
pub fn publish(
    alloc: Global,
    bytes: &[u8],
    options: SDLExportOptions,
) -> Result<Published, PublishError>
    ensures published { IfOk result (λ published. (d : Document) × HasVerdict bytes.now (Ok d)
        × Publishes (options_of options) d published) }
    ensures refused { IfErr result (Refuses (λ refusal. HasVerdict bytes.now (Err refusal))) }
    ensures exactly { (verdict : Verdict) → HasVerdict bytes.now verdict →
        AnswersPublished (options_of options) verdict result }
{
    canonical_laws();
    view_laws();
    match load(alloc, bytes) {
        Ok(schema) => {
            let text = registry_text(alloc, &schema, options)?;
            Ok(Published { text, schema })
        }
        Err(error) => Err(error),
    }
}
