//! Reads schema documents.

ghost use Rattle.std.specs.Prelude.{◌≡◌, ◌≢◌, List, ℕ, IfOk, IfErr};
ghost use Rattle.std.specs.Str.{IsUtf8, IsValidUpTo};
ghost use Rattle.gql_text_syntax.specs.Documents.{SpelledBy, IsStopOf, IsOrMemory, IsErrorOrMemory};
ghost use Rattle.gql_text.specs.Verdict.{Spells, IsFault, IsOwnerError, Judges, owner_error};
ghost use Rattle.gql_text.specs.declared.document.Document.{Document};
ghost use Rattle.gql_text_syntax.specs.declared.error.ReadError.{ReadError};
ghost use Rattle.gql_text_syntax.specs.declared.error.ReadError.TheVariants as errors;
ghost use Rattle.gql_text_syntax.specs.declared.syntax.WrittenDefinition.{WrittenDefinition};

use crate::document::Document;
use crate::owner_document::first_owner_fault;
use crate::owner_fault::{FaultKind, OwnerFault};
use crate::written_document::WrittenDocument;
use gql_text_syntax::{ReadError, WrittenDefinition, read_written};
use sqlite_items::Items;
use std::alloc::Global;

fn owner_error(fault: OwnerFault) -> ReadError
    ensures { result ≡ owner_error fault }
{
    let at = fault.at;
    match fault.kind {
        FaultKind::Duplicate(name) => ReadError::Duplicate(name, at),
        FaultKind::ReservedName(name) => ReadError::ReservedName(name, at),
        FaultKind::Unsupported(form) => ReadError::Unsupported(form, at),
    }
}

/// The document of a written tree, or the first owner fault of it.
fn judge<'t>(
    alloc: Global,
    tree: Items<WrittenDefinition<'t>>,
) -> Result<WrittenDocument<'t>, ReadError>
    ensures { Judges tree.entry result }
{
    match first_owner_fault(alloc, tree.as_slice())? {
        Some(fault) => Err(owner_error(fault)),
        None => Ok(WrittenDocument::new(tree)),
    }
}

fn read_text<'t>(alloc: Global, text: &'t str) -> Result<WrittenDocument<'t>, ReadError>
    requires { IsUtf8 text.now }
    ensures found { IfOk result (λ d. Spells d text.now) }
    ensures only { (d : Document) → Spells d text.now → IsOrMemory d result }
    ensures fault { IfErr result (λ e. e ≢ errors.OutOfMemory → IsFault text.now e) }
    ensures stops { (e : ReadError) → IsStopOf text.now e → IsErrorOrMemory e result }
    ensures owner { (tree : List WrittenDefinition) (e : ReadError) →
        SpelledBy tree text.now → IsOwnerError tree e → IsErrorOrMemory e result }
{
    match read_written(alloc, text) {
        Ok(tree) => judge(alloc, tree),
        Err(error) => Err(error),
    }
}

/// Reads the bytes of a schema document: section 3 of the GraphQL specification, October 2021, in UTF-8.
///
/// The document has the definitions in their order, and borrows its names and strings from the bytes. The first fault is
/// reported, by its kind and the byte where it stands: first that the bytes are no UTF-8, then where they stop being a
/// document, then the first fault that a reader of the whole document sees, such as a name that stands twice.
///
/// `OutOfMemory` comes where memory runs out, and then alone.
pub fn read_document<'t>(alloc: Global, bytes: &'t [u8]) -> Result<WrittenDocument<'t>, ReadError>
    ensures found { IfOk result (λ d. Spells d bytes.now) }
    ensures only { (d : Document) → Spells d bytes.now → IsOrMemory d result }
    ensures fault { IfErr result (λ e. e ≢ errors.OutOfMemory → IsFault bytes.now e) }
    ensures not_utf8 { (at : ℕ) → ¬ (IsUtf8 bytes.now) → IsValidUpTo bytes.now at →
        IsErrorOrMemory (errors.NotUtf8 at) result }
    ensures stops { (e : ReadError) → IsUtf8 bytes.now → IsStopOf bytes.now e →
        IsErrorOrMemory e result }
    ensures owner { (tree : List WrittenDefinition) (e : ReadError) → IsUtf8 bytes.now →
        SpelledBy tree bytes.now → IsOwnerError tree e → IsErrorOrMemory e result }
{
    match std::str::from_utf8(bytes) {
        Ok(text) => read_text(alloc, text),
        Err(error) => Err(ReadError::NotUtf8(error.valid_up_to())),
    }
}

/// Reads the bytes of a schema document as [`read_document`] does, and copies its names and texts.
pub fn read_sdl(alloc: Global, bytes: &[u8]) -> Result<Document, ReadError>
    ensures found { IfOk result (λ d. Spells d bytes.now) }
    ensures only { (d : Document) → Spells d bytes.now → IsOrMemory d result }
    ensures fault { IfErr result (λ e. e ≢ errors.OutOfMemory → IsFault bytes.now e) }
    ensures not_utf8 { (at : ℕ) → ¬ (IsUtf8 bytes.now) → IsValidUpTo bytes.now at →
        IsErrorOrMemory (errors.NotUtf8 at) result }
    ensures stops { (e : ReadError) → IsUtf8 bytes.now → IsStopOf bytes.now e →
        IsErrorOrMemory e result }
    ensures owner { (tree : List WrittenDefinition) (e : ReadError) → IsUtf8 bytes.now →
        SpelledBy tree bytes.now → IsOwnerError tree e → IsErrorOrMemory e result }
{
    match read_document(alloc, bytes) {
        Ok(document) => Ok(document.to_document(alloc)?),
        Err(error) => Err(error),
    }
}
