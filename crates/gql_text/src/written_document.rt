//! A schema document that borrows the text in which it is written.

ghost use Rattle.std.specs.Prelude.{◌≡◌, IfOk};
ghost use Rattle.std.specs.Option.{option_copied};
ghost use Rattle.gql_text.specs.DocumentOf.{document_of};
ghost use Rattle.gql_text.specs.Roots.{root_of};

use crate::conversion::each;
use crate::document::Document;
use crate::roots::root_name;
use gql_text_lexer::OutOfMemory;
use gql_text_syntax::{OperationType, WrittenDefinition};
use sqlite_items::Items;
use std::alloc::Global;
use std::marker::Model;

/// A document as it is written. Contracts see the [`Document`] that it stands for, so that one tree serves both.
#[derive(Debug, Drop)]
pub struct WrittenDocument<'t> {
    definitions: Items<WrittenDefinition<'t>>,
}

impl<'t> Model for WrittenDocument<'t> {
    ghost use Rattle.gql_text.specs.declared.document.Document.{Document};
    ghost use Rattle.gql_text.specs.DocumentOf.{document_of};
    ghost use Rattle.gql_text_values.specs.contracts.const_value.ConstValue as value;
    ghost use Rattle.gql_text_values.specs.contracts.type_ref.TypeRef as ty;
    ghost use Rattle.std.specs.Coded.{codes};

    ghost Value = { Document };

    ghost coded = { Prim.hlevel (codes, value.the_row.coded, ty.the_row.coded) };

    ghost view = { λ d. document_of d.definitions };
}

impl<'t> WrittenDocument<'t> {
    /// The document of these definitions.
    pub(crate) fn new(definitions: Items<WrittenDefinition<'t>>) -> WrittenDocument<'t>
        ensures { result ≡ document_of definitions.entry }
    {
        WrittenDocument { definitions }
    }

    /// The definitions in their order.
    pub fn as_slice(&self) -> &[WrittenDefinition<'t>]
        ensures { document_of result.now ≡ self.now }
    {
        self.definitions.as_slice()
    }

    /// The name of a root: what the first line of its kind in the first schema block says. Without a block it is
    /// `Query`, and `Mutation` and `Subscription` where a `type` of that name is defined.
    pub fn root(&self, kind: OperationType) -> Option<&str>
        ensures { option_copied result ≡ root_of kind self.now }
    {
        root_name(kind, self.definitions.as_slice())
    }

    /// The same document, with a copy of each name and text.
    pub fn to_document(&self, alloc: Global) -> Result<Document, OutOfMemory>
        ensures { IfOk result (λ document. document ≡ self.now) }
    {
        let definitions = each(alloc, &self.definitions)?;
        Ok(Document { definitions })
    }
}
