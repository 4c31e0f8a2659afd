//! The text of a schema of which one type is at hand after another.

ghost use Rattle.std.specs.Prelude.{◌≡◌, ◌++◌, IfOk, OnOk, List, Option, string_bytes};
ghost use Rattle.std.specs.Map.{values_of};
ghost use Rattle.std.specs.Option.{option_copied};
ghost use Rattle.gql_registry_meta.specs.Parts.{Meta, Text};
ghost use Rattle.gql_registry_meta.specs.Views.{names_of, meta_of};
ghost use Rattle.gql_registry.specs.Registry.{directives_of};
ghost use Rattle.gql_sdl_view.specs.Spelling.{schema_text};
ghost use Rattle.gql_sdl.specs.Values.{options_of};
ghost use Rattle.gql_sdl.specs.Needs.{needs_of};
ghost use Rattle.gql_sdl.specs.Writing.{written_by, begun, with_type, with_directives};

use crate::needs::Needs;
use crate::options::SDLExportOptions;
use crate::printing::{lent_texts, push_needed_directives};
use gql_registry::{MetaType, Registry};
use gql_sdl_text::{Choice, Layout, push_schema_block, push_type};
use gql_text_lexer::OutOfMemory;
use indexmap::IndexSet;
use std::alloc::Global;

/// A canonical text that grows: first by the types, one after another, then by the definitions of directives, and at last by
/// the schema block. It keeps the text alone, so that a schema can be written of which no two types are in memory at once.
///
/// Of each type it takes all: also fields whose names begin with `__`, and the URLs of scalars. The types are to come in
/// name order, for the text to be canonical.
#[derive(Drop)]
pub struct SDLWriter {
    alloc: Global,
    layout: Layout,
    choice: Choice,
    needs: Needs,
    text: String,
}

impl SDLWriter {
    /// A text without types. Nothing looks at `federation`, `compose_directive` and `include_specified_by`.
    pub fn new(alloc: Global, options: SDLExportOptions) -> Result<SDLWriter, OutOfMemory>
        ensures { IfOk result (λ writer. written_by writer ≡ begun (options_of options)) }
    {
        Ok(SDLWriter {
            alloc,
            layout: options.layout(alloc)?,
            choice: options.document_choice(),
            needs: Needs::none(),
            text: String::new(alloc),
        })
    }

    /// Writes a type, which implements these names: sections 3.5 to 3.10 of the GraphQL specification, October 2021. The only
    /// error is `OutOfMemory`; nothing is known of the text after it.
    pub fn push_type(
        &mut self,
        ty: &MetaType,
        implements: &IndexSet<String>,
    ) -> Result<(), OutOfMemory>
        ensures { (subscription : Option Text) → OnOk result (written_by self.new
            ≡ with_type subscription (written_by self.old) (names_of implements.now) (meta_of ty.now)) }
    {
        let names = lent_texts(self.alloc, implements.as_slice())?;
        let (layout, choice) = (&self.layout, self.choice);
        push_type(
            self.alloc,
            &mut self.text,
            layout,
            choice,
            names.as_slice(),
            ty,
        )?;
        self.needs = self.needs.with(ty);
        Ok(())
    }

    /// Writes the definitions of directives that a registry has, in name order; those of `deprecated`, `specifiedBy` and
    /// `oneOf` only where one of the types that were written needs them: section 3.13.
    pub fn push_directives(&mut self, registry: &Registry) -> Result<(), OutOfMemory>
        ensures { (types : List Meta) → (written_by self.old).needs ≡ needs_of types → OnOk result
            (written_by self.new ≡ with_directives types (written_by self.old)
            (values_of (directives_of registry.now))) }
    {
        let (layout, needs) = (&self.layout, self.needs);
        push_needed_directives(self.alloc, &mut self.text, layout, needs, registry)?;
        Ok(())
    }

    /// Writes the schema block, and hands out the text: section 3.3.
    pub fn finish(
        mut self,
        query: &str,
        mutation: Option<&str>,
        subscription: Option<&str>,
    ) -> Result<String, OutOfMemory>
        ensures { IfOk result (λ text. string_bytes text ≡ (written_by self).text
            ++ schema_text (written_by self).layout query.now
            (option_copied mutation.entry) (option_copied subscription.entry)) }
    {
        push_schema_block(&mut self.text, &self.layout, query, mutation, subscription)?;
        Ok(self.text)
    }
}
