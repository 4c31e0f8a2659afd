//! What a caller chooses of a text.

ghost use Rattle.std.specs.Prelude.{◌≡◌, true, IfOk, replicate, string_bytes};
ghost use Rattle.gql_text_lexer.specs.Bytes.{space};
ghost use Rattle.gql_sdl.specs.Values.{options_of};
ghost use Rattle.gql_sdl_view.specs.Options.{no_options, registry_choice, document_choice, indent_of, layout_of};
ghost use Rattle.gql_sdl_text.specs.Views.{layout_view, choice_view};

use gql_sdl_text::{Choice, Layout};
use gql_text_lexer::OutOfMemory;
use std::alloc::Global;

/// Which parts of a schema a text has, in which order, and how they are laid out.
#[derive(Clone, Copy, Debug)]
pub struct SDLExportOptions {
    pub(crate) sorted_fields: bool,
    pub(crate) sorted_arguments: bool,
    pub(crate) sorted_enum_items: bool,
    pub(crate) federation: bool,
    pub(crate) prefer_single_line_descriptions: bool,
    pub(crate) include_specified_by: bool,
    pub(crate) compose_directive: bool,
    pub(crate) use_space_ident: bool,
    pub(crate) indent_width: u8,
}

impl Default for SDLExportOptions {
    ghost is_default = { λ options. options_of options ≡ no_options };

    /// All options off, and an indent of two spaces where spaces are asked for.
    fn default() -> SDLExportOptions {
        SDLExportOptions::new()
    }
}

impl SDLExportOptions {
    /// All options off, and an indent of two spaces where spaces are asked for.
    pub fn new() -> SDLExportOptions
        ensures { options_of result ≡ no_options }
    {
        SDLExportOptions {
            sorted_fields: false,
            sorted_arguments: false,
            sorted_enum_items: false,
            federation: false,
            prefer_single_line_descriptions: false,
            include_specified_by: false,
            compose_directive: false,
            use_space_ident: false,
            indent_width: 2,
        }
    }

    /// The fields of objects, interfaces and input objects are sorted by name.
    pub fn sorted_fields(self) -> Self
        ensures { options_of result ≡ record (options_of self) { sorted_fields = true } }
    {
        SDLExportOptions {
            sorted_fields: true,
            ..self
        }
    }

    /// The arguments of fields are sorted by name.
    pub fn sorted_arguments(self) -> Self
        ensures { options_of result ≡ record (options_of self) { sorted_arguments = true } }
    {
        SDLExportOptions {
            sorted_arguments: true,
            ..self
        }
    }

    /// The values of enums are sorted by name.
    pub fn sorted_enum_items(self) -> Self
        ensures { options_of result ≡ record (options_of self) { sorted_enum_items = true } }
    {
        SDLExportOptions {
            sorted_enum_items: true,
            ..self
        }
    }

    /// The text for federation is asked for. Nothing looks at it yet.
    pub fn federation(self) -> Self
        ensures { options_of result ≡ record (options_of self) { federation = true } }
    {
        SDLExportOptions {
            federation: true,
            ..self
        }
    }

    /// A description without a line feed is written between single quotation marks, on one line.
    pub fn prefer_single_line_descriptions(self) -> Self
        ensures { options_of result ≡ record (options_of self) {
          prefer_single_line_descriptions = true;
        } }
    {
        SDLExportOptions {
            prefer_single_line_descriptions: true,
            ..self
        }
    }

    /// The URLs of scalars are written: section 3.13.4.
    pub fn include_specified_by(self) -> Self
        ensures { options_of result ≡ record (options_of self) { include_specified_by = true } }
    {
        SDLExportOptions {
            include_specified_by: true,
            ..self
        }
    }

    /// The directives that have a URL of their own are composed in the text for federation. Nothing looks at it yet.
    pub fn compose_directive(self) -> Self
        ensures { options_of result ≡ record (options_of self) { compose_directive = true } }
    {
        SDLExportOptions {
            compose_directive: true,
            ..self
        }
    }

    /// An indent is made of spaces, and not of one tab.
    pub fn use_space_ident(self) -> Self
        ensures { options_of result ≡ record (options_of self) { use_space_ident = true } }
    {
        SDLExportOptions {
            use_space_ident: true,
            ..self
        }
    }

    /// The number of spaces of an indent. It is of no effect unless spaces are asked for.
    pub fn indent_width(self, width: u8) -> Self
        ensures { options_of result ≡ record (options_of self) { indent_width = width } }
    {
        SDLExportOptions {
            indent_width: width,
            ..self
        }
    }

    /// What is taken of a registry.
    pub(crate) fn choice(self) -> Choice
        ensures { choice_view result ≡ registry_choice (options_of self) }
    {
        Choice {
            sorted_fields: self.sorted_fields,
            sorted_arguments: self.sorted_arguments,
            sorted_enum_items: self.sorted_enum_items,
            with_reserved: false,
            with_url: self.include_specified_by,
        }
    }

    /// What is taken of a document: all that it says.
    pub(crate) fn document_choice(self) -> Choice
        ensures { choice_view result ≡ document_choice (options_of self) }
    {
        Choice {
            with_reserved: true,
            with_url: true,
            ..self.choice()
        }
    }

    /// How a text is laid out.
    pub(crate) fn layout(self, alloc: Global) -> Result<Layout, OutOfMemory>
        ensures { IfOk result (λ layout. layout_view layout ≡ layout_of (options_of self)) }
    {
        Ok(Layout {
            indent: self.indent(alloc)?,
            single: self.prefer_single_line_descriptions,
        })
    }

    /// One indent.
    fn indent(self, alloc: Global) -> Result<String, OutOfMemory>
        ensures { IfOk result (λ indent. string_bytes indent ≡ indent_of (options_of self)) }
    {
        if self.use_space_ident {
            spaces(alloc, self.indent_width)
        } else {
            Ok(String::from_str(alloc, "\t")?)
        }
    }
}

/// This number of spaces.
fn spaces(alloc: Global, width: u8) -> Result<String, OutOfMemory>
    ensures { IfOk result (λ text. string_bytes text ≡ replicate width space) }
{
    let mut text = String::new(alloc);
    for _ in 0..width {
        text.push_str(" ")?;
    }
    Ok(text)
}
