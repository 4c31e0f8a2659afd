//! Names and strings that borrow the text in which they are written.

ghost use Rattle.std.specs.Prelude.{◌≡◌, ◌↔◌, IsTrue, IfOk};
ghost use Rattle.gql_text_lexer.specs.Forms.{IsName};
ghost use Rattle.gql_text_lexer.specs.Values.{string_text};

use gql_text_lexer::{Name, OutOfMemory, Text, string_text};
use std::alloc::Global;
use std::marker::Model;

/// A name as a part of the text, section 2.1.9. Contracts see its bytes.
#[derive(Debug, Drop)]
pub struct NameSpan<'t> {
    text: &'t str,
}

impl<'t> Model for NameSpan<'t> {
    ghost use Rattle.std.specs.Prelude.{List, ℕ};
    ghost use Rattle.gql_text_lexer.specs.Forms.{IsName};

    ghost Value = { List ℕ };

    ghost view = { λ n. n.text.now };

    ghost invariant = { λ n. IsName n.text.now };
}

impl<'t> NameSpan<'t> {
    /// A text that is known to be a name.
    pub fn new(text: &'t str) -> NameSpan<'t>
        requires { IsName text.now }
        ensures { result ≡ text.now }
    {
        NameSpan { text }
    }

    /// The text of the name, which outlives the tree.
    pub fn as_str(&self) -> &'t str
        ensures text { result.now ≡ self.now }
        ensures name { IsName result.now }
    {
        self.text
    }

    /// Whether both have the same bytes.
    pub fn is_same(&self, other: &NameSpan<'_>) -> bool
        ensures { IsTrue result ↔ (self.now ≡ other.now) }
    {
        self.as_str() == other.as_str()
    }

    /// A copy of the name.
    pub fn to_name(&self, alloc: Global) -> Result<Name, OutOfMemory>
        ensures { IfOk result (λ n. n ≡ self.now) }
    {
        Ok(Name::from_valid(alloc, self.as_str())?)
    }

    /// A copy of the name, as a text.
    pub fn to_text(&self, alloc: Global) -> Result<Text, OutOfMemory>
        ensures { IfOk result (λ t. t ≡ self.now) }
    {
        Ok(Text::new(alloc, self.as_str())?)
    }
}

/// A string as it is written, as a part of the text. Contracts see the value that it stands for, section 2.9.4.
#[derive(Debug, Drop)]
pub struct TextSpan<'t> {
    token: &'t str,
}

impl<'t> Model for TextSpan<'t> {
    ghost use Rattle.std.specs.Prelude.{List, ℕ};
    ghost use Rattle.gql_text_lexer.specs.Values.{string_text};

    ghost Value = { List ℕ };

    ghost view = { λ s. string_text s.token.now };
}

impl<'t> TextSpan<'t> {
    /// The string of a token.
    pub fn new(token: &'t str) -> TextSpan<'t>
        ensures { result ≡ string_text token.now }
    {
        TextSpan { token }
    }

    /// The value of the string, made as it is asked for.
    pub fn to_text(&self, alloc: Global) -> Result<Text, OutOfMemory>
        ensures { IfOk result (λ t. t ≡ self.now) }
    {
        string_text(alloc, self.token)
    }
}
