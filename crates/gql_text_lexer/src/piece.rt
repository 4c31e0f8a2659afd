//! The token or ignored part at the start of a text: section 2.1 of the GraphQL specification, October 2021.

ghost use Rattle.std.specs.Prelude.{◌≡◌, ◌∷◌, option_map};
ghost use Rattle.gql_text_lexer.specs.Scan.{class_of, mark, dots, of_number, number, piece_of, string, piece};

use crate::bytes::{after_line, after_name, begins_name, is_blank, is_digit, is_punctuator};
use crate::number::number;
use crate::string::string;
use crate::token::{Shape, TokenKind};

/// What a first byte may begin.
#[derive(Clone, Copy, Debug, PartialEq, Eq)]
pub(crate) enum Class {
    Word,
    Blank,
    Sign,
    Quote,
    Hash,
    Dot,
    Digit,
    Mark,
}

/// The class of a first byte.
fn class_of(b: u8) -> Option<Class>
    ensures { result ≡ class_of b }
{
    if begins_name(b) {
        Some(Class::Word)
    } else if is_blank(b) {
        Some(Class::Blank)
    } else if is_punctuator(b) {
        Some(Class::Sign)
    } else if b == b'"' {
        Some(Class::Quote)
    } else if b == b'#' {
        Some(Class::Hash)
    } else if b == b'.' {
        Some(Class::Dot)
    } else if is_digit(b) || b == b'-' {
        Some(Class::Digit)
    } else if b == 0xEF {
        Some(Class::Mark)
    } else {
        None
    }
}

/// After the first byte of U+FEFF.
fn mark(rest: &[u8]) -> Option<(Shape, &[u8])>
    ensures { option_map (λ p. (p.0, p.1.now)) result ≡ mark rest.now }
{
    let (first, more) = rest.split_first()?;
    let (second, more) = more.split_first()?;
    if *first == 0xBB && *second == 0xBF {
        Some((Shape::Ignored, more))
    } else {
        None
    }
}

/// After the first of three dots.
fn dots(rest: &[u8]) -> Option<(Shape, &[u8])>
    ensures { option_map (λ p. (p.0, p.1.now)) result ≡ dots rest.now }
{
    let (first, more) = rest.split_first()?;
    let (second, more) = more.split_first()?;
    if *first == b'.' && *second == b'.' {
        Some((Shape::Token(TokenKind::Punctuator), more))
    } else {
        None
    }
}

/// A number as a token.
fn number_piece(text: &[u8]) -> Option<(Shape, &[u8])>
    ensures { option_map (λ p. (p.0, p.1.now)) result ≡ of_number (number text.now) }
{
    let (kind, rest) = number(text)?;
    Some((Shape::Token(kind), rest))
}

/// The piece that a byte of this class begins, and what follows it.
fn piece_of<'t>(
    class: Class,
    first: u8,
    text: &'t [u8],
    rest: &'t [u8],
) -> Option<(Shape, &'t [u8])>
    requires { text.now ≡ first ∷ rest.now }
    ensures { option_map (λ p. (p.0, p.1.now)) result ≡ piece_of class first rest.now }
{
    match class {
        Class::Word => Some((Shape::Token(TokenKind::Name), after_name(rest))),
        Class::Blank => Some((Shape::Ignored, rest)),
        Class::Sign => Some((Shape::Token(TokenKind::Punctuator), rest)),
        Class::Quote => string(rest),
        Class::Hash => Some((Shape::Ignored, after_line(rest))),
        Class::Dot => dots(rest),
        Class::Digit => number_piece(text),
        Class::Mark => mark(rest),
    }
}

/// The piece at the start, and what follows it.
#[tactic(auto, unfolding(crate::specs::Scan::piece))]
pub(crate) fn piece(text: &[u8]) -> Option<(Shape, &[u8])>
    ensures { option_map (λ p. (p.0, p.1.now)) result ≡ piece text.now }
{
    let (first, rest) = text.split_first()?;
    let class = class_of(*first)?;
    piece_of(class, *first, text, rest)
}
