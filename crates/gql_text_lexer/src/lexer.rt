//! The lexer: section 2.1 of the GraphQL specification, October 2021.

ghost use Rattle.std.specs.Prelude.{◌≡◌, ◌<◌, ◌≤◌, ◌+◌, ◌-◌, List, ℕ, length, take, drop, slice_index, map, IfSome, IfNone, IfOk, MatchOption, Some, None, [], ◌∷◌};
ghost use Rattle.gql_text_lexer.specs.Forms.{IsPiece, StartsNoPiece};
ghost use Rattle.gql_text_lexer.specs.Tokens.{Lexeme, lexeme_of, HasTokens, AreSlices, place_of};
ghost use Rattle.gql_text_lexer.specs.Cut.{Cut};
ghost use Rattle.gql_text_lexer.specs.Left.{left_at, token_and};
ghost use Rattle.gql_text_lexer.specs.Scan as scan;
ghost use Rattle.gql_text_lexer.specs.declared.token.Shape.TheVariants as shapes;

use crate::bytes::from;
use crate::error::OutOfMemory;
use crate::piece::piece;
use crate::token::{Lexed, Shape, Token};
use std::alloc::Global;

/// The piece at the start, and its length.
fn piece_len(text: &[u8]) -> Option<(Shape, usize)>
    ensures found { IfSome result (λ p. Cut text.now p.0 p.1) }
    ensures none { IfNone result (StartsNoPiece text.now) }
    ensures cut { MatchOption result (scan.piece text.now ≡ None)
        (λ p. scan.piece text.now ≡ Some (p.0, drop p.1 text.now)) }
{
    let (shape, rest) = piece(text)?;
    Some((shape, text.len() - rest.len()))
}

/// The text of a token: it begins and ends with an ASCII byte.
fn token_text(text: &str, at: usize, len: usize) -> &str
    requires within { at + len ≤ length text.now }
    requires some { 0 < len }
    requires first { slice_index text.now at < 128 }
    requires last { slice_index text.now (at + len - 1) < 128 }
    ensures { result.now ≡ take len (drop at text.now) }
{
    &text[at..at + len]
}

/// The place, where it is not the end of the text.
fn stop_at(text: &[u8], at: usize) -> Option<usize>
    requires { at ≤ length text.now }
    ensures place { place_of result text.now ≡ at }
    ensures within { IfSome result (λ p. (p ≡ at) × (p < length text.now)) }
{
    if at < text.len() { Some(at) } else { None }
}

/// The tokens of a text, up to the first place where neither a token nor an ignored part stands (section 2.1). Each token
/// borrows its text from the source. The only error is `OutOfMemory`.
pub fn lex<'t>(alloc: Global, text: &'t str) -> Result<Lexed<'t>, OutOfMemory>
    ensures tokens { IfOk result (λ l.
        HasTokens text.now (map lexeme_of l.tokens.items) (place_of l.stop text.now)) }
    ensures only { IfOk result (λ l. (others : List Lexeme) →
        HasTokens text.now others (place_of l.stop text.now) → others ≡ map lexeme_of l.tokens.items) }
    ensures slices { IfOk result (λ l. AreSlices text.now 0 (map lexeme_of l.tokens.items)) }
    ensures stop { IfOk result (λ l.
        IfSome l.stop (λ at. (at < length text.now) × StartsNoPiece (drop at text.now))) }
    ensures farthest { IfOk result (λ l. (others : List Lexeme) (place : ℕ) →
        HasTokens text.now others place → place ≤ place_of l.stop text.now) }
{
    let bytes = text.as_bytes();
    let mut tokens = Vec::new(alloc);
    let mut at = 0;
    'pieces: while let Some((shape, len)) = piece_len(from(bytes, at)) {
        match shape {
            Shape::Token(kind) => tokens.push(Token {
                kind,
                text: token_text(text, at, len),
                at,
            })?,
            Shape::Ignored => {}
        }
        at += len;
    }
    Ok(Lexed {
        tokens,
        stop: stop_at(bytes, at),
    })
}

/// The first token at this place or after it, and the place after it; or the place where the tokens end.
pub fn next_token<'t>(text: &'t str, from_place: usize) -> (Option<Token<'t>>, usize)
    requires { from_place ≤ length text.now }
    ensures left { MatchOption result.0 (left_at text.now from_place ≡ ([], result.1))
        (λ t. left_at text.now from_place ≡ token_and (lexeme_of t) (left_at text.now result.1)) }
    ensures formed { IfSome result.0 (λ t.
        IsPiece (shapes.Token t.kind) t.text.now (drop result.1 text.now)) }
    ensures within { result.1 ≤ length text.now }
{
    let bytes = text.as_bytes();
    let mut place = from_place;
    'pieces: while let Some((shape, len)) = piece_len(from(bytes, place)) {
        match shape {
            Shape::Token(kind) => {
                let part = token_text(text, place, len);
                return (
                    Some(Token {
                        kind,
                        text: part,
                        at: place,
                    }),
                    place + len,
                );
            }
            Shape::Ignored => place += len,
        }
    }
    (None, place)
}
