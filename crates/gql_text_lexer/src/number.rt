//! The forms of numbers: sections 2.9.1 and 2.9.2 of the GraphQL specification, October 2021.

ghost use Rattle.std.specs.Prelude.{◌≡◌, option_map};
ghost use Rattle.gql_text_lexer.specs.Bytes.{ends_before, goes_on_number};
ghost use Rattle.gql_text_lexer.specs.Scan.{digits, integer, fraction, exponent, number_ends, number_tail, number};

use crate::bytes::{after_digits, after_minus, after_sign, goes_on_number, is_digit};
use crate::token::TokenKind;

/// The text after one digit or more.
fn digits(text: &[u8]) -> Option<&[u8]>
    ensures { option_map (λ r. r.now) result ≡ digits text.now }
{
    let (first, more) = text.split_first()?;
    if is_digit(*first) {
        Some(after_digits(more))
    } else {
        None
    }
}

/// The text after a `0`, or after digits.
fn integer(text: &[u8]) -> Option<&[u8]>
    ensures { option_map (λ r. r.now) result ≡ integer text.now }
{
    match text.split_first() {
        Some((b'0', more)) => Some(more),
        _ => digits(text),
    }
}

/// The text after a dot and digits, if a dot is there.
fn fraction(text: &[u8]) -> Option<&[u8]>
    ensures { option_map (λ r. r.now) result ≡ fraction text.now }
{
    match text.split_first() {
        Some((b'.', more)) => digits(more),
        _ => Some(text),
    }
}

/// The text after an `e`, a sign and digits, if an `e` is there.
fn exponent(text: &[u8]) -> Option<&[u8]>
    ensures { option_map (λ r. r.now) result ≡ exponent text.now }
{
    match text.split_first() {
        Some((b'E' | b'e', more)) => digits(after_sign(more)),
        _ => Some(text),
    }
}

/// Whether a number may end before this text.
fn ends(text: &[u8]) -> bool
    ensures { result ≡ ends_before goes_on_number text.now }
{
    match text.split_first() {
        Some((first, _)) => !goes_on_number(*first),
        None => true,
    }
}

/// The kind of a number by what stands after its integer part and after all of it.
fn number_ends<'t>(whole: &[u8], rest: &'t [u8]) -> Option<(TokenKind, &'t [u8])>
    ensures { option_map (λ p. (p.0, p.1.now)) result ≡ number_ends whole.now rest.now }
{
    if !ends(rest) {
        None
    } else if rest.len() == whole.len() {
        Some((TokenKind::Whole, rest))
    } else {
        Some((TokenKind::Float, rest))
    }
}

/// What goes on after the integer part.
#[tactic(auto, unfolding(crate::specs::Scan::number_tail))]
fn number_tail(whole: &[u8]) -> Option<(TokenKind, &[u8])>
    ensures { option_map (λ p. (p.0, p.1.now)) result ≡ number_tail whole.now }
{
    let rest = exponent(fraction(whole)?)?;
    number_ends(whole, rest)
}

/// The kind of the number at the start, and what stands after it.
#[tactic(auto, unfolding(crate::specs::Scan::number))]
pub(crate) fn number(text: &[u8]) -> Option<(TokenKind, &[u8])>
    ensures { option_map (λ p. (p.0, p.1.now)) result ≡ number text.now }
{
    let whole = integer(after_minus(text))?;
    number_tail(whole)
}
