//! The numbers that options take.

ghost use Rattle.std.specs.Prelude.{◌≡◌, IsTrue, ◌↔◌, IfOk, IfErr, IfSome, SomeIff, ◌≤◌, option_map};
ghost use Rattle.std.specs.Char.{is_ascii_digit};
ghost use Rattle.std.specs.List.{list_all};
ghost use Rattle.std.specs.Option.{option_copied};
ghost use Rattle.gql_publish_words.specs.Words.{IsAbsentOrWithin, IsNumber, IsWithin, number_of};
ghost use Rattle.gql_publish_words.specs.declared.error.WordsError.TheVariants.{Bad as bad_words};

use crate::error::WordsError;

fn are_digits(bytes: &[u8]) -> bool
    ensures { result ≡ list_all is_ascii_digit bytes.now }
{
    bytes.iter().all(|byte| byte.is_ascii_digit())
}

/// Whether a text is one to five decimal digits.
fn is_number(text: &str) -> bool
    ensures { IsTrue result ↔ IsNumber text.now }
{
    match text.len() {
        1..=5 => are_digits(text.as_bytes()),
        _ => false,
    }
}

/// The number that one to five decimal digits spell.
fn number(text: &str) -> Option<u32>
    ensures { SomeIff result (IsNumber text.now) (number_of text.now) }
{
    if is_number(text) {
        text.parse().ok()
    } else {
        None
    }
}

/// The number from `least` to `most` that a text spells.
fn number_within(text: &str, least: u32, most: u32) -> Option<u32>
    ensures { SomeIff result (IsWithin least most text.now) (number_of text.now) }
{
    match number(text) {
        Some(number) if least <= number && number <= most => Some(number),
        _ => None,
    }
}

/// The number that the value of an option spells, where it is given. A value that is no number from `least` to `most`
/// is refused.
pub(crate) fn given_number(
    value: Option<&str>,
    least: u32,
    most: u32,
) -> Result<Option<u32>, WordsError>
    ensures number { IfOk result (λ number.
        number ≡ option_map number_of (option_copied value.entry)) }
    ensures within { IfOk result (λ number.
        IsAbsentOrWithin least most (option_copied value.entry)) }
    ensures between { IfOk result (λ number. IfSome number (λ n. (least ≤ n) × (n ≤ most))) }
    ensures refused { IfErr result (λ error. (error ≡ bad_words)
        × (IsAbsentOrWithin least most (option_copied value.entry) → ⊥)) }
{
    let Some(text) = value else {
        return Ok(None);
    };
    match number_within(text, least, most) {
        Some(number) => Ok(Some(number)),
        None => Err(WordsError::Bad),
    }
}
