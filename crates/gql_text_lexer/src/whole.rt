//! Whole numbers of 64 bits: section 2.9.1 of the GraphQL specification, October 2021.

ghost use Rattle.std.specs.Prelude.{◌≡◌, ◌↔◌, IsTrue, pos, Some, SomeIff};
ghost use Rattle.std.specs.Cmp.Rules.{comparing};
ghost use Rattle.std.specs.Ordering.{int_eq};
ghost use Rattle.std.proofs.Common.{rules};
ghost use Rattle.std.specs.Fmt.{signed_decimal};
ghost use Rattle.gql_text_lexer.specs.Forms.{IsWhole};
ghost use Rattle.gql_text_lexer.specs.Whole.{IsWithin, whole_value};

use std::fmt;
use std::marker::Model;

/// A whole number from `i64::MIN` to `u64::MAX`. Two are equal where they have the same value. It is printed in decimal
/// digits, after a `-` where it is below 0.
#[derive(Clone, Copy, Debug)]
pub struct Number {
    value: i128,
}

impl Model for Number {
    ghost use Rattle.std.specs.Prelude.{ℤ};
    ghost use Rattle.gql_text_lexer.specs.Whole.{IsWithin};

    ghost Value = { ℤ };

    ghost view = { λ n. n.value };

    ghost inverse = { λ z. record { value = z } };

    ghost invariant = { λ n. IsWithin n.value };
}

impl Number {
    /// The number of this value.
    pub fn from_i64(v: i64) -> Number
        ensures { result ≡ v }
    {
        Number { value: v as i128 }
    }

    /// The number of this value.
    pub fn from_u64(v: u64) -> Number
        ensures { result ≡ pos v }
    {
        Number { value: v as i128 }
    }

    /// Its value.
    pub fn value(&self) -> i128
        ensures value { result ≡ self.now }
        ensures within { IsWithin result }
    {
        self.value
    }

    /// The number that a text of the form of a whole number writes; none where it is below `i64::MIN` or above
    /// `u64::MAX`. `-0` is 0.
    pub fn read(text: &str) -> Option<Number>
        requires { IsWhole text.now }
        ensures { SomeIff result (IsWithin (whole_value text.now)) (whole_value text.now) }
    {
        let Ok(value) = text.parse::<i128>() else {
            return None;
        };
        if value < i64::MIN as i128 || value > u64::MAX as i128 {
            None
        } else {
            Some(Number { value })
        }
    }
}

impl PartialEq for Number {
    ghost eq = { int_eq };

    ghost laws = { Prim.search (comparing, rules) };

    fn eq(&self, other: &Number) -> bool
        ensures tested { result ≡ int_eq self.now other.now }
        ensures equal { IsTrue result ↔ (self.now ≡ other.now) }
    {
        self.value == other.value
    }
}

impl Eq for Number {
    ghost laws = { Prim.search (comparing, rules) };
}

impl fmt::Display for Number {
    ghost output = { λ n. Some (signed_decimal n) };

    fn fmt<W: fmt::Write>(&self, f: &mut fmt::Formatter<W>) -> fmt::Result {
        write!(f, "{}", self.value)
    }
}
