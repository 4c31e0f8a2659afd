//! How long and by whom an answer may be kept.

ghost use Rattle.std.specs.Prelude.{◌≡◌, pos, int_lt, true, false, Some, IfOk, string_bytes};
ghost use Rattle.std.specs.Option.{option_map, option_copied};
ghost use Rattle.gql_registry_meta.specs.Caching.{no_hint, merged_age, merge, hint_text};
ghost use Rattle.gql_registry_meta.specs.Caching.{IsCommutative, IsAssociative, IsIdempotent, HasUnit};

use gql_text_lexer::OutOfMemory;
use std::alloc::Global;

/// A hint for caches. `max_age` is a count of seconds; 0 says nothing, and -1 that the answer is not to be kept.
#[derive(Clone, Copy, Debug, PartialEq, Eq)]
pub struct CacheControl {
    pub public: bool,
    pub max_age: i32,
}

impl Default for CacheControl {
    ghost is_default = { λ hint. hint ≡ no_hint };

    /// Public, and of no age.
    fn default() -> CacheControl {
        CacheControl {
            public: true,
            max_age: 0,
        }
    }
}

impl CacheControl {
    /// The value of a `Cache-Control` header: `max-age=N` for a positive age and `no-cache` for -1, and `private` where
    /// the hint is not public, with a comma and a space between them. None where that is empty.
    pub fn value(&self, alloc: Global) -> Result<Option<String>, OutOfMemory>
        ensures { IfOk result (λ value. option_map string_bytes value ≡ hint_text self.now) }
    {
        if self.max_age > 0 {
            return Ok(Some(self.aged_value(alloc)?));
        }
        match self.ageless_value() {
            None => Ok(None),
            Some(text) => Ok(Some(String::from_str(alloc, text)?)),
        }
    }

    /// The value where the age is positive.
    fn aged_value(&self, alloc: Global) -> Result<String, OutOfMemory>
        ensures { IfOk result (λ value.
            int_lt (pos 0) self.now.max_age ≡ true → Some (string_bytes value) ≡ hint_text self.now) }
    {
        if self.public {
            Ok(format!(in alloc; "max-age={}", self.max_age)?)
        } else {
            Ok(format!(in alloc; "max-age={}, private", self.max_age)?)
        }
    }

    /// The value where the age is not positive.
    fn ageless_value(&self) -> Option<&'static str>
        ensures { int_lt (pos 0) self.now.max_age ≡ false
            → option_copied result ≡ hint_text self.now }
    {
        match (self.max_age == -1, self.public) {
            (true, true) => Some("no-cache"),
            (true, false) => Some("no-cache, private"),
            (false, true) => None,
            (false, false) => Some("private"),
        }
    }

    /// The hint for an answer that both hints speak of. It is public where both are. Its age is -1 where one of the
    /// ages is, the other age where one is 0, and else the smaller one.
    pub fn merge(self, other: &CacheControl) -> CacheControl
        ensures { result ≡ merge self other.now }
    {
        CacheControl {
            public: self.public && other.public,
            max_age: merged_age(self.max_age, other.max_age),
        }
    }
}

fn merged_age(age: i32, other: i32) -> i32
    ensures { result ≡ merged_age age other }
{
    if age == -1 || other == -1 {
        -1
    } else if age == 0 {
        other
    } else if other == 0 || age < other {
        age
    } else {
        other
    }
}

/// Carries a law: that `merge` does not look at the order or the number of the hints, and that the default adds nothing.
pub fn merge_laws()
    ensures commutative { IsCommutative merge }
    ensures associative { IsAssociative merge }
    ensures idempotent { IsIdempotent merge }
    ensures unit { HasUnit merge no_hint }
{}
