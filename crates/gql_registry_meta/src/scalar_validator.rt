//! The test of the values of a scalar.

use gql_text_values::ConstValue;

type Test = fn(&ConstValue) -> bool;

/// A function that says which values a scalar takes.
#[derive(Clone, Copy)]
pub struct ScalarValidator {
    accepts: Test,
    ghost callable: { Test.IsAlwaysCallable accepts },
}

impl ScalarValidator {
    ghost use Rattle.std.specs.Prelude.{◌≡◌};
    ghost use Rattle.std.specs.Fn.{FnReturnsAt};
    ghost use Rattle.gql_registry_meta.specs.Validators.{asked};

    /// The validator that asks the function, which may be called on every value.
    pub fn new(f: fn(&ConstValue) -> bool) -> ScalarValidator
        requires { IsAlwaysCallable f }
        ensures { asked result ≡ f }
    {
        ScalarValidator { accepts: f }
    }

    /// What the function that `new` got answers.
    pub fn check(&self, value: &ConstValue) -> bool
        ensures { FnReturnsAt Test.Fn (asked self.now) value.now result }
    {
        (self.accepts)(value)
    }
}
