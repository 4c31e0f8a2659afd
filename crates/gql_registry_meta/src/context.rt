//! Which rules hold.

ghost use Rattle.std.specs.Prelude.{◌≡◌, ℕ, Bool, Option, true};
ghost use Rattle.gql_registry_meta.specs.Kinds.{is_shown};

/// Says which rules hold. The answer is a function of the context and the rule, so that two calls on one value agree.
pub trait Context {
    ghost rules: { Self → ℕ → Bool };

    fn holds(&self, rule: u32) -> bool
        ensures { result ≡ rules self.now rule };
}

/// The context in which every rule holds.
#[derive(Clone, Copy, Debug)]
pub struct Everything;

impl Context for Everything {
    ghost rules = { λ _ _. true };

    fn holds(&self, _rule: u32) -> bool {
        true
    }
}

/// Whether a part with this rule is shown: always where it has none.
pub fn is_shown<C: Context>(ctx: &C, visible: Option<u32>) -> bool
    ensures { result ≡ is_shown (C.rules ctx.now) visible }
{
    match visible {
        None => true,
        Some(rule) => ctx.holds(rule),
    }
}

/// Carries a law: a rule that is asked for twice has one answer.
pub fn holds_twice<C: Context>(ctx: &C, rule: u32) -> (bool, bool)
    ensures { result.0 ≡ result.1 }
{
    (ctx.holds(rule), ctx.holds(rule))
}
