//! What a document can break beyond its grammar: names that repeat, reserved names, and forms that are not supported.

ghost use Rattle.std.specs.Prelude.{◌≡◌, ◌<◌, [], ◌∷◌};
ghost use Rattle.gql_text.specs.Faults.{form_rank, rank, is_before, first_after};

use gql_text_lexer::Text;
use gql_text_syntax::What;

/// A fault of an owner of names or of directives, with the place at which it is reported.
#[derive(Debug, Drop)]
pub(crate) struct OwnerFault {
    pub kind: FaultKind,
    pub at: usize,
}

#[derive(Debug, Drop)]
pub(crate) enum FaultKind {
    /// The name of an earlier one of the same owner, or `@deprecated`, `@specifiedBy` or `@oneOf` a second time on one
    /// owner. The place is that of the name, or of the `@`.
    Duplicate(Text),
    /// The name of a type, or of a field of the subscription root, begins with `__`.
    ReservedName(Text),
    /// A form that is not supported here: a schema block after the first, or one without a line for queries, at the word
    /// `schema`; a description or a directive on a schema block; `implements` on the subscription root, or a directive of
    /// the user's own on it or on one of its fields; `@deprecated`, `@specifiedBy` or `@oneOf` where it may not stand, or
    /// with arguments that it doesn't take.
    Unsupported(What),
}

fn form_rank(form: What) -> u8
    ensures rank { result ≡ form_rank form }
    ensures within { result < 7 }
{
    match form {
        What::Float => 0,
        What::Extend => 1,
        What::SecondSchema => 2,
        What::NoQuery => 3,
        What::SchemaDecoration => 4,
        What::SubscriptionDecoration => 5,
        What::Attribute => 6,
    }
}

impl FaultKind {
    fn rank(&self) -> u8
        ensures { result ≡ rank self.now }
    {
        match self {
            FaultKind::Duplicate(_) => 0,
            FaultKind::ReservedName(_) => 1,
            FaultKind::Unsupported(form) => 2 + form_rank(*form),
        }
    }
}

impl OwnerFault {
    fn is_before(&self, other: &OwnerFault) -> bool
        ensures { result ≡ is_before self.now other.now }
    {
        self.at < other.at || (self.at == other.at && self.kind.rank() < other.kind.rank())
    }
}

/// Keeps the first of what was found and of one more fault.
pub(crate) fn note(first: &mut Option<OwnerFault>, kind: FaultKind, at: usize)
    ensures { first.new ≡ first_after first.old (record { kind = kind; at = at } ∷ []) }
{
    let fault = OwnerFault { kind, at };
    if let Some(found) = first {
        if !fault.is_before(found) {
            return;
        }
    }
    *first = Some(fault);
}
