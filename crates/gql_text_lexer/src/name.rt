//! Names: section 2.1.9 of the GraphQL specification, October 2021.

ghost use Rattle.std.specs.Prelude.{◌≡◌, ◌↔◌, IsTrue, IfOk, IsErrOf};
ghost use Rattle.std.specs.Cmp.{partial_equiv_from_equiv};
ghost use Rattle.std.specs.Cmp.Lexicographic.{nat_list_eq_equiv, pointwise};
ghost use Rattle.std.specs.Cmp.Rules.{hashing};
ghost use Rattle.std.proofs.Common.{rules, nat_eq};
ghost use Rattle.std.specs.Hash as fed;
ghost use Rattle.gql_text_lexer.specs.Forms.{IsName, is_reserved};

use crate::bytes::{after_name, begins_name};
use crate::error::{NameError, OutOfMemory};
use std::alloc::{AllocError, Global};
use std::hash::{Hash, Hasher};
use std::marker::Model;

/// A name: a letter or `_`, and then any number of letters, digits and `_`, all of them ASCII.
/// Two names are equal where they have the same bytes.
#[derive(Debug, Drop)]
pub struct Name {
    text: String,
}

impl Model for Name {
    ghost use Rattle.std.specs.Prelude.{List, ℕ, string_bytes};
    ghost use Rattle.gql_text_lexer.specs.Forms.{IsName};

    ghost Value = { List ℕ };

    ghost view = { λ n. string_bytes n.text };

    ghost invariant = { λ n. IsName (string_bytes n.text) };
}

/// Whether the text is a name.
fn is_name(text: &str) -> bool
    ensures { IsTrue result ↔ IsName text.now }
{
    match text.as_bytes().split_first() {
        Some((first, more)) => begins_name(*first) && after_name(more).is_empty(),
        None => false,
    }
}

/// Whether the text begins with two underscores, as names for introspection do.
#[tactic(auto, unfolding(crate::specs::Forms::is_reserved), using(crate::proofs::Names::starts))]
pub fn is_reserved(name: &str) -> bool
    ensures { result ≡ is_reserved name.now }
{
    name.starts_with("__")
}

impl Name {
    /// A copy of a text that is a name. The error is `NotAName` exactly where the text is no name.
    pub fn new(alloc: Global, text: &str) -> Result<Name, NameError>
        ensures name { IfOk result (λ n. n ≡ text.now) }
        ensures refused { IsErrOf result NameError.NotAName ↔ ¬ (IsName text.now) }
    {
        if !is_name(text) {
            return Err(NameError::NotAName);
        }
        Ok(Name::from_valid(alloc, text)?)
    }

    /// A copy of a text that is known to be a name.
    pub fn from_valid(alloc: Global, text: &str) -> Result<Name, AllocError>
        requires { IsName text.now }
        ensures { IfOk result (λ n. n ≡ text.now) }
    {
        let text = String::from_str(alloc, text)?;
        Ok(Name { text })
    }

    /// The text of the name.
    pub fn as_str(&self) -> &str
        ensures text { result.now ≡ self.now }
        ensures name { IsName result.now }
    {
        self.text.as_str()
    }

    /// An equal name.
    pub fn try_clone(&self, alloc: Global) -> Result<Name, OutOfMemory>
        ensures { IfOk result (λ copy. copy ≡ self.now) }
    {
        Ok(Name::from_valid(alloc, self.as_str())?)
    }
}

impl PartialEq for Name {
    ghost eq = { λ a b. pointwise nat_eq a b };

    ghost laws = { partial_equiv_from_equiv nat_list_eq_equiv };

    fn eq(&self, other: &Name) -> bool
        ensures tested { result ≡ pointwise nat_eq self.now other.now }
        ensures equal { IsTrue result ↔ (self.now ≡ other.now) }
    {
        self.as_str() == other.as_str()
    }
}

impl Eq for Name {
    ghost laws = { nat_list_eq_equiv };
}

impl Hash for Name {
    ghost hash_input = { λ n. fed.str n };

    ghost respects_eq = { Prim.search (hashing, rules) };

    fn hash<H: Hasher>(&self, state: &mut H) {
        self.as_str().hash(state);
    }
}
