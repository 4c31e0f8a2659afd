//! What a schema document says: the parts of its types and directives, what the rules of a schema look at in it, its view,
//! and the verdict on the bytes in which it is written. This crate has no code that runs; the laws are in `proofs/`, and
//! the functions here carry them in their clauses.
#![tactic(auto)]

ghost use Rattle.std.specs.Prelude.{List, ℕ};
ghost use Rattle.gql_publish_document.specs.Verdict.{HasOneVerdict};
ghost use Rattle.gql_publish_document.specs.Clean.{IsCleanWhereFaultless};

/// Law: no two verdicts on the same bytes differ, so bytes have at most one.
pub fn verdict_laws()
    ensures { (bytes : List ℕ) → HasOneVerdict bytes }
{}

/// Law: in a document in which the reader finds no fault, the names of each owner are distinct.
pub fn document_laws()
    ensures { IsCleanWhereFaultless }
{}
