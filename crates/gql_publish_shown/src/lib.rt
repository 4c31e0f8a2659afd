//! Laws of what the view of a registry shows of a document for which the registry stands. This crate has no code that
//! runs: the laws are in `proofs/`.
#![tactic(auto)]
