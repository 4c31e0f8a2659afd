//! Laws of what the registry of a schema holds for a document. This crate has no code that runs: the laws are in
//! `proofs/`.
#![tactic(auto)]
