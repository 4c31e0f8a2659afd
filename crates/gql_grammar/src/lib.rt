//! Forms of a grammar that is read from left to right with one token of sight, and their laws. This crate has no code
//! that runs: its definitions are in `specs/Form.antt`, and `proofs/` has the laws, proved once for each way to make a
//! form. It speaks of no language: a grammar is made of these forms, and the contracts of its reader name what they read.
#![tactic(auto)]
