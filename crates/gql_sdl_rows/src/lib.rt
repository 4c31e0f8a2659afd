//! The text of a view is read again: laws on each row of the grammar of schema documents. This crate has no code that runs.
//! `specs/Bare.antt` says what a document is without its places, and `specs/Shown.antt` which part of a document a part of a
//! view shows. The files of `proofs/` have the laws, from values to whole documents: where a sound part of a document is
//! shown, the text of what shows it spells that part, apart from places.
#![tactic(auto)]
