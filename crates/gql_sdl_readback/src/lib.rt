//! What is written is read again: laws on the texts of trees, proved once for each way to make a form of the grammar. This
//! crate has no code that runs. `proofs/Texts.antt` says what it is for a text to say a tree, and for a tree to keep what
//! its tokens have; the other files of `proofs/` have the laws, bottom-up, from one token to a whole text.
//! `specs/Descriptions.antt` says how a text is written as a block string.
#![tactic(auto)]
