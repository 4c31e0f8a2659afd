//! The text of the view of a document is that of a document again, which has the same view. This crate has no code that
//! runs. `proofs/Canonical.antt` says what the canonical form of a document is; `proofs/Published.antt` has the law that the
//! text of the view is that of the canonical form, apart from places, and `proofs/SameView.antt` that both have one view and
//! that equal texts come from equal views.
#![tactic(auto)]
