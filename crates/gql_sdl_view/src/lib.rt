//! Views of schemas, and the text that spells a view. This crate has no code that runs: `specs/Options.antt` says what is
//! chosen of a schema and how a text is laid out, `specs/View.antt` what a view holds, `specs/Descriptions.antt` how a
//! description is written, and `specs/Spelling.antt` the text of each part of a view.
#![tactic(auto)]
