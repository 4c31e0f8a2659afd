//! Tables of cases for the calls of all crates. No other crate stands on it.
#![tactic(auto)]

#[cfg(test)]
mod asserting;
#[cfg(test)]
mod chain_tests;
#[cfg(test)]
mod check_tests;
#[cfg(test)]
mod closure_tests;
#[cfg(test)]
mod document_tests;
#[cfg(test)]
mod lexical_tests;
#[cfg(test)]
mod meta_tests;
#[cfg(test)]
mod program_tests;
#[cfg(test)]
mod publish_tests;
#[cfg(test)]
mod registry_tests;
#[cfg(test)]
mod rows;
#[cfg(test)]
mod rule_tests;
#[cfg(test)]
mod schema_tests;
#[cfg(test)]
mod sdl_tests;
#[cfg(test)]
mod value_tests;
#[cfg(test)]
mod word_tests;
