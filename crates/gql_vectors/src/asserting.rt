//! What the tests ask of answers.

use std::alloc::Global;
use std::fmt::{Debug, Display};
use std::process::Abort;

/// What a call answers that has memory and good arguments.
pub(crate) fn got<T, E: Drop>(rt: &impl Abort, answer: Result<T, E>) -> T {
    match answer {
        Ok(value) => value,
        Err(_) => panic!(rt; "a call is refused"),
    }
}

/// Asserts that two texts are equal.
pub(crate) fn same(rt: &impl Abort, text: &str, want: &str, of: &str) {
    assert_eq!(rt; text, want, "of {of}");
}

/// The printed text of a value, through its bound.
pub(crate) fn printed<T: Display>(rt: &impl Abort, alloc: Global, value: &T) -> String {
    got(rt, format!(in alloc; "{value}"))
}

/// The text of a value for developers, through its bound.
pub(crate) fn debugged<T: Debug>(rt: &impl Abort, alloc: Global, value: &T) -> String {
    got(rt, format!(in alloc; "{value:?}"))
}

/// A copy of a text.
pub(crate) fn text(rt: &impl Abort, alloc: Global, text: &str) -> String {
    got(rt, String::from_str(alloc, text))
}

/// Writes a text and a space at the end.
pub(crate) fn add_word(rt: &impl Abort, out: &mut String, word: &str) {
    got(rt, out.push_str(word));
    got(rt, out.push_str(" "));
}
