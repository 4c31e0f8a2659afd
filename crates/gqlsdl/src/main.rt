//! Reads a schema document on standard input and writes its canonical SDL, or names the fault and its place.
#![tactic(auto)]

use gql_publish::{StdSink, StdSource, run};
use std::env;
use std::process::ExitCode;

/// The status where the system does not give the words as texts.
const BAD_WORDS: u8 = 2;

/// The words after the program's name, where each is a text.
fn words_of(rt: &HostRuntime) -> Option<Vec<String>> {
    let mut words = Vec::new(rt.alloc());
    for word in env::args(rt).ok()?.skip(1) {
        words.push(word).ok()?;
    }
    Some(words)
}

fn main(rt: HostRuntime) -> ExitCode {
    let Some(words) = words_of(&rt) else {
        return ExitCode::from(BAD_WORDS);
    };
    let mut input = StdSource::new(rt.stdin());
    let mut output = StdSink::new(rt.stdout());
    let mut faults = StdSink::new(rt.stderr());
    ExitCode::from(run(rt.alloc(), &words, &mut input, &mut output, &mut faults))
}
