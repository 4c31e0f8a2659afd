//! Reads a schema document from standard input, as the word says: as the tree that is written (`tree`), as a document that
//! borrows its text (`borrowed`), or as one of its own texts (`document`). It writes how many definitions it has.
//! `bench/run.py` times it.
#![tactic(auto)]

use gql_streams::{StdSource, read_all};
use gql_text::{read_document, read_sdl};
use gql_text_syntax::read_written;
use std::alloc::Global;
use std::env;
use std::process::ExitCode;

/// The most bytes that are read.
const LIMIT: u32 = 1 << 30;

/// What a document is read as.
#[derive(Clone, Copy)]
enum Reader {
    Tree,
    Borrowed,
    Document,
}

/// The reader that the word names.
fn asked(rt: &HostRuntime) -> Option<Reader> {
    let mut words = env::args(rt).ok()?.skip(1);
    let word = words.next()?;
    match word.as_str() {
        "tree" => Some(Reader::Tree),
        "borrowed" => Some(Reader::Borrowed),
        "document" => Some(Reader::Document),
        _ => None,
    }
}

/// How many definitions the document has, or nothing where it is refused.
fn definitions(alloc: Global, reader: Reader, bytes: &[u8]) -> Option<usize> {
    match reader {
        Reader::Tree => {
            let text = str::from_utf8(bytes).ok()?;
            Some(read_written(alloc, text).ok()?.len())
        }
        Reader::Borrowed => Some(read_document(alloc, bytes).ok()?.as_slice().len()),
        Reader::Document => Some(read_sdl(alloc, bytes).ok()?.definitions.len()),
    }
}

/// Writes the number and the end of a line.
fn write_count(rt: &HostRuntime, count: usize) -> Option<()> {
    let text = format!(in rt.alloc(); "{}\n", count).ok()?;
    rt.stdout().write_all(text.as_bytes()).ok()
}

fn measured(rt: &HostRuntime) -> Option<()> {
    let reader = asked(rt)?;
    let mut input = StdSource::new(rt.stdin());
    let bytes = read_all(rt.alloc(), &mut input, LIMIT).ok()?;
    let count = definitions(rt.alloc(), reader, &bytes)?;
    write_count(rt, count)
}

fn main(rt: HostRuntime) -> ExitCode {
    match measured(&rt) {
        None => ExitCode::from(1),
        Some(()) => ExitCode::from(0),
    }
}
