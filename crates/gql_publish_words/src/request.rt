//! From words to what they ask for.

ghost use Rattle.std.specs.Prelude.{◌≡◌, ◌≤◌, IfOk, IfErr, IfSome, IsErrOf, map, string_bytes};
ghost use Rattle.clap.specs.Matches.{found_of};
ghost use Rattle.clap.specs.Walk.{rows_of};
ghost use Rattle.gql_publish_words.specs.Words.{command_line, width_in, sample_in};
ghost use Rattle.gql_publish_words.specs.Words.{IsGoodIndent, IsGoodSample, AreGoodRows, IsAskedIn, AreGood, AreWordsFor, HasGoodSize};
ghost use Rattle.gql_publish_words.specs.declared.error.WordsError.TheVariants.{Bad as bad_words};

use crate::command::{matches_of, value};
use crate::error::WordsError;
use crate::number::given_number;
use crate::options::options;
use clap::ArgMatches;
use gql_sdl::SDLExportOptions;
use std::alloc::{AllocError, Global};

/// What words ask for.
#[derive(Clone, Copy, Debug)]
pub enum Request {
    /// The canonical text of the document on the input, under these options.
    Publish(SDLExportOptions),
    /// The lengths of the sample text with this number of types, 1 to 20,000, and of its canonical text under these
    /// options. The input is not read.
    Sample(SDLExportOptions, u32),
}

/// The words with the program's name before them.
fn command_line<'w>(alloc: Global, words: &'w [String]) -> Result<Vec<&'w str>, AllocError>
    ensures { IfOk result (λ line. map (λ w. w.now) line.items
        ≡ command_line (map string_bytes words.entry.now)) }
{
    let mut line = Vec::new(alloc);
    line.push("gqlsdl")?;
    for word in words {
        line.push(word.as_str())?;
    }
    Ok(line)
}

/// The width of an indent in spaces, where it is asked for.
fn indent_width(found: &ArgMatches<'_>) -> Result<Option<u8>, WordsError>
    ensures width { IfOk result (λ width. width ≡ width_in (rows_of (found_of found.now))) }
    ensures good { IfOk result (λ width. IsGoodIndent (rows_of (found_of found.now))) }
    ensures refused { IfErr result (λ error. (error ≡ bad_words)
        × (IsGoodIndent (rows_of (found_of found.now)) → ⊥)) }
{
    match given_number(value(found, "indent"), 0, 255)? {
        Some(width) => Ok(Some(width as u8)),
        None => Ok(None),
    }
}

/// The number of types of a sample, where one is asked for.
fn sample_size(found: &ArgMatches<'_>) -> Result<Option<u32>, WordsError>
    ensures size { IfOk result (λ size. size ≡ sample_in (rows_of (found_of found.now))) }
    ensures good { IfOk result (λ size. IsGoodSample (rows_of (found_of found.now))) }
    ensures between { IfOk result (λ size. IfSome size (λ n. (1 ≤ n) × (n ≤ 20000))) }
    ensures refused { IfErr result (λ error. (error ≡ bad_words)
        × (IsGoodSample (rows_of (found_of found.now)) → ⊥)) }
{
    given_number(value(found, "sample"), 1, 20_000)
}

/// What is asked for by what the command found.
fn requested(found: &ArgMatches<'_>) -> Result<Request, WordsError>
    ensures asked { IfOk result (IsAskedIn (rows_of (found_of found.now))) }
    ensures size { IfOk result HasGoodSize }
    ensures good { IfOk result (λ request. AreGoodRows (rows_of (found_of found.now))) }
    ensures refused { IfErr result (λ error. (error ≡ bad_words)
        × (AreGoodRows (rows_of (found_of found.now)) → ⊥)) }
{
    let width = indent_width(found)?;
    let size = sample_size(found)?;
    let options = options(found, width);
    match size {
        None => Ok(Request::Publish(options)),
        Some(types) => Ok(Request::Sample(options, types)),
    }
}

/// What the words after the program's name ask for:
///
/// | word | meaning |
/// | --- | --- |
/// | `--sorted-fields` | the fields of objects, interfaces and input objects are sorted by name |
/// | `--sorted-arguments` | the arguments of fields are sorted by name |
/// | `--sorted-enum-items` | the values of enums are sorted by name |
/// | `--single-line` | a description without a line feed is written on one line |
/// | `--indent N` | an indent is N spaces, 0 to 255, and not a tab |
/// | `--sample N` | a sample text with N types, 1 to 20,000, is worked on |
///
/// N is one to five decimal digits. The words may come in any order, each at most once, and a value also as in
/// `--indent=2`.
pub fn read_words(alloc: Global, words: &[String]) -> Result<Request, WordsError>
    ensures asked { IfOk result (AreWordsFor (map string_bytes words.now)) }
    ensures size { IfOk result HasGoodSize }
    ensures bad { IsErrOf result bad_words → AreGood (map string_bytes words.now) → ⊥ }
{
    let line = command_line(alloc, words)?;
    let found = matches_of(alloc, &line)?;
    requested(&found)
}
