//! The top call: reads the input, takes the verdict, writes the text, and reports what went wrong.

ghost use Rattle.std.specs.Prelude.{◌≡◌, ◌≤◌, ◌++◌, ◌∷◌, [], ℕ, length, Ok, IfOk, IfErr, OnOk, string_bytes};
ghost use Rattle.gql_text.specs.declared.document.Document.{Document};
ghost use Rattle.gql_sdl.specs.Values.{options_of};
ghost use Rattle.gql_publish_document.specs.Published.{canonical_text};
ghost use Rattle.gql_publish_document.specs.Verdict.{HasVerdict, Verdict};
ghost use Rattle.gql_publish_sample.specs.Sample.{sample};
ghost use Rattle.gql_publish_words.specs.Words.{HasGoodSize};
ghost use Rattle.gql_streams.specs.Writing.{GetsOrFails};
ghost use Rattle.gql_publish.specs.Lines.{line_of};
ghost use Rattle.gql_publish.specs.Requests.{AskForSample, sample_summary, summary_line};
ghost use Rattle.gql_publish.specs.Endings.{Ending, Publishes, Summarizes, EndsAs, EndsSampled, EndsWith, IsUndisturbed, streams};
ghost use Rattle.gql_publish.specs.Troubles.{AreAnswered, Explains, ExplainsRequest, ExplainsSample, ExplainsText, IsAnswered, IsTextOf, IsTroubleWith, ReportsError};

use crate::lines::fault_line;
use gql_publish_load::{PublishError, SDLExportOptions, canonical_sdl};
use gql_publish_sample::{sample_laws, sample_text};
use gql_publish_words::{Request, WordsError, read_words};
use gql_streams::{ReadFault, Sink, Source, read_all, write_all};
use gql_text::OutOfMemory;
use std::alloc::Global;

/// The most bytes of an input: 16 MiB.
pub const LIMIT: u32 = 16_777_216;

/// Why a run did not end with its text written.
#[derive(Debug, Drop)]
enum Trouble {
    /// The input is refused, with the line that reports it.
    Refused(String),
    BadWords,
    ReadFault,
    WriteFault,
    OutOfMemory,
    TooLong,
}

impl Trouble {
    ghost use Rattle.gql_publish.specs.Troubles.{status_of, trouble_line};

    fn status(&self) -> u8
        ensures { result ≡ status_of self.now }
    {
        match self {
            Trouble::Refused(_) => 1,
            Trouble::BadWords => 2,
            Trouble::ReadFault => 3,
            Trouble::WriteFault => 4,
            Trouble::OutOfMemory => 5,
            Trouble::TooLong => 6,
        }
    }

    /// What is reported, with its line feed.
    fn line(&self) -> &str
        ensures { result.now ≡ trouble_line self.now }
    {
        match self {
            Trouble::Refused(line) => line.as_str(),
            Trouble::BadWords => "bad words\n",
            Trouble::ReadFault => "read fault\n",
            Trouble::WriteFault => "write fault\n",
            Trouble::OutOfMemory => "out of memory\n",
            Trouble::TooLong => "input too long\n",
        }
    }
}

fn refusal_text(alloc: Global, error: &PublishError) -> Result<String, OutOfMemory>
    ensures { IfOk result (λ line. string_bytes line ≡ line_of error.now ++ 10 ∷ []) }
{
    let mut line = fault_line(alloc, error)?;
    line.push('\n')?;
    Ok(line)
}

fn trouble_of(alloc: Global, error: &PublishError) -> Trouble
    ensures { ReportsError error.now result }
{
    match error {
        PublishError::OutOfMemory => Trouble::OutOfMemory,
        error => match refusal_text(alloc, error) {
            Ok(line) => Trouble::Refused(line),
            Err(_) => Trouble::OutOfMemory,
        },
    }
}

/// The canonical text of these bytes.
fn text_of(alloc: Global, options: SDLExportOptions, bytes: &[u8]) -> Result<String, Trouble>
    ensures text { IfOk result (λ text.
        IsTextOf (options_of options) (string_bytes text) bytes.now) }
    ensures refused { IfErr result (IsTroubleWith bytes.now) }
{
    match canonical_sdl(alloc, bytes, options) {
        Ok(text) => Ok(text),
        Err(error) => Err(trouble_of(alloc, &error)),
    }
}

/// Reads the input, and writes the text of its document.
fn publish_input<S: Source, K: Sink>(
    alloc: Global,
    options: SDLExportOptions,
    input: &mut S,
    output: &mut K,
) -> Result<(), Trouble>
    ensures done { OnOk result ((document : Document) × Publishes (options_of options)
        (S.state input.old) (S.state input.new)
        (K.state output.old) (K.state output.new) document) }
    ensures trouble { IfErr result (ExplainsText (options_of options)
        (S.state input.old) (S.state input.new) (K.state output.old) (K.state output.new)) }
{
    let bytes = match read_all(alloc, input, LIMIT) {
        Ok(bytes) => bytes,
        Err(ReadFault::Failed) => return Err(Trouble::ReadFault),
        Err(ReadFault::TooLong) => return Err(Trouble::TooLong),
        Err(ReadFault::OutOfMemory) => return Err(Trouble::OutOfMemory),
    };
    let text = match text_of(alloc, options, &bytes) {
        Ok(text) => text,
        Err(trouble) => return Err(trouble),
    };
    match write_all(output, text.as_bytes()) {
        Ok(()) => Ok(()),
        Err(_) => Err(Trouble::WriteFault),
    }
}

/// The summary of a sample text with this number of types, and of its canonical text.
fn summary_line(alloc: Global, types: u32, sample: &str, text: &str) -> Result<String, OutOfMemory>
    ensures { IfOk result (λ line. string_bytes line
        ≡ summary_line types (length sample.now) (length text.now)) }
{
    let (from, to) = (sample.len(), text.len());
    Ok(format!(in alloc; "types {types} in {from} out {to}\n")?)
}

/// Why publishing failed, where it was for memory alone.
fn memory_ran_out(error: &PublishError) -> OutOfMemory
    requires { error.now ≡ PublishError.OutOfMemory }
{
    match error {
        PublishError::OutOfMemory => OutOfMemory,
        _ => unreachable!(),
    }
}

/// The canonical text of a valid document, which is never refused.
fn valid_text(alloc: Global, options: SDLExportOptions, bytes: &[u8]) -> Result<String, OutOfMemory>
    requires { (document : Document) × HasVerdict bytes.now (Ok document) }
    ensures { IfOk result (λ text. (document : Document) × HasVerdict bytes.now (Ok document)
        × (string_bytes text ≡ canonical_text (options_of options) document)) }
{
    match canonical_sdl(alloc, bytes, options) {
        Ok(text) => Ok(text),
        Err(error) => Err(memory_ran_out(&error)),
    }
}

/// The summary of a sample. Each sample text is a valid document.
fn summary(alloc: Global, options: SDLExportOptions, types: u32) -> Result<String, OutOfMemory>
    requires least { 1 ≤ types }
    requires most { types ≤ 20000 }
    ensures { IfOk result (λ line. (document : Document) × HasVerdict (sample types) (Ok document)
        × (string_bytes line ≡ sample_summary (options_of options) types document)) }
{
    sample_laws();
    let sample = sample_text(alloc, types)?;
    let text = valid_text(alloc, options, sample.as_bytes())?;
    summary_line(alloc, types, sample.as_str(), text.as_str())
}

/// Writes the summary of a sample.
fn write_summary<K: Sink>(
    alloc: Global,
    options: SDLExportOptions,
    types: u32,
    output: &mut K,
) -> Result<(), Trouble>
    requires least { 1 ≤ types }
    requires most { types ≤ 20000 }
    ensures done { OnOk result ((document : Document) × Summarizes (options_of options) types
        (K.state output.old) (K.state output.new) document) }
    ensures trouble { IfErr result (ExplainsSample (options_of options) types
        (K.state output.old) (K.state output.new)) }
{
    let line = match summary(alloc, options, types) {
        Ok(line) => line,
        Err(_) => return Err(Trouble::OutOfMemory),
    };
    match write_all(output, line.as_bytes()) {
        Ok(()) => Ok(()),
        Err(_) => Err(Trouble::WriteFault),
    }
}

/// Writes what is asked for.
fn answer<S: Source, K: Sink>(
    alloc: Global,
    request: Request,
    input: &mut S,
    output: &mut K,
) -> Result<(), Trouble>
    requires { HasGoodSize request }
    ensures done { OnOk result (IsAnswered request
        (S.state input.old) (S.state input.new) (K.state output.old) (K.state output.new)) }
    ensures trouble { IfErr result (ExplainsRequest request
        (S.state input.old) (S.state input.new) (K.state output.old) (K.state output.new)) }
{
    match request {
        Request::Publish(options) => publish_input(alloc, options, input, output),
        Request::Sample(options, types) => write_summary(alloc, options, types, output),
    }
}

/// Writes what the words ask for.
fn answer_words<S: Source, K: Sink>(
    alloc: Global,
    words: &[String],
    input: &mut S,
    output: &mut K,
) -> Result<(), Trouble>
    ensures done { OnOk result (AreAnswered words.now
        (S.state input.old) (S.state input.new) (K.state output.old) (K.state output.new)) }
    ensures trouble { IfErr result (Explains words.now
        (S.state input.old) (S.state input.new) (K.state output.old) (K.state output.new)) }
{
    match read_words(alloc, words) {
        Ok(request) => answer(alloc, request, input, output),
        Err(WordsError::Bad) => Err(Trouble::BadWords),
        Err(WordsError::OutOfMemory) => Err(Trouble::OutOfMemory),
    }
}

/// Writes a line, whose last byte is a line feed.
fn tell<F: Sink>(faults: &mut F, line: &str)
    ensures { GetsOrFails (F.state faults.old) (F.state faults.new) line.now }
{
    let _ = write_all(faults, line.as_bytes());
}

/// Reads the input to its end, writes the canonical text of its document to `output`, reports a trouble on `faults`, and
/// gives the status. The words ask for the layout, as [`read_words`] says. With `--sample N` no input is read: the line
/// `types N in A out B` is written, where A and B are the lengths in bytes of the sample text and of its canonical text.
///
///
/// | status | ending | line |
/// | --- | --- | --- |
/// | 0 | done; `output` got the whole text and was flushed | none |
/// | 1 | the document is refused | that of `fault_line` |
/// | 2 | the words are not good | `bad words` |
/// | 3 | the source failed | `read fault` |
/// | 4 | the output failed, and got a prefix of the text | `write fault` |
/// | 5 | memory ran out | `out of memory` |
/// | 6 | the source gave a byte after the first 16,777,216 | `input too long` |
///
/// The text is whole before its first byte is written. At 1, 2, 3, 5 and 6 `output` got nothing.
pub fn run<S: Source, K: Sink, F: Sink>(
    alloc: Global,
    words: &[String],
    input: &mut S,
    output: &mut K,
    faults: &mut F,
) -> u8

    // Status 0 comes only where the input is a valid document. The output then got exactly the spelling of its view; that
    // text is itself a valid document with the same view, and equal texts come exactly from equal views. Every other
    // ending has its cause. What the streams got is said with each ending.
    ensures ends { (ending : Ending) × EndsWith words.now result
        (streams (S.state input.old) (K.state output.old) (F.state faults.old))
        (streams (S.state input.new) (K.state output.new) (F.state faults.new)) ending }

    // A sample is summarized, unless the output fails or memory runs out.
    ensures sampled { (types : ℕ) → AskForSample words.now types → EndsSampled words.now result
        (streams (S.state input.old) (K.state output.old) (F.state faults.old))
        (streams (S.state input.new) (K.state output.new) (F.state faults.new)) types }

    // Whatever the verdict on an input that is not too long, the ending is that of the verdict, unless the words are bad, the
    // outside fails or memory runs out. So each valid document is published, and each refusal is reported.
    ensures exactly { (verdict : Verdict) → IsUndisturbed words.now
        (streams (S.state input.old) (K.state output.old) (F.state faults.old))
        (streams (S.state input.new) (K.state output.new) (F.state faults.new)) verdict
        → EndsAs words.now result
        (streams (S.state input.old) (K.state output.old) (F.state faults.old))
        (streams (S.state input.new) (K.state output.new) (F.state faults.new)) verdict }
{
    match answer_words(alloc, words, input, output) {
        Ok(()) => 0,
        Err(trouble) => {
            tell(faults, trouble.line());
            trouble.status()
        }
    }
}
