//! Reads the tokens of a text as one document.
#![tactic(auto, unfolding(crate::specs::Grammar::document))]

ghost use Rattle.std.specs.Prelude.{◌≡◌, ◌∷◌, [], ◌++◌, List, IfOk};
ghost use Rattle.gql_grammar.specs.Form.{all_read};
ghost use Rattle.gql_text_syntax.specs.Cursor.{terminals_at};
ghost use Rattle.gql_text_syntax.specs.Documents.{SpelledBy, IsStopOf, IsOrMemory, IsErrorOrMemory, StopsThere, error_of, end_sort};
ghost use Rattle.gql_text_syntax.specs.Documents as spec;
ghost use Rattle.gql_text_syntax.specs.Grammar as grammar;
ghost use Rattle.gql_text_syntax.specs.Reads.{Gives, terminal};
ghost use Rattle.gql_text_syntax.specs.Sorts.{end_terminal, code};
ghost use Rattle.gql_text_syntax.specs.declared.error.ReadError.{ReadError};
ghost use Rattle.gql_text_syntax.specs.declared.syntax.WrittenDefinition.{WrittenDefinition};

use crate::cursor::Cursor;
use crate::error::{ReadError, What};
use crate::item::some;
use crate::sort::Sort;
use crate::stopped::Stopped;
use crate::syntax::WrittenDefinition;
use sqlite_items::Items;
use std::alloc::Global;

fn document<'t>(
    cursor: &mut Cursor<'t>,
    alloc: Global,
) -> Result<Items<WrittenDefinition<'t>>, Stopped>
    ensures { Gives (all_read grammar.document.read cursor.old) result }
{
    let definitions = some(cursor, alloc)?;
    if !cursor.is_done() {
        return Err(Stopped::Syntax(cursor.at()));
    }
    Ok(definitions)
}

fn read_text<'t>(alloc: Global, text: &'t str) -> Result<Items<WrittenDefinition<'t>>, Stopped>
    ensures { Gives (all_read grammar.document.read (terminals_at text.now 0)) result }
{
    let mut cursor = Cursor::new(text);
    document(&mut cursor, alloc)
}

fn refusal(sort: Sort, at: usize) -> ReadError
    ensures { result ≡ spec.refusal (code sort) at }
{
    match sort {
        Sort::Float => ReadError::Unsupported(What::Float, at),
        Sort::WordExtend => ReadError::Unsupported(What::Extend, at),
        Sort::BeyondRange => ReadError::NumberRange(at),
        _ => ReadError::TooDeep(at),
    }
}

fn error_of(stopped: Stopped) -> ReadError
    ensures { result ≡ error_of stopped }
{
    match stopped {
        Stopped::Syntax(at) => ReadError::Syntax(at),
        Stopped::Refused(sort, at) => refusal(sort, at),
        Stopped::OutOfMemory => ReadError::OutOfMemory,
    }
}

/// Reads a text as the definitions of a schema document, as they are written: section 3 of the GraphQL specification,
/// October 2021.
///
/// An error is the first place where the text stops being one, and what is wrong there.
pub fn read_written<'t>(
    alloc: Global,
    text: &'t str,
) -> Result<Items<WrittenDefinition<'t>>, ReadError>
    ensures found { IfOk result (λ d. SpelledBy d text.now) }
    ensures only { (d : List WrittenDefinition) → SpelledBy d text.now → IsOrMemory d result }
    ensures stop { StopsThere text.now result }
    ensures stops { (e : ReadError) → IsStopOf text.now e → IsErrorOrMemory e result }
{
    match read_text(alloc, text) {
        Ok(definitions) => Ok(definitions),
        Err(stopped) => Err(error_of(stopped)),
    }
}
