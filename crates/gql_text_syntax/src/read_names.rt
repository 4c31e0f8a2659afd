//! Reads the names that stand in lists.
#![tactic(auto, unfolding(crate::proofs::Rows::rows))]

ghost use Rattle.std.specs.Prelude.{◌≡◌};
ghost use Rattle.gql_grammar.specs.Form.{Shortens, starts};
ghost use Rattle.gql_text_syntax.specs.Grammar as grammar;
ghost use Rattle.gql_text_syntax.specs.Reads.{Reads};
ghost use Rattle.gql_text_syntax.specs.Values as values;

use crate::cursor::Cursor;
use crate::item::Item;
use crate::read_value::key;
use crate::sort::Sort;
use crate::span::NameSpan;
use crate::stopped::Stopped;
use crate::syntax::PlacedName;
use std::alloc::Global;

impl<'t> Item<'t> for PlacedName<'t> {
    ghost form = { values.key };

    fn shortens()
        ensures { Shortens values.key.read }
    {}

    fn begins(cursor: &Cursor<'t>) -> bool {
        cursor.sees_name()
    }

    fn parse(cursor: &mut Cursor<'t>, _alloc: Global) -> Result<PlacedName<'t>, Stopped> {
        key(cursor)
    }
}

/// A location of directives.
impl<'t> Item<'t> for NameSpan<'t> {
    ghost form = { grammar.location };

    fn shortens()
        ensures { Shortens grammar.location.read }
    {}

    fn begins(cursor: &Cursor<'t>) -> bool {
        cursor.sees(Sort::Location)
    }

    fn parse(cursor: &mut Cursor<'t>, _alloc: Global) -> Result<NameSpan<'t>, Stopped> {
        let name = cursor.location()?;
        Ok(NameSpan::new(name.text))
    }
}
