//! Reads constant values.

ghost use Rattle.std.specs.Prelude.{◌≡◌};
ghost use Rattle.gql_grammar.specs.Form.{alt, many};
ghost use Rattle.gql_text_syntax.specs.Reads.{Reads};
ghost use Rattle.gql_text_syntax.specs.Values.{key, number, string, word, leaf, refused_number, entry, bracketed_list, object, nest_with, nested, value_within};
ghost use Rattle.gql_text_syntax.specs.Grammar as grammar;

use crate::cursor::Cursor;
use crate::read_type::MAX_DEPTH;
use crate::sort::Sort;
use crate::span::{NameSpan, TextSpan};
use crate::stopped::Stopped;
use crate::syntax::{Literal, PlacedName};
use gql_text_lexer::Number;
use sqlite_items::Items;
use std::alloc::Global;

/// A name with its place.
#[tactic(auto, unfolding(crate::specs::Values::key))]
pub fn key<'t>(cursor: &mut Cursor<'t>) -> Result<PlacedName<'t>, Stopped>
    ensures { Reads (key.read cursor.old) result cursor.new }
{
    let name = cursor.name()?;
    Ok(PlacedName {
        name: NameSpan::new(name.text),
        at: name.at,
    })
}

#[tactic(auto, unfolding(crate::proofs::Rows::values))]
impl<'t> Cursor<'t> {
    fn number(&mut self) -> Result<Literal<'t>, Stopped>
        ensures { Reads (number.read self.old) result self.new }
    {
        let token = self.expect(Sort::WholeNumber)?;
        match Number::read(token.text) {
            Some(value) => Ok(Literal::Number(value)),
            None => unreachable!(),
        }
    }

    fn string_literal(&mut self) -> Result<Literal<'t>, Stopped>
        ensures { Reads (string.read self.old) result self.new }
    {
        let token = self.string()?;
        Ok(Literal::String(TextSpan::new(token.text)))
    }

    fn word(&mut self) -> Result<Literal<'t>, Stopped>
        ensures { Reads (word.read self.old) result self.new }
    {
        let token = self.name()?;
        Ok(match token.sort {
            Sort::WordNull => Literal::Null,
            Sort::WordTrue => Literal::Boolean(true),
            Sort::WordFalse => Literal::Boolean(false),
            _ => Literal::Enum(NameSpan::new(token.text)),
        })
    }

    fn leaf(&mut self) -> Result<Literal<'t>, Stopped>
        ensures { Reads (leaf.read self.old) result self.new }
    {
        if self.sees(Sort::WholeNumber) {
            self.number()
        } else if self.sees_string() {
            self.string_literal()
        } else {
            self.word()
        }
    }

    #[cycle(values)]
    fn nested(&mut self, alloc: Global, depth: u8) -> Result<Literal<'t>, Stopped>
        ensures { Reads ((nested depth).read self.old) result self.new }
    {
        if depth == 0 {
            return Err(self.refused_nest());
        }
        self.nest(alloc, depth - 1)
    }

    #[cycle(values)]
    fn nest(&mut self, alloc: Global, depth: u8) -> Result<Literal<'t>, Stopped>
        ensures { Reads ((nest_with (value_within depth)).read self.old) result self.new }
    {
        if self.sees(Sort::OpenBracket) {
            self.bracketed_list(alloc, depth)
        } else {
            self.object(alloc, depth)
        }
    }

    #[cycle(values)]
    fn bracketed_list(&mut self, alloc: Global, depth: u8) -> Result<Literal<'t>, Stopped>
        ensures { Reads ((bracketed_list (value_within depth)).read self.old) result self.new }
    {
        self.expect(Sort::OpenBracket)?;
        let items = self.values(alloc, depth)?;
        self.expect(Sort::CloseBracket)?;
        Ok(Literal::List(items))
    }

    #[cycle(values)]
    fn object(&mut self, alloc: Global, depth: u8) -> Result<Literal<'t>, Stopped>
        ensures { Reads ((object (value_within depth)).read self.old) result self.new }
    {
        self.expect(Sort::OpenBrace)?;
        let entries = self.entries(alloc, depth)?;
        self.expect(Sort::CloseBrace)?;
        Ok(Literal::Object(entries))
    }

    #[cycle(values)]
    fn values(&mut self, alloc: Global, depth: u8) -> Result<Items<Literal<'t>>, Stopped>
        ensures { Reads ((many (value_within depth)).read self.old) result self.new }
    {
        let mut found = Items::new(alloc);
        'items: while self.sees_value() {
            found.push(self.value_at(alloc, depth)?)?;
        }
        Ok(found)
    }

    #[cycle(values)]
    fn entry(&mut self, alloc: Global, depth: u8) -> Result<(PlacedName<'t>, Literal<'t>), Stopped>
        ensures { Reads ((entry (value_within depth)).read self.old) result self.new }
    {
        let key = key(self)?;
        self.expect(Sort::Colon)?;
        let value = self.value_at(alloc, depth)?;
        Ok((key, value))
    }

    #[cycle(values)]
    fn entries(
        &mut self,
        alloc: Global,
        depth: u8,
    ) -> Result<Items<(PlacedName<'t>, Literal<'t>)>, Stopped>
        ensures { Reads ((many (entry (value_within depth))).read self.old) result self.new }
    {
        let mut found = Items::new(alloc);
        'items: while self.sees_name() {
            found.push(self.entry(alloc, depth)?)?;
        }
        Ok(found)
    }

    /// A number that a limit refuses, or a value with others in it.
    #[cycle(values)]
    fn no_leaf(&mut self, alloc: Global, depth: u8) -> Result<Literal<'t>, Stopped>
        ensures { Reads ((alt refused_number (nested depth)).read self.old) result self.new }
    {
        if self.sees_refused_number() {
            Err(self.refused_number())
        } else {
            self.nested(alloc, depth)
        }
    }

    /// A value in which this many brackets may be open.
    #[cycle(values)]
    fn value_at(&mut self, alloc: Global, depth: u8) -> Result<Literal<'t>, Stopped>
        ensures { Reads ((value_within depth).read self.old) result self.new }
    {
        if self.sees_leaf() {
            self.leaf()
        } else {
            self.no_leaf(alloc, depth)
        }
    }
}

/// A value of a document, section 2.9.
pub fn value<'t>(cursor: &mut Cursor<'t>, alloc: Global) -> Result<Literal<'t>, Stopped>
    ensures { Reads (grammar.value.read cursor.old) result cursor.new }
{
    cursor.value_at(alloc, MAX_DEPTH)
}
