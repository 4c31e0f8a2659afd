//! Reads type references.

ghost use Rattle.std.specs.Prelude.{◌≡◌, ◌≤◌};
ghost use Rattle.gql_text_syntax.specs.Reads.{Reads};
ghost use Rattle.gql_text_syntax.specs.Types.{named, bracketed, plain_with, type_within, list_with};
ghost use Rattle.gql_text_syntax.specs.Grammar as grammar;

use crate::cursor::Cursor;
use crate::sort::Sort;
use crate::span::NameSpan;
use crate::stopped::Stopped;
use crate::syntax::TypeTree;
use sqlite_items::Boxed;
use std::alloc::Global;

/// How many brackets may be open in one type, or in one value.
pub const MAX_DEPTH: u8 = 64;

#[tactic(auto, unfolding(crate::proofs::Rows::types))]
impl<'t> Cursor<'t> {
    fn named_type(&mut self) -> Result<TypeTree<'t>, Stopped>
        ensures { Reads (named.read self.old) result self.new }
    {
        let name = self.name()?;
        Ok(TypeTree::Named(NameSpan::new(name.text)))
    }

    #[cycle(types)]
    fn bracketed_type(&mut self, alloc: Global, depth: u8) -> Result<TypeTree<'t>, Stopped>
        ensures { Reads ((bracketed depth).read self.old) result self.new }
    {
        if depth == 0 {
            return Err(self.refused(Sort::OpenBracket));
        }
        self.list_type(alloc, depth - 1)
    }

    #[cycle(types)]
    fn list_type(&mut self, alloc: Global, depth: u8) -> Result<TypeTree<'t>, Stopped>
        ensures { Reads ((list_with (type_within depth)).read self.old) result self.new }
    {
        self.expect(Sort::OpenBracket)?;
        let inner = self.type_at(alloc, depth)?;
        self.expect(Sort::CloseBracket)?;
        Ok(TypeTree::List(Boxed::new(alloc, inner)?))
    }

    #[cycle(types)]
    fn plain_type(&mut self, alloc: Global, depth: u8) -> Result<TypeTree<'t>, Stopped>
        ensures { Reads ((plain_with (bracketed depth)).read self.old) result self.new }
    {
        if self.sees_name() {
            self.named_type()
        } else {
            self.bracketed_type(alloc, depth)
        }
    }

    /// A type in which this many brackets may be open.
    #[cycle(types)]
    fn type_at(&mut self, alloc: Global, depth: u8) -> Result<TypeTree<'t>, Stopped>
        ensures { Reads ((type_within depth).read self.old) result self.new }
    {
        let found = self.plain_type(alloc, depth)?;
        if !self.sees(Sort::Bang) {
            return Ok(found);
        }
        self.expect(Sort::Bang)?;
        Ok(TypeTree::NonNull(Boxed::new(alloc, found)?))
    }
}

/// A type reference, section 2.11.
pub fn type_ref<'t>(cursor: &mut Cursor<'t>, alloc: Global) -> Result<TypeTree<'t>, Stopped>
    ensures { Reads (grammar.type_ref.read cursor.old) result cursor.new }
{
    cursor.type_at(alloc, MAX_DEPTH)
}
