//! Repetitions.
#![tactic(auto, unfolding(crate::proofs::Rows::repetitions))]

ghost use Rattle.std.specs.Prelude.{◌≡◌, ◌∷◌, false, IfOk};
ghost use Rattle.gql_grammar.specs.Form.{Form, Shortens, among, many, some, starts};
ghost use Rattle.gql_text_syntax.specs.Grammar as grammar;
ghost use Rattle.gql_text_syntax.specs.Reads.{Reads};
ghost use Rattle.gql_text_syntax.specs.Sorts as sorts;

use crate::cursor::Cursor;
use crate::sort::Sort;
use crate::stopped::Stopped;
use gql_text_lexer::OutOfMemory;
use sqlite_items::Items;
use std::alloc::Global;

/// What can be read from the next terminals.
pub trait Item<'t>: Sized {
    ghost form: { Form Self };

    /// That each one takes a terminal: a law, with nothing to run.
    fn shortens()
        ensures { Shortens form.read };

    /// Whether the next terminal begins one.
    fn begins(cursor: &Cursor<'t>) -> bool
        ensures { result ≡ starts form.first cursor.now };

    fn parse(cursor: &mut Cursor<'t>, alloc: Global) -> Result<Self, Stopped>
        ensures { Reads (form.read cursor.old) result cursor.new };
}

/// As many as there are.
pub fn many<'t, T: Item<'t> + Drop>(
    cursor: &mut Cursor<'t>,
    alloc: Global,
) -> Result<Items<T>, Stopped>
    ensures { Reads ((many T.form).read cursor.old) result cursor.new }
{
    T::shortens();
    let mut found = Items::new(alloc);
    'items: while T::begins(cursor) {
        found.push(T::parse(cursor, alloc)?)?;
    }
    Ok(found)
}

/// At least one.
pub fn some<'t, T: Item<'t> + Drop>(
    cursor: &mut Cursor<'t>,
    alloc: Global,
) -> Result<Items<T>, Stopped>
    ensures { Reads ((some T.form).read cursor.old) result cursor.new }
{
    let first = T::parse(cursor, alloc)?;
    let others = many(cursor, alloc)?;
    Ok(put_first(alloc, first, others)?)
}

/// A list with one more item before the others.
pub fn put_first<T: Drop>(
    alloc: Global,
    first: T,
    others: Items<T>,
) -> Result<Items<T>, OutOfMemory>
    ensures { IfOk result (λ items. items ≡ first ∷ others) }
{
    let mut items = Items::new(alloc);
    items.push(first)?;
    items.append(others)?;
    Ok(items)
}

/// Any number in braces.
fn braced<'t, T: Item<'t> + Drop>(
    cursor: &mut Cursor<'t>,
    alloc: Global,
) -> Result<Items<T>, Stopped>
    ensures { Reads ((grammar.braced T.form).read cursor.old) result cursor.new }
{
    cursor.expect(Sort::OpenBrace)?;
    let items = many(cursor, alloc)?;
    cursor.expect(Sort::CloseBrace)?;
    Ok(items)
}

/// Any number in braces, or nothing.
pub fn body<'t, T: Item<'t> + Drop>(
    cursor: &mut Cursor<'t>,
    alloc: Global,
) -> Result<Items<T>, Stopped>
    ensures { Reads ((grammar.body T.form).read cursor.old) result cursor.new }
{
    if cursor.sees(Sort::OpenBrace) {
        braced(cursor, alloc)
    } else {
        Ok(Items::new(alloc))
    }
}

/// At least one in parentheses.
fn parenthesized<'t, T: Item<'t> + Drop>(
    cursor: &mut Cursor<'t>,
    alloc: Global,
) -> Result<Items<T>, Stopped>
    ensures { Reads ((grammar.parenthesized T.form).read cursor.old) result cursor.new }
{
    cursor.expect(Sort::OpenParen)?;
    let items = some(cursor, alloc)?;
    cursor.expect(Sort::CloseParen)?;
    Ok(items)
}

/// At least one in parentheses, or nothing.
pub fn arguments<'t, T: Item<'t> + Drop>(
    cursor: &mut Cursor<'t>,
    alloc: Global,
) -> Result<Items<T>, Stopped>
    ensures { Reads ((grammar.arguments T.form).read cursor.old) result cursor.new }
{
    if cursor.sees(Sort::OpenParen) {
        parenthesized(cursor, alloc)
    } else {
        Ok(Items::new(alloc))
    }
}

/// One after a sign.
fn next<'t, T: Item<'t>>(cursor: &mut Cursor<'t>, alloc: Global, sign: Sort) -> Result<T, Stopped>
    requires { among (sorts.code sign) sorts.ends ≡ false }
    ensures { Reads ((grammar.next sign T.form).read cursor.old) result cursor.new }
{
    cursor.expect(sign)?;
    T::parse(cursor, alloc)
}

/// As many after signs as there are.
fn all_next<'t, T: Item<'t> + Drop>(
    cursor: &mut Cursor<'t>,
    alloc: Global,
    sign: Sort,
) -> Result<Items<T>, Stopped>
    requires { among (sorts.code sign) sorts.ends ≡ false }
    ensures { Reads ((many (grammar.next sign T.form)).read cursor.old) result cursor.new }
{
    T::shortens();
    let mut found = Items::new(alloc);
    'items: while cursor.sees(sign) {
        found.push(next(cursor, alloc, sign)?)?;
    }
    Ok(found)
}

/// At least one, with this sign between them and perhaps before them.
pub fn joined<'t, T: Item<'t> + Drop>(
    cursor: &mut Cursor<'t>,
    alloc: Global,
    sign: Sort,
) -> Result<Items<T>, Stopped>
    requires { among (sorts.code sign) sorts.ends ≡ false }
    ensures { Reads ((grammar.joined sign T.form).read cursor.old) result cursor.new }
{
    cursor.optional(sign);
    let first = T::parse(cursor, alloc)?;
    let others = all_next(cursor, alloc, sign)?;
    Ok(put_first(alloc, first, others)?)
}
