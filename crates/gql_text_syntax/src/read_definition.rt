//! Reads definitions.
#![tactic(auto, unfolding(crate::proofs::Rows::rows))]

ghost use Rattle.std.specs.Prelude.{◌≡◌, ◌∷◌, [], ◌++◌};
ghost use Rattle.gql_grammar.specs.Form.{Shortens, opt, starts};
ghost use Rattle.gql_text_syntax.specs.Reads.{Reads};
ghost use Rattle.gql_text_syntax.specs.Grammar as grammar;
ghost use Rattle.gql_text_syntax.specs.Sorts as sorts;

use crate::cursor::Cursor;
use crate::item::{Item, arguments, body, joined, many, some};
use crate::operation::OperationType;
use crate::read_member::description;
use crate::read_value::key;
use crate::sort::Sort;
use crate::span::NameSpan;
use crate::stopped::Stopped;
use crate::syntax::{Implements, Kind, ObjectLike, PlacedName, Root, WrittenDefinition};
use sqlite_items::Items;
use std::alloc::Global;

fn operation_type(sort: Sort) -> OperationType
    ensures { result ≡ grammar.operation_type (sorts.code sort) }
{
    match sort {
        Sort::WordQuery => OperationType::Query,
        Sort::WordMutation => OperationType::Mutation,
        _ => OperationType::Subscription,
    }
}

impl<'t> Item<'t> for Root<'t> {
    ghost form = { grammar.root };

    fn shortens()
        ensures { Shortens grammar.root.read }
    {}

    fn begins(cursor: &Cursor<'t>) -> bool {
        cursor.sees_operation()
    }

    fn parse(cursor: &mut Cursor<'t>, _alloc: Global) -> Result<Root<'t>, Stopped> {
        let word = cursor.operation()?;
        cursor.expect(Sort::Colon)?;
        let name = cursor.name()?;
        Ok(Root {
            kind: operation_type(word.sort),
            at: word.at,
            name: NameSpan::new(name.text),
        })
    }
}

fn roots<'t>(cursor: &mut Cursor<'t>, alloc: Global) -> Result<Items<Root<'t>>, Stopped>
    ensures { Reads (grammar.roots.read cursor.old) result cursor.new }
{
    cursor.expect(Sort::OpenBrace)?;
    let roots = some(cursor, alloc)?;
    cursor.expect(Sort::CloseBrace)?;
    Ok(roots)
}

fn schema_block<'t>(cursor: &mut Cursor<'t>, alloc: Global) -> Result<Kind<'t>, Stopped>
    ensures { Reads (grammar.schema_block.read cursor.old) result cursor.new }
{
    let word = cursor.expect(Sort::WordSchema)?;
    let uses = many(cursor, alloc)?;
    let roots = roots(cursor, alloc)?;
    Ok(Kind::Schema {
        at: word.at,
        uses,
        roots,
    })
}

fn scalar<'t>(cursor: &mut Cursor<'t>, alloc: Global) -> Result<Kind<'t>, Stopped>
    ensures { Reads (grammar.scalar.read cursor.old) result cursor.new }
{
    cursor.expect(Sort::WordScalar)?;
    let key = key(cursor)?;
    let uses = many(cursor, alloc)?;
    Ok(Kind::Scalar { key, uses })
}

fn implements<'t>(cursor: &mut Cursor<'t>, alloc: Global) -> Result<Implements<'t>, Stopped>
    ensures { Reads (grammar.implements.read cursor.old) result cursor.new }
{
    let word = cursor.expect(Sort::WordImplements)?;
    let names = joined(cursor, alloc, Sort::Ampersand)?;
    Ok(Implements { at: word.at, names })
}

fn optional_implements<'t>(
    cursor: &mut Cursor<'t>,
    alloc: Global,
) -> Result<Option<Implements<'t>>, Stopped>
    ensures { Reads ((opt grammar.implements).read cursor.old) result cursor.new }
{
    if cursor.sees(Sort::WordImplements) {
        Ok(Some(implements(cursor, alloc)?))
    } else {
        Ok(None)
    }
}

fn object_like<'t>(cursor: &mut Cursor<'t>, alloc: Global) -> Result<ObjectLike<'t>, Stopped>
    ensures { Reads (grammar.object_like.read cursor.old) result cursor.new }
{
    let key = key(cursor)?;
    let implements = optional_implements(cursor, alloc)?;
    let uses = many(cursor, alloc)?;
    let fields = body(cursor, alloc)?;
    Ok(ObjectLike {
        key,
        implements,
        uses,
        fields,
    })
}

fn object<'t>(cursor: &mut Cursor<'t>, alloc: Global) -> Result<Kind<'t>, Stopped>
    ensures { Reads (grammar.object.read cursor.old) result cursor.new }
{
    cursor.expect(Sort::WordType)?;
    Ok(Kind::Object(object_like(cursor, alloc)?))
}

fn interface<'t>(cursor: &mut Cursor<'t>, alloc: Global) -> Result<Kind<'t>, Stopped>
    ensures { Reads (grammar.interface.read cursor.old) result cursor.new }
{
    cursor.expect(Sort::WordInterface)?;
    Ok(Kind::Interface(object_like(cursor, alloc)?))
}

fn members_given<'t>(
    cursor: &mut Cursor<'t>,
    alloc: Global,
) -> Result<Items<PlacedName<'t>>, Stopped>
    ensures { Reads (grammar.members_given.read cursor.old) result cursor.new }
{
    cursor.expect(Sort::Equals)?;
    joined(cursor, alloc, Sort::Pipe)
}

fn members<'t>(cursor: &mut Cursor<'t>, alloc: Global) -> Result<Items<PlacedName<'t>>, Stopped>
    ensures { Reads (grammar.members.read cursor.old) result cursor.new }
{
    if cursor.sees(Sort::Equals) {
        members_given(cursor, alloc)
    } else {
        Ok(Items::new(alloc))
    }
}

fn union_type<'t>(cursor: &mut Cursor<'t>, alloc: Global) -> Result<Kind<'t>, Stopped>
    ensures { Reads (grammar.union_type.read cursor.old) result cursor.new }
{
    cursor.expect(Sort::WordUnion)?;
    let key = key(cursor)?;
    let uses = many(cursor, alloc)?;
    let members = members(cursor, alloc)?;
    Ok(Kind::Union { key, uses, members })
}

fn enum_type<'t>(cursor: &mut Cursor<'t>, alloc: Global) -> Result<Kind<'t>, Stopped>
    ensures { Reads (grammar.enum_type.read cursor.old) result cursor.new }
{
    cursor.expect(Sort::WordEnum)?;
    let key = key(cursor)?;
    let uses = many(cursor, alloc)?;
    let values = body(cursor, alloc)?;
    Ok(Kind::Enum { key, uses, values })
}

fn input<'t>(cursor: &mut Cursor<'t>, alloc: Global) -> Result<Kind<'t>, Stopped>
    ensures { Reads (grammar.input.read cursor.old) result cursor.new }
{
    cursor.expect(Sort::WordInput)?;
    let key = key(cursor)?;
    let uses = many(cursor, alloc)?;
    let fields = body(cursor, alloc)?;
    Ok(Kind::Input { key, uses, fields })
}

fn directive<'t>(cursor: &mut Cursor<'t>, alloc: Global) -> Result<Kind<'t>, Stopped>
    ensures { Reads (grammar.directive.read cursor.old) result cursor.new }
{
    cursor.expect(Sort::WordDirective)?;
    cursor.expect(Sort::AtSign)?;
    let key = key(cursor)?;
    let arguments = arguments(cursor, alloc)?;
    let repeatable = cursor.optional(Sort::WordRepeatable).is_some();
    cursor.expect(Sort::WordOn)?;
    let locations = joined(cursor, alloc, Sort::Pipe)?;
    Ok(Kind::Directive {
        key,
        arguments,
        repeatable,
        locations,
    })
}

fn type_kind<'t>(cursor: &mut Cursor<'t>, alloc: Global) -> Result<Kind<'t>, Stopped>
    ensures { Reads (grammar.type_kind.read cursor.old) result cursor.new }
{
    if cursor.sees(Sort::WordUnion) {
        union_type(cursor, alloc)
    } else if cursor.sees(Sort::WordEnum) {
        enum_type(cursor, alloc)
    } else if cursor.sees(Sort::WordInput) {
        input(cursor, alloc)
    } else {
        directive(cursor, alloc)
    }
}

fn kind<'t>(cursor: &mut Cursor<'t>, alloc: Global) -> Result<Kind<'t>, Stopped>
    ensures { Reads (grammar.kind.read cursor.old) result cursor.new }
{
    if cursor.sees(Sort::WordSchema) {
        schema_block(cursor, alloc)
    } else if cursor.sees(Sort::WordScalar) {
        scalar(cursor, alloc)
    } else if cursor.sees(Sort::WordType) {
        object(cursor, alloc)
    } else if cursor.sees(Sort::WordInterface) {
        interface(cursor, alloc)
    } else {
        type_kind(cursor, alloc)
    }
}

fn described_definition<'t>(
    cursor: &mut Cursor<'t>,
    alloc: Global,
) -> Result<WrittenDefinition<'t>, Stopped>
    ensures { Reads (grammar.described_definition.read cursor.old) result cursor.new }
{
    let description = description(cursor)?;
    let kind = kind(cursor, alloc)?;
    Ok(WrittenDefinition { description, kind })
}

impl<'t> Item<'t> for WrittenDefinition<'t> {
    ghost form = { grammar.definition };

    fn shortens()
        ensures { Shortens grammar.definition.read }
    {}

    fn begins(cursor: &Cursor<'t>) -> bool {
        cursor.sees_definition()
    }

    fn parse(cursor: &mut Cursor<'t>, alloc: Global) -> Result<WrittenDefinition<'t>, Stopped> {
        if cursor.sees(Sort::WordExtend) {
            Err(cursor.refused(Sort::WordExtend))
        } else {
            described_definition(cursor, alloc)
        }
    }
}
