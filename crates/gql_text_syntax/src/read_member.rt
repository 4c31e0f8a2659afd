//! Reads descriptions, uses of directives, fields and arguments.
#![tactic(auto, unfolding(crate::proofs::Rows::rows))]

ghost use Rattle.std.specs.Prelude.{◌≡◌, ◌∷◌, [], ◌++◌};
ghost use Rattle.gql_grammar.specs.Form.{Shortens, opt, starts};
ghost use Rattle.gql_text_syntax.specs.Reads.{Reads};
ghost use Rattle.gql_text_syntax.specs.Grammar as grammar;
ghost use Rattle.gql_text_syntax.specs.Sorts as sorts;

use crate::cursor::Cursor;
use crate::item::{Item, arguments, many};
use crate::read_type::type_ref;
use crate::read_value::{key, value};
use crate::sort::Sort;
use crate::span::{NameSpan, TextSpan};
use crate::stopped::Stopped;
use crate::syntax::{
    Argument, Description, EnumValue, Field, InputValue, Literal, PlacedName, Use,
};
use std::alloc::Global;

fn described<'t>(cursor: &mut Cursor<'t>) -> Result<Description<'t>, Stopped>
    ensures { Reads (grammar.described.read cursor.old) result cursor.new }
{
    let token = cursor.string()?;
    Ok(Description {
        text: TextSpan::new(token.text),
        at: token.at,
    })
}

/// The description of what follows, where one is written, section 3.2.
pub fn description<'t>(cursor: &mut Cursor<'t>) -> Result<Option<Description<'t>>, Stopped>
    ensures { Reads (grammar.description.read cursor.old) result cursor.new }
{
    if cursor.sees_string() {
        Ok(Some(described(cursor)?))
    } else {
        Ok(None)
    }
}

impl<'t> Item<'t> for Argument<'t> {
    ghost form = { grammar.argument };

    fn shortens()
        ensures { Shortens grammar.argument.read }
    {}

    fn begins(cursor: &Cursor<'t>) -> bool {
        cursor.sees_name()
    }

    fn parse(cursor: &mut Cursor<'t>, alloc: Global) -> Result<Argument<'t>, Stopped> {
        let key = key(cursor)?;
        cursor.expect(Sort::Colon)?;
        let value = value(cursor, alloc)?;
        Ok(Argument { key, value })
    }
}

impl<'t> Item<'t> for Use<'t> {
    ghost form = { grammar.directive_use };

    fn shortens()
        ensures { Shortens grammar.directive_use.read }
    {}

    fn begins(cursor: &Cursor<'t>) -> bool {
        cursor.sees(Sort::AtSign)
    }

    fn parse(cursor: &mut Cursor<'t>, alloc: Global) -> Result<Use<'t>, Stopped> {
        let sign = cursor.expect(Sort::AtSign)?;
        let name = cursor.name()?;
        let arguments = arguments(cursor, alloc)?;
        Ok(Use {
            at: sign.at,
            name: NameSpan::new(name.text),
            arguments,
        })
    }
}

fn default_value<'t>(cursor: &mut Cursor<'t>, alloc: Global) -> Result<Literal<'t>, Stopped>
    ensures { Reads (grammar.default_value.read cursor.old) result cursor.new }
{
    cursor.expect(Sort::Equals)?;
    value(cursor, alloc)
}

fn optional_default<'t>(
    cursor: &mut Cursor<'t>,
    alloc: Global,
) -> Result<Option<Literal<'t>>, Stopped>
    ensures { Reads ((opt grammar.default_value).read cursor.old) result cursor.new }
{
    if cursor.sees(Sort::Equals) {
        Ok(Some(default_value(cursor, alloc)?))
    } else {
        Ok(None)
    }
}

impl<'t> Item<'t> for InputValue<'t> {
    ghost form = { grammar.input_value };

    fn shortens()
        ensures { Shortens grammar.input_value.read }
    {}

    fn begins(cursor: &Cursor<'t>) -> bool {
        cursor.sees_member()
    }

    fn parse(cursor: &mut Cursor<'t>, alloc: Global) -> Result<InputValue<'t>, Stopped> {
        let description = description(cursor)?;
        let key = key(cursor)?;
        cursor.expect(Sort::Colon)?;
        let ty = type_ref(cursor, alloc)?;
        let default = optional_default(cursor, alloc)?;
        let uses = many(cursor, alloc)?;
        Ok(InputValue {
            description,
            key,
            ty,
            default,
            uses,
        })
    }
}

impl<'t> Item<'t> for Field<'t> {
    ghost form = { grammar.field };

    fn shortens()
        ensures { Shortens grammar.field.read }
    {}

    fn begins(cursor: &Cursor<'t>) -> bool {
        cursor.sees_member()
    }

    fn parse(cursor: &mut Cursor<'t>, alloc: Global) -> Result<Field<'t>, Stopped> {
        let description = description(cursor)?;
        let key = key(cursor)?;
        let arguments = arguments(cursor, alloc)?;
        cursor.expect(Sort::Colon)?;
        let ty = type_ref(cursor, alloc)?;
        let uses = many(cursor, alloc)?;
        Ok(Field {
            description,
            key,
            arguments,
            ty,
            uses,
        })
    }
}

/// A name that may be an enum value, with its place.
fn enum_key<'t>(cursor: &mut Cursor<'t>) -> Result<PlacedName<'t>, Stopped>
    ensures { Reads (grammar.enum_name.read cursor.old) result cursor.new }
{
    let name = cursor.enum_name()?;
    Ok(PlacedName {
        name: NameSpan::new(name.text),
        at: name.at,
    })
}

impl<'t> Item<'t> for EnumValue<'t> {
    ghost form = { grammar.enum_value };

    fn shortens()
        ensures { Shortens grammar.enum_value.read }
    {}

    fn begins(cursor: &Cursor<'t>) -> bool {
        cursor.sees_enum_member()
    }

    fn parse(cursor: &mut Cursor<'t>, alloc: Global) -> Result<EnumValue<'t>, Stopped> {
        let description = description(cursor)?;
        let key = enum_key(cursor)?;
        let uses = many(cursor, alloc)?;
        Ok(EnumValue {
            description,
            key,
            uses,
        })
    }
}
