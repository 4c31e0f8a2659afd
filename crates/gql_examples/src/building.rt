//! A schema that is built by calls, and its canonical SDL.

use gql_check::{
    BuildError, ConstValue, Field, InputValue, Interface, InterfaceField, Number, Object, Schema,
    SchemaError, Type, TypeRef,
};
use gql_sdl::{SDLExportOptions, export_sdl};
use std::alloc::Global;

/// `interface Node { id: ID! }`
fn node(alloc: Global) -> Result<Interface, BuildError> {
    let id = InterfaceField::new(alloc, "id", TypeRef::named_nn(alloc, "ID")?)?;
    Interface::new(alloc, "Node")?.field(id)
}

/// `type Order implements Node { id: ID!, lines(first: Int = 10): [String!]! }`
fn order(alloc: Global) -> Result<Object, BuildError> {
    let first = InputValue::new(alloc, "first", TypeRef::named(alloc, "Int")?)?.default_value(
        ConstValue::Number(Number::from_i64(10)),
    )?;
    let lines = Field::new(alloc, "lines", TypeRef::named_nn_list_nn(alloc, "String")?)?
        .argument(first)?
        .description("What was ordered, the newest first.")?;
    let id = Field::new(alloc, "id", TypeRef::named_nn(alloc, "ID")?)?;
    Object::new(alloc, "Order")?
        .implement("Node")?
        .field(id)?
        .field(lines)
}

/// `type Query { order: Order }`
fn query(alloc: Global) -> Result<Object, BuildError> {
    let order = Field::new(alloc, "order", TypeRef::named(alloc, "Order")?)?;
    Object::new(alloc, "Query")?.field(order)
}

/// The canonical SDL of a schema.
fn canonical(alloc: Global, schema: Result<Schema, SchemaError>) -> Option<String> {
    match schema {
        Ok(schema) => export_sdl(alloc, schema.registry(), SDLExportOptions::new()).ok(),
        Err(error) => error.message(alloc).ok(),
    }
}

pub(crate) fn example(alloc: Global) -> Option<String> {
    let builder = Schema::build(alloc, "Query", None, None).ok()?;
    let builder = builder.register(Type::from(query(alloc).ok()?)).ok()?;
    let builder = builder.register(Type::from(order(alloc).ok()?)).ok()?;
    let builder = builder.register(Type::from(node(alloc).ok()?)).ok()?;
    canonical(alloc, builder.finish())
}
