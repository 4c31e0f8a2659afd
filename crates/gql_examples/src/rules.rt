//! What the rules of a schema say of types that are built in code: the first rule that they break, as a sentence.

use gql_check::{BuildError, Field, Object, Schema, SchemaError, Type, TypeRef, check};
use std::alloc::Global;

/// `type Query { order: Order }`, where nothing is registered as `Order`.
fn query(alloc: Global) -> Result<Object, BuildError> {
    let order = Field::new(alloc, "order", TypeRef::named(alloc, "Order")?)?;
    Object::new(alloc, "Query")?.field(order)
}

/// The sentence of the first rule that is broken.
fn sentence(alloc: Global, answer: Result<(), SchemaError>) -> Option<String> {
    match answer {
        Ok(()) => String::from_str(alloc, "no rule is broken").ok(),
        Err(error) => error.message(alloc).ok(),
    }
}

pub(crate) fn example(alloc: Global) -> Option<String> {
    let builder = Schema::build(alloc, "Query", None, None).ok()?;
    let builder = builder.register(Type::from(query(alloc).ok()?)).ok()?;
    sentence(alloc, check(alloc, builder.types()))
}
