//! Builds a schema of a shape and a size in code, checks it, and makes its registry; of some shapes it then removes the
//! types that are not used, and looks for those that a reader may see. It writes how many types there are.
//! `bench/run.py` times it.
#![tactic(auto)]

use gql_check::{Schema, SchemaBuilder};
use gql_dynamic::{
    Field, InputObject, InputValue, Interface, InterfaceField, Object, OutOfMemory, SchemaError,
    Type,
};
use gql_registry::{Everything, Registry};
use gql_text_values::TypeRef;
use std::alloc::Global;
use std::env;
use std::process::ExitCode;

/// What a schema has many of.
#[derive(Clone, Copy)]
enum Shape {
    /// Objects of one field.
    Types,
    /// Objects that implement one interface.
    Implementers,
    /// Fields of one object, which implements an interface of as many fields.
    Fields,
    /// Input objects that each need the next one.
    Chain,
    /// Input objects that each need the next one, and the last one needs the first.
    Ring,
    /// Input objects that each need the next one, and the last one needs itself.
    Loop,
    /// Objects that each lead to the next one, searched.
    Links,
    /// Fields of one object, which all lead to another one, searched.
    Edges,
}

/// The shape and the size that the words name.
fn asked(rt: &HostRuntime) -> Option<(Shape, u32)> {
    let mut words = env::args(rt).ok()?.skip(1);
    let shape = words.next()?;
    let count = words.next()?;
    let shape = match shape.as_str() {
        "types" => Shape::Types,
        "implementers" => Shape::Implementers,
        "fields" => Shape::Fields,
        "chain" => Shape::Chain,
        "ring" => Shape::Ring,
        "loop" => Shape::Loop,
        "links" => Shape::Links,
        "edges" => Shape::Edges,
        _ => return None,
    };
    Some((shape, count.parse::<u32>().ok()?))
}

/// A name that ends in a number.
fn numbered(alloc: Global, name: &str, number: u32) -> Result<String, OutOfMemory> {
    Ok(format!(in alloc; "{}{}", name, number)?)
}

/// An object of one field.
fn object(alloc: Global, number: u32) -> Option<Object> {
    let name = numbered(alloc, "T", number).ok()?;
    let field = Field::new(alloc, "v", TypeRef::named(alloc, "Int").ok()?).ok()?;
    Object::new(alloc, name.as_str()).ok()?.field(field).ok()
}

/// An interface of one field.
fn interface(alloc: Global) -> Option<Interface> {
    let field = InterfaceField::new(alloc, "v", TypeRef::named(alloc, "Int").ok()?).ok()?;
    Interface::new(alloc, "I").ok()?.field(field).ok()
}

/// An interface of many fields.
fn wide_interface(alloc: Global, count: u32) -> Option<Interface> {
    let mut interface = Interface::new(alloc, "I").ok()?;
    for number in 0..count {
        let name = numbered(alloc, "f", number).ok()?;
        let ty = TypeRef::named(alloc, "Int").ok()?;
        let field = InterfaceField::new(alloc, name.as_str(), ty).ok()?;
        interface = interface.field(field).ok()?;
    }
    Some(interface)
}

/// An object of as many fields, which implements it.
fn wide_object(alloc: Global, count: u32) -> Option<Object> {
    let mut object = Object::new(alloc, "T0").ok()?.implement("I").ok()?;
    for number in 0..count {
        let name = numbered(alloc, "f", number).ok()?;
        let ty = TypeRef::named(alloc, "Int").ok()?;
        let field = Field::new(alloc, name.as_str(), ty).ok()?;
        object = object.field(field).ok()?;
    }
    Some(object)
}

/// An input object of one field, which needs another one where a number is given.
fn input(alloc: Global, number: u32, needed: Option<u32>) -> Option<InputObject> {
    let name = numbered(alloc, "A", number).ok()?;
    let ty = match needed {
        None => TypeRef::named(alloc, "Int").ok()?,
        Some(other) => TypeRef::named_nn(alloc, numbered(alloc, "A", other).ok()?.as_str()).ok()?,
    };
    let field = InputValue::new(alloc, "a", ty).ok()?;
    InputObject::new(alloc, name.as_str())
        .ok()?
        .field(field)
        .ok()
}

/// How many types the finished schema has; none where it is refused.
fn finished(builder: SchemaBuilder) -> Option<usize> {
    match builder.finish() {
        Ok(schema) => Some(schema.registry().types().len()),
        Err(SchemaError::OutOfMemory) => None,
        Err(_) => Some(0),
    }
}

/// Input objects that each need the next one, and what the last one needs.
fn many_inputs(alloc: Global, count: u32, last: Option<u32>) -> Option<usize> {
    let mut builder = Schema::build(alloc, "T0", None, None).ok()?;
    builder = builder.register(Type::from(object(alloc, 0)?)).ok()?;
    for number in 1..count {
        let next = input(alloc, number - 1, Some(number))?;
        builder = builder.register(Type::from(next)).ok()?;
    }
    let end = input(alloc, count.saturating_sub(1), last)?;
    builder = builder.register(Type::from(end)).ok()?;
    finished(builder)
}

fn many_types(alloc: Global, count: u32) -> Option<usize> {
    let mut builder = Schema::build(alloc, "T0", None, None).ok()?;
    for number in 0..count {
        let object = object(alloc, number)?;
        builder = builder.register(Type::from(object)).ok()?;
    }
    finished(builder)
}

fn many_implementers(alloc: Global, count: u32) -> Option<usize> {
    let mut builder = Schema::build(alloc, "T0", None, None).ok()?;
    builder = builder.register(Type::from(interface(alloc)?)).ok()?;
    for number in 0..count {
        let object = object(alloc, number)?.implement("I").ok()?;
        builder = builder.register(Type::from(object)).ok()?;
    }
    finished(builder)
}

fn many_fields(alloc: Global, count: u32) -> Option<usize> {
    let mut builder = Schema::build(alloc, "T0", None, None).ok()?;
    builder = builder
        .register(Type::from(wide_interface(alloc, count)?))
        .ok()?;
    builder = builder
        .register(Type::from(wide_object(alloc, count)?))
        .ok()?;
    finished(builder)
}

/// An object of one field, which leads to another object.
fn link(alloc: Global, number: u32, to: u32) -> Option<Object> {
    let ty = TypeRef::named(alloc, numbered(alloc, "T", to).ok()?.as_str()).ok()?;
    let field = Field::new(alloc, "v", ty).ok()?;
    let name = numbered(alloc, "T", number).ok()?;
    Object::new(alloc, name.as_str()).ok()?.field(field).ok()
}

/// An object of many fields, which all lead to another object.
fn edges(alloc: Global, count: u32) -> Option<Object> {
    let mut object = Object::new(alloc, "T0").ok()?;
    for number in 0..count {
        let name = numbered(alloc, "f", number).ok()?;
        let ty = TypeRef::named(alloc, "T1").ok()?;
        let field = Field::new(alloc, name.as_str(), ty).ok()?;
        object = object.field(field).ok()?;
    }
    Some(object)
}

/// How many types a reader may see of a schema.
fn seen(schema: &Schema) -> Option<usize> {
    Some(
        schema
            .registry()
            .find_visible_types(&Everything)
            .ok()?
            .len(),
    )
}

/// How many types a registry has, after those that are not used were removed.
fn cleaned(mut registry: Registry) -> Option<usize> {
    registry.remove_unused_types().ok()?;
    Some(registry.types().len())
}

/// How many types are left of a schema, all of which a reader may see; 0 where it may not see all.
fn left(schema: Schema) -> Option<usize> {
    let seen = seen(&schema)?;
    let left = cleaned(schema.into_registry())?;
    Some(if seen == left { left } else { 0 })
}

/// How many types are left of the finished schema; none where it is refused.
fn searched(builder: SchemaBuilder) -> Option<usize> {
    match builder.finish() {
        Ok(schema) => left(schema),
        Err(_) => None,
    }
}

/// Objects that each lead to the next one, and the last one to the first.
fn many_links(alloc: Global, count: u32) -> Option<usize> {
    let mut builder = Schema::build(alloc, "T0", None, None).ok()?;
    for number in 1..count {
        let object = link(alloc, number - 1, number)?;
        builder = builder.register(Type::from(object)).ok()?;
    }
    let last = link(alloc, count.saturating_sub(1), 0)?;
    builder = builder.register(Type::from(last)).ok()?;
    searched(builder)
}

/// An object of many fields, which all lead to another object.
fn many_edges(alloc: Global, count: u32) -> Option<usize> {
    let mut builder = Schema::build(alloc, "T0", None, None).ok()?;
    builder = builder.register(Type::from(edges(alloc, count)?)).ok()?;
    builder = builder.register(Type::from(link(alloc, 1, 0)?)).ok()?;
    searched(builder)
}

fn measured(alloc: Global, shape: Shape, count: u32) -> Option<usize> {
    match shape {
        Shape::Types => many_types(alloc, count),
        Shape::Implementers => many_implementers(alloc, count),
        Shape::Fields => many_fields(alloc, count),
        Shape::Chain => many_inputs(alloc, count, None),
        Shape::Ring => many_inputs(alloc, count, Some(0)),
        Shape::Loop => many_inputs(alloc, count, Some(count.saturating_sub(1))),
        Shape::Links => many_links(alloc, count),
        Shape::Edges => many_edges(alloc, count),
    }
}

/// Writes the number and the end of a line.
fn write_count(rt: &HostRuntime, count: usize) -> Option<()> {
    let text = format!(in rt.alloc(); "{}\n", count).ok()?;
    rt.stdout().write_all(text.as_bytes()).ok()
}

fn main(rt: HostRuntime) -> ExitCode {
    let Some((shape, count)) = asked(&rt) else {
        return ExitCode::from(2);
    };
    match measured(rt.alloc(), shape, count) {
        None => ExitCode::from(1),
        Some(types) => match write_count(&rt, types) {
            None => ExitCode::from(1),
            Some(()) => ExitCode::from(0),
        },
    }
}
