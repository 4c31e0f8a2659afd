//! Types that are written as rows.

use crate::asserting::got;
use gql_dynamic::{FieldBuilder, InputObject, InputValue, Interface, Object, Type};
use gql_text::TypeRef;
use std::alloc::Global;
use std::process::Abort;

/// A type reference.
#[derive(Clone, Copy)]
pub(crate) enum Reference {
    Named(&'static str),
    NonNull(&'static str),
}

/// The name and the type of a field.
pub(crate) type Member = (&'static str, Reference);

/// A type, with its fields and then the interfaces that it implements.
#[derive(Clone, Copy)]
pub(crate) enum Row<'a> {
    Object(&'static str, &'a [Member], &'a [&'static str]),
    Interface(&'static str, &'a [Member]),
    Input(&'static str, &'a [Member]),
}

fn type_ref(rt: &impl Abort, alloc: Global, ty: Reference) -> TypeRef {
    let made = match ty {
        Reference::Named(name) => TypeRef::named(alloc, name),
        Reference::NonNull(name) => TypeRef::named_nn(alloc, name),
    };
    got(rt, made)
}

fn field<Owner: Drop>(rt: &impl Abort, alloc: Global, member: &Member) -> FieldBuilder<Owner> {
    let ty = type_ref(rt, alloc, member.1);
    got(rt, FieldBuilder::<Owner>::new(alloc, member.0, ty))
}

fn object(
    rt: &impl Abort,
    alloc: Global,
    name: &str,
    members: &[Member],
    interfaces: &[&'static str],
) -> Object {
    let mut object = got(rt, Object::new(alloc, name));
    for member in members {
        object = got(rt, object.field(field(rt, alloc, member)));
    }
    for interface in interfaces {
        object = got(rt, object.implement(interface));
    }
    object
}

fn interface(rt: &impl Abort, alloc: Global, name: &str, members: &[Member]) -> Interface {
    let mut built = got(rt, Interface::new(alloc, name));
    for member in members {
        built = got(rt, built.field(field(rt, alloc, member)));
    }
    built
}

fn input_object(rt: &impl Abort, alloc: Global, name: &str, inputs: &[Member]) -> InputObject {
    let mut object = got(rt, InputObject::new(alloc, name));
    for input in inputs {
        let ty = type_ref(rt, alloc, input.1);
        let field = got(rt, InputValue::new(alloc, input.0, ty));
        object = got(rt, object.field(field));
    }
    object
}

/// The type that a row writes.
pub(crate) fn built(rt: &impl Abort, alloc: Global, row: Row<'_>) -> Type {
    match row {
        Row::Object(name, members, interfaces) => {
            Type::from(object(rt, alloc, name, members, interfaces))
        }
        Row::Interface(name, members) => Type::from(interface(rt, alloc, name, members)),
        Row::Input(name, inputs) => Type::from(input_object(rt, alloc, name, inputs)),
    }
}
