//! Builders of which everything is said: each call that takes memory stands here once.

use crate::asserting::{got, text};
use gql_dynamic::{
    Directive, Enum, EnumItem, Field, FieldBuilder, InputObject, InputValue, Interface,
    InterfaceField, Object, Scalar, ScalarValidator, Subscription, SubscriptionField, Union,
};
use gql_text::{ConstValue, Number, Text, TypeRef};
use std::alloc::Global;
use std::process::Abort;

/// A use of a directive with two arguments.
pub(crate) fn directive(rt: &impl Abort, alloc: Global) -> Directive {
    let directive = got(rt, Directive::new(alloc, "testDirective"));
    let one = ConstValue::Number(Number::from_i64(1));
    let directive = got(rt, directive.argument("int_value", one));
    let abc = ConstValue::String(got(rt, Text::new(alloc, "abc")));
    got(rt, directive.argument("str_value", abc))
}

/// One tag.
fn tags(rt: &impl Abort, alloc: Global) -> Vec<String> {
    let mut tags = Vec::new(alloc);
    got(rt, tags.push(text(rt, alloc, "t")));
    tags
}

pub(crate) fn type_ref(rt: &impl Abort, alloc: Global) -> TypeRef {
    got(rt, TypeRef::named(alloc, "Int"))
}

pub(crate) fn enum_item(rt: &impl Abort, alloc: Global, name: &str) -> EnumItem {
    let item = got(rt, EnumItem::new(alloc, name));
    let item = got(rt, item.description("d"));
    let item = got(rt, item.deprecation(Some("r")));
    let item = got(rt, item.tags(tags(rt, alloc).as_slice()));
    got(rt, item.directive(directive(rt, alloc)))
}

pub(crate) fn input_value(rt: &impl Abort, alloc: Global) -> InputValue {
    let value = got(rt, InputValue::new(alloc, "a", type_ref(rt, alloc)));
    let value = got(rt, value.default_value(ConstValue::Null));
    let value = got(rt, value.description("d"));
    let value = got(rt, value.deprecation(None));
    let value = got(rt, value.tags(tags(rt, alloc).as_slice()));
    got(rt, value.directive(directive(rt, alloc)))
}

/// The field, with what is said of it alone.
fn described<Owner: Drop>(
    rt: &impl Abort,
    alloc: Global,
    field: FieldBuilder<Owner>,
) -> FieldBuilder<Owner> {
    let field = got(rt, field.argument(input_value(rt, alloc)));
    let field = got(rt, field.description("d"));
    let field = got(rt, field.deprecation(Some("r")));
    let field = got(rt, field.tags(tags(rt, alloc).as_slice()));
    got(rt, field.directive(directive(rt, alloc)))
}

/// The field, with what is said of it for other schemas.
fn federated<Owner: Drop>(rt: &impl Abort, field: FieldBuilder<Owner>) -> FieldBuilder<Owner> {
    let field = got(rt, field.requires_fields("x"));
    let field = got(rt, field.provides("y"));
    got(rt, field.override_from("z"))
}

pub(crate) fn field(rt: &impl Abort, alloc: Global) -> Field {
    let field = got(rt, Field::new(alloc, "f", type_ref(rt, alloc)));
    federated(rt, described(rt, alloc, field))
}

fn interface_field(rt: &impl Abort, alloc: Global) -> InterfaceField {
    let field = got(rt, InterfaceField::new(alloc, "f", type_ref(rt, alloc)));
    federated(rt, described(rt, alloc, field))
}

pub(crate) fn subscription_field(rt: &impl Abort, alloc: Global) -> SubscriptionField {
    let field = got(rt, SubscriptionField::new(alloc, "f", type_ref(rt, alloc)));
    let field = got(rt, field.argument(input_value(rt, alloc)));
    let field = got(rt, field.description("d"));
    got(rt, field.deprecation(Some("r")))
}

/// Whether a value is a number.
pub(crate) fn is_number(value: &ConstValue) -> bool {
    match value {
        ConstValue::Number(_) => true,
        _ => false,
    }
}

pub(crate) fn scalar(rt: &impl Abort, alloc: Global) -> Scalar {
    let scalar = got(rt, Scalar::new(alloc, "S"));
    let scalar = scalar.validator(ScalarValidator::new(is_number));
    let scalar = got(rt, scalar.specified_by_url("u"));
    let scalar = got(rt, scalar.description("d"));
    let scalar = got(rt, scalar.tags(tags(rt, alloc).as_slice()));
    got(rt, scalar.directive(directive(rt, alloc)))
}

pub(crate) fn object(rt: &impl Abort, alloc: Global) -> Object {
    let object = got(rt, Object::new(alloc, "O"));
    let object = got(rt, object.field(field(rt, alloc)));
    let object = got(rt, object.implement("I"));
    let object = got(rt, object.key("a"));
    let object = got(rt, object.unresolvable("b"));
    let object = got(rt, object.description("d"));
    let object = got(rt, object.tags(tags(rt, alloc).as_slice()));
    got(rt, object.directive(directive(rt, alloc)))
}

pub(crate) fn interface(rt: &impl Abort, alloc: Global) -> Interface {
    let built = got(rt, Interface::new(alloc, "I"));
    let built = got(rt, built.field(interface_field(rt, alloc)));
    let built = got(rt, built.implement("J"));
    let built = got(rt, built.key("a"));
    let built = got(rt, built.description("d"));
    let built = got(rt, built.tags(tags(rt, alloc).as_slice()));
    got(rt, built.directive(directive(rt, alloc)))
}

pub(crate) fn union(rt: &impl Abort, alloc: Global) -> Union {
    let union = got(rt, Union::new(alloc, "U"));
    let union = got(rt, union.possible_type("O"));
    let union = got(rt, union.description("d"));
    let union = got(rt, union.tags(tags(rt, alloc).as_slice()));
    got(rt, union.directive(directive(rt, alloc)))
}

/// Two values of an enum.
fn items(rt: &impl Abort, alloc: Global) -> Vec<EnumItem> {
    let mut items = Vec::new(alloc);
    got(rt, items.push(enum_item(rt, alloc, "A")));
    got(rt, items.push(enum_item(rt, alloc, "B")));
    items
}

pub(crate) fn enumeration(rt: &impl Abort, alloc: Global) -> Enum {
    let built = got(rt, Enum::new(alloc, "E"));
    let built = got(rt, built.item(enum_item(rt, alloc, "B")));
    let built = got(rt, built.items(items(rt, alloc)));
    let built = got(rt, built.description("d"));
    let built = got(rt, built.tags(tags(rt, alloc).as_slice()));
    got(rt, built.directive(directive(rt, alloc)))
}

pub(crate) fn input_object(rt: &impl Abort, alloc: Global) -> InputObject {
    let object = got(rt, InputObject::new(alloc, "P"));
    let object = got(rt, object.field(input_value(rt, alloc)));
    let object = got(rt, object.description("d"));
    let object = got(rt, object.tags(tags(rt, alloc).as_slice()));
    got(rt, object.directive(directive(rt, alloc)))
}

pub(crate) fn subscription(rt: &impl Abort, alloc: Global) -> Subscription {
    let built = got(rt, Subscription::new(alloc, "T"));
    let built = got(rt, built.field(subscription_field(rt, alloc)));
    got(rt, built.description("d"))
}
