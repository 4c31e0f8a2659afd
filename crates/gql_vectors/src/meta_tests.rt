//! Meta types: hints for caches, texts of type references, and which parts are shown.

use crate::asserting::{got, printed, same};
use gql_dynamic::Union;
use gql_registry::{
    CacheControl, Context, Everything, MetaType, MetaTypeId, MetaTypeName, holds_twice, is_shown,
};
use std::alloc::Global;
use std::process::Abort;

/// The value of a hint, or nothing.
fn header(rt: &impl Abort, alloc: Global, public: bool, max_age: i32) -> String {
    let hint = CacheControl { public, max_age };
    match got(rt, hint.value(alloc)) {
        Some(value) => value,
        None => String::new(alloc),
    }
}

#[test]
fn hints_have_these_values(rt: HostRuntime) {
    let rows = [
        (true, 0, ""),
        (false, 0, "private"),
        (false, 10, "max-age=10, private"),
        (true, 10, "max-age=10"),
        (true, -1, "no-cache"),
        (false, -1, "no-cache, private"),
    ];
    for (public, max_age, want) in rows {
        let value = header(&rt, rt.alloc(), public, max_age);
        same(&rt, value.as_str(), want, "a hint");
    }
}

/// The age of a hint of -5 that is merged with a hint of this age.
fn merged_age(max_age: i32) -> i32 {
    let hint = CacheControl {
        public: true,
        max_age: -5,
    };
    let other = CacheControl {
        public: false,
        max_age,
    };
    hint.merge(&other).max_age
}

#[test]
fn ages_are_merged_so(rt: HostRuntime) {
    for (other, want) in [(0, -5), (3, -5), (-1, -1)] {
        assert!(rt; merged_age(other) == want);
    }
}

/// What stands outside in the text of a type reference, and what within.
fn level(rt: &impl Abort, alloc: Global, text: &str) -> String {
    let told = match MetaTypeName::create(text) {
        MetaTypeName::Named(name) => format!(in alloc; "Named {name}"),
        MetaTypeName::NonNull(inner) => format!(in alloc; "NonNull {inner}"),
        MetaTypeName::List(inner) => format!(in alloc; "List {inner}"),
    };
    got(rt, told)
}

#[test]
fn levels_are_read_off_each_text(rt: HostRuntime) {
    let rows = [
        ("[", "Named ["),
        ("[a", "Named [a"),
        ("a]", "Named a]"),
        ("", "Named "),
        ("!", "NonNull "),
        ("[]", "List "),
        ("[A!]!", "NonNull [A!]"),
        ("[A!]", "List A!"),
    ];
    for (text, want) in rows {
        same(&rt, level(&rt, rt.alloc(), text).as_str(), want, text);
        let again = printed(&rt, rt.alloc(), &MetaTypeName::create(text));
        same(&rt, again.as_str(), text, text);
    }
    same(&rt, MetaTypeName::concrete_typename("[A!]!"), "A", "[A!]!");
}

#[test]
fn kinds_are_printed_so(rt: HostRuntime) {
    let rows = [
        (MetaTypeId::Scalar, "Scalar"),
        (MetaTypeId::Object, "Object"),
        (MetaTypeId::Interface, "Interface"),
        (MetaTypeId::Union, "Union"),
        (MetaTypeId::Enum, "Enum"),
        (MetaTypeId::InputObject, "InputObject"),
    ];
    for (kind, want) in rows {
        same(&rt, printed(&rt, rt.alloc(), &kind).as_str(), want, want);
    }
}

/// The context in which one rule holds.
struct One {
    rule: u32,
}

impl Context for One {
    ghost use Rattle.std.specs.Prelude.{nat_eq};

    ghost rules = { λ one rule. nat_eq rule one.rule };

    fn holds(&self, rule: u32) -> bool {
        rule == self.rule
    }
}

/// Whether the type is shown, through the bound.
fn is_type_shown<C: Context>(ctx: &C, ty: &MetaType) -> bool {
    ty.is_visible(ctx)
}

fn union(rt: &impl Abort, alloc: Global) -> MetaType {
    let union = got(rt, Union::new(alloc, "U"));
    got(rt, union.meta(alloc))
}

#[test]
fn a_type_without_a_rule_is_shown(rt: HostRuntime) {
    let ty = union(&rt, rt.alloc());
    assert!(rt; is_type_shown(&Everything, &ty));
}

#[test]
fn a_part_is_shown_where_its_rule_holds(rt: HostRuntime) {
    assert!(rt; is_shown(&One { rule: 7 }, Some(7)));
    assert!(rt; !is_shown(&One { rule: 7 }, Some(8)));
    assert!(rt; holds_twice(&One { rule: 7 }, 7) == (true, true));
}
