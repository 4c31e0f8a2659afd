//! The check of types that are no schema's yet, and the first input object that needs itself.

ghost use Rattle.std.specs.Prelude.{◌≡◌, ◌<◌};

use crate::asserting::{got, same, text};
use crate::rows::Reference::{Named, NonNull};
use crate::rows::{Row, built};
use gql_check::{Schema, SchemaBuilder, SchemaTypes, Steps, check, first_input_cycle};
use std::alloc::Global;
use std::marker::Brand;
use std::process::Abort;
use std::sync::ledger::{Blank, Ledger};

/// A builder of a schema of these types, which is not checked.
pub(crate) fn begun(rt: &impl Abort, alloc: Global, rows: &[Row<'_>]) -> SchemaBuilder {
    let mut builder = got(rt, Schema::build(alloc, "Query", None, None));
    for row in rows {
        builder = got(rt, builder.register(built(rt, alloc, *row)));
    }
    builder
}

/// The name of the first input object that needs itself, or `none`, with a counter of steps.
fn counted<L: Ledger>(rt: &impl Abort, alloc: Global, types: &SchemaTypes, blank: Blank) -> String
    requires name { blank.name ≡ L.name }
    requires parts { blank.parts ≡ L.parts }
    requires some { 0 < blank.parts }
{
    let mut steps = Steps::<L>::new(blank);
    let found = got(rt, first_input_cycle(alloc, types, &mut steps));
    text(rt, alloc, found.unwrap_or("none"))
}

/// The name of the first input object that needs itself, or `none`.
pub(crate) fn first_cycle(rt: &impl Abort, alloc: Global, types: &SchemaTypes) -> String {
    counted::<Brand>(rt, alloc, types, Blank::new(1))
}

/// The sentence of the first rule that the types break, or `ok`.
pub(crate) fn sentence(rt: &impl Abort, alloc: Global, types: &SchemaTypes) -> String {
    match check(alloc, types) {
        Ok(()) => text(rt, alloc, "ok"),
        Err(error) => got(rt, error.message(alloc)),
    }
}

/// Types, the sentence of the first rule that they break, and the first input object that needs itself.
type Case = (&'static [Row<'static>], &'static str, &'static str);

pub(crate) const QUERY: Row<'static> = Row::Object("Query", &[("v", Named("Int"))], &[]);

const CASES: [Case; 3] = [
    (
        &[
            QUERY,
            Row::Input("A", &[("b", NonNull("B"))]),
            Row::Input("B", &[("a", NonNull("A"))]),
        ],
        "\"A\" references itself either directly or through referenced Input Objects, at least one of the fields in the chain of references must be either a nullable or a List type.",
        "A",
    ),
    (
        &[
            QUERY,
            Row::Input("A", &[("b", NonNull("B"))]),
            Row::Input("B", &[("a", Named("A"))]),
        ],
        "ok",
        "none",
    ),
    (
        &[
            QUERY,
            Row::Input("A", &[("b", NonNull("A")), ("d", Named("D"))]),
        ],
        "Type \"D\" not found",
        "A",
    ),
];

#[test]
fn the_first_broken_rule_and_the_first_cycle_are_reported(rt: HostRuntime) {
    for (rows, want, cycle) in CASES {
        let builder = begun(&rt, rt.alloc(), rows);
        let sentence = sentence(&rt, rt.alloc(), builder.types());
        same(&rt, sentence.as_str(), want, "types");
        let first = first_cycle(&rt, rt.alloc(), builder.types());
        same(&rt, first.as_str(), cycle, "types");
    }
}
