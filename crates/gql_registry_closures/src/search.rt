//! The searches over the table. What waits to be looked at is a list of numbers, and what was met is marked.

ghost use Rattle.std.specs.Prelude.{◌≡◌, ◌⊎◌, ◌<◌, ◌≤◌, ◌++◌, ◌∷◌, [], true, IfOk, OnOk, ℕ, length, get_or, set};
ghost use Rattle.std.specs.List.{list_any, AllByRecursion};
ghost use Rattle.gql_registry_closures.specs.Table.{lists, AreWithin, IsWhole};
ghost use Rattle.gql_registry_closures.specs.Walk.{passes, targets, next_of, steps_of, Among, is_marked, with_met, with_all_met};
ghost use Rattle.gql_registry_closures.specs.Walk.{Chain, Pending, IsClosed, MarksExactly, MarksReached, joins, MarksJoined, JoinsAll};

use crate::edges::Edge;
use crate::table::Table;
use gql_registry_meta::{Context, is_shown};
use gql_text_lexer::OutOfMemory;
use std::alloc::Global;

/// Whether the parts on the edge and the type to which it leads are shown.
fn passes<C: Context>(ctx: &C, rules: &[Option<u32>], edge: Edge) -> bool
    requires { edge.to < length rules.now }
    ensures { result ≡ passes (C.rules ctx.now) rules.now edge }
{
    is_shown(ctx, edge.outer) && is_shown(ctx, edge.inner) && is_shown(ctx, rules[edge.to])
}

/// Marks a type.
fn mark(marks: &mut Vec<bool>, place: usize)
    requires { place < length marks.old.items }
    ensures { marks.new.items ≡ set marks.old.items place true }
{
    marks[place] = true;
}

/// Marks a type the first time that it is met, so that it waits.
fn meet(marks: &mut Vec<bool>, waiting: &mut Vec<usize>, place: usize) -> Result<(), OutOfMemory>
    requires { place < length marks.old.items }
    ensures state { OnOk result ((marks.new.items, waiting.new.items)
        ≡ with_met (marks.old.items, waiting.old.items) place) }
    ensures size { length marks.new.items ≡ length marks.old.items }
{
    if marks[place] {
        return Ok(());
    }
    mark(marks, place);
    waiting.push(place)?;
    Ok(())
}

/// Meets the type to which an edge leads, if it can be passed.
fn follow<C: Context>(
    ctx: &C,
    rules: &[Option<u32>],
    edge: Edge,
    marks: &mut Vec<bool>,
    waiting: &mut Vec<usize>,
) -> Result<(), OutOfMemory>
    requires rule { edge.to < length rules.now }
    requires mark { edge.to < length marks.old.items }
    ensures state { OnOk result ((marks.new.items, waiting.new.items)
        ≡ with_all_met (marks.old.items, waiting.old.items)
        (targets (C.rules ctx.now) rules.now (edge ∷ []))) }
    ensures size { length marks.new.items ≡ length marks.old.items }
{
    if passes(ctx, rules, edge) {
        return meet(marks, waiting, edge.to);
    }
    Ok(())
}

/// Meets each type to which one of the edges leads that can be passed.
fn follow_all<C: Context>(
    ctx: &C,
    rules: &[Option<u32>],
    edges: &[Edge],
    marks: &mut Vec<bool>,
    waiting: &mut Vec<usize>,
) -> Result<(), OutOfMemory>
    requires rules { AreWithin (length rules.now) edges.now }
    requires marks { length marks.old.items ≡ length rules.now }
    ensures state { OnOk result ((marks.new.items, waiting.new.items)
        ≡ with_all_met (marks.old.items, waiting.old.items)
        (targets (C.rules ctx.now) rules.now edges.now)) }
    ensures size { length marks.new.items ≡ length marks.old.items }
{
    for edge in edges {
        follow(ctx, rules, *edge, marks, waiting)?;
    }
    Ok(())
}

/// Looks at a type: meets each type to which one gets from it in one step.
fn look_at<C: Context>(
    ctx: &C,
    rules: &[Option<u32>],
    edges: &[Vec<Edge>],
    place: usize,
    marks: &mut Vec<bool>,
    waiting: &mut Vec<usize>,
) -> Result<(), OutOfMemory>
    requires place { place < length edges.now }
    requires within { AreWithin (length rules.now) (get_or (lists edges.now) place []) }
    requires marks { length marks.old.items ≡ length rules.now }
    ensures state { OnOk result ((marks.new.items, waiting.new.items)
        ≡ with_all_met (marks.old.items, waiting.old.items)
        (next_of (C.rules ctx.now) rules.now (lists edges.now) place)) }
    ensures size { length marks.new.items ≡ length marks.old.items }
{
    follow_all(ctx, rules, &edges[place], marks, waiting)
}

/// Looks at what waits, until nothing does. Each type waits once at most, and each of its edges is followed once.
fn reach<C: Context>(
    ctx: &C,
    rules: &[Option<u32>],
    edges: &[Vec<Edge>],
    marks: &mut Vec<bool>,
    waiting: Vec<usize>,
) -> Result<(), OutOfMemory>
    requires rules { length rules.now ≡ length marks.old.items }
    requires edges { length edges.now ≡ length marks.old.items }
    requires within { (x : ℕ) → AreWithin (length rules.now) (get_or (lists edges.now) x []) }
    requires pending { Pending (next_of (C.rules ctx.now) rules.now (lists edges.now))
        marks.old.items waiting.items }
    ensures reached { OnOk result (MarksReached
        (next_of (C.rules ctx.now) rules.now (lists edges.now))
        marks.old.items marks.new.items) }
    ensures size { length marks.new.items ≡ length marks.old.items }
{
    let mut waiting = waiting;
    while let Some(place) = waiting.pop() {
        look_at(ctx, rules, edges, place, marks, &mut waiting)?;
    }
    Ok(())
}

/// Marks what the starts reach.
pub(crate) fn reached<C: Context>(
    alloc: Global,
    ctx: &C,
    table: &Table,
) -> Result<Vec<bool>, OutOfMemory>
    requires { IsWhole table.now }
    ensures reached { IfOk result (λ marks. MarksExactly marks.items
        (Chain (steps_of (C.rules ctx.now) table.now)
        (λ x. Among x (targets (C.rules ctx.now) table.now.rules.items table.now.starts.items)))) }
    ensures size { IfOk result (λ marks.
        length marks.items ≡ length table.now.rules.items) }
{
    let mut marks = vec![in alloc; false; table.rules.len()]?;
    let mut waiting = Vec::new(alloc);
    follow_all(ctx, &table.rules, &table.starts, &mut marks, &mut waiting)?;
    reach(ctx, &table.rules, &table.edges, &mut marks, waiting)?;
    Ok(marks)
}

/// Whether one of the types is marked.
fn has_marked(places: &[usize], marks: &[bool]) -> bool
    requires { AllByRecursion (λ place. place < length marks.now) places.now }
    ensures { result ≡ list_any (is_marked marks.now) places.now }
{
    for place in places {
        if marks[*place] {
            return true;
        }
    }
    false
}

/// Whether an interface is added: it is shown and not marked, and one of its possible types is marked.
fn joins<C: Context>(ctx: &C, table: &Table, marks: &[bool], place: usize) -> bool
    requires whole { IsWhole table.now }
    requires size { length marks.now ≡ length table.now.rules.items }
    requires place { place < length marks.now }
    ensures { result ≡ joins (C.rules ctx.now) table.now.rules.items
        (lists table.now.implementers.items) marks.now place }
{
    !marks[place]
        && is_shown(ctx, table.rules[place])
        && has_marked(&table.implementers[place], marks)
}

/// Marks a type and what it reaches.
fn reach_from<C: Context>(
    alloc: Global,
    ctx: &C,
    table: &Table,
    marks: &mut Vec<bool>,
    place: usize,
) -> Result<(), OutOfMemory>
    requires whole { IsWhole table.now }
    requires size { length marks.old.items ≡ length table.now.rules.items }
    requires place { place < length marks.old.items }
    requires closed { IsClosed (steps_of (C.rules ctx.now) table.now) marks.old.items }
    ensures joined { OnOk result (MarksJoined true (steps_of (C.rules ctx.now) table.now)
        place marks.old.items marks.new.items) }
    ensures size { length marks.new.items ≡ length marks.old.items }
{
    let mut waiting = Vec::new(alloc);
    waiting.push(place)?;
    mark(marks, place);
    reach(ctx, &table.rules, &table.edges, marks, waiting)?;
    Ok(())
}

/// Marks an interface and what it reaches, if it is added.
fn join<C: Context>(
    alloc: Global,
    ctx: &C,
    table: &Table,
    marks: &mut Vec<bool>,
    place: usize,
) -> Result<(), OutOfMemory>
    requires whole { IsWhole table.now }
    requires size { length marks.old.items ≡ length table.now.rules.items }
    requires place { place < length marks.old.items }
    requires closed { IsClosed (steps_of (C.rules ctx.now) table.now) marks.old.items }
    ensures joined { OnOk result (MarksJoined
        (joins (C.rules ctx.now) table.now.rules.items (lists table.now.implementers.items)
        marks.old.items place)
        (steps_of (C.rules ctx.now) table.now) place marks.old.items marks.new.items) }
    ensures size { length marks.new.items ≡ length marks.old.items }
{
    if joins(ctx, table, marks, place) {
        reach_from(alloc, ctx, table, marks, place)?;
        return Ok(());
    }
    Ok(())
}

/// Marks the interfaces that are added, in name order, and what they reach.
pub(crate) fn join_all<C: Context>(
    alloc: Global,
    ctx: &C,
    table: &Table,
    marks: &mut Vec<bool>,
) -> Result<(), OutOfMemory>
    requires whole { IsWhole table.now }
    requires size { length marks.old.items ≡ length table.now.rules.items }
    requires closed { IsClosed (steps_of (C.rules ctx.now) table.now) marks.old.items }
    ensures joined { OnOk result (JoinsAll (C.rules ctx.now) table.now
        marks.old.items marks.new.items) }
    ensures size { length marks.new.items ≡ length marks.old.items }
{
    for place in 0..marks.len() {
        join(alloc, ctx, table, marks, place)?;
    }
    Ok(())
}
