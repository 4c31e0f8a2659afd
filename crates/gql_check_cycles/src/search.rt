//! The search for the first node that reaches itself, over stored edges.

ghost use Rattle.std.specs.Prelude.{◌≡◌, ◌+◌, ◌*◌, ◌<◌, ◌≤◌, ◌++◌, ◌∷◌, [], IfOk, length, get_or, set, None, false, true};
ghost use Rattle.gql_check_cycles.specs.Graph.{lists, field_total, IsWithin, IsFirst, needs, search_bound};
ghost use Rattle.gql_check_cycles.specs.Search.{stored, Searching, Visited, Found, Looked, IsPaidFor, HasNoMoreRoom, start_cost, naming_cost, edge_total, AllWithin};

use crate::order::order;
use crate::steps::Steps;
use crate::table::Table;
use std::alloc::{AllocError, Global};
use std::sync::ledger::Ledger;

/// Reads the edges of a node, until one leads to the start.
fn read_edges<L: Ledger>(
    start: usize,
    edges: &[usize],
    waiting: &mut Vec<usize>,
    steps: &mut Steps<L>,
) -> Result<bool, AllocError>
    ensures looked { IfOk result (λ found.
        Looked found start edges.now waiting.old.items waiting.new.items) }
    ensures cost { steps.new ≤ steps.old + length edges.now }
{
    for b in edges {
        steps.tick();
        if *b == start {
            return Ok(true);
        }
        waiting.push(*b)?;
    }
    Ok(false)
}

/// Visits a node for the first time.
fn visit_new<L: Ledger>(
    edges: &[Vec<usize>],
    start: usize,
    x: usize,
    seen: &mut Vec<bool>,
    waiting: &mut Vec<usize>,
    steps: &mut Steps<L>,
) -> Result<bool, AllocError>
    requires node { x < length edges.now }
    requires mark { x < length seen.old.items }
    ensures looked { IfOk result (λ found.
        Looked found start (stored edges.now x) waiting.old.items waiting.new.items) }
    ensures seen { seen.new.items ≡ set seen.old.items x true }
    ensures cost { steps.new ≤ steps.old + length (stored edges.now x) }
{
    seen[x] = true;
    read_edges(start, &edges[x], waiting, steps)
}

/// Visits a node that waited, unless it was visited.
fn visit<L: Ledger>(
    edges: &[Vec<usize>],
    start: usize,
    x: usize,
    seen: &mut Vec<bool>,
    waiting: &mut Vec<usize>,
    steps: &mut Steps<L>,
) -> Result<bool, AllocError>
    requires node { x < length edges.now }
    requires marks { length seen.old.items ≡ length edges.now }
    ensures state { IfOk result (λ found.
        Searching (stored edges.now) start seen.old.items (waiting.old.items ++ x ∷ [])
        → Visited found (stored edges.now) start seen.new.items waiting.new.items) }
    ensures marks { length seen.new.items ≡ length edges.now }
    ensures cost { IsPaidFor edges.now seen.old seen.new steps.old steps.new }
    ensures room { IfOk result (λ found. found ≡ false →
        HasNoMoreRoom edges.now seen.old seen.new waiting.old waiting.new) }
{
    if seen[x] {
        return Ok(false);
    }
    let found = visit_new(edges, start, x, seen, waiting, steps)?;
    Ok(found)
}

/// Whether a node reaches itself. Each stored edge is read once at most.
fn search<L: Ledger>(
    alloc: Global,
    edges: &[Vec<usize>],
    start: usize,
    steps: &mut Steps<L>,
) -> Result<bool, AllocError>
    requires within { AllWithin (lists edges.now) }
    requires start { start < length edges.now }
    ensures found { IfOk result (λ found. Found found (stored edges.now) start) }
    ensures cost { steps.new ≤ steps.old + edge_total (lists edges.now) }
{
    let mut seen = vec![in alloc; false; edges.len()]?;
    let mut waiting = Vec::new(alloc);
    waiting.push(start)?;
    while let Some(x) = waiting.pop() {
        if visit(edges, start, x, &mut seen, &mut waiting, steps)? {
            return Ok(true);
        }
    }
    Ok(false)
}

/// The same, at no cost where no edge leads on.
fn search_from<L: Ledger>(
    alloc: Global,
    edges: &[Vec<usize>],
    start: usize,
    steps: &mut Steps<L>,
) -> Result<bool, AllocError>
    requires within { AllWithin (lists edges.now) }
    requires start { start < length edges.now }
    ensures found { IfOk result (λ found. Found found (stored edges.now) start) }
    ensures cost { steps.new ≤ steps.old + start_cost start (lists edges.now) }
{
    if edges[start].is_empty() {
        return Ok(false);
    }
    search(alloc, edges, start, steps)
}

/// The first node that reaches itself.
fn first_cyclic<L: Ledger>(
    alloc: Global,
    edges: &[Vec<usize>],
    steps: &mut Steps<L>,
) -> Result<Option<usize>, AllocError>
    requires { AllWithin (lists edges.now) }
    ensures first { IfOk result (λ found. IsFirst (stored edges.now) found) }
    ensures cost { steps.new ≤ steps.old + naming_cost (lists edges.now) }
{
    for start in 0..edges.len() {
        if search_from(alloc, edges, start, steps)? {
            return Ok(Some(start));
        }
    }
    Ok(None)
}

/// The first node that reaches itself by one or more edges. With I nodes that have fields, F in all, it takes at most
/// F steps where there is none, and else at most F + I * F. A look at a field is a step, and so is a read of a stored edge.
pub fn first_cycle<T: Table, L: Ledger>(
    alloc: Global,
    table: &T,
    steps: &mut Steps<L>,
) -> Result<Option<usize>, AllocError>
    requires { IsWithin (T.rows table.now) }
    ensures first { IfOk result (λ found. IsFirst (needs (T.rows table.now)) found) }
    ensures none { IfOk result (λ found. found ≡ None →
        steps.new ≤ steps.old + field_total (T.rows table.now)) }
    ensures cost { steps.new ≤ steps.old + search_bound (T.rows table.now) }
{
    let pass = order(alloc, table, steps)?;
    if !pass.cyclic {
        return Ok(None);
    }
    let found = first_cyclic(alloc, &pass.edges, steps)?;
    Ok(found)
}
