//! The ordering pass.

ghost use Rattle.std.specs.Prelude.{◌≡◌, ◌+◌, ◌<◌, ◌≤◌, ◌≢◌, ◌^◌, ◌++◌, ◌∷◌, [], IfOk, length, get_or, set, replicate, None, MatchOption, ℕ};
ghost use Rattle.gql_check_cycles.specs.Graph.{fields_of, lists, unlooked, field_total, IsWithin, needs};
ghost use Rattle.gql_check_cycles.specs.Pass.{mark_of, IsPass, Follows, with_edge, Takes, IsTop, IsInside, HasLessWork, IsPaid, IsKept, Answers, edges_in};

use crate::steps::Steps;
use crate::table::Table;
use std::alloc::{AllocError, Global};
use std::sync::ledger::Ledger;

#[derive(Clone, Copy)]
pub enum Mark {
    New,
    Open,
    Done,
}

#[derive(Drop)]
pub struct Pass {
    pub marks: Vec<Mark>,
    pub looked: Vec<usize>,
    pub edges: Vec<Vec<usize>>,
    pub stack: Vec<usize>,
    pub cyclic: bool,
}

/// Opens a node.
fn begin(marks: &mut Vec<Mark>, stack: &mut Vec<usize>, b: usize) -> Result<(), AllocError>
    requires { b < length marks.old.items }
    ensures marks { IfOk result (λ _. marks.new.items ≡ set marks.old.items b Mark.Open) }
    ensures stack { IfOk result (λ _. stack.new.items ≡ stack.old.items ++ b ∷ []) }
{
    stack.push(b)?;
    marks[b] = Mark::Open;
    Ok(())
}

/// Follows an edge to a node.
fn follow(
    marks: &mut Vec<Mark>,
    stack: &mut Vec<usize>,
    cyclic: &mut bool,
    b: usize,
) -> Result<(), AllocError>
    requires { b < length marks.old.items }
    ensures { IfOk result (λ _.
        Follows b marks.old marks.new stack.old stack.new cyclic.old cyclic.new) }
{
    match marks[b] {
        Mark::New => begin(marks, stack, b),
        Mark::Open => {
            *cyclic = true;
            Ok(())
        }
        Mark::Done => Ok(()),
    }
}

/// Stores an edge.
fn store(edges: &mut Vec<Vec<usize>>, a: usize, b: usize) -> Result<(), AllocError>
    requires { a < length edges.old.items }
    ensures { IfOk result (λ _. lists edges.new.items ≡ with_edge a b (lists edges.old.items)) }
{
    edges[a].push(b)?;
    Ok(())
}

/// Follows what a field of an open node leads to, and stores the edge.
fn take_field(pass: &mut Pass, a: usize, field: Option<usize>) -> Result<(), AllocError>
    requires node { a < length pass.old.edges.items }
    requires target { IsInside field (length pass.old.marks.items) }
    ensures taken { IfOk result (λ _. Takes field a pass.old pass.new) }
    ensures looked { pass.new.looked ≡ pass.old.looked }
{
    match field {
        None => Ok(()),
        Some(b) => {
            follow(&mut pass.marks, &mut pass.stack, &mut pass.cyclic, b)?;
            store(&mut pass.edges, a, b)
        }
    }
}

/// The last open node.
fn top(stack: &Vec<usize>) -> Option<usize>
    ensures { MatchOption result (length stack.now.items ≡ 0) (λ a. IsTop stack.now.items a) }
{
    stack.last().copied()
}

/// Looks at the next field of the last open node.
fn look_at_next<T: Table, L: Ledger>(
    table: &T,
    pass: &mut Pass,
    a: usize,
    k: usize,
    steps: &mut Steps<L>,
) -> Result<(), AllocError>
    requires within { IsWithin (T.rows table.now) }
    requires pass { IsPass (T.rows table.now) pass.old }
    requires top { IsTop pass.old.stack.items a }
    requires next { k ≡ get_or pass.old.looked.items a 0 }
    requires some { k < length (fields_of (T.rows table.now) a) }
    requires fits { k + 1 < 2 ^ 64 }
    ensures kept { IfOk result (λ _. IsKept (T.rows table.now) pass.old pass.new) }
    ensures cost { IsPaid (T.rows table.now) pass.old pass.new steps.old steps.new }
    ensures less { IfOk result (λ _. HasLessWork (T.rows table.now) pass.old pass.new) }
{
    steps.tick();
    pass.looked[a] = k + 1;
    take_field(pass, a, table.look(a, k))?;
    Ok(())
}

/// Closes the last open node.
fn finish(pass: &mut Pass, a: usize)
    requires node { a < length pass.old.marks.items }
    requires some { 0 < length pass.old.stack.items }
    ensures marks { pass.new.marks.items ≡ set pass.old.marks.items a Mark.Done }
    ensures stack { (y : ℕ) × (pass.old.stack.items ≡ pass.new.stack.items ++ y ∷ []) }
    ensures looked { pass.new.looked ≡ pass.old.looked }
    ensures edges { pass.new.edges ≡ pass.old.edges }
    ensures cyclic { pass.new.cyclic ≡ pass.old.cyclic }
{
    let _ = pass.stack.pop();
    pass.marks[a] = Mark::Done;
}

/// Goes one step on at the last open node.
fn advance<T: Table, L: Ledger>(
    table: &T,
    pass: &mut Pass,
    a: usize,
    steps: &mut Steps<L>,
) -> Result<(), AllocError>
    requires within { IsWithin (T.rows table.now) }
    requires pass { IsPass (T.rows table.now) pass.old }
    requires top { IsTop pass.old.stack.items a }
    ensures kept { IfOk result (λ _. IsKept (T.rows table.now) pass.old pass.new) }
    ensures cost { IsPaid (T.rows table.now) pass.old pass.new steps.old steps.new }
    ensures less { IfOk result (λ _. HasLessWork (T.rows table.now) pass.old pass.new) }
{
    let k = pass.looked[a];
    if k < table.field_count(a) {
        return look_at_next(table, pass, a, k, steps);
    }
    finish(pass, a);
    Ok(())
}

/// Goes on until no node is open.
fn close_all<T: Table, L: Ledger>(
    table: &T,
    pass: &mut Pass,
    steps: &mut Steps<L>,
) -> Result<(), AllocError>
    requires within { IsWithin (T.rows table.now) }
    requires pass { IsPass (T.rows table.now) pass.old }
    ensures kept { IfOk result (λ _. IsKept (T.rows table.now) pass.old pass.new) }
    ensures none { IfOk result (λ _. length pass.new.stack.items ≡ 0) }
    ensures cost { IsPaid (T.rows table.now) pass.old pass.new steps.old steps.new }
{
    while let Some(a) = top(&pass.stack) {
        advance(table, pass, a, steps)?;
    }
    Ok(())
}

/// Goes from a root to all that it leads to.
fn order_from<T: Table, L: Ledger>(
    table: &T,
    pass: &mut Pass,
    root: usize,
    steps: &mut Steps<L>,
) -> Result<(), AllocError>
    requires within { IsWithin (T.rows table.now) }
    requires pass { IsPass (T.rows table.now) pass.old }
    requires none { length pass.old.stack.items ≡ 0 }
    requires root { root < length (T.rows table.now) }
    ensures kept { IfOk result (λ _. IsKept (T.rows table.now) pass.old pass.new) }
    ensures none { IfOk result (λ _. length pass.new.stack.items ≡ 0) }
    ensures old { IfOk result (λ _. mark_of pass.new.marks.items root ≢ Mark.New) }
    ensures cost { IsPaid (T.rows table.now) pass.old pass.new steps.old steps.new }
{
    if let Mark::New = pass.marks[root] {
        begin(&mut pass.marks, &mut pass.stack, root)?;
        close_all(table, pass, steps)?;
    }
    Ok(())
}

fn no_edges(alloc: Global, n: usize) -> Result<Vec<Vec<usize>>, AllocError>
    ensures { IfOk result (λ edges. lists edges.items ≡ replicate n []) }
{
    let mut edges = Vec::new(alloc);
    for _i in 0..n {
        edges.push(Vec::new(alloc))?;
    }
    Ok(edges)
}

/// Nothing is open, and no field was looked at.
fn new_pass<T: Table>(alloc: Global, table: &T) -> Result<Pass, AllocError>
    ensures pass { IfOk result (λ pass. IsPass (T.rows table.now) pass) }
    ensures none { IfOk result (λ pass. length pass.stack.items ≡ 0) }
    ensures left { IfOk result (λ pass.
        unlooked (T.rows table.now) pass.looked.items ≡ field_total (T.rows table.now)) }
{
    let n = table.node_count();
    let marks = vec![in alloc; Mark::New; n]?;
    let looked = vec![in alloc; 0; n]?;
    let edges = no_edges(alloc, n)?;
    Ok(Pass {
        marks,
        looked,
        edges,
        stack: Vec::new(alloc),
        cyclic: false,
    })
}

/// Looks at each field once, and finds whether there is a cycle.
pub fn order<T: Table, L: Ledger>(
    alloc: Global,
    table: &T,
    steps: &mut Steps<L>,
) -> Result<Pass, AllocError>
    requires { IsWithin (T.rows table.now) }
    ensures found { IfOk result (λ pass. Answers (T.rows table.now) pass.cyclic (edges_in pass)) }
    ensures cost { steps.new ≤ steps.old + field_total (T.rows table.now) }
{
    let mut pass = new_pass(alloc, table)?;
    for root in 0..table.node_count() {
        order_from(table, &mut pass, root, steps)?;
    }
    Ok(pass)
}
