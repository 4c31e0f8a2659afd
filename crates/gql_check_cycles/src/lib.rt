//! The first node of a graph that reaches itself: one pass that looks at each field once, and a search over the edges that
//! it stored only where it met a cycle. The graph is any table of numbered nodes.
#![tactic(auto)]

mod order;
mod search;
mod steps;
mod table;

pub use search::first_cycle;
pub use steps::Steps;
pub use table::Table;
