//! Which types of a schema are used, and which are visible to a reader: the types as numbers, and what each leads to in
//! vectors.
#![tactic(auto)]

mod edges;
mod entities;
mod names;
mod naming;
mod numbers;
mod search;
mod table;

pub use entities::has_entities;
pub use names::{is_system_name, unused_names, visible_names};
pub use naming::all_names;
