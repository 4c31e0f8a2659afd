//! Types of code that stand for roots of a schema, for objects that are merged of two, and for scalars.
//!
//! ```rust
//! let mut registry = Registry::new(alloc);
//! let merged = registry.create_fake_output_type::<MergedObject<Orders, Customers>>()?;
//! registry.create_fake_subscription_type::<EmptySubscription>()?;
//! ```
#![tactic(auto)]

mod empty_mutation;
mod empty_subscription;
mod fields;
mod merged_object;
mod merged_subscription;
mod merged_tail;
mod plain;
mod query_root;
mod scalars;

pub use empty_mutation::EmptyMutation;
pub use empty_subscription::EmptySubscription;
pub use merged_object::MergedObject;
pub use merged_tail::MergedObjectTail;
pub use query_root::QueryRoot;
pub use scalars::{Any, Upload};
