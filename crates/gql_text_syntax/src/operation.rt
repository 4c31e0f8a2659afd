//! The kinds of operations: section 2.3 of the GraphQL specification, October 2021.

/// A kind of operations, each with a root of its own in a schema.
#[derive(Clone, Copy, Debug, PartialEq, Eq)]
pub enum OperationType {
    Query,
    Mutation,
    Subscription,
}
