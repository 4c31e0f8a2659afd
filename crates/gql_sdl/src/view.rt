//! The view of a schema.

use gql_registry::{MetaDirective, MetaType};

/// What the text of a schema says, and nothing else: section 3 of the GraphQL specification, October 2021.
///
/// A type reference is its printed text, and a default value is its text. `view_of` leaves every other part as a builder
/// registers it that does not set it. In a view that was made by hand, a type without an entry in `implements` implements
/// nothing, and further entries count for nothing.
#[derive(Drop)]
pub struct View {
    /// The name of the root of queries: section 3.3.1.
    pub query: String,
    /// The name of the root of mutations, where there is one.
    pub mutation: Option<String>,
    /// The name of the root of subscriptions, where there is one.
    pub subscription: Option<String>,
    /// The types, in name order.
    pub types: Vec<MetaType>,
    /// For each of the types, at the same place, the names of the interfaces that it implements.
    pub implements: Vec<Vec<String>>,
    /// The definitions of directives, in name order.
    pub directives: Vec<MetaDirective>,
}
