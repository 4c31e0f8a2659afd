//! What the pass looks at: nodes by number, each with its fields in order.

ghost use Rattle.std.specs.Prelude.{◌≡◌, ◌<◌, ℕ, List, Option, None, length, get_or};
ghost use Rattle.gql_check_cycles.specs.Graph.{fields_of};

pub trait Table {
    /// The fields of each node, each with the node that it leads to, if to any.
    ghost rows: { Self → List (List (Option ℕ)) };

    /// How many nodes there are.
    fn node_count(&self) -> usize
        ensures { result ≡ length (rows self.now) };

    /// How many fields a node has.
    fn field_count(&self, node: usize) -> usize
        requires { node < length (rows self.now) }
        ensures { result ≡ length (fields_of (rows self.now) node) };

    /// What a field of a node leads to.
    fn look(&self, node: usize, field: usize) -> Option<usize>
        requires node { node < length (rows self.now) }
        requires field { field < length (fields_of (rows self.now) node) }
        ensures { result ≡ get_or (fields_of (rows self.now) node) field None };
}
