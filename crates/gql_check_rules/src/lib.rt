//! The rules of a schema, and their laws: section 3 of the GraphQL specification, October 2021. This crate has no code
//! that runs. `specs/` has what the rules look at, the table of rules with the sentence of each, and when an input
//! object reaches itself; `proofs/` has the laws, which the functions here carry in their clauses.
#![tactic(auto)]

ghost use Rattle.gql_check_rules.specs.InputCycles.{reaches};
ghost use Rattle.gql_check_rules.specs.Rules.{first_fault, first_cycle};
ghost use Rattle.gql_check_rules.specs.Laws.{DecidesReaching, IsKeptWhereFinite, IsOrderIndependent, IsSortingIndependent, MakesFinite};

/// Law: it does not depend on the order of types, fields, arguments and input fields whether some rule is broken: none is
/// in a schema where none is in another one that has the same parts under each name, and none is in a sorted schema
/// where none is in the schema that was sorted.
pub fn order_laws()
    ensures order { IsOrderIndependent first_fault }
    ensures sorting { IsSortingIndependent first_fault }
{}

/// Law: the test of reaching finds exactly what is reached; that no input object reaches itself exactly where each has
/// a finite value; and that each has one where no rule is broken.
pub fn cycle_laws()
    ensures reaching { DecidesReaching reaches }
    ensures finite { IsKeptWhereFinite first_cycle }
    ensures sound { MakesFinite first_fault }
{}
