//! A registry that stands for a valid document has the document's view. This crate has no code that runs; the law is in
//! `proofs/`, and the function here carries it in its clause.
#![tactic(auto)]

ghost use Rattle.gql_publish_views.specs.Laws.{ViewsStand};

/// Law: the view of a registry that stands for a valid document, with the URLs of its scalars, is the view of the document.
pub fn view_laws()
    ensures view_stands { ViewsStand }
{}
