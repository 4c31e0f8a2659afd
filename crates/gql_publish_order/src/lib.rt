//! The text of the view of a valid document is itself a valid document with the same view, and it tells this view. This
//! crate has no code that runs; the laws are in `proofs/`, and the function here carries them in its clauses.
#![tactic(auto)]

ghost use Rattle.gql_publish_order.specs.Laws.{AreReadBack, TellViews};

use gql_check_rules::order_laws;

/// Law: the canonical text of a valid document is a valid document with the same view, and each valid document has this
/// text exactly where it has this view.
pub fn canonical_laws()
    ensures read_back { AreReadBack }
    ensures one_view { TellViews }
{
    order_laws();
}
