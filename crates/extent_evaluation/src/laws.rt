//! What the lists of extents keep. A law is a function that does nothing: a caller calls it, and its proof then knows the
//! clauses.
ghost use Rattle.std.specs.Prelude.{◌≡◌, List};
ghost use Rattle.ri_base.specs.Documents.{Document};
ghost use Rattle.ri_base.specs.Expression.{ExprTree};
ghost use Rattle.ri_base.specs.Pair.{Pair};
ghost use Rattle.extent_lists.specs.Extents.{Ext};
ghost use Rattle.extent_lists.specs.Listing.{IsListing};
ghost use Rattle.extent_evaluation.specs.Listed.{extent_list};

/// For each expression and document there is a list that has just the extents, each once, by begin and then end, and
/// there is no other such list.
pub fn extents_have_one_list()
    ensures listing { (x : ExprTree) (d : Document) → IsListing (Ext x d) (extent_list x d) }
    ensures only_one { (x : ExprTree) (d : Document) (xs : List Pair) → IsListing (Ext x d) xs → xs ≡ extent_list x d }
{}
