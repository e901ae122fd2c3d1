// Terms with numbers.
ghost use Rattle.std.proofs.Common.{rules};
ghost use Rattle.std.specs.Bool.{nat_eq};
ghost use Rattle.std.specs.Cmp.{partial_order_from_own_ties};
ghost use Rattle.std.specs.Cmp.Lexicographic.{pointwise, slice_cmp};
ghost use Rattle.std.specs.Cmp.Rules.{comparing};
ghost use Rattle.std.specs.Ordering.{as_partial_cmp, nat_cmp, on};

use ri_base::Term;
use std::cmp::Ordering;

/// A term with its number, which is compared by the term alone.
#[derive(Drop)]
pub struct Numbered {
    pub term: Term,
    pub number: u32,
}

impl PartialEq for Numbered {
    ghost eq = { on (λ s. s.term) (pointwise nat_eq) };

    ghost laws = { Prim.search (comparing, rules) };

    fn eq(&self, other: &Numbered) -> bool {
        self.term == other.term
    }
}

impl Eq for Numbered {
    ghost laws = { Prim.search (comparing, rules) };
}

impl PartialOrd for Numbered {
    ghost partial_cmp = { as_partial_cmp (on (λ s. s.term) (slice_cmp nat_cmp)) };

    ghost laws = { partial_order_from_own_ties (Prim.search (comparing, rules)) (Prim.search (comparing, rules)) };

    fn partial_cmp(&self, other: &Numbered) -> Option<Ordering> {
        Some(self.cmp(other))
    }
}

impl Ord for Numbered {
    ghost cmp = { on (λ s. s.term) (slice_cmp nat_cmp) };

    ghost total = { Prim.search (comparing, rules) };

    ghost matches_partial_cmp = { Prim.search (comparing, rules) };

    ghost matches_eq = { Prim.search (comparing, rules) };

    fn cmp(&self, other: &Numbered) -> Ordering {
        self.term.cmp(&other.term)
    }
}
