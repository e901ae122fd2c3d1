// The fields that lie in no other field, and what lies in one of them.
ghost use Rattle.std.specs.Prelude.{◌≡◌, ◌↔◌, ℕ, IfOk, IsTrue};
ghost use Rattle.extent_lists.specs.Plans.{LiesInSome};
ghost use Rattle.extent_lists.specs.Rows.{IsAscending};

use ri_base::{Extent, NoMemory};
use std::alloc::Global;
use std::marker::Model;

/// Extents in order, each of which ends behind the one before, seen as their list.
#[derive(Drop)]
pub struct Outermost {
    items: Vec<Extent>,
}

impl Model for Outermost {
    ghost use Rattle.std.specs.Prelude.{List};
    ghost use Rattle.ri_base.specs.Pair.{Pair};
    ghost use Rattle.extent_lists.specs.Rows.{IsAscending};
    ghost use Rattle.extent_walks.specs.Next.{EndsRise};

    ghost Value = { List Pair };

    ghost view = { λ x. x.items.items };

    ghost invariant = { λ x. IsAscending x.items.items × EndsRise x.items.items };
}

impl Outermost {
    /// Those of the extents that end behind all before.
    pub fn of(alloc: Global, xs: &[Extent]) -> Result<Outermost, NoMemory>
        requires { IsAscending xs.now }
        ensures { IfOk result (λ all. (b : ℕ) → (e : ℕ) → LiesInSome all b e ↔ LiesInSome xs.now b e) }
    {
        let mut items = Vec::new(alloc);
        let mut reach = 0;
        for x in xs {
            if x.end() > reach {
                reach = x.end();
                items.push(*x)?;
            }
        }
        Ok(Outermost { items })
    }

    /// Whether the extent lies in one of these.
    pub fn holds(&self, x: Extent) -> bool
        ensures { IsTrue result ↔ LiesInSome self.now x.begin x.end }
    {
        let count = self.items.partition_point(|y| y.begin() <= x.begin());
        count > 0 && x.end() <= self.items[count - 1].end()
    }
}
