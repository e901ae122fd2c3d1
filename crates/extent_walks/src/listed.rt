// Lists of extents in which the next one is looked up.
ghost use Rattle.std.specs.Prelude.{◌≡◌, ◌<◌};
ghost use Rattle.extent_walks.specs.Next.{IsNext};
ghost use Rattle.extent_lists.specs.Rows.{Has, IsAscending};
ghost use Rattle.extent_walks.specs.Shapes.{list_shape};

use crate::place::Place;
use crate::shape::Shape;
use ri_base::Extent;
use std::marker::Model;

/// Extents in order, seen as their list.
#[derive(Drop)]
pub struct Listed {
    items: Vec<Extent>,
}

impl Model for Listed {
    ghost use Rattle.std.specs.Prelude.{List};
    ghost use Rattle.ri_base.specs.Pair.{Pair};
    ghost use Rattle.extent_lists.specs.Rows.{IsAscending};

    ghost Value = { List Pair };

    ghost view = { λ x. x.items.items };

    ghost invariant = { λ x. IsAscending x.items.items };
}

impl Listed {
    pub fn new(items: Vec<Extent>) -> Listed
        requires { IsAscending items.items }
        ensures { result ≡ items.items }
    {
        Listed { items }
    }

    /// What is known of them, by one pass over the list.
    pub fn shape(&self) -> Shape
        ensures { result ≡ list_shape self.now }
    {
        let mut shape = Shape::OneToken;
        let mut next = None;
        let mut i = self.items.len();
        while i > 0 {
            i -= 1;
            let x = self.items[i];
            shape = Shape::before(x, next).weaker(shape);
            next = Some(x);
        }
        shape
    }

    /// The first extent from this place on.
    pub fn next(&self, from: Place) -> Option<Extent>
        ensures { IsNext (λ b e. Has self.now b e × (b < e)) from.begin from.end result }
    {
        let count = self
            .items
            .partition_point(|x| !from.is_before(x.begin(), x.end()));
        if count == self.items.len() {
            return None;
        }
        let x = self.items[count];
        let _begin = x.begin();
        Some(x)
    }
}
