// What is known of the extents of a walk before they are found.
ghost use Rattle.std.specs.Prelude.{◌≡◌};
ghost use Rattle.extent_walks.specs.Shapes.{has_one_end, is_monotone, of_union, of_windows, shape_before, weaker};

use ri_base::Extent;

/// How the ends of a set of extents go where their begins rise. Each of these says more than the next one.
#[derive(Clone, Copy)]
pub enum Shape {
    /// Each extent has one token.
    OneToken,
    /// An extent that begins no earlier than another ends no earlier.
    Monotone,
    /// Extents of one begin have one end.
    OneEnd,
    /// Nothing is known.
    Any,
}

impl Shape {
    /// Whether an extent that begins no earlier than another ends no earlier.
    pub fn is_monotone(self) -> bool
        ensures { result ≡ is_monotone self }
    {
        matches!(self, Shape::OneToken | Shape::Monotone)
    }

    /// Whether extents of one begin have one end.
    pub fn has_one_end(self) -> bool
        ensures { result ≡ has_one_end self }
    {
        matches!(self, Shape::OneToken | Shape::Monotone | Shape::OneEnd)
    }

    /// What is known of both, where this is known of one and `other` of the other.
    pub fn weaker(self, other: Shape) -> Shape
        ensures { result ≡ weaker self other }
    {
        match (self, other) {
            (Shape::Any, _) | (_, Shape::Any) => Shape::Any,
            (Shape::OneEnd, _) | (_, Shape::OneEnd) => Shape::OneEnd,
            (Shape::Monotone, _) | (_, Shape::Monotone) => Shape::Monotone,
            (Shape::OneToken, Shape::OneToken) => Shape::OneToken,
        }
    }

    /// What is known of windows, where this is known of their arguments.
    pub fn of_windows(self) -> Shape
        ensures { result ≡ of_windows self }
    {
        match self {
            Shape::OneToken | Shape::Monotone => Shape::Monotone,
            Shape::OneEnd | Shape::Any => Shape::OneEnd,
        }
    }

    /// What is known of the extents of any argument, where this is known of each.
    pub fn of_union(self) -> Shape
        ensures { result ≡ of_union self }
    {
        match self {
            Shape::OneToken => Shape::OneToken,
            Shape::Monotone | Shape::OneEnd | Shape::Any => Shape::Any,
        }
    }

    /// What an extent and the next one of a list tell of the list.
    pub fn before(x: Extent, next: Option<Extent>) -> Shape
        ensures { result ≡ shape_before x next }
    {
        if let Some(y) = next {
            if y.begin() <= x.begin() {
                return Shape::Any;
            }
            if y.end() < x.end() {
                return Shape::OneEnd;
            }
        }
        if x.end() - x.begin() == 1 {
            Shape::OneToken
        } else {
            Shape::Monotone
        }
    }
}
