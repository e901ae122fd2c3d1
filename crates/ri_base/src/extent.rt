// Extents of a document, and lists of them.
ghost use Rattle.std.specs.Prelude.{◌≡◌, ◌<◌};

use crate::List;
use std::marker::Model;

/// The tokens of a document from `begin` on up to `end`, the token at `end` not among them. It has at least one.
#[derive(Clone, Copy, Debug, PartialEq, Eq)]
pub struct Extent {
    begin: u32,
    end: u32,
}

impl Model for Extent {
    ghost use Rattle.std.specs.Prelude.{◌<◌};
    ghost use Rattle.ri_base.specs.Pair.{Pair};

    ghost Value = { Pair };

    ghost view = { λ x. record { begin = x.begin; end = x.end } };

    ghost invariant = { λ x. x.begin < x.end };

    ghost inverse = { λ p. record { begin = p.begin; end = p.end } };
}

impl Extent {
    /// The extent of the tokens from `begin` on up to `end`.
    pub fn new(begin: u32, end: u32) -> Extent
        requires { begin < end }
        ensures { result ≡ record { begin = begin; end = end } }
    {
        Extent { begin, end }
    }

    pub fn begin(self) -> u32
        ensures begin { result ≡ self.begin }
        ensures some { result < self.end }
    {
        self.begin
    }

    pub fn end(self) -> u32
        ensures end { result ≡ self.end }
        ensures some { self.begin < result }
    {
        self.end
    }
}

/// Extents, seen as their list.
pub type Extents = List<Extent>;
