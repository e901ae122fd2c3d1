// Places among extents in order.
ghost use Rattle.std.specs.Prelude.{◌≡◌, ◌+◌};
ghost use Rattle.extent_walks.specs.Next.{is_from};

use ri_base::Extent;

/// A place among extents. Those from it on begin behind `begin`, or they begin there and end at `end` or behind.
#[derive(Clone, Copy)]
pub struct Place {
    pub begin: u32,
    pub end: u64,
}

impl Place {
    /// The place of the first that begins there.
    pub fn at(begin: u32) -> Place
        ensures { result ≡ record { begin = begin; end = 0 } }
    {
        Place { begin, end: 0 }
    }

    /// The place behind an extent.
    pub fn behind(x: Extent) -> Place
        ensures { result ≡ record { begin = x.begin; end = x.end + 1 } }
    {
        Place {
            begin: x.begin(),
            end: u64::from(x.end()) + 1,
        }
    }

    /// Whether the extent from `begin` to `end` stands at this place or behind.
    pub fn is_before(self, begin: u32, end: u32) -> bool
        ensures { result ≡ is_from self.begin self.end begin end }
    {
        self.begin < begin || (self.begin == begin && self.end <= u64::from(end))
    }
}
