// Places in parts.

use range_masks::has_id;

/// What is known of the documents of a part before an id. Where the mask of their range is read, those may have candidates whose bit
/// is set, by their place in the range. Where a bound was asked for, the keys of their candidates at the first level aren't below it.
#[derive(Clone, Copy, Debug)]
pub struct Ahead {
    pub end: u32,
    pub mask: Option<u64>,
    pub bound: Option<u128>,
}

/// How far a part was gone over: the next id, how many live documents were passed, and what is known of those that come next.
#[derive(Clone, Copy, Debug)]
pub struct Passed {
    pub id: u32,
    pub docs: u64,
    pub ahead: Ahead,
}

/// How far the parts of a snapshot were gone over: the next part and the next id of it, how many live documents stand before, and
/// what is known of those that come next in this part.
#[derive(Clone, Copy, Debug)]
pub struct Place {
    pub part: usize,
    pub id: u32,
    pub credit: u64,
    pub ahead: Ahead,
}

impl Ahead {
    ghost use Rattle.std.specs.Prelude.{◌≡◌, cond};
    ghost use Rattle.ranker.specs.Passed.{bit_of, is_clear, nothing_known};

    /// Nothing is known.
    pub fn nothing() -> Ahead
        ensures { result ≡ nothing_known }
    {
        Ahead {
            end: 0,
            mask: None,
            bound: None,
        }
    }

    /// Whether it is known that no document has candidates.
    pub fn is_clear(self) -> bool
        ensures { result ≡ is_clear self.mask }
    {
        match self.mask {
            Some(mask) => mask == 0,
            None => false,
        }
    }

    /// Whether the document of an id may have candidates.
    pub fn may_have(self, id: u32) -> bool
        ensures { cond result 1 0 ≡ bit_of self.mask id }
    {
        match self.mask {
            Some(mask) => has_id(mask, id),
            None => true,
        }
    }
}
