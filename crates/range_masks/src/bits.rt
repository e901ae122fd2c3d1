// The bits of a mask.
ghost use Rattle.std.specs.Prelude.{◌≡◌, ◌<◌, ◌%◌, ◌==◌, ◌||◌, Bool, ℕ, cond};
ghost use Rattle.std.specs.Int.{bit_at};

/// Whether the mask of a range has the document with this id, which is of the range.
pub fn has_id(mask: u64, id: u32) -> bool
    ensures { cond result 1 0 ≡ bit_at mask (id % 64) }
{
    mask >> (id % 64) & 1 == 1
}

/// The mask with the document with this id too, by its place in its range.
pub(crate) fn with_id(mask: u64, id: u32) -> u64
    ensures { (i : ℕ) (b : Bool) → i < 64 → bit_at mask i ≡ cond b 1 0 → bit_at result i ≡ cond (b || (id % 64 == i)) 1 0 }
{
    mask | 1 << (id % 64)
}
