// A short list of bytes.
ghost use Rattle.std.specs.Prelude.{◌≡◌, IfOk};
ghost use Rattle.std.proofs.Common.{rules};
ghost use Rattle.std.specs.Bool.{nat_eq};
ghost use Rattle.std.specs.Cmp.{partial_order_from_own_ties};
ghost use Rattle.std.specs.Cmp.Lexicographic.{pointwise, slice_cmp};
ghost use Rattle.std.specs.Cmp.Rules.{comparing, hashing};
ghost use Rattle.std.specs.Hash as fed;
ghost use Rattle.std.specs.Ordering.{as_partial_cmp, nat_cmp};

use crate::NoMemory;
use std::alloc::Global;
use std::cmp::Ordering;
use std::hash::{Hash, Hasher};
use std::marker::Model;

/// How many bytes are kept without an allocation, so that the whole takes 16. Few words of a text are longer.
const INLINE_BYTES: usize = 14;

/// How many there are and the places that they lie in, or bytes behind one pointer.
#[derive(Debug, Drop)]
enum Kept {
    Inline(u8, [u8; INLINE_BYTES]),
    Boxed(Box<Vec<u8>>),
}

/// Bytes that are few in most cases, compared as their list: byte by byte, and a front before what it is a front of.
#[derive(Debug, Drop)]
pub struct ShortBytes {
    kept: Kept,
}

impl Model for ShortBytes {
    ghost use Rattle.std.specs.Prelude.{ℕ, List};
    ghost use Rattle.ri_base.specs.ShortBytes.{kept_bytes, FitsInline};

    ghost Value = { List ℕ };

    ghost view = { λ b. kept_bytes b.kept };

    ghost invariant = { λ b. FitsInline b.kept };
}

impl ShortBytes {
    /// A copy of these bytes.
    pub fn copy_of(alloc: Global, bytes: &[u8]) -> Result<ShortBytes, NoMemory>
        ensures { IfOk result (λ b. b ≡ bytes.now) }
    {
        let kept = if bytes.len() > INLINE_BYTES {
            Kept::Boxed(Box::new(alloc, Vec::from_slice(alloc, bytes)?)?)
        } else {
            let mut places = [0; INLINE_BYTES];
            places[..bytes.len()].copy_from_slice(bytes);
            Kept::Inline(bytes.len() as u8, places)
        };
        Ok(ShortBytes { kept })
    }

    pub fn as_slice(&self) -> &[u8]
        ensures { result.now ≡ self.now }
    {
        match &self.kept {
            Kept::Inline(len, places) => &places[..usize::from(*len)],
            Kept::Boxed(bytes) => bytes.as_slice(),
        }
    }

    /// Equal bytes.
    pub fn clone_in(&self, alloc: Global) -> Result<ShortBytes, NoMemory>
        ensures { IfOk result (λ b. b ≡ self.now) }
    {
        ShortBytes::copy_of(alloc, self.as_slice())
    }
}

impl PartialEq for ShortBytes {
    ghost eq = { pointwise nat_eq };

    ghost laws = { Prim.search (comparing, rules) };

    fn eq(&self, other: &ShortBytes) -> bool {
        self.as_slice() == other.as_slice()
    }
}

impl Eq for ShortBytes {
    ghost laws = { Prim.search (comparing, rules) };
}

impl PartialOrd for ShortBytes {
    ghost partial_cmp = { as_partial_cmp (slice_cmp nat_cmp) };

    ghost laws = { partial_order_from_own_ties (Prim.search (comparing, rules)) (Prim.search (comparing, rules)) };

    fn partial_cmp(&self, other: &ShortBytes) -> Option<Ordering> {
        Some(self.cmp(other))
    }
}

impl Ord for ShortBytes {
    ghost cmp = { slice_cmp nat_cmp };

    ghost total = { Prim.search (comparing, rules) };

    ghost matches_partial_cmp = { Prim.search (comparing, rules) };

    ghost matches_eq = { Prim.search (comparing, rules) };

    fn cmp(&self, other: &ShortBytes) -> Ordering {
        self.as_slice().cmp(other.as_slice())
    }
}

impl Hash for ShortBytes {
    ghost hash_input = { fed.slice fed.u8 };

    ghost respects_eq = { Prim.search (hashing, rules) };

    fn hash<H: Hasher>(&self, state: &mut H) {
        self.as_slice().hash(state);
    }
}
