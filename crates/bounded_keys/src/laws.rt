//! What bounds of keys tell. A law is a function that does nothing: a caller calls it, and its proof then knows the clauses.
ghost use Rattle.std.specs.Prelude.{◌≡◌, ◌++◌, ℕ, List, map, nat_lt};
ghost use Rattle.std.specs.List.{All};
ghost use Rattle.std.specs.List.Sorted.{IsPermutation};
ghost use Rattle.first_few.specs.First.{AreFirst};
ghost use Rattle.bounded_keys.specs.Bounds.{Bounded, Encloses, IsBeaten, IsKthLeast, by_key, contenders, is_beaten};
ghost use Rattle.bounded_keys.specs.Kept.{IsKept, Kept};

use crate::Leading;

/// An entry whose lower bound is greater than the k-th least upper bound isn't among the first k, and the first k of the others are
/// those of all.
pub fn keys_of_first()
    ensures kth { (k : ℕ) (xs : List Bounded) (n v : ℕ) → IsKthLeast k (map (λ x. x.up) xs) v → is_beaten (λ (x : Bounded). x.up) k xs n ≡ nat_lt v n }
    ensures not_first { (k : ℕ) (all shown : List Bounded) → Encloses all → AreFirst by_key k all shown → All (λ x. IsBeaten k all x → ⊥) shown }
    ensures same { (k : ℕ) (all taken passed shown : List Bounded) → Encloses all → IsPermutation all (taken ++ passed) → All (IsBeaten k all) passed
        → AreFirst by_key k taken shown → AreFirst by_key k all shown }
    ensures rest { (k : ℕ) (all shown : List Bounded) → Encloses all → AreFirst by_key k (contenders (λ (x : Bounded). x.lo) (λ x. x.up) k all) shown
        → AreFirst by_key k all shown }
{}

/// What was offered may be told in any order.
pub fn offered_in_any_order<T: Leading>()
    ensures { (all other : List T) (kept : Kept T) → IsPermutation all other → IsKept T.cmp T.number T.before all kept → IsKept T.cmp T.number T.before other kept }
{}
