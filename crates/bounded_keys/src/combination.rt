// How a key comes of the digits of leaves.
ghost use Rattle.std.specs.Prelude.{◌≡◌, ◌<◌, ◌≤◌, ◌+◌, ◌*◌, ◌^◌, ℕ, All, List, length};
ghost use Rattle.ri_base.specs.Ratio.{Ratio};
ghost use Rattle.bounded_keys.specs.Digits.{digits_at};

/// A combination of so many leaves, which makes one key of their digits. Its key at one level tells between which bounds the key at each
/// further level lies: its scale is how far these are apart.
pub trait Combination {
    ghost leaves: { Self → ℕ };

    ghost scale: { Self → ℕ };

    ghost key_of: { Self → List ℕ → ℕ };

    /// The key of the digits of the leaves, in their order.
    fn key(&self, digits: &[u128]) -> u128
        requires each { length digits.now ≡ leaves self.now }
        requires small { All (λ c. c < 2 ^ 66) digits.now }
        ensures { result ≡ key_of self.now digits.now };

    // laws
    ghost least: { (c : Self) (beliefs : List Ratio) (k s : ℕ) → key_of c (digits_at k beliefs) * 2 ^ s ≤ key_of c (digits_at (k + s) beliefs) };

    ghost most: { (c : Self) (beliefs : List Ratio) (k s : ℕ) → key_of c (digits_at (k + s) beliefs) + scale c ≤ (key_of c (digits_at k beliefs) + scale c) * 2 ^ s };
}
