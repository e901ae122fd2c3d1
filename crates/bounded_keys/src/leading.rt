// Items with a number that leads their key.
ghost use Rattle.std.specs.Prelude.{◌≡◌, ℕ, Bool, true};
ghost use Rattle.std.specs.Ordering.{nat_cmp};
ghost use Rattle.std.specs.declared.cmp.Ordering.TheVariants.{Less};

use std::cmp::Ordering;

/// An item whose key is known at a first level, by a number that leads it. Items are in the order of these numbers. Of some items it is
/// known already that one stands before the other by their keys, whatever their further digits are, since these are the same.
pub trait Leading: Ord {
    ghost number: { Self → ℕ };

    ghost before: { Self → Self → Bool };

    /// The number that leads the key.
    fn leading(&self) -> u128
        ensures { result ≡ number self.now };

    /// Whether it stands before another whatever their further digits are.
    fn is_before(&self, other: &Self) -> bool
        ensures { result ≡ before self.now other.now };

    /// An order in which those stand together of which one stands so before another.
    fn in_runs(&self, other: &Self) -> Ordering
        ensures { before self.now other.now ≡ true → result ≡ Less };

    // laws
    ghost by_number: { (a b : Self) → Self.cmp a b ≡ nat_cmp (number a) (number b) };

    ghost follow: { (a b c : Self) → before a b ≡ true → before b c ≡ true → before a c ≡ true };
}
