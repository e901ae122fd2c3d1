//! What the definition of the scale rests on.
ghost use Rattle.std.specs.Prelude.{ℕ, ◌<◌, List};
ghost use Rattle.std.specs.Int.{◌∣◌};
ghost use Rattle.std.specs.List.{All};
ghost use Rattle.query_check.specs.Multiples.{lcm, common_divisor};

/// The least common multiple is a multiple of both numbers and divides each common multiple.
pub fn common_multiple_is_least()
    ensures left { (a b : ℕ) → a ∣ lcm a b }
    ensures right { (a b : ℕ) → b ∣ lcm a b }
    ensures least { (a b c : ℕ) → 0 < b → a ∣ c → b ∣ c → lcm a b ∣ c }
{}

/// The greatest common divisor of weights divides each, and each common divisor divides it.
pub fn common_divisor_is_greatest()
    ensures divides { (weights : List ℕ) → All (λ w. common_divisor weights ∣ w) weights }
    ensures greatest { (weights : List ℕ) (d : ℕ) → All (λ w. d ∣ w) weights → d ∣ common_divisor weights }
{}
