// The beliefs of worked examples.
ghost use Rattle.std.specs.Prelude.{◌≡◌};
ghost use Rattle.ri_base.specs.Ratio.{ratio_of};
ghost use Rattle.smoothing.specs.Counts.{AreCounts};
ghost use Rattle.smoothing.specs.Fractions.{dirichlet};

use ri_base::Fraction;
use smoothing::{MAX_MU, Rule, RuleKind, dirichlet_fraction};

/// What is counted of a leaf, and its belief: `mu`, `tf`, `len`, `cf`, `total`, and the fraction's two numbers.
type Case = (u32, u32, u32, u64, u64, u64, u64);

static CASES: [Case; 21] = [
    // "a b" and "a": the word a in each, and z, which neither has
    (1, 1, 1, 2, 3, 10, 12),
    (1, 1, 2, 2, 3, 10, 18),
    (1, 0, 1, 0, 3, 1, 12),
    (1, 0, 2, 0, 3, 1, 18),
    // "a b" and "a b", "a b" and "a c", "a b c", "a" and "a"
    (1, 1, 2, 2, 4, 12, 24),
    (1, 1, 2, 1, 4, 10, 24),
    (1, 0, 2, 1, 4, 2, 24),
    (1, 1, 3, 1, 3, 8, 24),
    (1, 1, 1, 2, 2, 8, 8),
    // "a a b" and "a b b"
    (1, 2, 3, 3, 6, 30, 48),
    (1, 1, 3, 3, 6, 18, 48),
    // "c" alone: a and c
    (1, 0, 1, 0, 1, 1, 4),
    (1, 1, 1, 1, 1, 4, 4),
    // the last passages of "a c a c a" beside "a b"
    (1, 1, 1, 4, 7, 22, 28),
    (1, 2, 3, 4, 7, 36, 56),
    (1, 2, 4, 4, 7, 36, 70),
    // a field that no document has
    (1, 0, 0, 0, 0, 1, 2),
    // a document of 20 words whose head has 3
    (2500, 3, 20, 3, 20, 15_120, 100_800),
    (2500, 1, 3, 1, 3, 5006, 15_018),
    // the ends of the range
    (
        1_000_000,
        1_048_576,
        1_048_576,
        536_870_912,
        536_870_912,
        2_199_641_730_842_624,
        2_199_641_730_842_624,
    ),
    (
        1_000_000,
        0,
        1_048_576,
        0,
        536_870_912,
        1_000_000,
        2_199_641_730_842_624,
    ),
];

/// Whether a belief is as it was worked out.
fn is_right(case: &Case) -> bool {
    let (mu, tf, len, cf, total, p, q) = *case;
    if mu < 1 || mu > MAX_MU || tf > len || len > 1 << 20 || cf > total || total > 1 << 29 {
        return false;
    }
    let belief = dirichlet_fraction(mu, tf, len, cf, total);
    belief.p == p && belief.q == q
}

#[test]
fn beliefs(rt: HostRuntime) {
    assert_eq!(rt; CASES.iter().position(|case| !is_right(case)), None);
}

#[test]
fn a_rule_over_a_closure(rt: HostRuntime) {
    let rule = Rule::new(
        RuleKind::Dirichlet { mu: 1 },
        |tf, len, cf, total| -> Fraction
            requires { AreCounts tf len cf total }
            ensures { ratio_of result ≡ dirichlet 1 tf len cf total }
        { dirichlet_fraction(1, tf, len, cf, total) },
    );
    let belief = rule.belief(1, 2, 2, 3);
    assert_eq!(rt; (belief.p, belief.q), (10, 18));
}
