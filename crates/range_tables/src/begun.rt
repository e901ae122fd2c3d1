// At how many tokens of a document fields of a name begin.
ghost use Rattle.std.specs.Prelude.{◌≤◌};

/// How many of the begins so far differ, and the token behind the last of them.
#[derive(Clone, Copy, Debug)]
pub(crate) struct Begun {
    pub count: u64,
    pub next: u64,
    ghost few: { count ≤ next },
}

impl Begun {
    ghost use Rattle.std.specs.Prelude.{◌∷◌, ◌++◌, [], ℕ, List};
    ghost use Rattle.range_tables.specs.Begins.{IsCounted, IsNoEarlier};

    /// No field begins yet.
    pub fn new() -> Begun
        ensures { IsCounted [] result }
    {
        Begun { count: 0, next: 0 }
    }

    /// With one field more, which begins no earlier than those so far.
    pub fn with(self, begin: u32) -> Begun
        ensures { (begins : List ℕ) → IsNoEarlier begins begin → IsCounted begins self → IsCounted (begins ++ begin ∷ []) result }
    {
        let begin = u64::from(begin);
        if begin < self.next {
            return self;
        }
        Begun {
            count: self.count + 1,
            next: begin + 1,
        }
    }
}
