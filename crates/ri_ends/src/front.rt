// The front of a source.
ghost use Rattle.std.specs.Prelude.{◌≡◌, ◌+◌, ◌<◌, ◌∷◌, ℕ, List, [], Some, take, length, IfOk, OnOk, OnErr, MatchResult};
ghost use Rattle.std.specs.Io.{ReadsAtMost};
ghost use Rattle.std.specs.Io.KnownBytes.{prepend_known, IsAtEnd, ReadConsumes};
ghost use Rattle.std.specs.Option.{option_map};
ghost use Rattle.ri_ends.specs.Causes.{HasCause};
ghost use Rattle.ri_ends.specs.Front.{behind_front, missing_of, source_of};

use crate::{Failed, Source};

/// The first bytes of another source. What that one has behind them is the first of the layers, with the number of bytes
/// by which it falls short.
#[derive(Drop)]
pub struct Front<S: Source> {
    source: S,
    missing: u64,
}

impl<S: Source> Front<S> {
    /// The first `n` bytes of this source.
    pub fn new(source: S, n: u64) -> Self
        ensures left { ⟦<Front<S> as Source>⟧.left result ≡ option_map (take n) (S.left source) }
        ensures layers { ⟦<Front<S> as Source>⟧.layers result ≡ behind_front n (S.left source) (S.layers source) }
        ensures faults { ⟦<Front<S> as Source>⟧.faults result ≡ S.faults source }
        ensures can_give { ⟦<Front<S> as Source>⟧.can_give result ≡ S.can_give source }
        ensures reader { ⟦<Front<S> as Source>⟧.reader_left result ≡ option_map (take n) (S.reader_left source) }
        ensures held { ⟦<Front<S> as Source>⟧.held result ≡ S.held source }
        ensures source { source_of result ≡ source }
        ensures missing { missing_of result ≡ n }
    {
        Front { source, missing: n }
    }

    /// How many of its bytes weren't given yet, those among them that aren't there. Where nothing is left, so many aren't
    /// there.
    pub fn missing(&self) -> u64
        ensures exact { result ≡ missing_of self.now }
        ensures at_end { (rest : List ℕ) (n : ℕ) (others : List (List ℕ × ℕ)) → ⟦<Front<S> as Source>⟧.left self.now ≡ Some []
            → ⟦<Front<S> as Source>⟧.layers self.now ≡ Some ((rest, n) ∷ others) → result ≡ n }
    {
        self.missing
    }

    /// The other source, which has left what the front has and what stands behind it.
    pub fn into_source(self) -> S
        ensures source { result ≡ source_of self }
        ensures left { ⟦<Front<S> as Source>⟧.left self ≡ option_map (take (missing_of self)) (S.left result) }
        ensures layers { ⟦<Front<S> as Source>⟧.layers self ≡ behind_front (missing_of self) (S.left result) (S.layers result) }
    {
        self.source
    }
}

impl<S: Source> Source for Front<S> {
    ghost left = { λ s. option_map (take s.missing) (S.left s.source) };

    ghost layers = { λ s. behind_front s.missing (S.left s.source) (S.layers s.source) };

    ghost faults = { λ s. S.faults s.source };

    ghost held = { λ s. S.held s.source };

    ghost can_give = { λ s. S.can_give s.source };

    ghost reader_left = { λ s. option_map (take s.missing) (S.reader_left s.source) };

    ghost is_bounded = { λ s. S.is_bounded s.source };

    ghost use Rattle.ri_ends.specs.FrontLaws.{front_told};

    ghost told_together = { λ s. front_told s.missing (S.left s.source) (S.layers s.source) (S.told_together s.source) };

    fn read(&mut self, buf: &mut [u8]) -> Result<usize, Failed>
        ensures bound { ReadsAtMost result buf.new }
        ensures bytes { IfOk result (λ n. ⟦<Front<S> as Source>⟧.left self.old ≡ prepend_known (take n buf.new) (⟦<Front<S> as Source>⟧.left self.new)) }
        ensures end { IfOk result (λ n. n ≡ 0 → 0 < length buf.new → IsAtEnd (⟦<Front<S> as Source>⟧.left self.new)) }
        ensures failed { OnErr result (⟦<Front<S> as Source>⟧.left self.new ≡ ⟦<Front<S> as Source>⟧.left self.old) }
        ensures reader { ReadConsumes (⟦<Front<S> as Source>⟧.reader_left self.old) (⟦<Front<S> as Source>⟧.reader_left self.new) result buf.new }
        ensures layers { ⟦<Front<S> as Source>⟧.layers self.new ≡ ⟦<Front<S> as Source>⟧.layers self.old }
        ensures held { ⟦<Front<S> as Source>⟧.held self.new ≡ ⟦<Front<S> as Source>⟧.held self.old }
        ensures cause { HasCause (⟦<Front<S> as Source>⟧.faults self.old) (⟦<Front<S> as Source>⟧.faults self.new) result }
        ensures none { OnOk result (⟦<Front<S> as Source>⟧.faults self.new ≡ ⟦<Front<S> as Source>⟧.faults self.old) }
        ensures lowers { MatchResult result
            (λ n. ⟦<Front<S> as Source>⟧.can_give self.new + n ≡ ⟦<Front<S> as Source>⟧.can_give self.old)
            (λ _. ⟦<Front<S> as Source>⟧.can_give self.new ≡ ⟦<Front<S> as Source>⟧.can_give self.old) }

        // The bytes that are missing are fewer by those that were given.
        ensures gives { IfOk result (λ n. missing_of self.new + n ≡ missing_of self.old) }
        ensures gives_none { OnErr result (missing_of self.new ≡ missing_of self.old) }
    {
        if self.missing == 0 {
            return Ok(0);
        }
        let room = buf.len().min(self.missing as usize);
        let count = self.source.read(&mut buf[..room])?;
        self.missing -= count as u64;
        Ok(count)
    }
}
