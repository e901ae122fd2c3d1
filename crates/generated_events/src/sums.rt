// How much stays of a generated collection.
ghost use Rattle.std.specs.Prelude.{◌≡◌, ◌≤◌};
ghost use Rattle.generated_events.specs.Documents.{live_count, live_tokens};
ghost use Rattle.generated_events.specs.declared.generator.TheConstants.{MAX_GENERATED};

use crate::documents::is_deleted;

/// How many of so many documents stay.
#[tactic(auto, using(crate::proofs::SumLemmas::live_more, crate::proofs::SumLemmas::live_same))]
pub fn live_count(count: u32) -> u64
    requires { count ≤ MAX_GENERATED }
    ensures exact { result ≡ live_count count }
    ensures few { result ≤ count }
{
    let mut live = 0;
    for number in 0..count {
        if !is_deleted(number) {
            live += 1;
        }
    }
    live
}

/// How many words these have.
#[tactic(auto, using(crate::proofs::SumLemmas::tokens_more, crate::proofs::SumLemmas::tokens_same))]
pub fn live_tokens(count: u32) -> u64
    requires { count ≤ MAX_GENERATED }
    ensures { result ≡ live_tokens count }
{
    let mut tokens = 0;
    for number in 0..count {
        if !is_deleted(number) {
            tokens += u64::from(2 + number % 3);
        }
    }
    tokens
}
