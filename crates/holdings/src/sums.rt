// What parts hold together.
ghost use Rattle.std.specs.Prelude.{◌≡◌, ◌≤◌, ◌<◌, ◌^◌, IfOk, IfErr};
ghost use Rattle.disk_index.specs.Parts.{source_of};
ghost use Rattle.disk_index.specs.Snapshots.{documents_held};
ghost use Rattle.holdings.specs.MarkedParts.{tokens_held, tokens_in};
ghost use Rattle.holdings.specs.Placing.{IsPartsFault};

use crate::{Limits, PartsFault};
use disk_index::{MarkedPart, Part};

/// How many tokens the documents of a part have together.
fn tokens_of(part: &Part) -> u64
    ensures exact { result ≡ tokens_in (source_of part.now) }
    ensures most { result < 2 ^ 53 }
{
    let mut tokens = 0;
    for id in 0..part.docs() {
        tokens += u64::from(part.length(id));
    }
    tokens
}

/// How many documents and tokens the parts have together, where neither passes the limits.
pub fn held_sums(parts: &[MarkedPart], limits: Limits) -> Result<(u64, u64), PartsFault>
    ensures documents { IfOk result (λ sums. sums.0 ≡ documents_held parts.now) }
    ensures tokens { IfOk result (λ sums. sums.1 ≡ tokens_held parts.now) }
    ensures documents_fit { IfOk result (λ sums. sums.0 ≤ limits.held_docs) }
    ensures tokens_fit { IfOk result (λ sums. sums.1 ≤ limits.held_tokens) }
    ensures fault { IfErr result (IsPartsFault limits parts.now) }
{
    let mut documents = 0;
    let mut tokens = 0;
    let mut number = 0;
    for marked in parts {
        let part = marked.part();
        documents += u64::from(part.docs());
        if documents > limits.held_docs {
            return Err(PartsFault::TooManyDocs { part: number });
        }
        tokens += tokens_of(part);
        if tokens > limits.held_tokens {
            return Err(PartsFault::TooManyTokens { part: number });
        }
        number += 1;
    }
    Ok((documents, tokens))
}
