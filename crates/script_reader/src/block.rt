// The documents of an `add`.
ghost use Rattle.std.specs.Prelude.{◌≡◌, ◌+◌, ◌-◌, ◌^◌, ◌<◌, ◌≤◌, ◌++◌, List, ℕ, IfOk, OnSome, is_err, length, take, drop, false};
ghost use Rattle.std.specs.Option.{option_map};
ghost use Rattle.std.specs.Io.KnownBytes.{prepend_known};
ghost use Rattle.read_ahead.specs.Ahead.{Moves, most_of};
ghost use Rattle.trec_reader.specs.Refusal.{Gives, ReadRose, StaysUnlessRead};

use ri_ends::{Front, Lent, Source};
use trec_reader::{DocReader, RawDoc, TrecRefusal};

/// The next document in what the reader has ahead and the next `missing` bytes of the source. `missing` falls by what is
/// taken of them.
#[tactic(auto, using(crate::proofs::BlockLemmas::same_behind))]
pub fn next_raw<S: Source>(
    documents: &mut DocReader,
    missing: &mut u64,
    source: &mut S,
) -> Result<Option<RawDoc>, TrecRefusal>
    requires fits { most_of documents.old.ahead (S.can_give source.old) < 2 ^ 64 }
    requires goes { documents.old.is_ended ≡ false }
    ensures read { Gives result documents.old.ahead.offset
        (prepend_known documents.old.ahead.bytes (option_map (take missing.old) (S.left source.old)))
        (prepend_known documents.new.ahead.bytes (option_map (take missing.new) (S.left source.new))) }
    ensures same_end { option_map (λ xs. documents.new.ahead.offset + length xs) (prepend_known documents.new.ahead.bytes (option_map (take missing.new) (S.left source.new)))
        ≡ option_map (λ xs. documents.old.ahead.offset + length xs) (prepend_known documents.old.ahead.bytes (option_map (take missing.old) (S.left source.old))) }
    ensures rest { option_map (drop missing.new) (S.left source.new) ≡ option_map (drop missing.old) (S.left source.old) }
    ensures short { option_map (λ xs. missing.new - length xs) (S.left source.new) ≡ option_map (λ xs. missing.old - length xs) (S.left source.old) }
    ensures most { most_of documents.new.ahead (S.can_give source.new) ≡ most_of documents.old.ahead (S.can_give source.old) }
    ensures lowers { S.can_give source.new ≤ S.can_give source.old }
    ensures moves { Moves S.layers S.held S.faults source.old source.new }
    ensures further { IfOk result (λ found. OnSome found (documents.old.ahead.offset < documents.new.ahead.offset)) }
    ensures ended { documents.new.is_ended ≡ is_err result }
    ensures failed { ReadRose result (S.faults source.old) (S.faults source.new) }
    ensures none { StaysUnlessRead result (S.faults source.old) (S.faults source.new) }
{
    let mut front = Front::new(Lent::new(source), *missing);
    let result = documents.next_doc(&mut front);
    *missing = front.missing();
    result
}
