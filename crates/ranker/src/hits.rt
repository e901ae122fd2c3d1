// Hits.
ghost use Rattle.std.specs.Prelude.{◌≡◌, ◌+◌, ◌++◌, MatchOption, map, option_to_list, IfOk};
ghost use Rattle.std.specs.Vec.{vec_len};
ghost use Rattle.ranker.specs.First.{settled_candidate};
ghost use Rattle.ranker.specs.Ranking.{candidate_of};

use crate::window::Window;
use bounded_keys::{Settled, fractions_of};
use ri_base::{Hit, Hits, NoMemory};
use std::alloc::Global;

/// The hit of a candidate with all digits.
fn hit_of(alloc: Global, settled: Settled<Window>) -> Result<Hit, NoMemory>
    ensures candidate { IfOk result (λ hit. candidate_of hit ≡ settled_candidate settled) }
    ensures key { IfOk result (λ hit. hit.key ≡ settled.key) }
{
    let Settled {
        key,
        window,
        leaves,
    } = settled;
    let Window { docno, begin, end } = window;
    Ok(Hit {
        docno,
        begin,
        end,
        key,
        fractions: fractions_of(alloc, &leaves)?,
    })
}

/// Takes the last item out, and gives room back where more than an eighth of it is empty. So a list takes little room once most of its
/// items have gone over into another one.
fn take_last<T>(items: &mut Vec<T>) -> Option<T>
    ensures items { items.old.items ≡ items.new.items ++ option_to_list result }
    ensures cases { MatchOption result (vec_len items.old ≡ 0) (λ _. vec_len items.new + 1 ≡ vec_len items.old) }
{
    let last = items.pop();
    let room = items.capacity();
    if items.len() < room - room / 8 {
        items.shrink_to_fit();
    }
    last
}

/// The hits of candidates with all digits.
pub fn hits_of(alloc: Global, mut first: Vec<Settled<Window>>) -> Result<Hits, NoMemory>
    ensures candidates { IfOk result (λ hits. map candidate_of hits ≡ map settled_candidate first.items) }
    ensures keys { IfOk result (λ hits. map (λ hit. hit.key) hits ≡ map (λ x. x.key) first.items) }
{
    let mut hits = Vec::with_capacity(alloc, first.len())?;
    first.reverse();
    while let Some(settled) = take_last(&mut first) {
        hits.push(hit_of(alloc, settled)?)?;
    }
    Ok(Hits::of(hits))
}
