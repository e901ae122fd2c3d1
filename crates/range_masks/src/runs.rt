// Postings of one id that stand one behind the other.
ghost use Rattle.std.specs.Prelude.{◌≡◌, ◌<◌, ◌+◌, ◌^◌, if◌then◌else◌};
ghost use Rattle.std.specs.List.Sorted.{IsNonDecreasingBy};
ghost use Rattle.range_masks.specs.Most.{IsMostOfOne};

use ri_base::Place;

/// How many of the postings, by rising id, have one id at most.
pub(crate) fn longest_run(postings: &[Place]) -> usize
    requires { IsNonDecreasingBy (λ p. p.id) postings.now }
    ensures { IsMostOfOne postings.now result }
{
    let mut id = 0;
    let mut run = 0;
    let mut most = 0usize;
    for place in postings {
        run = with_one(run, place.id == id);
        id = place.id;
        most = most.max(run);
    }
    most
}

/// How many there are of one id with one posting more, which is of the same id or else the first of the next.
fn with_one(run: usize, same: bool) -> usize
    requires { run + 1 < 2 ^ 64 }
    ensures { result ≡ if same then run + 1 else 1 }
{
    if same { run + 1 } else { 1 }
}
