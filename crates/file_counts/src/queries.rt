// Queries without priors.
ghost use Rattle.std.specs.Prelude.{All, IfSome};
ghost use Rattle.query_check.specs.Answers.{whole_checked};
ghost use Rattle.belief_nodes.specs.Leaves.{HasPrior};

use query_check::{Checked, check};
use query_reader::read_query;
use std::alloc::Global;
use without_priors::have_no_prior;

fn checked(alloc: Global, text: &str) -> Option<Checked> {
    let query = read_query(alloc, text).ok()?;
    check(alloc, query, &[]).ok()
}

/// The checked query of a text.
pub fn query(alloc: Global, text: &str) -> Option<Checked>
    ensures { IfSome result (λ checked. All (HasPrior 0) (whole_checked checked).leaves) }
{
    let checked = checked(alloc, text)?;
    if !have_no_prior(&checked.leaves) {
        return None;
    }
    Some(checked)
}
