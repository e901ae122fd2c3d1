// The priors of a run.
ghost use Rattle.std.specs.Prelude.{◌≡◌, IfOk};
ghost use Rattle.desk.specs.Priors.{length_prior};

use belief_nodes::{BeliefNode, LengthPlug};
use ri_base::{Fraction, NoMemory};
use std::alloc::Global;

/// The prior that `#prior(length)` names: 1/4 of a document of fewer than 100 tokens, 1/2 of one of fewer than 1,000, and
/// else 1.
pub fn length_plug(alloc: Global) -> Result<LengthPlug, NoMemory>
    ensures { IfOk result (λ plug. ⟦<LengthPlug as BeliefNode>⟧.meaning plug ≡ length_prior) }
{
    let steps = vec![in alloc;
        (100, Fraction { p: 1, q: 2 }),
        (1000, Fraction { p: 1, q: 1 }),
    ]?;
    Ok(LengthPlug::new(steps, Fraction { p: 1, q: 4 }))
}
