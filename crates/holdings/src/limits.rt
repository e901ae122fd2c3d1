// How much is held.
ghost use Rattle.std.specs.Prelude.{◌≡◌, ◌≤◌};
ghost use Rattle.disk_index.specs.declared.limits.TheConstants.{MAX_HELD_DOCS};
ghost use Rattle.ri_base.specs.declared.limits.TheConstants.{MAX_HELD_TOKENS, MAX_PART_DOCS};

use disk_index::limits::MAX_HELD_DOCS;
use ri_base::limits::{MAX_HELD_TOKENS, MAX_PART_DOCS};

/// How many documents a part has at most, and how many documents and tokens are held at most, the deleted ones included
/// until they are left out of the parts.
#[derive(Clone, Copy, Debug)]
pub struct Limits {
    pub part_docs: u32,
    pub held_docs: u64,
    pub held_tokens: u64,
    pub ghost some: { 1 ≤ part_docs },
    pub ghost part_fits: { part_docs ≤ MAX_PART_DOCS },
    pub ghost docs_fit: { held_docs ≤ MAX_HELD_DOCS },
    pub ghost tokens_fit: { held_tokens ≤ MAX_HELD_TOKENS },
}

impl Limits {
    /// The limits of every repository. Smaller ones serve tests.
    pub fn real() -> Limits
        ensures part_docs { result.part_docs ≡ MAX_PART_DOCS }
        ensures held_docs { result.held_docs ≡ MAX_HELD_DOCS }
        ensures held_tokens { result.held_tokens ≡ MAX_HELD_TOKENS }
    {
        Limits {
            part_docs: MAX_PART_DOCS as u32,
            held_docs: u64::from(MAX_HELD_DOCS),
            held_tokens: MAX_HELD_TOKENS,
        }
    }
}
