// What is counted of the documents of a range.
ghost use Rattle.std.specs.Prelude.{◌≤◌};
ghost use Rattle.ri_base.specs.declared.limits.TheConstants.{MAX_DOC_TOKENS};

/// The tokens of the shortest document, how many places each term has at most in one document, and at how many tokens fields
/// of each name begin at most in one document.
#[derive(Drop)]
pub struct RangeCounts {
    pub(crate) least: u32,
    pub(crate) places: Vec<u32>,
    pub(crate) begins: Vec<u32>,
    ghost short: { least ≤ MAX_DOC_TOKENS },
}

impl RangeCounts {
    ghost use Rattle.std.specs.Prelude.{◌≡◌};

    /// The counts of a range: the least length, and the most places and begins in the order of a table's terms and names.
    pub fn new(least: u32, places: Vec<u32>, begins: Vec<u32>) -> RangeCounts
        requires { least ≤ MAX_DOC_TOKENS }
        ensures least { result.least ≡ least }
        ensures places { result.places ≡ places }
        ensures begins { result.begins ≡ begins }
    {
        RangeCounts {
            least,
            places,
            begins,
        }
    }
}
