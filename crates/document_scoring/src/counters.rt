// What is counted of the leaves of a query in windows one behind the other.
ghost use Rattle.std.specs.Prelude.{◌≡◌, ◌≤◌, map, All, AllPairs, IfOk};
ghost use Rattle.ri_base.specs.Documents.{IsBefore};
ghost use Rattle.ri_base.specs.Pair.{Pair};
ghost use Rattle.ri_base.specs.declared.limits.TheConstants.{MAX_DOC_TOKENS};
ghost use Rattle.extent_lists.specs.Pairs.{pair};
ghost use Rattle.belief_nodes.specs.Leaves.{IsLeafCount};
ghost use Rattle.document_scoring.specs.Counters.{IsBegunInside, IsFound, IsReady, counter_count, found_count, inside_count};

use crate::found::LeafExtents;
use belief_nodes::LeafCount;
use field_extents::{WindowBegins, WindowCover};
use ri_base::{Extent, FieldSpan, NoMemory};
use std::alloc::Global;

/// What is counted of a leaf in windows one behind the other.
#[derive(Drop)]
pub enum Counter<'a> {
    /// Extents, and all tokens.
    Plain(WindowBegins<'a>),
    /// Extents that lie in fields of a name, and the tokens that these fields cover.
    Inside(InsideCounter<'a>),
    /// Nothing, of a prior.
    Prior,
}

/// Extents that lie in fields of a name, and the fields of their document.
#[derive(Drop)]
pub struct InsideCounter<'a> {
    begins: WindowBegins<'a>,
    cover: WindowCover<'a>,
}

impl<'a> InsideCounter<'a> {
    /// The counts in a window. No window may begin before one that was asked for earlier.
    fn count(&mut self, window: Extent) -> LeafCount
        requires { IsBegunInside window.begin self.old.begins self.old.cover }
        ensures exact { result ≡ inside_count window self.old.begins self.old.cover }
        ensures same { (w : Pair) → inside_count w self.new.begins self.new.cover ≡ inside_count w self.old.begins self.old.cover }
        ensures ready { IsBegunInside window.begin self.new.begins self.new.cover }
    {
        LeafCount {
            tf: self.begins.count(window),
            len: self.cover.count(window),
        }
    }
}

impl<'a> Counter<'a> {
    /// Before the first window of a document with these fields.
    pub fn new(found: &'a LeafExtents<'_>, spans: &'a [FieldSpan]) -> Counter<'a>
        requires fields { AllPairs IsBefore spans.now }
        requires found { IsFound spans.now found.now }
        ensures exact { (w : Pair) → counter_count w result ≡ found_count spans.now w found.now }
        ensures ready { IsReady 0 result }
    {
        match found {
            LeafExtents::Plain(xs) => Counter::Plain(WindowBegins::new(xs)),
            LeafExtents::Inside(xs, name) => Counter::Inside(InsideCounter {
                begins: WindowBegins::new(xs),
                cover: WindowCover::new(spans, name),
            }),
            LeafExtents::Prior => Counter::Prior,
        }
    }

    /// The counts in a window. No window may begin before one that was asked for earlier.
    fn count(&mut self, window: Extent) -> LeafCount
        requires { IsReady window.begin self.old }
        ensures exact { result ≡ counter_count window self.old }
        ensures same { (w : Pair) → counter_count w self.new ≡ counter_count w self.old }
        ensures ready { IsReady window.begin self.new }
    {
        match self {
            Counter::Plain(begins) => LeafCount {
                tf: begins.count(window),
                len: window.end() - window.begin(),
            },
            Counter::Inside(inside) => inside.count(window),
            Counter::Prior => LeafCount { tf: 0, len: 0 },
        }
    }

    /// The counts in a document of so many tokens as a whole, before the first window.
    fn count_whole(&mut self, tokens: u32) -> LeafCount
        requires { IsReady 0 self.old }
        ensures { result ≡ counter_count (pair 0 tokens) self.old }
    {
        // a window has a token, so that a document without one is told apart
        if tokens == 0 {
            return LeafCount { tf: 0, len: 0 };
        }
        self.count(Extent::new(0, tokens))
    }
}

/// The counts of what is found of a leaf in a document with these fields and so many tokens, as a whole.
pub fn whole_count(found: &LeafExtents<'_>, spans: &[FieldSpan], tokens: u32) -> LeafCount
    requires fields { AllPairs IsBefore spans.now }
    requires found { IsFound spans.now found.now }
    requires few { tokens ≤ MAX_DOC_TOKENS }
    ensures exact { result ≡ found_count spans.now (pair 0 tokens) found.now }
    ensures range { IsLeafCount result }
{
    let mut counter = Counter::new(found, spans);
    counter.count_whole(tokens)
}

/// The counters of what is found of all leaves in a document with these fields.
pub fn counters_of<'a>(
    alloc: Global,
    found: &'a [LeafExtents<'_>],
    spans: &'a [FieldSpan],
) -> Result<Vec<Counter<'a>>, NoMemory>
    requires fields { AllPairs IsBefore spans.now }
    requires found { All (IsFound spans.now) found.now }
    ensures exact { IfOk result
        (λ v. (w : Pair) → map (counter_count w) v.items ≡ map (found_count spans.now w) found.now) }
    ensures ready { IfOk result (λ v. All (IsReady 0) v.items) }
{
    let mut counters = Vec::with_capacity(alloc, found.len())?;
    for each in found {
        counters.push(Counter::new(each, spans))?;
    }
    Ok(counters)
}

/// The counts of all leaves in a window. No window may begin before one that was asked for earlier.
pub fn count_all(
    alloc: Global,
    counters: &mut [Counter<'_>],
    window: Extent,
) -> Result<Vec<LeafCount>, NoMemory>
    requires { All (IsReady window.begin) counters.old }
    ensures exact { IfOk result (λ v. v.items ≡ map (counter_count window) counters.old) }
    ensures same { (w : Pair) → map (counter_count w) counters.new ≡ map (counter_count w) counters.old }
    ensures ready { All (IsReady window.begin) counters.new }
{
    let mut counts = Vec::with_capacity(alloc, counters.len())?;
    for counter in counters.iter_mut() {
        let count = counter.count(window);
        counts.push(count)?;
    }
    Ok(counts)
}
