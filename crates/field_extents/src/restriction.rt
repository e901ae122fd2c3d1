// The extents that lie in fields of a name.
ghost use Rattle.std.specs.Prelude.{◌≡◌, ◌≤◌, IfOk, AllPairs, filter, nat_le};
ghost use Rattle.std.specs.List.{prefix_len};
ghost use Rattle.ri_base.specs.Documents.{IsBefore};
ghost use Rattle.ri_base.specs.Pair.{Pair};
ghost use Rattle.field_extents.specs.Extents.{AreInOrder, begin_count};
ghost use Rattle.field_extents.specs.Fields.{covered_count, greatest_end, lies_in_some};

use ri_base::{Extents, FieldSpan, Name, NoMemory};
use std::alloc::Global;

/// The extents that lie in some field of this name, in their order.
pub fn inside(
    alloc: Global,
    xs: &Extents,
    spans: &[FieldSpan],
    name: &Name,
) -> Result<Extents, NoMemory>
    requires extents { AreInOrder xs.now }
    requires fields { AllPairs IsBefore spans.now }
    ensures exact { IfOk result (λ kept. kept ≡ filter (lies_in_some spans.now name.now) xs.now) }
    // Whatever the window is, no more of them begin in it than the fields cover positions of it.
    ensures few { IfOk result (λ kept. (window : Pair) → begin_count kept window ≤ covered_count spans.now name.now window) }
{
    let mut kept = Extents::new(alloc);
    let mut begun = 0;
    let mut reach = 0;
    for extent in xs.as_slice() {
        let begin = extent.begin();
        let end = extent.end();
        let ahead = &spans[begun..];
        let more = begun_by(ahead, begin);
        reach = reach_of(reach, &ahead[..more], name);
        begun += more;
        if end <= reach {
            kept.push(*extent)?;
        }
    }
    Ok(kept)
}

/// How many fields stand before the first that begins behind this position.
pub fn begun_by(spans: &[FieldSpan], position: u32) -> usize
    ensures { result ≡ prefix_len (λ f. nat_le f.begin position) spans.now }
{
    spans
        .iter()
        .take_while(|span| span.begin() <= position)
        .count()
}

/// The greatest of `reach` and the ends of the fields of this name.
pub fn reach_of(reach: u32, spans: &[FieldSpan], name: &Name) -> u32
    ensures { result ≡ greatest_end name.now reach spans.now }
{
    let mut greatest = reach;
    for span in spans {
        if span.name() == name {
            greatest = greatest.max(span.end());
        }
    }
    greatest
}
