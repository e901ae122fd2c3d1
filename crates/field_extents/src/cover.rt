// The positions that fields of a name cover.
ghost use Rattle.std.specs.Prelude.{◌≡◌, ◌≤◌, ◌-◌, ◌||◌, nat_lt, count_by, AllPairs};
ghost use Rattle.ri_base.specs.Documents.{IsBefore};
ghost use Rattle.field_extents.specs.Extents.{positions};
ghost use Rattle.field_extents.specs.Fields.{covered_count, is_covered};
ghost use Rattle.field_extents.specs.Passed.{BeginBy};

use crate::restriction::{begun_by, reach_of};
use ri_base::{Extent, FieldSpan, Name};
use std::marker::Model;

/// How many positions of the window lie in some field of this name.
pub fn covered(spans: &[FieldSpan], name: &Name, window: Extent) -> u32
    requires { AllPairs IsBefore spans.now }
    ensures exact { result ≡ covered_count spans.now name.now window }
    ensures most { result ≤ window.end - window.begin }
{
    let mut count = 0;
    // The position behind the last one that was counted, or the window's begin.
    let mut next = window.begin();
    for span in spans {
        let begin = span.begin().max(next);
        let end = span.end().min(window.end());
        if begin < end && span.name() == name {
            count += end - begin;
            next = end;
        }
    }
    count
}

/// The fields of a document, of which those of a name are counted in windows one behind the other. It is seen as these
/// fields, the name, and how many fields are passed.
#[derive(Drop)]
pub struct WindowCover<'a> {
    spans: &'a [FieldSpan],
    name: &'a Name,
    passed: usize,
    /// The greatest end of the fields of the name that are passed.
    reach: u32,
}

impl<'a> Model for WindowCover<'a> {
    ghost use Rattle.std.specs.Prelude.{◌≡◌, ◌≤◌, length, take, AllPairs};
    ghost use Rattle.ri_base.specs.Documents.{IsBefore};
    ghost use Rattle.field_extents.specs.Fields.{greatest_end};
    ghost use Rattle.field_extents.specs.Passed.{PassedFields};

    ghost Value = { PassedFields };

    ghost view = { λ w. record { fields = w.spans.now; name = w.name.now; passed = w.passed } };

    ghost invariant = { λ w. AllPairs IsBefore w.spans.now × (w.reach ≡ greatest_end w.name.now 0 (take w.passed w.spans.now)) × (w.passed ≤ length w.spans.now) };
}

impl<'a> WindowCover<'a> {
    /// Before the first window.
    pub fn new(spans: &'a [FieldSpan], name: &'a Name) -> WindowCover<'a>
        requires { AllPairs IsBefore spans.now }
        ensures { result ≡ record { fields = spans.now; name = name.now; passed = 0 } }
    {
        WindowCover {
            spans,
            name,
            passed: 0,
            reach: 0,
        }
    }

    /// How many positions of the window lie in some field of the name. No window may begin before one that was asked for
    /// earlier. It goes over the fields that begin inside the window, and once in all over those before.
    pub fn count(&mut self, window: Extent) -> u32
        requires { BeginBy window.begin self.old }
        ensures exact { result ≡ covered_count self.old.fields self.old.name window }
        ensures most { result ≤ window.end - window.begin }
        ensures fields { self.new.fields ≡ self.old.fields }
        ensures name { self.new.name ≡ self.old.name }
        ensures passed { BeginBy window.begin self.new }
    {
        let ahead = &self.spans[self.passed..];
        let more = begun_by(ahead, window.begin());
        self.reach = reach_of(self.reach, &ahead[..more], self.name);
        self.passed += more;
        count_ahead(&self.spans[self.passed..], self.name, self.reach, window)
    }
}

/// How many positions of the window lie before `reach` or in some field of this name.
fn count_ahead(spans: &[FieldSpan], name: &Name, reach: u32, window: Extent) -> u32
    requires { AllPairs IsBefore spans.now }
    ensures exact { result ≡ count_by (λ i. nat_lt i reach || is_covered spans.now name.now i) (positions window) }
    ensures most { result ≤ window.end - window.begin }
{
    let end = window.end();
    if end <= reach {
        return end - window.begin();
    }
    let from = reach.max(window.begin());
    let begun = begun_by(spans, end - 1);
    from - window.begin() + covered(&spans[..begun], name, Extent::new(from, end))
}
