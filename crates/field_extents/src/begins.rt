// The positions at which extents begin.
ghost use Rattle.std.specs.Prelude.{◌≡◌, ◌<◌, ◌≤◌, ◌-◌, true, nat_le, nat_lt, length, All, AllPairs};
ghost use Rattle.std.specs.List.{prefix_len};
ghost use Rattle.field_extents.specs.Extents.{AreInOrder, begin_count};
ghost use Rattle.field_extents.specs.Passed.{BeginBefore, Rises};

use ri_base::{Extent, Extents};
use std::marker::Model;

/// How many distinct begins the extents inside the window have.
pub fn distinct_begins(xs: &Extents, window: Extent) -> u32
    requires { AreInOrder xs.now }
    ensures exact { result ≡ begin_count xs.now window }
    ensures most { result ≤ window.end - window.begin }
    // Each extent has a token, as its type keeps it.
    ensures some { All (λ x. x.begin < x.end) xs.now }
{
    begins_in(xs.as_slice(), window)
}

/// How many distinct begins the extents inside the window have.
fn begins_in(xs: &[Extent], window: Extent) -> u32
    requires { AreInOrder xs.now }
    ensures exact { result ≡ begin_count xs.now window }
    ensures most { result ≤ window.end - window.begin }
    ensures some { All (λ x. x.begin < x.end) xs.now }
{
    let mut count = 0;
    // The position behind the last begin that was counted, or the window's begin.
    let mut next = window.begin();
    for extent in xs {
        let begin = extent.begin();
        let end = extent.end();
        if next <= begin && end <= window.end() {
            count += 1;
            next = begin + 1;
        }
    }
    count
}

/// Extents that are counted in windows one behind the other. It is seen as these extents and how many are passed.
#[derive(Drop)]
pub struct WindowBegins<'a> {
    extents: &'a [Extent],
    passed: usize,
    /// Each extent begins behind the one before it and ends no earlier, as those of a word do.
    rising: bool,
}

impl<'a> Model for WindowBegins<'a> {
    ghost use Rattle.std.specs.Prelude.{◌<◌, ◌≤◌, length, All};
    ghost use Rattle.field_extents.specs.Extents.{AreInOrder};
    ghost use Rattle.std.specs.Prelude.{◌≡◌, true, AllPairs};
    ghost use Rattle.field_extents.specs.Passed.{PassedExtents, Rises};

    ghost Value = { PassedExtents };

    ghost view = { λ w. record { extents = w.extents.now; passed = w.passed } };

    ghost invariant = { λ w. AreInOrder w.extents.now × All (λ x. x.begin < x.end) w.extents.now × (w.passed ≤ length w.extents.now) × (w.rising ≡ true → AllPairs Rises w.extents.now) };
}

impl<'a> WindowBegins<'a> {
    /// Before the first window.
    pub fn new(xs: &'a Extents) -> WindowBegins<'a>
        requires { AreInOrder xs.now }
        ensures exact { result ≡ record { extents = xs.now; passed = 0 } }
        // Each extent has a token, as its type keeps it.
        ensures some { All (λ x. x.begin < x.end) xs.now }
    {
        let extents = xs.as_slice();
        prove!(have_tokens(extents));
        WindowBegins {
            extents,
            passed: 0,
            rising: are_rising(extents),
        }
    }

    /// How many distinct begins the extents inside the window have. No window may begin before one that was asked for
    /// earlier. It goes once in all over the extents before the windows. Where extents rise it looks up the last one
    /// inside, else it goes over those that begin inside the window.
    pub fn count(&mut self, window: Extent) -> u32
        requires { BeginBefore window.begin self.old }
        ensures exact { result ≡ begin_count self.old.extents window }
        ensures most { result ≤ window.end - window.begin }
        ensures same { self.new.extents ≡ self.old.extents }
        ensures passed { BeginBefore window.begin self.new }
    {
        self.passed += begun_before(&self.extents[self.passed..], window.begin());
        begins_ahead(&self.extents[self.passed..], self.rising, window)
    }
}

/// Whether each extent has a token, which its type keeps.
fn have_tokens(xs: &[Extent]) -> bool
    ensures yes { result ≡ true }
    ensures some { All (λ x. x.begin < x.end) xs.now }
{
    for x in xs {
        if x.end() <= x.begin() {
            return false;
        }
    }
    true
}

/// How many distinct begins the extents inside the window have, where none begins before it.
fn begins_ahead(xs: &[Extent], rising: bool, window: Extent) -> u32
    requires order { AreInOrder xs.now }
    requires some { All (λ x. x.begin < x.end) xs.now }
    requires ahead { All (λ x. window.begin ≤ x.begin) xs.now }
    requires rising { rising ≡ true → AllPairs Rises xs.now }
    ensures exact { result ≡ begin_count xs.now window }
    ensures most { result ≤ window.end - window.begin }
{
    if rising {
        return ended_by(xs, window.end()) as u32;
    }
    begins_in(&xs[..begun_before(xs, window.end())], window)
}

/// Whether each extent begins behind the one before it and ends no earlier.
fn are_rising(xs: &[Extent]) -> bool
    ensures { result ≡ true → AllPairs Rises xs.now }
{
    xs.is_sorted_by(|x, y| x.begin() < y.begin() && x.end() <= y.end())
}

/// How many extents end by this position, where their ends don't fall.
fn ended_by(xs: &[Extent], position: u32) -> usize
    requires { AllPairs Rises xs.now }
    ensures { result ≡ prefix_len (λ x. nat_le x.end position) xs.now }
{
    xs.partition_point(|x| x.end() <= position)
}

/// How many extents stand before the first that doesn't begin before this position.
fn begun_before(xs: &[Extent], position: u32) -> usize
    ensures begun { result ≡ prefix_len (λ x. nat_lt x.begin position) xs.now }
    ensures within { result ≤ length xs.now }
{
    xs.iter().take_while(|x| x.begin() < position).count()
}
