// The windows of a document, one after the other.
ghost use Rattle.std.specs.Prelude.{◌≡◌, ◌<◌, ◌≤◌, ◌+◌, not, true, List, [], ◌∷◌, length, All, IfSome, MatchOption};
ghost use Rattle.std.specs.Iterator.{YieldsFirst, item_count};
ghost use Rattle.std.specs.List.{prefix_len};
ghost use Rattle.std.specs.Str.{bytes_eq};
ghost use Rattle.ri_base.specs.Documents.{AreFields};
ghost use Rattle.ri_base.specs.Query.{is_range};
ghost use Rattle.ri_base.specs.declared.limits.TheConstants.{MAX_DOC_TOKENS};
ghost use Rattle.windows.specs.Left.{AreNumbers, IsLeft, fields_named, passages_from, whole_left, windows_left};
ghost use Rattle.windows.specs.Windows.{AreRising, window, windows};

use ri_base::{Extent, FieldSpan, Name, Range};
use std::marker::Model;

/// What is left of the windows of a document.
#[derive(Drop)]
enum Left<'a> {
    /// The document as a whole, of so many tokens, or nothing where it has none.
    Whole(u32),
    /// The fields of this name among these.
    Fields(&'a Name, &'a [FieldSpan]),
    /// The passages from this number on.
    Passages {
        number: u32,
        tokens: u32,
        width: u32,
        every: u32,
    },
}

impl<'a> Left<'a> {
    /// All windows of a document.
    fn of(range: &'a Range, length: u32, spans: &'a [FieldSpan]) -> Left<'a>
        requires numbers { is_range range.now ≡ true }
        requires tokens { length ≤ MAX_DOC_TOKENS }
        ensures exact { windows_left result ≡ windows range.now length spans.now }
        ensures sound { IsLeft result }
    {
        match range {
            Range::Whole => Left::Whole(length),
            Range::Field(name) => Left::Fields(name, spans),
            Range::Passages { width, every } => Left::Passages {
                number: 0,
                tokens: length,
                width: *width,
                every: *every,
            },
        }
    }
}

/// The windows of a document by begin, then end, seen as the list of those that are left.
#[derive(Drop)]
pub struct Contexts<'a> {
    left: Left<'a>,
}

impl<'a> Model for Contexts<'a> {
    ghost use Rattle.std.specs.Prelude.{List};
    ghost use Rattle.ri_base.specs.Pair.{Pair};
    ghost use Rattle.windows.specs.Left.{IsLeft, windows_left};

    ghost Value = { List Pair };

    ghost view = { λ c. windows_left c.left };

    ghost invariant = { λ c. IsLeft c.left };
}

impl<'a> Contexts<'a> {
    /// The windows of a document of so many tokens, and with these fields. It goes over the fields once in all.
    pub fn new(range: &'a Range, length: u32, spans: &'a [FieldSpan]) -> Contexts<'a>
        requires numbers { is_range range.now ≡ true }
        requires tokens { length ≤ MAX_DOC_TOKENS }
        requires fields { AreFields length spans.now }
        ensures exact { result ≡ windows range.now length spans.now }
        ensures order { AreRising result }
        ensures some { All (λ w. w.begin < w.end) result }
        ensures within { All (λ w. w.end ≤ length) result }
    {
        Contexts {
            left: Left::of(range, length, spans),
        }
    }
}

impl<'a> Iterator for Contexts<'a> {
    type Item = Extent;

    ghost next_gives = { YieldsFirst (λ left. left) };

    ghost remaining = { item_count (λ left. left) };

    fn next(&mut self) -> Option<Extent> {
        match &mut self.left {
            Left::Whole(tokens) => {
                let window = whole(*tokens);
                *tokens = 0;
                window
            }
            Left::Fields(name, spans) => {
                let (field, behind) = first_named(name, spans)?;
                *spans = behind;
                Some(Extent::new(field.begin(), field.end()))
            }
            Left::Passages {
                number,
                tokens,
                width,
                every,
            } => {
                let passage = passage(*number, *tokens, *width, *every)?;
                *number += 1;
                Some(passage)
            }
        }
    }
}

/// All tokens of a document of so many, where it has some.
fn whole(tokens: u32) -> Option<Extent>
    ensures { MatchOption result (whole_left tokens ≡ []) (λ w. whole_left tokens ≡ w ∷ []) }
{
    if tokens == 0 {
        return None;
    }
    Some(Extent::new(0, tokens))
}

/// How many fields stand before the first of this name.
fn others_before(name: &Name, spans: &[FieldSpan]) -> usize
    ensures others { result ≡ prefix_len (λ f. not (bytes_eq f.name name.now)) spans.now }
    ensures within { result ≤ length spans.now }
{
    spans.iter().take_while(|span| span.name() != name).count()
}

/// The first field of this name, and the fields behind it.
fn first_named<'a>(name: &Name, spans: &'a [FieldSpan]) -> Option<(&'a FieldSpan, &'a [FieldSpan])>
    ensures { MatchOption result (fields_named name.now spans.now ≡ [])
        (λ found. fields_named name.now spans.now ≡ window found.0.now.begin found.0.now.end ∷ fields_named name.now found.1.now) }
{
    let others = others_before(name, spans);
    if others == spans.len() {
        return None;
    }
    Some((&spans[others], &spans[others + 1..]))
}

/// The passage of this number, where it begins within the document.
fn passage(number: u32, tokens: u32, width: u32, every: u32) -> Option<Extent>
    requires { AreNumbers number tokens width every }
    ensures exact { MatchOption result (passages_from number tokens width every ≡ [])
        (λ w. passages_from number tokens width every ≡ w ∷ passages_from (number + 1) tokens width every) }
    ensures others { IfSome result (λ _. AreNumbers (number + 1) tokens width every) }
{
    let begin = u64::from(number) * u64::from(every);
    if begin >= u64::from(tokens) {
        return None;
    }
    let begin = begin as u32;
    Some(Extent::new(begin, (begin + width).min(tokens)))
}
