// Printing queries.
ghost use Rattle.std.specs.Prelude.{◌≡◌, ◌≤◌, ◌++◌, length, map, IfOk, OnOk};
ghost use Rattle.std.specs.List.{prefix_len};
ghost use Rattle.ri_base.specs.Ascii.{is_letter};
ghost use Rattle.ri_base.specs.Query.{belief_tree, filter_tree};
ghost use Rattle.ri_base.specs.Queries.{whole_tree};
ghost use Rattle.query_printer.specs.Printed.{top_text, begins_passages, window_field, range_text, window_text, body_text, filter_start, filters_text, query_printed};

use crate::beliefs::{push_belief, push_beliefs};
use crate::exprs::{push_bytes, push_expr, push_number};
use ri_base::ascii::{is_digit, is_letter};
use ri_base::{Belief, Bytes, Filter, NoMemory, Query, Range};
use std::alloc::Global;

/// The text of a query.
pub fn print_query(alloc: Global, query: &Query) -> Result<Bytes, NoMemory>
    ensures { IfOk result (λ text. text ≡ query_printed (whole_tree query.now)) }
{
    let mut out = Vec::new(alloc);
    push_filtered(
        alloc,
        &mut out,
        &query.filters,
        &query.range,
        &query.beliefs,
    )?;
    Ok(Bytes::of(out))
}

/// Appends beliefs with a space between.
#[tactic(auto, using(crate::proofs::BeliefTexts::top_none, crate::proofs::BeliefTexts::top_some, crate::proofs::BeliefTexts::top_at, crate::proofs::BeliefTexts::top_end))]
fn push_top(alloc: Global, out: &mut Vec<u8>, all: &[Belief]) -> Result<(), NoMemory>
    ensures { OnOk result (out.new.items ≡ out.old.items ++ top_text (map belief_tree all.now)) }
{
    match all {
        [] => Ok(()),
        [first, rest @ ..] => {
            push_belief(alloc, out, first)?;
            for x in rest {
                push_bytes(out, b" ")?;
                push_belief(alloc, out, x)?;
            }
            Ok(())
        }
    }
}

/// What begins a range of passages, before its first number.
const PASSAGE: &[u8] = b"passage";

/// Whether `passage` and a digit stand at the front, which begin a passage range.
pub fn begins_passages(bytes: &[u8]) -> bool
    ensures { result ≡ begins_passages bytes.now }
{
    let letters = letters_len(bytes);
    match &bytes[letters..] {
        [first, ..] => is_digit(*first) && &bytes[..letters] == PASSAGE,
        [] => false,
    }
}

/// How many letters stand at the front.
#[tactic(auto, using(crate::proofs::BeliefTexts::prefix_len_within))]
fn letters_len(bytes: &[u8]) -> usize
    ensures value { result ≡ prefix_len is_letter bytes.now }
    ensures within { result ≤ length bytes.now }
{
    bytes.iter().take_while(|byte| is_letter(**byte)).count()
}

/// Appends the field of a window.
fn push_window_field(out: &mut Vec<u8>, name: &[u8]) -> Result<(), NoMemory>
    ensures { OnOk result (out.new.items ≡ out.old.items ++ window_field name.now) }
{
    if !begins_passages(name) {
        return push_bytes(out, name);
    }
    push_bytes(out, b"P")?;
    push_bytes(out, &name[1.min(name.len())..])
}

/// Appends what stands in the brackets of a window.
fn push_range(alloc: Global, out: &mut Vec<u8>, range: &Range) -> Result<(), NoMemory>
    ensures { OnOk result (out.new.items ≡ out.old.items ++ range_text range.now) }
{
    match range {
        Range::Whole => Ok(()),
        Range::Field(name) => push_window_field(out, name.as_bytes()),
        Range::Passages { width, every } => {
            push_bytes(out, b"passage")?;
            push_number(alloc, out, u64::from(*width))?;
            push_bytes(out, b":")?;
            push_number(alloc, out, u64::from(*every))
        }
    }
}

fn push_window(
    alloc: Global,
    out: &mut Vec<u8>,
    range: &Range,
    beliefs: &[Belief],
) -> Result<(), NoMemory>
    ensures { OnOk result (out.new.items ≡ out.old.items ++ window_text range.now (map belief_tree beliefs.now)) }
{
    push_bytes(out, b"#combine[")?;
    push_range(alloc, out, range)?;
    push_bytes(out, b"](")?;
    push_beliefs(alloc, out, beliefs)
}

fn push_body(
    alloc: Global,
    out: &mut Vec<u8>,
    range: &Range,
    beliefs: &[Belief],
) -> Result<(), NoMemory>
    ensures { OnOk result (out.new.items ≡ out.old.items ++ body_text range.now (map belief_tree beliefs.now)) }
{
    match range {
        Range::Whole => push_top(alloc, out, beliefs),
        _ => push_window(alloc, out, range, beliefs),
    }
}

/// Appends a filter up to what is inside it.
fn push_filter(alloc: Global, out: &mut Vec<u8>, filter: &Filter) -> Result<(), NoMemory>
    ensures { OnOk result (out.new.items ≡ out.old.items ++ filter_start (filter_tree filter.now)) }
{
    if filter.keep {
        push_bytes(out, b"#filreq(")?;
    } else {
        push_bytes(out, b"#filrej(")?;
    }
    push_expr(alloc, out, &filter.expr)?;
    push_bytes(out, b" ")
}

/// Appends filters round a body.
#[tactic(auto, using(crate::proofs::BeliefTexts::filters_none, crate::proofs::BeliefTexts::filters_some))]
fn push_filtered(
    alloc: Global,
    out: &mut Vec<u8>,
    filters: &[Filter],
    range: &Range,
    beliefs: &[Belief],
) -> Result<(), NoMemory>
    ensures { OnOk result (out.new.items ≡ out.old.items ++ filters_text (map filter_tree filters.now) (body_text range.now (map belief_tree beliefs.now))) }
{
    match filters {
        [] => push_body(alloc, out, range, beliefs),
        [filter, rest @ ..] => {
            push_filter(alloc, out, filter)?;
            push_filtered(alloc, out, rest, range, beliefs)?;
            push_bytes(out, b")")
        }
    }
}
