// Printing beliefs.
ghost use Rattle.std.specs.Prelude.{◌≡◌, ◌++◌, ◌<◌, ◌^◌, ◌∷◌, map, OnOk};
ghost use Rattle.ri_base.specs.Query.{belief_tree, weighted_tree, belief_trees, weighted_trees};
ghost use Rattle.query_printer.specs.Printed.{decimals_of, weight_text, context_text, belief_text, beliefs_text, weighted_text};

use crate::exprs::{push_bytes, push_expr, push_number};
use ri_base::{Belief, Name, NoMemory};
use std::alloc::Global;

/// A weight is kept in billionths, so that each of its decimals is exact.
const BILLION: u64 = 1_000_000_000;

/// The decimals of a billionth.
const DECIMALS: u32 = 9;

/// Appends the decimals of a number of billionths, without trailing zeros.
#[tactic(auto, using(crate::proofs::Decimals::unit_pos, crate::proofs::Decimals::nothing_left, crate::proofs::Decimals::some_left, crate::proofs::Decimals::digit_small, crate::proofs::Decimals::rest_small, crate::proofs::Decimals::next_decimal))]
fn push_decimals(out: &mut Vec<u8>, part: u64) -> Result<(), NoMemory>
    requires { part < 10 ^ 9 }
    ensures { OnOk result (out.new.items ≡ out.old.items ++ decimals_of 9 part) }
{
    let mut rest = part;
    let mut left = DECIMALS;
    while rest > 0 {
        left -= 1;
        let unit = 10_u64.pow(left);
        out.push(b'0' + (rest / unit) as u8)?;
        rest %= unit;
    }
    Ok(())
}

/// Appends a weight, given in billionths.
fn push_weight(alloc: Global, out: &mut Vec<u8>, weight: u64) -> Result<(), NoMemory>
    ensures { OnOk result (out.new.items ≡ out.old.items ++ weight_text weight) }
{
    push_number(alloc, out, weight / BILLION)?;
    let part = weight % BILLION;
    if part > 0 {
        push_bytes(out, b".")?;
        push_decimals(out, part)?;
    }
    Ok(())
}

fn push_context(out: &mut Vec<u8>, context: &Option<Name>) -> Result<(), NoMemory>
    ensures { OnOk result (out.new.items ≡ out.old.items ++ context_text context.now) }
{
    if let Some(name) = context {
        push_bytes(out, b".(")?;
        push_bytes(out, name.as_bytes())?;
        push_bytes(out, b")")?;
    }
    Ok(())
}

#[cycle(printing)]
#[tactic(auto, using(crate::proofs::BeliefTexts::belief_texts))]
pub(crate) fn push_belief(alloc: Global, out: &mut Vec<u8>, x: &Belief) -> Result<(), NoMemory>
    ensures { OnOk result (out.new.items ≡ out.old.items ++ belief_text (belief_tree x.now)) }
{
    match x {
        Belief::Combine(all) => {
            push_bytes(out, b"#combine(")?;
            push_beliefs(alloc, out, all)
        }
        Belief::Weight(all) => {
            push_bytes(out, b"#weight(")?;
            push_weighted(alloc, out, all)
        }
        Belief::Max(all) => {
            push_bytes(out, b"#max(")?;
            push_beliefs(alloc, out, all)
        }
        Belief::Prior(name) => {
            push_bytes(out, b"#prior(")?;
            push_bytes(out, name.as_bytes())?;
            push_bytes(out, b")")
        }
        Belief::Leaf(x, context) => {
            push_expr(alloc, out, x)?;
            push_context(out, context)
        }
    }
}

/// Appends arguments and `)`.
#[cycle(printing)]
#[tactic(auto, using(crate::proofs::BeliefTexts::beliefs_none, crate::proofs::BeliefTexts::beliefs_some, crate::proofs::BeliefTexts::beliefs_at, crate::proofs::BeliefTexts::beliefs_end))]
pub(crate) fn push_beliefs(alloc: Global, out: &mut Vec<u8>, all: &[Belief]) -> Result<(), NoMemory>
    ensures { OnOk result (out.new.items ≡ out.old.items ++ beliefs_text (belief_trees (map belief_tree all.now))) }
{
    match all {
        [] => push_bytes(out, b")"),
        [first, rest @ ..] => {
            push_belief(alloc, out, first)?;
            for x in rest {
                push_bytes(out, b" ")?;
                push_belief(alloc, out, x)?;
            }
            push_bytes(out, b")")
        }
    }
}

/// Appends weights with their beliefs and `)`.
#[cycle(printing)]
#[tactic(auto, using(crate::proofs::BeliefTexts::weighted_none, crate::proofs::BeliefTexts::weighted_some, crate::proofs::BeliefTexts::weighted_at, crate::proofs::BeliefTexts::weighted_end))]
fn push_weighted(alloc: Global, out: &mut Vec<u8>, all: &[(u64, Belief)]) -> Result<(), NoMemory>
    ensures { OnOk result (out.new.items ≡ out.old.items ++ weighted_text (weighted_trees (map weighted_tree all.now))) }
{
    match all {
        [] => push_bytes(out, b")"),
        [(weight, first), rest @ ..] => {
            push_weight(alloc, out, *weight)?;
            push_bytes(out, b" ")?;
            push_belief(alloc, out, first)?;
            for (weight, x) in rest {
                push_bytes(out, b" ")?;
                push_weight(alloc, out, *weight)?;
                push_bytes(out, b" ")?;
                push_belief(alloc, out, x)?;
            }
            push_bytes(out, b")")
        }
    }
}
