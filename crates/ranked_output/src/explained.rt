// Why a hit has its score: the text of `explain`.
ghost use Rattle.std.specs.Prelude.{◌≡◌, ◌∷◌, ◌++◌, [], IfOk, OnOk};
ghost use Rattle.std.specs.Fmt.{decimal};
ghost use Rattle.log_chain.specs.Score.{score};
ghost use Rattle.ri_base.specs.Expression.{expr_tree};
ghost use Rattle.query_printer.specs.Printed.{context_text, printed};
ghost use Rattle.ranked_output.specs.Explained.{belief_column, counts_columns, explained_text, leaf_text, leaves_text, named_number, place_line, places_text, result_line, scale_line, score_line};
ghost use Rattle.ranked_output.specs.Marks.{IsScale};

use crate::texts::{push_bytes, push_hit, push_number, score_text};
use belief_nodes::LeafCount;
use query_printer::print_expr;
use ri_base::{Bytes, Extent, ExtentExpr, Extents, Fraction, Hit, LeafStats, List, Name, NoMemory};
use std::alloc::Global;

/// What is shown of a leaf.
pub enum LeafShown {
    /// An expression, the field that is its context if it has one, what is counted of it in the hit and in the collection,
    /// its extents in the hit, and its belief.
    Extents {
        expr: ExtentExpr,
        context: Option<Name>,
        count: LeafCount,
        stats: LeafStats,
        extents: Extents,
        belief: Fraction,
    },
    /// A prior and its belief.
    Prior {
        name: Name,
        belief: Fraction,
    },
}

impl Drop for LeafShown {
    fn drop(self) {
        match self {
            LeafShown::Extents {
                expr,
                context,
                count: _,
                stats: _,
                extents,
                belief: _,
            } => {
                drop(expr);
                drop(context);
                drop(extents);
            }
            LeafShown::Prior { name, belief: _ } => drop(name),
        }
    }
}

/// A hit with its rank, the scale of its query, and the query's leaves in reading order.
pub struct Explained {
    pub rank: u32,
    pub hit: Hit,
    pub scale: u64,
    pub leaves: List<LeafShown>,
}

impl Drop for Explained {
    fn drop(self) {
        let Explained {
            hit,
            leaves,
            rank: _,
            scale: _,
        } = self;
        drop(hit);
        drop(leaves);
    }
}

/// Appends a name and its number, with a space before each.
fn push_named(alloc: Global, text: &mut Vec<u8>, name: &[u8], n: u64) -> Result<(), NoMemory>
    ensures { OnOk result (text.new.items ≡ text.old.items ++ named_number name.now n) }
{
    push_bytes(text, b" ")?;
    push_bytes(text, name)?;
    push_bytes(text, b" ")?;
    push_number(alloc, text, n)
}

fn push_counts(
    alloc: Global,
    text: &mut Vec<u8>,
    count: LeafCount,
    stats: LeafStats,
) -> Result<(), NoMemory>
    ensures { OnOk result (text.new.items ≡ text.old.items ++ counts_columns count stats) }
{
    push_named(alloc, text, b"tf", u64::from(count.tf))?;
    push_named(alloc, text, b"len", u64::from(count.len))?;
    push_named(alloc, text, b"cf", stats.cf)?;
    push_named(alloc, text, b"total", stats.total)
}

/// Appends a belief as it stands, which isn't reduced.
fn push_belief(alloc: Global, text: &mut Vec<u8>, belief: Fraction) -> Result<(), NoMemory>
    ensures { OnOk result (text.new.items ≡ text.old.items ++ belief_column belief) }
{
    push_bytes(text, b" belief ")?;
    push_number(alloc, text, belief.p)?;
    push_bytes(text, b"/")?;
    push_number(alloc, text, belief.q)
}

fn push_place(alloc: Global, text: &mut Vec<u8>, x: Extent) -> Result<(), NoMemory>
    ensures { OnOk result (text.new.items ≡ text.old.items ++ place_line x) }
{
    push_bytes(text, b"at ")?;
    push_number(alloc, text, u64::from(x.begin()))?;
    push_bytes(text, b" ")?;
    push_number(alloc, text, u64::from(x.end()))?;
    push_bytes(text, b"\n")
}

/// Appends the lines of extents.
fn push_places(alloc: Global, text: &mut Vec<u8>, extents: &Extents) -> Result<(), NoMemory>
    ensures { OnOk result (text.new.items ≡ text.old.items ++ places_text extents.now) }
{
    for x in extents.as_slice() {
        push_place(alloc, text, *x)?;
    }
    Ok(())
}

fn push_context(text: &mut Vec<u8>, context: &Option<Name>) -> Result<(), NoMemory>
    ensures { OnOk result (text.new.items ≡ text.old.items ++ context_text context.now) }
{
    if let Some(name) = context {
        push_bytes(text, b".(")?;
        push_bytes(text, name.as_bytes())?;
        push_bytes(text, b")")?;
    }
    Ok(())
}

/// Appends what a leaf's line begins with: its kind and its number, with a space behind each.
fn push_leaf_start(
    alloc: Global,
    text: &mut Vec<u8>,
    kind: &[u8],
    number: usize,
) -> Result<(), NoMemory>
    ensures { OnOk result (text.new.items ≡ text.old.items ++ kind.now ++ 32 ∷ decimal number ++ 32 ∷ []) }
{
    push_bytes(text, kind)?;
    push_bytes(text, b" ")?;
    push_number(alloc, text, number as u64)?;
    push_bytes(text, b" ")
}

fn push_expr(alloc: Global, text: &mut Vec<u8>, expr: &ExtentExpr) -> Result<(), NoMemory>
    ensures { OnOk result (text.new.items ≡ text.old.items ++ printed (expr_tree expr.now)) }
{
    push_bytes(text, print_expr(alloc, expr)?.as_slice())
}

/// Appends the lines of the leaf with this number.
fn push_leaf(
    alloc: Global,
    text: &mut Vec<u8>,
    number: usize,
    leaf: &LeafShown,
) -> Result<(), NoMemory>
    ensures { OnOk result (text.new.items ≡ text.old.items ++ leaf_text number leaf.now) }
{
    match leaf {
        LeafShown::Extents {
            expr,
            context,
            count,
            stats,
            extents,
            belief,
        } => {
            push_leaf_start(alloc, text, b"leaf", number)?;
            push_expr(alloc, text, expr)?;
            push_context(text, context)?;
            push_counts(alloc, text, *count, *stats)?;
            push_belief(alloc, text, *belief)?;
            push_bytes(text, b"\n")?;
            push_places(alloc, text, extents)
        }
        LeafShown::Prior { name, belief } => {
            push_leaf_start(alloc, text, b"prior", number)?;
            push_bytes(text, name.as_bytes())?;
            push_belief(alloc, text, *belief)?;
            push_bytes(text, b"\n")
        }
    }
}

/// Appends the lines of all leaves, which are counted from 1.
fn push_leaves(alloc: Global, text: &mut Vec<u8>, leaves: &List<LeafShown>) -> Result<(), NoMemory>
    ensures { OnOk result (text.new.items ≡ text.old.items ++ leaves_text 1 leaves.now) }
{
    let mut number = 1;
    for leaf in leaves.as_slice() {
        push_leaf(alloc, text, number, leaf)?;
        number += 1;
    }
    Ok(())
}

/// Appends `result RANK DOCNO BEGIN END`.
#[tactic(auto, unfolding(crate::specs::Explained::result_line))]
fn push_result_line(alloc: Global, text: &mut Vec<u8>, rank: u32, hit: &Hit) -> Result<(), NoMemory>
    ensures { OnOk result (text.new.items ≡ text.old.items ++ result_line rank hit.now) }
{
    push_bytes(text, b"result ")?;
    push_number(alloc, text, u64::from(rank))?;
    push_bytes(text, b" ")?;
    push_hit(alloc, text, hit)
}

/// Appends `scale E`.
#[tactic(auto, unfolding(crate::specs::Explained::scale_line))]
fn push_scale_line(alloc: Global, text: &mut Vec<u8>, scale: u64) -> Result<(), NoMemory>
    ensures { OnOk result (text.new.items ≡ text.old.items ++ scale_line scale) }
{
    push_bytes(text, b"scale ")?;
    push_number(alloc, text, scale)?;
    push_bytes(text, b"\n")
}

/// Appends `score -SCORE`.
#[tactic(auto, unfolding(crate::specs::Explained::score_line))]
fn push_score_line(alloc: Global, text: &mut Vec<u8>, key: u128, scale: u64) -> Result<(), NoMemory>
    requires { IsScale scale }
    ensures { OnOk result (text.new.items ≡ text.old.items ++ score_line (score scale key)) }
{
    push_bytes(text, b"score -")?;
    push_bytes(text, score_text(alloc, key, scale)?.as_slice())?;
    push_bytes(text, b"\n")
}

/// The lines that explain a hit: its place, the scale, each leaf with its counts, belief and extents, and the score.
pub fn explain_lines(alloc: Global, explained: &Explained) -> Result<Bytes, NoMemory>
    requires { IsScale explained.now.scale }
    ensures { IfOk result (λ text. text ≡ explained_text explained.now) }
{
    let mut text = Vec::new(alloc);
    push_result_line(alloc, &mut text, explained.rank, &explained.hit)?;
    push_scale_line(alloc, &mut text, explained.scale)?;
    push_leaves(alloc, &mut text, &explained.leaves)?;
    push_score_line(alloc, &mut text, explained.hit.key, explained.scale)?;
    Ok(Bytes::of(text))
}
