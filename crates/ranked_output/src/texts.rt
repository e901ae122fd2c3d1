ghost use Rattle.std.specs.Prelude.{◌≡◌, ◌*◌, ◌/◌, ◌^◌, ◌<◌, ◌∷◌, ◌++◌, [], IfOk, OnOk};
ghost use Rattle.std.specs.Fmt.{decimal};
ghost use Rattle.ranked_output.specs.Marks.{IsScale};
ghost use Rattle.log_chain.specs.Score.{score};
ghost use Rattle.ranked_output.specs.Texts.{found_text, hit_text, line_of, line_text, score_text, sign, trec_text};

use crate::Mark;
use log_chain::LAST;
use ri_base::{Bytes, Hit, NoMemory};
use std::alloc::Global;

/// The digits of a score behind its point: scores are in millionths.
const PLACES: u32 = 6;

/// The quotient as its whole part, a point and six digits, cut: a long division.
fn quotient_text(alloc: Global, dividend: u128, divisor: u128) -> Result<Vec<u8>, NoMemory>
    requires some { 0 < divisor }
    requires small { divisor < 2 ^ 124 }
    ensures { IfOk result (λ text. text.items ≡ score_text (dividend * 1000000 / divisor)) }
{
    let mut text = Vec::new(alloc);
    text.extend_from_slice((dividend / divisor).to_string(alloc)?.as_bytes())?;
    text.push(b'.')?;
    let mut rest = dividend % divisor;
    for _ in 0..PLACES {
        let tenfold = 10 * rest;
        text.push(b'0' + (tenfold / divisor) as u8)?;
        rest = tenfold % divisor;
    }
    Ok(text)
}

/// The score of a key: whole part, point and six digits, cut and without a sign. The scale is that of the query.
pub fn score_text(alloc: Global, key: u128, scale: u64) -> Result<Bytes, NoMemory>
    requires { IsScale scale }
    ensures { IfOk result (λ text. text ≡ score_text (score scale key)) }
{
    let text = quotient_text(alloc, key, u128::from(scale) << LAST)?;
    Ok(Bytes::of(text))
}

fn sign(mark: Mark) -> u8
    ensures { result ≡ sign mark }
{
    match mark {
        Mark::First => b'-',
        Mark::Below => b'>',
        Mark::Same => b'=',
        Mark::Near => b'~',
    }
}

/// Appends bytes.
pub(crate) fn push_bytes(text: &mut Vec<u8>, bytes: &[u8]) -> Result<(), NoMemory>
    ensures { OnOk result (text.new.items ≡ text.old.items ++ bytes.now) }
{
    text.extend_from_slice(bytes)?;
    Ok(())
}

/// Appends a number.
pub(crate) fn push_number(alloc: Global, text: &mut Vec<u8>, n: u64) -> Result<(), NoMemory>
    ensures { OnOk result (text.new.items ≡ text.old.items ++ decimal n) }
{
    push_bytes(text, n.to_string(alloc)?.as_bytes())
}

/// Appends ` -SCORE` of a key, and a space.
fn push_score(alloc: Global, text: &mut Vec<u8>, key: u128, scale: u64) -> Result<(), NoMemory>
    requires { IsScale scale }
    ensures { OnOk result (text.new.items ≡ text.old.items ++ 32 ∷ 45 ∷ score_text (score scale key) ++ 32 ∷ []) }
{
    push_bytes(text, b" -")?;
    push_bytes(text, score_text(alloc, key, scale)?.as_slice())?;
    push_bytes(text, b" ")
}

/// Appends where a hit stands, which ends its line: `DOCNO BEGIN END`.
pub(crate) fn push_hit(alloc: Global, text: &mut Vec<u8>, hit: &Hit) -> Result<(), NoMemory>
    ensures { OnOk result (text.new.items ≡ text.old.items ++ hit_text hit.now.docno hit.now.begin hit.now.end) }
{
    push_bytes(text, hit.docno.as_bytes())?;
    push_bytes(text, b" ")?;
    push_number(alloc, text, u64::from(hit.begin))?;
    push_bytes(text, b" ")?;
    push_number(alloc, text, u64::from(hit.end))?;
    push_bytes(text, b"\n")
}

/// The line of a hit: `RANK MARK -SCORE DOCNO BEGIN END`. The scale is that of the query.
pub fn line(alloc: Global, rank: u32, mark: Mark, hit: &Hit, scale: u64) -> Result<Bytes, NoMemory>
    requires { IsScale scale }
    ensures { IfOk result (λ text. text ≡ line_text rank (line_of scale mark hit.now)) }
{
    let mut text = Vec::new(alloc);
    push_number(alloc, &mut text, u64::from(rank))?;
    push_bytes(&mut text, &[b' ', sign(mark)])?;
    push_score(alloc, &mut text, hit.key, scale)?;
    push_hit(alloc, &mut text, hit)?;
    Ok(Bytes::of(text))
}

/// Appends the columns of a run before the score: `TOPIC Q0 DOCNO RANK`.
fn push_found(
    alloc: Global,
    text: &mut Vec<u8>,
    topic: &str,
    docno: &[u8],
    rank: u32,
) -> Result<(), NoMemory>
    ensures { OnOk result (text.new.items ≡ text.old.items ++ found_text topic.now docno.now rank) }
{
    push_bytes(text, topic.as_bytes())?;
    push_bytes(text, b" Q0 ")?;
    push_bytes(text, docno)?;
    push_bytes(text, b" ")?;
    push_number(alloc, text, u64::from(rank))
}

/// The line of a hit in a run, as trec_eval reads it: `TOPIC Q0 DOCNO RANK -SCORE RUN`. The scale is that of the query.
pub fn trec_line(
    alloc: Global,
    topic: &str,
    rank: u32,
    hit: &Hit,
    scale: u64,
    run: &str,
) -> Result<Bytes, NoMemory>
    requires { IsScale scale }
    ensures { IfOk result (λ text. text ≡ trec_text topic.now rank hit.now.docno (score scale hit.now.key) run.now) }
{
    let mut text = Vec::new(alloc);
    push_found(alloc, &mut text, topic, hit.docno.as_bytes(), rank)?;
    push_score(alloc, &mut text, hit.key, scale)?;
    push_bytes(&mut text, run.as_bytes())?;
    push_bytes(&mut text, b"\n")?;
    Ok(Bytes::of(text))
}
