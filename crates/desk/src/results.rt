// The lines of results.
ghost use Rattle.std.specs.Prelude.{◌≡◌, IfOk};
ghost use Rattle.command_words.specs.Asked.{told_labels};
ghost use Rattle.ranked_output.specs.Marks.{IsScale};
ghost use Rattle.ranked_output.specs.Texts.{line_of, lines_of};
ghost use Rattle.desk.specs.Lines.{results_text};
ghost use Rattle.desk.specs.Replied.{AreResults};
ghost use Rattle.desk.specs.Shown.{shown_line, shown_text};

use crate::lines::{reply_line, with_count};
use ranked_output::{Mark, line, mark, trec_line};
use ri_base::{Bytes, Hit, Hits, Name, NoMemory};
use std::alloc::Global;

/// The line of a hit, as results or a run show it.
fn shown_line(
    alloc: Global,
    labels: &Option<(String, String)>,
    rank: u32,
    mark: Mark,
    hit: &Hit,
    scale: u64,
) -> Result<Bytes, NoMemory>
    requires { IsScale scale }
    ensures { IfOk result (λ text. text ≡ shown_line (told_labels labels.now) rank (line_of scale mark hit.now)) }
{
    match labels {
        Some((topic, run)) => trec_line(alloc, topic, rank, hit, scale, run),
        None => line(alloc, rank, mark, hit, scale),
    }
}

/// The line of each result, as results or a run show it.
pub fn result_lines(
    alloc: Global,
    labels: &Option<(String, String)>,
    scale: u64,
    hits: &Hits,
) -> Result<Vec<u8>, NoMemory>
    requires { AreResults scale hits.now }
    ensures { IfOk result (λ text. text.items ≡ shown_text (told_labels labels.now) (lines_of scale hits.now)) }
{
    let mut text = Vec::new(alloc);
    let mut above = None;
    let mut rank = 1;
    for hit in hits.as_slice() {
        let mark = mark(above, hit, scale);
        let line = shown_line(alloc, labels, rank, mark, hit, scale)?;
        text.extend_from_slice(line.as_slice())?;
        above = Some(hit);
        rank += 1;
    }
    Ok(text)
}

/// How many results they are, and then the line of each.
#[tactic(auto, using(crate::proofs::LineLemmas::without_labels), unfolding(crate::specs::Lines::results_text))]
pub(crate) fn results_text(
    alloc: Global,
    name: &Name,
    scale: u64,
    hits: &Hits,
) -> Result<Vec<u8>, NoMemory>
    requires { AreResults scale hits.now }
    ensures { IfOk result (λ text. text.items ≡ results_text name.now scale hits.now) }
{
    let count = with_count(alloc, name.as_bytes(), hits.len() as u64)?;
    let mut text = reply_line(alloc, b"results", &count)?;
    text.extend_from_slice(&result_lines(alloc, &None, scale, hits)?)?;
    Ok(text)
}
