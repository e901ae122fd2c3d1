// New parts of a merge are put in the place of the old ones.
ghost use Rattle.std.specs.Prelude.{◌≡◌, ◌++◌, IfOk, OnOk, length, map};
ghost use Rattle.std.specs.List.{All};
ghost use Rattle.disk_index.specs.Parts.{source_of};
ghost use Rattle.holdings.specs.Contents.{with_parts};
ghost use Rattle.holdings.specs.MarkedParts.{IsWhole};
ghost use Rattle.holdings.specs.Parts.{sealed};
ghost use Rattle.merge_job.specs.Merge.{size_of};
ghost use Rattle.repository.specs.Merges.{IsExchange, all_stale, held_part, marks_of};
ghost use Rattle.repository.specs.States.{numbers_in, part_numbers};
ghost use Rattle.repository.specs.Ties.{Begins, IsTied};

use crate::stale::note_stale;
use deletion_list::DelList;
use disk_index::{MarkedPart, Part};
use holdings::Holdings;
use merge_job::{MergeJob, Merged};
use ri_base::NoMemory;
use std::alloc::{AllocError, Global};
use std::rc::Rc;

/// The marks of these parts.
fn marks_of(alloc: Global, parts: &[MarkedPart]) -> Result<Vec<DelList>, NoMemory>
    ensures { IfOk result (λ marks. marks.items ≡ marks_of parts.now) }
{
    let mut marks = Vec::with_capacity(alloc, parts.len())?;
    for part in parts {
        let of_part = part.marks().clone_in(alloc)?;
        marks.push(of_part)?;
    }
    Ok(marks)
}

/// Puts the new parts behind others.
fn put_merged(alloc: Global, parts: &mut Vec<MarkedPart>, merged: Merged) -> Result<(), NoMemory>
    requires { All (λ p. length p.marks ≡ length p.docs) merged.parts.items }
    ensures { OnOk result (parts.new.items ≡ parts.old.items ++ map held_part merged.parts.items) }
{
    for new in merged.parts {
        let docs = Rc::new(alloc, new.docs).map_err(AllocError::from)?;
        parts.push(MarkedPart::new(Part::Memory(docs), new.marks))?;
    }
    Ok(())
}

/// Puts these parts behind others, once more.
fn put_later(
    alloc: Global,
    parts: &mut Vec<MarkedPart>,
    later: &[MarkedPart],
) -> Result<(), NoMemory>
    ensures { OnOk result (parts.new.items ≡ parts.old.items ++ later.now) }
{
    for part in later {
        parts.push(part.share(alloc)?)?;
    }
    Ok(())
}

/// The new parts with the marks of now, and behind them the closed parts that came later.
fn exchanged_parts(
    alloc: Global,
    closed: &[MarkedPart],
    job: MergeJob,
) -> Result<Vec<MarkedPart>, NoMemory>
    requires all { length job.copied ≡ size_of job }
    requires begins { Begins job.snapshot closed.now }
    requires whole { All IsWhole closed.now }
    ensures { IfOk result (λ parts. IsExchange job closed.now parts.items) }
{
    let (first, later) = closed.split_at(job.snapshot().parts().len());
    let now = marks_of(alloc, first)?;
    match job.finish(alloc, &now) {
        Ok(merged) => {
            let mut parts = Vec::new(alloc);
            put_merged(alloc, &mut parts, merged)?;
            put_later(alloc, &mut parts, later)?;
            Ok(parts)
        }
        Err((_, e)) => Err(e),
    }
}

/// Closes the part that is being filled, and holds the new parts of the merge in the place of those of its snapshot.
pub fn exchange(alloc: Global, held: &mut Holdings, job: MergeJob) -> Result<(), NoMemory>
    requires all { length job.copied ≡ size_of job }
    requires tied { IsTied held.old job }
    ensures parts { OnOk result (IsExchange job (sealed held.old.parts).closed held.new.parts.closed) }
    ensures held { OnOk result (held.new ≡ with_parts held.old held.new.parts.closed) }
    ensures whole { OnOk result (All IsWhole (sealed held.old.parts).closed) }
{
    held.seal(alloc)?;
    let parts = exchanged_parts(alloc, held.closed_parts(), job)?;
    held.exchange(alloc, parts)
}

/// Notes that the file of a part is no longer read, where it has one.
fn note_part(stale: &mut Vec<u64>, part: &Part) -> Result<(), NoMemory>
    ensures { OnOk result (stale.new.items ≡ all_stale stale.old.items (numbers_in (source_of part.now))) }
{
    match part {
        Part::Memory(_) => Ok(()),
        Part::Disk(index) => note_stale(stale, index.number()),
    }
}

/// The same of these parts.
pub fn note_parts(stale: &mut Vec<u64>, parts: &[MarkedPart]) -> Result<(), NoMemory>
    ensures { OnOk result (stale.new.items ≡ all_stale stale.old.items (part_numbers parts.now)) }
{
    for part in parts {
        note_part(stale, part.part())?;
    }
    Ok(())
}
