// The lines of refusals.
ghost use Rattle.std.specs.Prelude.{◌≡◌, IfOk};
ghost use Rattle.desk.specs.Refusals.{bare_line, check_name, refusal_text};

use crate::{CheckKind, Refusal};
use refusals::{named_line, placed_line};
use ri_base::NoMemory;
use std::alloc::Global;

/// `refused KIND`
fn bare_line(alloc: Global, kind: &[u8]) -> Result<Vec<u8>, NoMemory>
    ensures { IfOk result (λ line. line.items ≡ bare_line kind.now) }
{
    let mut line = b"refused ".to_vec(alloc)?;
    line.extend_from_slice(kind)?;
    line.push(b'\n')?;
    Ok(line)
}

/// The kind of a query that has a fault, with the prior that isn't known.
fn check_name(alloc: Global, kind: &CheckKind) -> Result<Vec<u8>, NoMemory>
    ensures { IfOk result (λ name. name.items ≡ check_name kind.now) }
{
    match kind {
        CheckKind::NoWeight => b"NoWeight".to_vec(alloc),
        CheckKind::NoLeaf => b"NoLeaf".to_vec(alloc),
        CheckKind::ScaleTooLarge => b"ScaleTooLarge".to_vec(alloc),
        CheckKind::UnknownPrior(name) => {
            let mut text = b"UnknownPrior ".to_vec(alloc)?;
            text.extend_from_slice(name.as_bytes())?;
            Ok(text)
        }
    }
}

/// The line of a refusal.
#[tactic(auto, unfolding(crate::specs::Refusals::refusal_text))]
pub fn refusal_text(alloc: Global, refusal: &Refusal) -> Result<Vec<u8>, NoMemory>
    ensures { IfOk result (λ line. line.items ≡ refusal_text refusal.now) }
{
    match refusal {
        Refusal::NameTaken(name) => named_line(alloc, b"NameTaken", name.as_bytes()),
        Refusal::NoSuchName(name) => named_line(alloc, b"NoSuchName", name.as_bytes()),
        Refusal::NotYet(name) => named_line(alloc, b"NotYet", name.as_bytes()),
        Refusal::DeskFull(name) => named_line(alloc, b"DeskFull", name.as_bytes()),
        Refusal::NoMerge => bare_line(alloc, b"NoMerge"),
        Refusal::NoSuchRank(name) => named_line(alloc, b"NoSuchRank", name.as_bytes()),
        Refusal::MergeOpen => bare_line(alloc, b"MergeOpen"),
        Refusal::Repeated(docno) => named_line(alloc, b"Repeated", docno.as_bytes()),
        Refusal::CollectionFull(docno) => named_line(alloc, b"CollectionFull", docno.as_bytes()),
        Refusal::NoSuchDoc(docno) => named_line(alloc, b"NoSuchDoc", docno.as_bytes()),
        Refusal::Query(kind, place) => placed_line(alloc, kind.name(), *place as u64),
        Refusal::Check(kind) => named_line(alloc, b"Check", &check_name(alloc, kind)?),
    }
}
