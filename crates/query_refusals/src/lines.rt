// The lines of refusals of a command's text.
ghost use Rattle.std.specs.Prelude.{◌≡◌, IfOk};
ghost use Rattle.query_refusals.specs.Lines.{check_name, line_of, refusal_piece};

use crate::QueryRefusal;
use command_pieces::Reply;
use query_check::CheckFault;
use refusals::{named_line, placed_line};
use ri_base::NoMemory;
use std::alloc::Global;

/// The name of a fault of the check, with the prior that isn't known.
fn check_name(alloc: Global, fault: &CheckFault) -> Result<Vec<u8>, NoMemory>
    ensures { IfOk result (λ name. name.items ≡ check_name fault.now) }
{
    match fault {
        CheckFault::NoWeight => b"NoWeight".to_vec(alloc),
        CheckFault::NoLeaf => b"NoLeaf".to_vec(alloc),
        CheckFault::ScaleTooLarge => b"ScaleTooLarge".to_vec(alloc),
        CheckFault::UnknownPrior { name } => {
            let mut text = b"UnknownPrior ".to_vec(alloc)?;
            text.extend_from_slice(name.as_bytes())?;
            Ok(text)
        }
        CheckFault::Memory => Ok(Vec::new(alloc)),
    }
}

/// The line of a refusal.
#[tactic(auto, unfolding(crate::specs::Lines::line_of))]
pub fn line_of(alloc: Global, refusal: &QueryRefusal) -> Result<Vec<u8>, NoMemory>
    ensures { IfOk result (λ line. line.items ≡ line_of refusal.now) }
{
    match refusal {
        QueryRefusal::Text { kind, place } => placed_line(alloc, kind.name(), *place as u64),
        QueryRefusal::Check(fault) => {
            let name = check_name(alloc, fault)?;
            named_line(alloc, b"Check", &name)
        }
        QueryRefusal::NoSuchRank { query } => named_line(alloc, b"NoSuchRank", query.as_bytes()),
    }
}

/// The piece that says why something is refused.
pub fn reply_of(alloc: Global, refusal: &QueryRefusal) -> Result<Reply, NoMemory>
    ensures { IfOk result (λ reply. reply ≡ refusal_piece refusal.now) }
{
    Ok(Reply::refused(line_of(alloc, refusal)?))
}
