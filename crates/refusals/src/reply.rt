// What is written of a refusal.
ghost use Rattle.std.specs.Prelude.{◌≡◌, IfOk};
ghost use Rattle.refusals.specs.Lines.{refusal_piece};

use crate::{Refusal, line_of};
use command_pieces::Reply;
use ri_base::NoMemory;
use std::alloc::Global;

/// The piece that says why something is refused.
pub fn reply_of(alloc: Global, refusal: &Refusal) -> Result<Reply, NoMemory>
    ensures { IfOk result (λ reply. reply ≡ refusal_piece refusal.now) }
{
    Ok(Reply::refused(line_of(alloc, refusal)?))
}
