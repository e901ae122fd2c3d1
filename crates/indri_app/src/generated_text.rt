// What is written of a generated collection.
ghost use Rattle.std.specs.Prelude.{◌≡◌, ◌≤◌, ◌++◌, IfOk};
ghost use Rattle.generated_events.specs.Documents.{kept_documents};
ghost use Rattle.generated_events.specs.declared.generator.TheConstants.{MAX_GENERATED};
ghost use Rattle.desk.specs.Replied.{IsReply};
ghost use Rattle.indri_app.specs.GeneratedTexts.{reply_lines, summary_line, summary_text};

use desk::{Reply, result_lines};
use generated_events::{live_count, live_tokens};
use ri_base::NoMemory;
use std::alloc::Global;

/// `gen N live LIVE tokens TOKENS`
fn summary_line(alloc: Global, count: u32, live: u64, tokens: u64) -> Result<Vec<u8>, NoMemory>
    ensures { IfOk result (λ line. line.items ≡ summary_line count live tokens) }
{
    let count = count.to_string(alloc)?;
    let live = live.to_string(alloc)?;
    let tokens = tokens.to_string(alloc)?;
    let mut line = b"gen ".to_vec(alloc)?;
    line.extend_from_slice(count.as_bytes())?;
    line.extend_from_slice(b" live ")?;
    line.extend_from_slice(live.as_bytes())?;
    line.extend_from_slice(b" tokens ")?;
    line.extend_from_slice(tokens.as_bytes())?;
    line.push(b'\n')?;
    Ok(line)
}

/// The lines of the results that a reply shows. Another reply shows none.
#[tactic(auto, using(desk::proofs::LineLemmas::without_labels))]
fn reply_lines(alloc: Global, reply: &Reply) -> Result<Vec<u8>, NoMemory>
    requires { IsReply reply.now }
    ensures { IfOk result (λ text. text.items ≡ reply_lines reply.now) }
{
    match reply {
        Reply::Results(_, scale, hits) => result_lines(alloc, &None, *scale, hits),
        Reply::Added(..)
        | Reply::Deleted(_)
        | Reply::Flushed(_)
        | Reply::Merging(_)
        | Reply::Turned(..)
        | Reply::Merged(_)
        | Reply::Opened(..)
        | Reply::Stepped(..)
        | Reply::Explained(_)
        | Reply::Extents(_)
        | Reply::Closed(_)
        | Reply::Ended(_)
        | Reply::Refused(_) => Ok(Vec::new(alloc)),
    }
}

/// How many documents of so many are live, and the results that are shown.
pub(crate) fn gen_text(alloc: Global, count: u32, reply: Reply) -> Result<Vec<u8>, NoMemory>
    requires few { count ≤ MAX_GENERATED }
    requires form { IsReply reply }
    ensures { IfOk result (λ text. text.items ≡ summary_text count (kept_documents count) ++ reply_lines reply) }
{
    let lines = reply_lines(alloc, &reply)?;
    let mut text = summary_line(alloc, count, live_count(count), live_tokens(count))?;
    text.extend_from_slice(&lines)?;
    Ok(text)
}
