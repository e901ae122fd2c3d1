// What is written of a reply.
ghost use Rattle.std.specs.Prelude.{◌≡◌, IfOk};
ghost use Rattle.desk.specs.Replied.{IsReply, is_refused, reply_piece, reply_text};

use crate::Reply;
use crate::lines::{count_line, credit_of, extents_text, reply_line, with_count, with_credit};
use crate::refusal_lines::refusal_text;
use crate::results::results_text;
use command_pieces::Reply as Piece;
use ranked_output::{Explained, explain_lines};
use ri_base::{Docno, Name, NoMemory};
use std::alloc::Global;

/// `added DOCNO LENGTH`
#[tactic(auto, unfolding(crate::specs::Replied::reply_text))]
fn added_text(alloc: Global, docno: &Docno, tokens: u32) -> Result<Vec<u8>, NoMemory>
    ensures { IfOk result (λ text. text.items ≡ reply_text (Reply.Added docno.now tokens)) }
{
    let rest = with_count(alloc, docno.as_bytes(), u64::from(tokens))?;
    reply_line(alloc, b"added", &rest)
}

/// `turned CREDIT of SIZE`
#[tactic(auto, unfolding(crate::specs::Replied::reply_text))]
fn turned_text(alloc: Global, credit: u64, size: u64) -> Result<Vec<u8>, NoMemory>
    ensures { IfOk result (λ text. text.items ≡ reply_text (Reply.Turned credit size)) }
{
    let rest = credit_of(alloc, credit, size)?;
    reply_line(alloc, b"turned", &rest)
}

/// `opened NAME LIVE`
#[tactic(auto, unfolding(crate::specs::Replied::reply_text))]
fn opened_text(alloc: Global, name: &Name, live: u64) -> Result<Vec<u8>, NoMemory>
    ensures { IfOk result (λ text. text.items ≡ reply_text (Reply.Opened name.now live)) }
{
    let rest = with_count(alloc, name.as_bytes(), live)?;
    reply_line(alloc, b"opened", &rest)
}

/// `stepped NAME CREDIT of LIVE`
#[tactic(auto, unfolding(crate::specs::Replied::reply_text))]
fn stepped_text(alloc: Global, name: &Name, credit: u64, live: u64) -> Result<Vec<u8>, NoMemory>
    ensures { IfOk result (λ text. text.items ≡ reply_text (Reply.Stepped name.now credit live)) }
{
    let rest = with_credit(alloc, name.as_bytes(), credit, live)?;
    reply_line(alloc, b"stepped", &rest)
}

/// The lines that explain a result.
#[tactic(auto, unfolding(crate::specs::Replied::reply_text))]
fn explanation_text(alloc: Global, explained: &Explained) -> Result<Vec<u8>, NoMemory>
    requires { IsReply (Reply.Explained explained.now) }
    ensures { IfOk result (λ text. text.items ≡ reply_text (Reply.Explained explained.now)) }
{
    Ok(explain_lines(alloc, explained)?.into_vec())
}

/// The text of a reply.
#[tactic(auto, unfolding(crate::specs::Replied::reply_text))]
pub fn reply_text(alloc: Global, reply: &Reply) -> Result<Vec<u8>, NoMemory>
    requires { IsReply reply.now }
    ensures { IfOk result (λ text. text.items ≡ reply_text reply.now) }
{
    match reply {
        Reply::Added(docno, tokens) => added_text(alloc, docno, *tokens),
        Reply::Deleted(docno) => reply_line(alloc, b"deleted", docno.as_bytes()),
        Reply::Flushed(live) => count_line(alloc, b"flushed", *live),
        Reply::Merging(size) => count_line(alloc, b"merging", *size),
        Reply::Turned(credit, size) => turned_text(alloc, *credit, *size),
        Reply::Merged(live) => count_line(alloc, b"merged", *live),
        Reply::Opened(name, live) => opened_text(alloc, name, *live),
        Reply::Stepped(name, credit, live) => stepped_text(alloc, name, *credit, *live),
        Reply::Results(name, scale, hits) => results_text(alloc, name, *scale, hits),
        Reply::Explained(result) => explanation_text(alloc, result),
        Reply::Extents(lines) => extents_text(alloc, lines),
        Reply::Closed(name) => reply_line(alloc, b"closed", name.as_bytes()),
        Reply::Ended(live) => count_line(alloc, b"ended", *live),
        Reply::Refused(refusal) => refusal_text(alloc, refusal),
    }
}

fn is_refused(reply: &Reply) -> bool
    ensures { result ≡ is_refused reply.now }
{
    match reply {
        Reply::Refused(_) => true,
        Reply::Added(_, _)
        | Reply::Deleted(_)
        | Reply::Flushed(_)
        | Reply::Merging(_)
        | Reply::Turned(_, _)
        | Reply::Merged(_)
        | Reply::Opened(_, _)
        | Reply::Stepped(_, _, _)
        | Reply::Results(_, _, _)
        | Reply::Explained(_)
        | Reply::Extents(_)
        | Reply::Closed(_)
        | Reply::Ended(_) => false,
    }
}

/// What is written of a reply.
pub fn piece_of(alloc: Global, reply: &Reply) -> Result<Piece, NoMemory>
    requires { IsReply reply.now }
    ensures { IfOk result (λ piece. piece ≡ reply_piece reply.now) }
{
    let text = reply_text(alloc, reply)?;
    if is_refused(reply) {
        return Ok(Piece::refused(text));
    }
    Ok(Piece::told(text))
}
