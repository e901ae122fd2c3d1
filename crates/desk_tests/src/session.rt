// What a desk answers.
ghost use Rattle.std.specs.Prelude.{◌≡◌, length, true, IfOk, IfSome};
ghost use Rattle.ri_base.specs.Ratio.{ratio_of};
ghost use Rattle.session_events.specs.Events.{IsSessionEvent};
ghost use Rattle.desk.specs.Replied.{IsReply};
ghost use Rattle.smoothing.specs.Counts.{AreCounts};
ghost use Rattle.smoothing.specs.Fractions.{Computes, dirichlet};

use crate::events::event_of;
use crate::files::{FIRST, TURNED, put};
use belief_nodes::{BeliefNode, TablePlug};
use desk::{Desk, Reply, reply_text};
use holdings::Limits;
use repository::Repository;
use ri_base::{Docno, Fraction, SegFault};
use session_events::Event;
use smoothing::{Rule, RuleKind, dirichlet_fraction};
use std::alloc::Global;
use store_ends::Store;

/// At most so many documents a part, and so many documents and tokens in all, a hundred each at most.
pub fn limits_of(part_docs: u32, held_docs: u64, held_tokens: u64) -> Limits {
    Limits {
        part_docs: part_docs.clamp(1, 100),
        held_docs: held_docs.min(100),
        held_tokens: held_tokens.min(100),
    }
}

/// The text of what a desk answers to an event, or that the store failed; nothing where a file isn't what it must be.
fn text_of(alloc: Global, answer: Result<Reply, SegFault>) -> Option<Vec<u8>>
    requires { IfOk answer IsReply }
{
    match answer {
        Ok(reply) => reply_text(alloc, &reply).ok(),
        Err(SegFault::Store) => b"fault\n".to_vec(alloc).ok(),
        Err(_) => None,
    }
}

/// What is said of an event: the text of the answer, or that the desk may not be used.
fn said_of<F: Fn(u32, u32, u64, u64) -> Fraction, S: Store>(
    alloc: Global,
    desk: &mut Desk<F>,
    event: Event,
    store: &mut S,
    plugs: &mut [Box<dyn BeliefNode>],
) -> Option<Vec<u8>>
    requires rule { Computes F.pre F.post desk.old.rule.kind desk.old.rule.f }
    requires form { IsSessionEvent event }
    requires nine { length plugs.old ≡ 9 }
    ensures rule { desk.new.rule ≡ desk.old.rule }
    ensures nine { length plugs.new ≡ 9 }
{
    if desk.usable() {
        text_of(alloc, desk.event(alloc, event, store, plugs))
    } else {
        b"unusable\n".to_vec(alloc).ok()
    }
}

/// Puts another file in the place of the first segment. Nothing is said of it.
fn exchange<S: Store>(alloc: Global, store: &mut S) -> Option<Vec<u8>> {
    put(store, &(FIRST, TURNED))?;
    Some(Vec::new(alloc))
}

/// What is said of a line of a script, and of the line `exchange`.
fn said_of_line<F: Fn(u32, u32, u64, u64) -> Fraction, S: Store>(
    alloc: Global,
    desk: &mut Desk<F>,
    line: &str,
    store: &mut S,
    plugs: &mut [Box<dyn BeliefNode>],
) -> Option<Vec<u8>>
    requires rule { Computes F.pre F.post desk.old.rule.kind desk.old.rule.f }
    requires nine { length plugs.old ≡ 9 }
    ensures rule { desk.new.rule ≡ desk.old.rule }
    ensures nine { length plugs.new ≡ 9 }
{
    if line == "exchange" {
        return exchange(alloc, store);
    }
    match event_of(alloc, line) {
        Some(event) => said_of(alloc, desk, event, store, plugs),
        None => None,
    }
}

/// Puts a line and what is said of it behind the others.
fn put_said(out: &mut Vec<u8>, line: &str, said: &[u8]) -> Option<()> {
    out.extend_from_slice(b"> ").ok()?;
    out.extend_from_slice(line.as_bytes()).ok()?;
    out.push(b'\n').ok()?;
    out.extend_from_slice(said).ok()
}

/// Does a line of a script, and puts it and what is said of it behind the others, if something is.
fn put_line<F: Fn(u32, u32, u64, u64) -> Fraction, S: Store>(
    alloc: Global,
    desk: &mut Desk<F>,
    line: &str,
    store: &mut S,
    plugs: &mut [Box<dyn BeliefNode>],
    out: &mut Vec<u8>,
) -> bool
    requires rule { Computes F.pre F.post desk.old.rule.kind desk.old.rule.f }
    requires nine { length plugs.old ≡ 9 }
    ensures rule { desk.new.rule ≡ desk.old.rule }
    ensures nine { length plugs.new ≡ 9 }
{
    match said_of_line(alloc, desk, line, store, plugs) {
        Some(said) => put_said(out, line, &said).is_some(),
        None => false,
    }
}

/// Does the lines of a script, which begin with `> `. The answer is whether each is put.
fn put_lines<F: Fn(u32, u32, u64, u64) -> Fraction, S: Store>(
    alloc: Global,
    desk: &mut Desk<F>,
    script: &str,
    store: &mut S,
    plugs: &mut [Box<dyn BeliefNode>],
    out: &mut Vec<u8>,
) -> bool
    requires rule { Computes F.pre F.post desk.old.rule.kind desk.old.rule.f }
    requires nine { length plugs.old ≡ 9 }
{
    let mut are_put = true;
    for line in script.lines() {
        if let Some(line) = line.strip_prefix("> ") {
            are_put &= put_line(alloc, desk, line, store, plugs, out);
        }
    }
    are_put
}

/// The lines of a script with what is said of them.
fn all_said<F: Fn(u32, u32, u64, u64) -> Fraction, S: Store>(
    alloc: Global,
    desk: &mut Desk<F>,
    script: &str,
    store: &mut S,
    plugs: &mut [Box<dyn BeliefNode>],
) -> Option<Vec<u8>>
    requires rule { Computes F.pre F.post desk.old.rule.kind desk.old.rule.f }
    requires nine { length plugs.old ≡ 9 }
{
    let mut out = Vec::new(alloc);
    if put_lines(alloc, desk, script, store, plugs, &mut out) {
        Some(out)
    } else {
        None
    }
}

/// The repository of these files; nothing where it can't be opened.
fn opened<S: Store>(alloc: Global, store: &mut S, limits: Limits) -> Option<Repository>
    ensures { IfSome result (λ repository. repository.usable ≡ true) }
{
    let repository = Repository::open(alloc, store, limits).ok()??;
    if repository.usable() {
        Some(repository)
    } else {
        None
    }
}

/// The lines of a script with their replies, over this repository, where mu is 1.
fn session_over<S: Store>(
    alloc: Global,
    repository: Repository,
    script: &str,
    store: &mut S,
    plugs: &mut [Box<dyn BeliefNode>],
) -> Option<Vec<u8>>
    requires usable { repository.usable ≡ true }
    requires nine { length plugs.old ≡ 9 }
{
    let rule = Rule::new(
        RuleKind::Dirichlet { mu: 1 },
        |tf, len, cf, total| -> Fraction
            requires { AreCounts tf len cf total }
            ensures { ratio_of result ≡ dirichlet 1 tf len cf total }
        { dirichlet_fraction(1, tf, len, cf, total) },
    );
    match Desk::new(alloc, repository, rule) {
        Ok(mut desk) => all_said(alloc, &mut desk, script, store, plugs),
        Err(_) => None,
    }
}

/// The same of the repository of these files.
fn session_by<S: Store>(
    alloc: Global,
    store: &mut S,
    limits: Limits,
    script: &str,
    plugs: &mut [Box<dyn BeliefNode>],
) -> Option<Vec<u8>>
    requires nine { length plugs.old ≡ 9 }
{
    let repository = opened(alloc, store, limits)?;
    session_over(alloc, repository, script, store, plugs)
}

/// The prior `home` by its rows.
fn home(alloc: Global) -> Option<Box<TablePlug>> {
    let mut plug = TablePlug::new(alloc).ok()?;
    let docno = Docno::new(alloc, b"d1").ok()??;
    plug.take_row(alloc, &docno, Fraction { p: 1, q: 2 }).ok()?;
    plug.take_rest(Fraction { p: 1, q: 4 }).ok()?;
    Box::new(alloc, plug).ok()
}

/// Nine priors, each by these rows.
fn nine_plugs(alloc: Global) -> Option<Vec<Box<dyn BeliefNode>>>
    ensures { IfSome result (λ plugs. length plugs.items ≡ 9) }
{
    let mut plugs: Vec<Box<dyn BeliefNode>> = Vec::new(alloc);
    for _ in 0..9 {
        let plug = home(alloc)?;
        plugs.push(plug).ok()?;
    }
    if plugs.len() == 9 { Some(plugs) } else { None }
}

/// The lines of a script, which begin with `> `, with the replies of a desk to them, where mu is 1; nothing where the files of the store
/// can't be opened. Of the nine priors the first is `home`, and no text asks for a belief of the others.
pub fn session<S: Store>(
    alloc: Global,
    store: &mut S,
    limits: Limits,
    script: &str,
) -> Option<Vec<u8>> {
    let mut plugs = nine_plugs(alloc)?;
    session_by(alloc, store, limits, script, &mut plugs)
}
