// The document of a case.
ghost use Rattle.std.specs.Prelude.{◌≡◌, ◌<◌, ◌≤◌, ◌⊎◌, IfOk, IsTrue};
ghost use Rattle.ri_base.specs.Documents.{AreFields};

use anyhow::{Context, Result, bail};
use ri_base::limits::{MAX_DOC_FIELDS, MAX_DOC_TOKENS};
use ri_base::{Doc, Docno, FieldSpan, Name, Spans, Term, Terms};
use std::alloc::Global;

/// Appends a token as often as its word says: once, or `a*3` three times.
fn push_word(alloc: Global, tokens: &mut Terms, word: &str) -> Result<()> {
    let mut parts = word.split('*');
    let text = parts.next().context("no term")?;
    let count = match parts.next() {
        None => 1,
        Some(digits) => digits.parse::<u32>()?,
    };
    for _ in 0..count {
        tokens.push(Term::new(alloc, text.as_bytes())?.context("no term")?)?;
    }
    Ok(())
}

fn tokens(alloc: Global, text: &str) -> Result<Terms> {
    let mut tokens = Terms::new(alloc);
    for word in text.split_whitespace() {
        push_word(alloc, &mut tokens, word)?;
    }
    Ok(tokens)
}

/// The field that `name:begin:end` says, where it has a token and ends by `length`.
fn field(alloc: Global, word: &str, length: u32) -> Result<FieldSpan>
    ensures { IfOk result (λ f. f.end ≤ length) }
{
    let mut parts = word.split(':');
    let name = parts.next().context("no name")?;
    let begin = parts.next().context("no begin")?.parse::<u32>()?;
    let end = parts.next().context("no end")?.parse::<u32>()?;
    let name = Name::new(alloc, name.as_bytes())?.context("no name")?;
    if begin >= end || end > length {
        bail!("no field");
    }
    Ok(FieldSpan::new(name, begin, end))
}

/// Whether a begin and an end stand behind others: the begin is greater, or the same and the end greater.
fn stands_behind(last: (u32, u32), next: (u32, u32)) -> bool
    ensures { IsTrue result → (last.0 < next.0) ⊎ (last.0 ≡ next.0) × (last.1 < next.1) }
{
    last.0 < next.0 || (last.0 == next.0 && last.1 < next.1)
}

/// The fields that words say, in order of begin and then end, no two of which have both alike.
fn fields(alloc: Global, text: &str, length: u32) -> Result<Spans>
    ensures { IfOk result (AreFields length) }
{
    let mut spans = Vec::new(alloc);
    let mut last = (0, 0);
    for word in text.split_whitespace() {
        let next = field(alloc, word, length)?;
        let ends = (next.begin(), next.end());
        if spans.len() >= MAX_DOC_FIELDS || !stands_behind(last, ends) {
            bail!("no fields in order");
        }
        spans.push(next)?;
        last = ends;
    }
    Ok(Spans::of(spans))
}

/// The document of these tokens and fields.
pub fn document(alloc: Global, tokens_text: &str, fields_text: &str) -> Result<Doc> {
    let docno = Docno::new(alloc, b"d")?.context("no docno")?;
    let tokens = tokens(alloc, tokens_text)?;
    if tokens.len() > MAX_DOC_TOKENS {
        bail!("too many tokens");
    }
    let fields = fields(alloc, fields_text, tokens.len() as u32)?;
    Ok(Doc::new(alloc, docno, tokens, fields)?)
}
