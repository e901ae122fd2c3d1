//! The extents of cases. A line of standard input is `TOKENS | FIELDS | EXPRESSION`: the tokens of a document, its
//! fields, as `name:begin:end`, and an expression with its operators behind their arguments. White space stands between
//! words; a token `a*3` stands for `a a a`. Each line is written with the extents behind it, which are the same all at
//! once and one by one.
#![tactic(auto)]

mod document;
mod expression;

use anyhow::{Context, Result, bail};
use document::document;
use expression::expression;
use extent_ops::{ExtentIter, extents};
use memory_index::MemIndex;
use ri_base::limits::MAX_HELD_TOKENS;
use ri_base::{Doc, ExtentExpr, Extents, Postings, Sealed};
use std::alloc::Global;

/// Of more extents only their number is written.
const MOST_SHOWN: usize = 100;

/// An index of this document alone.
fn sealed(alloc: Global, doc: &Doc) -> Result<Sealed> {
    let mut index = MemIndex::new(alloc, 1)?;
    if index.token_count() + u64::from(doc.len()) > MAX_HELD_TOKENS
        || index.add(alloc, doc).is_err()
    {
        bail!("not added");
    }
    match index.seal(alloc) {
        Ok(sealed) => Ok(sealed),
        Err(_) => bail!("not sealed"),
    }
}

fn at_once(alloc: Global, expr: &ExtentExpr, part: &mut Sealed) -> Result<Extents> {
    if part.docs() == 0 {
        bail!("no document");
    }
    match extents(alloc, expr, part, 0) {
        Ok(found) => Ok(found),
        Err(_) => bail!("not read"),
    }
}

fn iterator_of(alloc: Global, expr: &ExtentExpr, part: &mut Sealed) -> Result<ExtentIter> {
    if part.docs() == 0 {
        bail!("no document");
    }
    match ExtentIter::new(alloc, expr, part, 0) {
        Ok(iter) => Ok(iter),
        Err(_) => bail!("not read"),
    }
}

/// Stops where the iterator gives other extents than these.
fn compare(iter: &mut ExtentIter, found: &Extents) -> Result<()> {
    for x in found.as_slice() {
        if iter.next_extent().ok() != Some(Some(*x)) {
            bail!("another extent one by one");
        }
    }
    if iter.next_extent().ok() != Some(None) {
        bail!("more extents one by one");
    }
    Ok(())
}

/// The extents, which are the same in both ways.
fn compared(alloc: Global, expr: &ExtentExpr, part: &mut Sealed) -> Result<Extents> {
    let found = at_once(alloc, expr, part)?;
    let mut iter = iterator_of(alloc, expr, part)?;
    compare(&mut iter, &found)?;
    Ok(found)
}

fn extents_of(alloc: Global, doc: &Doc, text: &str) -> Result<Extents> {
    let expr = expression(alloc, text)?;
    let mut part = sealed(alloc, doc)?;
    compared(alloc, &expr, &mut part)
}

/// The extents as `begin-end` with a space before each, or their number where they are many.
fn shown(alloc: Global, found: &Extents) -> Result<String> {
    let mut text = String::new(alloc);
    if found.len() > MOST_SHOWN {
        write!(text, " {} extents", found.len())?;
        return Ok(text);
    }
    for x in found.as_slice() {
        write!(text, " {}-{}", x.begin(), x.end())?;
    }
    Ok(text)
}

/// What is written behind a line.
fn answer(alloc: Global, line: &str) -> Result<String> {
    let mut parts = line.split('|');
    let tokens = parts.next().context("no tokens")?;
    let fields = parts.next().context("no fields")?;
    let text = parts.next().context("no expression")?;
    let doc = document(alloc, tokens, fields)?;
    let found = extents_of(alloc, &doc, text)?;
    shown(alloc, &found)
}

fn main(rt: HostRuntime) -> Result<()> {
    for line in rt.lines(rt.alloc()) {
        let line = line?;
        let found = answer(rt.alloc(), &line)?;
        println!(rt; "{line} |{found}")?;
    }
    Ok(())
}
