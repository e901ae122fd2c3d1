// The expression of a case.
use anyhow::{Context, Result, bail};
use ri_base::{ExtentExpr, Name, Term};
use std::alloc::Global;

/// The last `count` expressions, in their order.
fn arguments(alloc: Global, stack: &mut Vec<ExtentExpr>, count: &str) -> Result<Vec<ExtentExpr>> {
    let count = count.parse::<usize>()?;
    let mut taken = Vec::new(alloc);
    for _ in 0..count {
        taken.push(stack.pop().context("too few arguments")?)?;
    }
    taken.reverse();
    Ok(taken)
}

fn name(alloc: Global, text: &str) -> Result<Name> {
    Ok(Name::new(alloc, text.as_bytes())?.context("no name")?)
}

fn term(alloc: Global, text: &str) -> Result<Term> {
    Ok(Term::new(alloc, text.as_bytes())?.context("no term")?)
}

/// The operator of a word over the last expressions, or the term of a word without a `:`.
fn operator(alloc: Global, stack: &mut Vec<ExtentExpr>, word: &str) -> Result<ExtentExpr> {
    let mut parts = word.split(':');
    let kind = parts.next().context("no operator")?;
    let Some(first) = parts.next() else {
        return Ok(ExtentExpr::Word(term(alloc, kind)?));
    };
    match (kind, parts.next()) {
        ("od", Some(count)) => {
            let n = first.parse::<u32>()?;
            Ok(ExtentExpr::Ordered(n, arguments(alloc, stack, count)?))
        }
        ("uw", Some(count)) => {
            let n = first.parse::<u32>()?;
            Ok(ExtentExpr::Unordered(n, arguments(alloc, stack, count)?))
        }
        ("syn", None) => Ok(ExtentExpr::Syn(arguments(alloc, stack, first)?)),
        ("band", None) => Ok(ExtentExpr::Band(arguments(alloc, stack, first)?)),
        ("any", None) => Ok(ExtentExpr::Any(name(alloc, first)?)),
        ("in", None) => {
            let x = stack.pop().context("no argument")?;
            Ok(ExtentExpr::InField(Box::new(alloc, x)?, name(alloc, first)?))
        }
        _ => bail!("no operator"),
    }
}

/// The expression of these words: a term, `any:NAME`, or behind its arguments `od:N:COUNT`, `uw:N:COUNT`, `syn:COUNT`,
/// `band:COUNT` or `in:NAME`.
pub fn expression(alloc: Global, text: &str) -> Result<ExtentExpr> {
    let mut stack = Vec::new(alloc);
    for word in text.split_whitespace() {
        let x = operator(alloc, &mut stack, word)?;
        stack.push(x)?;
    }
    let whole = stack.pop().context("no expression")?;
    if !stack.is_empty() {
        bail!("several expressions");
    }
    Ok(whole)
}
