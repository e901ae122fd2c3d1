//! Cases of the query language and of the check of a query. A line of standard input is a word and behind one space a
//! text, in which `\t`, `\n`, `\r` and `\f` stand for tab, LF, CR and FF. Each line is written, and behind it one that
//! says what is found: `= ` and an answer, or `! ` and a fault.
//!
//! - `query`, `expr`: the text is read and printed. `clone`: a clone of what was read is printed. `canonical`: the
//!   canonical text.
//! - `priors`: the names of the priors that the next lines know.
//! - `scales`: the scale of the checked query, and its tree with the scales of its operators (`c`, `w` and `m` are
//!   `#combine`, `#weight` and `#max`). `copy`: the same of a clone. `leaves`: its leaves. `parts`: how many filters it
//!   has, and its range.
#![tactic(auto)]

mod check;
mod language;

use anyhow::{Result, bail};
use ri_base::Name;
use std::alloc::Global;

/// The text for which an escaped one stands.
fn unescaped(alloc: Global, text: &str) -> Result<String> {
    let mut plain = String::new(alloc);
    let mut is_escaped = false;
    for c in text.chars() {
        let next = match c {
            't' if is_escaped => '\t',
            'n' if is_escaped => '\n',
            'r' if is_escaped => '\r',
            'f' if is_escaped => '\x0c',
            _ => c,
        };
        is_escaped = c == '\\';
        if !is_escaped {
            plain.push(next)?;
        }
    }
    Ok(plain)
}

/// The names of priors.
fn names_of(alloc: Global, text: &str) -> Result<Vec<Name>> {
    let mut names = Vec::new(alloc);
    for word in text.split_whitespace() {
        match Name::new(alloc, word.as_bytes())? {
            Some(name) => names.push(name)?,
            None => bail!("no name"),
        }
    }
    Ok(names)
}

fn answer(alloc: Global, word: &str, text: &str, priors: &[Name]) -> Result<String> {
    match word {
        "query" => language::query(alloc, text),
        "expr" => language::expr(alloc, text),
        "clone" => language::clone(alloc, text),
        "canonical" => language::canonical(alloc, text),
        _ => check::answer(alloc, word, text, priors),
    }
}

fn main(rt: HostRuntime) -> Result<()> {
    let mut priors = Vec::new(rt.alloc());
    for line in rt.lines(rt.alloc()) {
        let line = line?;
        let Some((word, escaped)) = line.split_once(' ') else {
            bail!("no text");
        };
        let text = unescaped(rt.alloc(), escaped)?;
        println!(rt; "{line}")?;
        if word == "priors" {
            priors = names_of(rt.alloc(), &text)?;
        } else {
            let found = answer(rt.alloc(), word, &text, &priors)?;
            println!(rt; "{found}")?;
        }
    }
    Ok(())
}
