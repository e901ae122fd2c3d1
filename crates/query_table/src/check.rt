// The checked query of a text.
use crate::language::fault;
use anyhow::{Result, bail};
use query_check::{CheckFault, Checked, LeafKind, Tree, check};
use query_language::{print_expr, read_query};
use ri_base::{Name, Range};
use std::alloc::Global;

/// Appends a space, unless a bracket was opened just now.
fn push_space(out: &mut String) -> Result<()> {
    if !out.as_str().as_bytes().ends_with(b"(") {
        out.push_str(" ")?;
    }
    Ok(())
}

#[cycle(showing)]
fn push_tree(out: &mut String, tree: &Tree) -> Result<()> {
    match tree {
        Tree::Leaf(number) => {
            write!(out, "{number}")?;
            Ok(())
        }
        Tree::Combine(scale, all) => push_all(out, 'c', *scale, all),
        Tree::Max(scale, all) => push_all(out, 'm', *scale, all),
        Tree::Weight(scale, all) => push_weighted(out, *scale, all),
    }
}

#[cycle(showing)]
fn push_all(out: &mut String, kind: char, scale: u64, all: &[Tree]) -> Result<()> {
    write!(out, "{kind}{scale}(")?;
    for tree in all {
        push_space(out)?;
        push_tree(out, tree)?;
    }
    out.push_str(")")?;
    Ok(())
}

#[cycle(showing)]
fn push_weighted(out: &mut String, scale: u64, all: &[(u64, Tree)]) -> Result<()> {
    write!(out, "w{scale}(")?;
    for (weight, tree) in all {
        push_space(out)?;
        write!(out, "{weight}*")?;
        push_tree(out, tree)?;
    }
    out.push_str(")")?;
    Ok(())
}

fn scales(alloc: Global, checked: &Checked) -> Result<String> {
    let mut out = format!(in alloc; "= {} ", checked.scale)?;
    push_tree(&mut out, &checked.tree)?;
    Ok(out)
}

fn push_leaf(alloc: Global, out: &mut String, leaf: &LeafKind) -> Result<()> {
    match leaf {
        LeafKind::Prior(number) => write!(out, "prior {number};")?,
        LeafKind::Extents(x, context) => {
            let printed = print_expr(alloc, x)?;
            out.push_str(std::str::from_utf8(printed.as_slice())?)?;
            if let Some(name) = context {
                let name = std::str::from_utf8(name.as_bytes())?;
                write!(out, ".({name})")?;
            }
            out.push_str(";")?;
        }
    }
    Ok(())
}

fn leaves(alloc: Global, checked: &Checked) -> Result<String> {
    let mut out = format!(in alloc; "= ")?;
    for leaf in &checked.leaves {
        push_leaf(alloc, &mut out, leaf)?;
    }
    Ok(out)
}

fn parts(alloc: Global, checked: &Checked) -> Result<String> {
    let filters = checked.filters.len();
    match &checked.range {
        Range::Whole => Ok(format!(in alloc; "= {filters} filters, whole documents")?),
        Range::Field(name) => {
            let name = std::str::from_utf8(name.as_bytes())?;
            Ok(format!(in alloc; "= {filters} filters, fields {name}")?)
        }
        Range::Passages { width, every } => {
            Ok(format!(in alloc; "= {filters} filters, passages {width}:{every}")?)
        }
    }
}

fn check_fault(alloc: Global, fault: &CheckFault) -> Result<String> {
    match fault {
        CheckFault::NoWeight => Ok(format!(in alloc; "! NoWeight")?),
        CheckFault::NoLeaf => Ok(format!(in alloc; "! NoLeaf")?),
        CheckFault::ScaleTooLarge => Ok(format!(in alloc; "! ScaleTooLarge")?),
        CheckFault::UnknownPrior { name } => {
            let name = std::str::from_utf8(name.as_bytes())?;
            Ok(format!(in alloc; "! UnknownPrior {name}")?)
        }
        CheckFault::Memory => bail!("out of memory"),
    }
}

fn shown(alloc: Global, word: &str, checked: &Checked) -> Result<String> {
    match word {
        "scales" => scales(alloc, checked),
        "copy" => scales(alloc, &checked.clone_in(alloc)?),
        "leaves" => leaves(alloc, checked),
        "parts" => parts(alloc, checked),
        _ => bail!("no such word"),
    }
}

/// What the word asks of the checked query of the text.
pub fn answer(alloc: Global, word: &str, text: &str, priors: &[Name]) -> Result<String> {
    if priors.len() > 8 {
        bail!("too many priors");
    }
    let query = match read_query(alloc, text) {
        Ok(query) => query,
        Err(found) => return fault(alloc, found),
    };
    match check(alloc, query, priors) {
        Ok(checked) => shown(alloc, word, &checked),
        Err(found) => check_fault(alloc, &found),
    }
}
