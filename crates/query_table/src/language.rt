// What is read of a text, printed.
use anyhow::{Result, bail};
use query_language::{QueryFault, canonical_query, print_expr, print_query, read_expr, read_query};
use ri_base::Bytes;
use std::alloc::Global;

fn told(alloc: Global, printed: &Bytes) -> Result<String> {
    let text = std::str::from_utf8(printed.as_slice())?;
    Ok(format!(in alloc; "= {text}")?)
}

/// The kind of a fault and its place.
pub fn fault(alloc: Global, fault: QueryFault) -> Result<String> {
    match fault {
        QueryFault::Refused { kind, place } => Ok(format!(in alloc; "! {kind:?} {place}")?),
        QueryFault::Memory => bail!("out of memory"),
    }
}

pub fn query(alloc: Global, text: &str) -> Result<String> {
    match read_query(alloc, text) {
        Ok(query) => told(alloc, &print_query(alloc, &query)?),
        Err(found) => fault(alloc, found),
    }
}

pub fn expr(alloc: Global, text: &str) -> Result<String> {
    match read_expr(alloc, text) {
        Ok(x) => told(alloc, &print_expr(alloc, &x)?),
        Err(found) => fault(alloc, found),
    }
}

pub fn clone(alloc: Global, text: &str) -> Result<String> {
    match read_query(alloc, text) {
        Ok(query) => told(alloc, &print_query(alloc, &query.clone_in(alloc)?)?),
        Err(found) => fault(alloc, found),
    }
}

pub fn canonical(alloc: Global, text: &str) -> Result<String> {
    match canonical_query(alloc, text) {
        Ok(printed) => told(alloc, &printed),
        Err(found) => fault(alloc, found),
    }
}
