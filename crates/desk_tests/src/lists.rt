// Random lists of events.
use crate::deeds::{Chance, Deed, put_deed};
use crate::files::{WITH_HOME, store_of};
use crate::lines::are_lines;
use crate::model::{HELD_DOCS, HELD_TOKENS, Model};
use crate::session::{limits_of, session};
use std::alloc::{AllocError, Global};

/// As many deeds are in a list, and behind them the end.
const DEEDS: usize = 60;

/// Puts the line of a deed, and what is told of it by the plain definition.
fn put_both(
    alloc: Global,
    model: &mut Model,
    out: &mut String,
    deed: Deed,
) -> Result<(), AllocError> {
    put_deed(alloc, out, deed)?;
    model.put_told(alloc, out, deed)
}

/// The same of all deeds of the list of this number. Every fourth list has more queries than may be open.
fn put_list(
    alloc: Global,
    model: &mut Model,
    out: &mut String,
    list: u64,
) -> Result<(), AllocError> {
    let names = if list % 4 == 0 { 24 } else { 5 };
    let mut chance = Chance { state: list };
    for _ in 0..DEEDS {
        put_both(alloc, model, out, chance.deed(names))?;
    }
    put_both(alloc, model, out, Deed::End)
}

/// The lines of the list of this number with what is told of them by the plain definition.
fn wanted(alloc: Global, list: u64) -> Option<String> {
    let mut model = Model::new(alloc);
    let mut out = String::new(alloc);
    match put_list(alloc, &mut model, &mut out, list) {
        Ok(()) => Some(out),
        Err(_) => None,
    }
}

/// Whether a desk does the list of this number as the plain definition says.
fn is_done_so(alloc: Global, list: u64) -> Option<bool> {
    let wanted = wanted(alloc, list)?;
    let mut store = store_of(alloc, WITH_HOME, Vec::new(alloc))?;
    let limits = limits_of(2, HELD_DOCS as u64, HELD_TOKENS as u64);
    let found = session(alloc, &mut store, limits, wanted.as_str())?;
    Some(are_lines(std::str::from_utf8(&found).ok()?, wanted.as_str()))
}

/// The first of these lists that is done otherwise, if there is one.
fn first_wrong(alloc: Global, first: u64, last: u64) -> Option<u64> {
    (first..=last).find(|list| is_done_so(alloc, *list) != Some(true))
}

#[test]
fn first_lists(rt: HostRuntime) {
    assert_eq!(rt; first_wrong(rt.alloc(), 1, 25), None);
}

#[test]
fn second_lists(rt: HostRuntime) {
    assert_eq!(rt; first_wrong(rt.alloc(), 26, 50), None);
}

#[test]
fn third_lists(rt: HostRuntime) {
    assert_eq!(rt; first_wrong(rt.alloc(), 51, 75), None);
}

#[test]
fn fourth_lists(rt: HostRuntime) {
    assert_eq!(rt; first_wrong(rt.alloc(), 76, 100), None);
}
