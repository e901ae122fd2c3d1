// What is done with a query.
use crate::parts::Counted;
use crate::queries::query;
use crate::searches::{Wanted, results, searched};
use crate::sums::all_stats;
use ri_base::{Hit, LeafStats};
use std::alloc::Global;
use store_ends::Store;

/// What is done with each query.
#[derive(Clone, Copy)]
pub enum Task {
    /// Its leaves are counted.
    Count,
    /// They are counted, and the tables of the ranges are made for them.
    Table,
    /// It is searched for.
    Search(Wanted),
}

fn put_sums(text: &mut String, leaf: &LeafStats) -> Option<()> {
    if !text.is_empty() {
        text.push_str(", ").ok()?;
    }
    write!(text, "{} of {}", leaf.cf, leaf.total).ok()
}

/// How often each leaf occurs, and in how many words.
fn sums_text(alloc: Global, stats: &[LeafStats]) -> Option<String> {
    let mut text = String::new(alloc);
    for leaf in stats {
        put_sums(&mut text, leaf)?;
    }
    Some(text)
}

fn count<T: Store>(
    alloc: Global,
    counted: &mut Counted,
    text: &str,
    store: &mut T,
) -> Option<String> {
    let checked = query(alloc, text)?;
    let stats = all_stats(alloc, counted, &checked.leaves, store)?;
    sums_text(alloc, &stats)
}

fn make_tables<T: Store>(
    alloc: Global,
    counted: &mut Counted,
    text: &str,
    store: &mut T,
) -> Option<String> {
    let checked = query(alloc, text)?;
    let _stats = all_stats(alloc, counted, &checked.leaves, store)?;
    let tables = counted.tables(alloc, store, &checked.leaves)?;
    format!(in alloc; "{} tables", tables.len()).ok()
}

/// How many hits there are, and the key of the last one.
fn hits_text(alloc: Global, hits: &[Hit]) -> Option<String> {
    match hits.last() {
        Some(hit) => { format!(in alloc; "{} results, keys up to {}", hits.len(), hit.key).ok() }
        None => "no results".to_string(alloc).ok(),
    }
}

/// What came of the task for this query.
pub fn answer<T: Store>(
    alloc: Global,
    counted: &mut Counted,
    task: Task,
    text: &str,
    store: &mut T,
) -> Option<String> {
    match task {
        Task::Count => count(alloc, counted, text, store),
        Task::Table => make_tables(alloc, counted, text, store),
        Task::Search(wanted) => {
            let search = searched(alloc, counted, text, wanted, store)?;
            hits_text(alloc, results(&search)?.as_slice())
        }
    }
}
