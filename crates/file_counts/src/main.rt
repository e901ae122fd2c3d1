//! Writes, reads or opens a segment again and again, counts words over it or searches it, so that this can be measured. It does so
//! once for each line of standard input, and says in a line what came of it.
//!
//! - `write N SPREAD`: the segment of N documents, whose words are told by SPREAD. A line that isn't empty is the name of a
//!   file, to which the bytes go.
//! - `read FILE`: the segment in this file.
//! - `open FOLDER N`: the segment 1 of N documents in this folder.
//! - `count FOLDER N`: that segment, which is opened once. Each line is a query, whose leaves are counted.
//! - `table FOLDER N`: the same, and tables of the ranges are made for the leaves.
//! - `search FOLDER N MOST STEP`: each line is a query that is searched for, for at most MOST results, by steps of STEP documents.
//! - `skip FOLDER N MOST STEP`: the same, by tables of the ranges that are made first.
//!
//! Where something fails, it ends with status 1.
#![tactic(auto)]

ghost use Rattle.std.specs.Prelude.{◌≤◌, length};
ghost use Rattle.ri_base.specs.Collection.{name_count};
ghost use Rattle.ri_base.specs.declared.limits.TheConstants.{MAX_PART_DOCS, MAX_PART_NAMES};

mod documents;
mod parts;
mod queries;
mod searches;
mod sums;
mod tasks;

use documents::sealed_of;
use parts::{Counted, docs_once_open};
use ri_base::{ArgList, Doc, FileName, Postings, Sealed, SegFault};
use searches::Wanted;
use seg_codec::{read_segment, seg_bytes};
use std::alloc::Global;
use std::process::ExitCode;
use std::{env, fs};
use store_ends::{FolderStore, Store};
use tasks::{Task, answer};

fn write_segment(rt: &HostRuntime, sealed: &Sealed, path: &str) -> Option<()>
    requires few { length sealed.now ≤ MAX_PART_DOCS }
    requires named { name_count sealed.now ≤ MAX_PART_NAMES }
{
    let bytes = seg_bytes(rt.alloc(), sealed).ok()?;
    if !path.is_empty() {
        fs::write(rt, path, bytes.as_slice()).ok()?;
    }
    println!(rt; "{} bytes", bytes.len()).ok()
}

fn write_segments(rt: &HostRuntime, documents: u32, spread: u64) -> Option<()> {
    let sealed = sealed_of(rt.alloc(), documents, spread)?;
    println!(rt;
        "{} documents, {} tokens",
        sealed.docs(),
        sealed.token_count()
    )
    .ok()?;
    for line in rt.lines(rt.alloc()) {
        let path = line.ok()?;
        write_segment(rt, &sealed, &path)?;
    }
    Some(())
}

/// How many tokens the documents have together.
fn token_count(documents: &[Doc]) -> u64 {
    let mut count = 0u64;
    for doc in documents {
        count = count.saturating_add(u64::from(doc.len()));
    }
    count
}

/// What is read of the bytes, or where they are broken.
fn shown(alloc: Global, bytes: &[u8]) -> Option<String> {
    match read_segment(alloc, bytes, FileName::Segment(1)) {
        Ok(found) => {
            let tokens = token_count(found.as_slice());
            format!(in alloc; "{} documents, {tokens} tokens", found.len()).ok()
        }
        Err(
            SegFault::Malformed {
                file: _,
                part,
                place,
            },
        ) => format!(in alloc; "{part:?} {place}").ok(),
        Err(_) => None,
    }
}

fn read_again(rt: &HostRuntime, bytes: &[u8]) -> Option<()> {
    let found = shown(rt.alloc(), bytes)?;
    println!(rt; "{found}").ok()
}

fn read_segments(rt: &HostRuntime, path: &str) -> Option<()> {
    let bytes = fs::read(rt, path).ok()?;
    println!(rt; "{} bytes", bytes.len()).ok()?;
    for line in rt.lines(rt.alloc()) {
        let _line = line.ok()?;
        read_again(rt, &bytes)?;
    }
    Some(())
}

fn open_again<T: Store>(rt: &HostRuntime, store: &mut T, docs: u32) -> Option<()> {
    let found = docs_once_open(rt.alloc(), store, docs)?;
    println!(rt; "{found} documents").ok()
}

fn open_segments(rt: &HostRuntime, folder: &str, docs: u32) -> Option<()> {
    let mut store = FolderStore::new(rt, folder).ok()?;
    println!(rt; "{folder}").ok()?;
    for line in rt.lines(rt.alloc()) {
        let _line = line.ok()?;
        open_again(rt, &mut store, docs)?;
    }
    Some(())
}

/// The task is done for the query.
fn say<T: Store>(
    rt: &HostRuntime,
    counted: &mut Counted,
    task: Task,
    text: &str,
    store: &mut T,
) -> Option<()> {
    let said = answer(rt.alloc(), counted, task, text, store)?;
    println!(rt; "{said}").ok()
}

/// The same for each line.
fn say_all<T: Store>(
    rt: &HostRuntime,
    counted: &mut Counted,
    task: Task,
    store: &mut T,
) -> Option<()> {
    for line in rt.lines(rt.alloc()) {
        let text = line.ok()?;
        say(rt, counted, task, &text, store)?;
    }
    Some(())
}

fn ask(rt: &HostRuntime, folder: &str, docs: u32, task: Task) -> Option<()> {
    let mut store = FolderStore::new(rt, folder).ok()?;
    let mut counted = Counted::new(rt.alloc(), &mut store, docs)?;
    println!(rt; "{folder}").ok()?;
    say_all(rt, &mut counted, task, &mut store)
}

/// What a search is wanted for, by the two numbers that stand behind the command's two words.
fn wanted(words: &ArgList, skips: bool) -> Option<Task> {
    let most = words.get(3)?.parse::<u32>().ok()?;
    let docs = words.get(4)?.parse::<u64>().ok()?;
    Some(Task::Search(Wanted { most, docs, skips }))
}

fn task_of(command: &str, words: &ArgList) -> Option<Task> {
    match command {
        "count" => Some(Task::Count),
        "table" => Some(Task::Table),
        "search" => wanted(words, false),
        "skip" => wanted(words, true),
        _ => None,
    }
}

/// Does what the words ask for, a command first.
fn run(rt: &HostRuntime, words: &ArgList) -> Option<()> {
    let command = words.get(0)?;
    let word = words.get(1)?;
    if command == "read" {
        return read_segments(rt, word);
    }
    let number = words.get(2)?;
    match command {
        "write" => write_segments(rt, word.parse::<u32>().ok()?, number.parse::<u64>().ok()?),
        "open" => open_segments(rt, word, number.parse::<u32>().ok()?),
        _ => {
            let task = task_of(command, words)?;
            ask(rt, word, number.parse::<u32>().ok()?, task)
        }
    }
}

/// The words behind the program's name.
fn words_of(rt: &HostRuntime) -> Option<ArgList> {
    let mut words = ArgList::new(rt.alloc());
    for word in env::args(rt).ok()?.skip(1) {
        words.push(&word).ok()?;
    }
    Some(words)
}

fn main(rt: HostRuntime) -> ExitCode {
    let done = match words_of(&rt) {
        Some(words) => run(&rt, &words),
        None => None,
    };
    match done {
        Some(()) => ExitCode::from(0),
        None => ExitCode::from(1),
    }
}
