//! The program: runs the command of its words over standard input, standard output and a folder.
#![tactic(auto)]

ghost use Rattle.std.specs.Prelude.{◌≡◌, IfOk};
ghost use Rattle.belief_nodes.specs.Priors.{no_prior};

#[cfg(test)]
mod failing;
#[cfg(test)]
mod gen_tests;
#[cfg(test)]
mod merge_tests;
#[cfg(test)]
mod session_tests;
#[cfg(test)]
mod store_tests;
#[cfg(test)]
mod tests;

use belief_nodes::{BeliefNode, TablePlug};
use command_words::{Words, read_words};
use desk::length_plug;
use indri_app::{Status, run};
use ri_base::{ArgList, NoMemory};
use ri_ends::{Sink, Source, StdSink, StdSource};
use std::alloc::{AllocError, Global};
use std::io::ErrorKind;
use std::process::ExitCode;
use std::{env, fs};
use store_ends::{FolderStore, Store};

/// The words behind the program's name. Where one isn't UTF-8 there are none, so that they are no command.
fn words_of(rt: &HostRuntime) -> Result<ArgList, NoMemory> {
    let mut words = ArgList::new(rt.alloc());
    match env::args(rt) {
        Ok(args) => {
            for word in args.skip(1) {
                words.push(&word)?;
            }
            Ok(words)
        }
        Err(error) if error.kind() == ErrorKind::OutOfMemory => Err(AllocError),
        Err(_) => Ok(words),
    }
}

/// A prior that can be stored. It has no rows before a repository is opened.
fn stored(alloc: Global) -> Result<Box<TablePlug>, NoMemory>
    ensures { IfOk result (λ plug. ⟦<TablePlug as BeliefNode>⟧.meaning plug.value ≡ no_prior) }
{
    let table = TablePlug::new(alloc)?;
    Ok(Box::new(alloc, table)?)
}

/// Runs the command of the words with the nine priors of the program, the last of which is that of lengths.
fn run_words<S: Source, K: Sink, T: Store>(
    alloc: Global,
    words: &ArgList,
    source: &mut S,
    sink: &mut K,
    store: &mut T,
) -> Result<Status, NoMemory> {
    let lengths = Box::new(alloc, length_plug(alloc)?)?;
    let mut plugs: [Box<dyn BeliefNode>; 9] = [
        stored(alloc)?,
        stored(alloc)?,
        stored(alloc)?,
        stored(alloc)?,
        stored(alloc)?,
        stored(alloc)?,
        stored(alloc)?,
        stored(alloc)?,
        lengths,
    ];
    Ok(run(alloc, words, source, sink, store, &mut plugs))
}

/// The folder that the words name, and the present one where there are none.
fn folder_of(words: &ArgList) -> &str {
    match words.get(0) {
        Some(folder) => folder,
        None => ".",
    }
}

/// Whether the words ask for a command that makes a collection.
fn makes_collection(alloc: Global, words: &ArgList) -> bool {
    match read_words(alloc, words) {
        Ok(Some(Words::Create | Words::Gen(_))) => true,
        Ok(_) | Err(_) => false,
    }
}

/// Makes the folder of such a command where it isn't there. Where that fails, the store tells of it.
fn make_folder(rt: &HostRuntime, words: &ArgList) {
    if makes_collection(rt.alloc(), words) {
        let _ = fs::create_dir(rt, folder_of(words));
    }
}

/// Runs the command of the program's words over standard input, standard output and the folder that they name.
fn run_main(rt: &HostRuntime) -> Result<Status, NoMemory> {
    let words = words_of(rt)?;
    let mut source = StdSource::new(rt.stdin());
    let mut sink = StdSink::new(rt.stdout());
    make_folder(rt, &words);
    let mut store = FolderStore::new(rt, folder_of(&words))?;
    run_words(rt.alloc(), &words, &mut source, &mut sink, &mut store)
}

fn main(rt: HostRuntime) -> ExitCode {
    let status = match run_main(&rt) {
        Ok(status) => status,
        Err(AllocError) => Status::Memory,
    };
    ExitCode::from(status.code())
}
