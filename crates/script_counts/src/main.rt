//! Counts the items of the session script at standard input, so that reading one can be measured.
#![tactic(auto)]

mod counts;

use counts::count_items;
use ri_ends::StdSource;
use std::process::ExitCode;

fn main(rt: HostRuntime) -> ExitCode {
    let mut source = StdSource::new(rt.stdin());
    let Ok(counts) = count_items(rt.alloc(), &mut source) else {
        return ExitCode::from(1);
    };
    let documents = counts.documents;
    let events = counts.events;
    let refused = counts.refused;
    match println!(rt; "{documents} documents, {events} other events, {refused} refused") {
        Ok(()) => ExitCode::from(0),
        Err(_) => ExitCode::from(1),
    }
}
