// The rows of a prior are set, over a store.
ghost use Rattle.std.specs.Prelude.{◌≡◌, [], true, IfErr, IfOk, OnOk};
ghost use Rattle.store_ends.specs.Files.{GoesOn};
ghost use Rattle.command_pieces.specs.CommandFaults.{IsChangeFault};
ghost use Rattle.repository.specs.Priors.{number_named, with_prior};
ghost use Rattle.repository.specs.Stale.{with_old};
ghost use Rattle.repository.specs.Stands.{Collection};
ghost use Rattle.repository.specs.Writes.{AreGone};
ghost use Rattle.collection_commands.specs.Ahead.{IsAhead};
ghost use Rattle.collection_commands.specs.PriorSetting.{MaySet, prior_text, setting_pieces};
ghost use Rattle.collection_commands.specs.Steps.{CountsFault, Does};

use crate::sweeping::sweep;
use command_pieces::{CommandFault, Reply};
use manifest::PriorRows;
use repository::Repository;
use ri_base::{Name, NoMemory};
use ri_ends::Sink;
use std::alloc::Global;
use store_ends::Store;

fn prior_text(alloc: Global, name: &Name, rows: u64) -> Result<Vec<u8>, NoMemory>
    ensures { IfOk result (λ text. text.items ≡ prior_text name.now rows) }
{
    let count = rows.to_string(alloc)?;
    let mut text = b"prior ".to_vec(alloc)?;
    text.extend_from_slice(name.as_bytes())?;
    text.push(b' ')?;
    text.extend_from_slice(count.as_bytes())?;
    text.push(b'\n')?;
    Ok(text)
}

/// Sets the rows of a prior for whose name there is room, and tells how many they are.
fn set_and_tell<K: Sink, T: Store>(
    alloc: Global,
    repository: &mut Repository,
    name: Name,
    rows: &PriorRows,
    sink: &mut K,
    store: &mut T,
) -> Result<(), CommandFault>
    requires settable { MaySet repository.old name }
    ensures does { Does (T.files store.old) repository.old (λ c. setting_pieces c name rows.now) result (K.taken sink.old) (K.taken sink.new) (T.files store.new) (T.since store.old) (T.since store.new) }
    ensures ahead { (kept c : Collection) → IsAhead (T.files store.old) repository.old kept c
        → OnOk result (IsAhead (T.files store.new) repository.new (with_prior c name rows.now) (with_prior c name rows.now)) }
    ensures stale { OnOk result (repository.new.stale ≡ with_old repository.old.stale (number_named repository.old.priors name)) }
    ensures usable { OnOk result (repository.new.usable ≡ true) }
    ensures only { IfErr result IsChangeFault }
    ensures goes_on { GoesOn T.layers T.clock T.longest T.held store.old store.new }
    ensures write { CountsFault CommandFault.Write result (K.faults sink.old) (K.faults sink.new) }
    ensures store { CountsFault CommandFault.Store result (T.faults store.old) (T.faults store.new) }
{
    let Ok(text) = prior_text(alloc, &name, rows.rows().len() as u64) else {
        return Err(CommandFault::Memory);
    };
    match repository.set_prior(alloc, store, name, rows) {
        Ok(true) => {}
        Ok(false) => unreachable!(),
        Err(fault) => return Err(CommandFault::of_files(fault)),
    }
    match Reply::told(text).write(sink) {
        Ok(()) => Ok(()),
        Err(fault) => Err(CommandFault::of_items(fault)),
    }
}

/// The same, and then it sweeps.
pub fn set_rows<K: Sink, T: Store>(
    alloc: Global,
    repository: &mut Repository,
    name: Name,
    rows: &PriorRows,
    sink: &mut K,
    store: &mut T,
) -> Result<(), CommandFault>
    requires settable { MaySet repository.old name }
    ensures does { Does (T.files store.old) repository.old (λ c. setting_pieces c name rows.now) result (K.taken sink.old) (K.taken sink.new) (T.files store.new) (T.since store.old) (T.since store.new) }
    ensures swept { OnOk result (AreGone repository.old.stale (T.files store.new)) }
    ensures none_stale { OnOk result (repository.new.stale ≡ []) }
    ensures only { IfErr result IsChangeFault }
    ensures goes_on { GoesOn T.layers T.clock T.longest T.held store.old store.new }
    ensures write { CountsFault CommandFault.Write result (K.faults sink.old) (K.faults sink.new) }
    ensures store { CountsFault CommandFault.Store result (T.faults store.old) (T.faults store.new) }
{
    match set_and_tell(alloc, repository, name, rows, sink, store) {
        Ok(()) => {}
        Err(fault) => return Err(fault),
    }
    match sweep(alloc, repository, store) {
        Ok(()) => Ok(()),
        Err(fault) => Err(fault),
    }
}
