// The command `merge` on a repository that is open.
ghost use Rattle.std.specs.Prelude.{◌≡◌, ◌≤◌, ◌≢◌, [], None, true, IfErr, IfOk, IsErrOf, OnOk, Option, Err};
ghost use Rattle.ri_ends.specs.Causes.{Rose};
ghost use Rattle.store_ends.specs.Files.{Files, GoesOn, IsQuiet, Leaves};
ghost use Rattle.command_pieces.specs.CommandFaults.{IsBrokenBy, IsDamage};
ghost use Rattle.command_pieces.specs.Pieces.{Finished, StandsAlong};
ghost use Rattle.repository.specs.Merges.{without_dead};
ghost use Rattle.repository.specs.RealLimits.{StandsFor};
ghost use Rattle.repository.specs.Stands.{Collection};
ghost use Rattle.repository.specs.States.{IsStateIntact, ReadsAs};
ghost use Rattle.collection_commands.specs.Ahead.{IsAhead};
ghost use Rattle.collection_commands.specs.Merging.{IsMergeFault, merge_pieces, merged_piece, merged_text};
ghost use Rattle.collection_commands.specs.Steps.{CountsFault, Does};

use crate::sweeping::sweep;
use command_pieces::{CommandFault, Reply};
use repository::{Repository, merge_whole};
use ri_base::NoMemory;
use ri_ends::Sink;
use std::alloc::Global;
use store_ends::Store;

fn merged_text(alloc: Global, live: u64) -> Result<Vec<u8>, NoMemory>
    ensures { IfOk result (λ text. text.items ≡ merged_text live) }
{
    let count = live.to_string(alloc)?;
    let mut text = b"merged ".to_vec(alloc)?;
    text.extend_from_slice(count.as_bytes())?;
    text.push(b'\n')?;
    Ok(text)
}

/// How many documents are live once they are merged.
fn merged_reply(alloc: Global, repository: &Repository) -> Result<Reply, NoMemory>
    ensures { (told : Option Files) (c : Collection) → ReadsAs told repository.now (without_dead c) → IfOk result (λ reply. reply ≡ merged_piece c) }
{
    Ok(Reply::told(merged_text(alloc, repository.live_count())?))
}

/// Copies the live documents into new parts, commits these, and tells how many documents are live.
fn merge_and_tell<K: Sink, T: Store>(
    alloc: Global,
    repository: &mut Repository,
    sink: &mut K,
    store: &mut T,
) -> Result<(), CommandFault>
    requires usable { repository.old.usable ≡ true }
    requires none { repository.old.merge ≡ None }
    ensures does { Does (T.files store.old) repository.old merge_pieces result (K.taken sink.old) (K.taken sink.new) (T.files store.new) (T.since store.old) (T.since store.new) }
    ensures ahead { (kept c : Collection) → IsAhead (T.files store.old) repository.old kept c → OnOk result (IsAhead (T.files store.new) repository.new (without_dead c) (without_dead c)) }
    ensures only { IfErr result IsMergeFault }

    // Damage is found before anything is written, and only in files that aren't read as they were put.
    ensures damage { IfErr result (λ fault. IsDamage fault → IsQuiet T.files T.layers T.clock T.since T.longest T.held store.old store.new × (sink.new ≡ sink.old)) }
    ensures honest { IsStateIntact (T.files store.old) repository.old → IfErr result (λ fault. IsDamage fault → ⊥) }
    ensures usable { OnOk result (repository.new.usable ≡ true) }
    ensures goes_on { GoesOn T.layers T.clock T.longest T.held store.old store.new }
    ensures write { CountsFault CommandFault.Write result (K.faults sink.old) (K.faults sink.new) }
    ensures store { IsErrOf result CommandFault.Store → Rose (T.faults store.old) (T.faults store.new) }
    ensures store_later { T.faults store.old ≤ T.faults store.new }
{
    match merge_whole(alloc, repository, store) {
        Ok(()) => {}
        Err(fault) => return Err(CommandFault::of_files(fault)),
    }
    let Ok(reply) = merged_reply(alloc, repository) else {
        return Err(CommandFault::Memory);
    };
    match reply.write(sink) {
        Ok(()) => Ok(()),
        Err(fault) => Err(CommandFault::of_items(fault)),
    }
}

/// Merges the live documents of a repository into new parts, tells how many they are, and sweeps.
pub fn merge<K: Sink, T: Store>(
    alloc: Global,
    repository: &mut Repository,
    sink: &mut K,
    store: &mut T,
) -> Result<(), CommandFault>
    requires usable { repository.old.usable ≡ true }
    requires none { repository.old.merge ≡ None }
    ensures finished { (c : Collection) → IsAhead (T.files store.old) repository.old c c
        → OnOk result (Finished StandsFor c (merge_pieces c) (K.taken sink.old) (K.taken sink.new) (T.files store.new)) }
    ensures broken { (c : Collection) → IsAhead (T.files store.old) repository.old c c
        → IfErr result (λ fault. IsBrokenBy fault StandsFor c (merge_pieces c) (K.taken sink.old) (K.taken sink.new) (T.files store.new)) }
    ensures stops { (c : Collection) → IsAhead (T.files store.old) repository.old c c
        → Leaves (T.since store.old) (T.since store.new) (StandsAlong StandsFor c (merge_pieces c)) }
    ensures none_stale { OnOk result (repository.new.stale ≡ []) }
    ensures only { IfErr result IsMergeFault }

    // Damage is found before anything is written, and only in files that aren't read as they were put.
    ensures damage { IfErr result (λ fault. IsDamage fault → IsQuiet T.files T.layers T.clock T.since T.longest T.held store.old store.new × (sink.new ≡ sink.old)) }
    ensures honest { IsStateIntact (T.files store.old) repository.old → IfErr result (λ fault. IsDamage fault → ⊥) }
    ensures goes_on { GoesOn T.layers T.clock T.longest T.held store.old store.new }
    ensures write { IsErrOf result CommandFault.Write → Rose (K.faults sink.old) (K.faults sink.new) }
    ensures store { IsErrOf result CommandFault.Store → Rose (T.faults store.old) (T.faults store.new) }
    ensures write_later { K.faults sink.old ≤ K.faults sink.new }
    ensures store_later { T.faults store.old ≤ T.faults store.new }
    ensures write_same { result ≢ Err CommandFault.Write → K.faults sink.new ≡ K.faults sink.old }
{
    match merge_and_tell(alloc, repository, sink, store) {
        Ok(()) => {}
        Err(fault) => return Err(fault),
    }
    match sweep(alloc, repository, store) {
        Ok(()) => Ok(()),
        Err(fault) => Err(fault),
    }
}
