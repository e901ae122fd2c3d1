// The command `prior` on a repository that is open.
ghost use Rattle.std.specs.Prelude.{◌≡◌, ◌≤◌, ◌≢◌, [], true, None, IfErr, IfOk, IfSome, IsErrOf, IsSome, OnOk, Option, Err};
ghost use Rattle.ri_ends.specs.Causes.{Rose};
ghost use Rattle.store_ends.specs.Files.{Files, GoesOn};
ghost use Rattle.command_pieces.specs.CommandFaults.{IsBrokenBy, IsChangeFault, IsItemsFault};
ghost use Rattle.command_pieces.specs.Pieces.{Finished};
ghost use Rattle.manifest.specs.Entries.{length_name};
ghost use Rattle.repository.specs.Priors.{AreStored, is_same};
ghost use Rattle.repository.specs.RealLimits.{StandsFor};
ghost use Rattle.repository.specs.Stands.{Collection};
ghost use Rattle.repository.specs.Writes.{AreGone};
ghost use Rattle.collection_commands.specs.Ahead.{IsAhead};
ghost use Rattle.collection_commands.specs.PriorSetting.{IsPriorBroken, IsPriorDone, MaySet, PriorStops, name_pieces, name_refusal};
ghost use Rattle.collection_commands.specs.Steps.{CountsFault};

use crate::prior_setting::set_rows;
use crate::rows::write_rows;
use command_pieces::CommandFault;
use prior_lines::read_rows;
use read_ahead::InputFault;
use refusals::{Refusal, reply_of};
use repository::Repository;
use ri_base::Name;
use ri_ends::{Sink, Source};
use std::alloc::Global;
use store_ends::Store;

fn is_length(name: &Name) -> bool
    ensures { result ≡ is_same name.now length_name }
{
    name.as_bytes() == b"length".as_slice()
}

/// Writes why the name is refused, and answers true.
fn refuse<K: Sink>(alloc: Global, refusal: &Refusal, sink: &mut K) -> Result<bool, CommandFault>
    ensures refused { IfOk result (λ refused. refused ≡ true) }
    ensures finished { (c : Collection) (told : Option Files) → StandsFor c told
        → OnOk result (Finished StandsFor c (name_pieces refusal.now) (K.taken sink.old) (K.taken sink.new) told) }
    ensures broken { (c : Collection) (told : Option Files) → StandsFor c told
        → IfErr result (λ fault. IsBrokenBy fault StandsFor c (name_pieces refusal.now) (K.taken sink.old) (K.taken sink.new) told) }
    ensures only { IfErr result IsChangeFault }
    ensures write { CountsFault CommandFault.Write result (K.faults sink.old) (K.faults sink.new) }
    ensures no_store { IsErrOf result CommandFault.Store → ⊥ }
{
    let Ok(reply) = reply_of(alloc, refusal) else {
        return Err(CommandFault::Memory);
    };
    match reply.write(sink) {
        Ok(()) => Ok(true),
        Err(fault) => Err(CommandFault::of_items(fault)),
    }
}

/// Reads the rows of an input and sets them. The answer is whether a line is refused.
fn take_rows<S: Source, K: Sink, T: Store>(
    alloc: Global,
    repository: &mut Repository,
    name: Name,
    source: &mut S,
    sink: &mut K,
    store: &mut T,
) -> Result<bool, CommandFault>
    requires settable { MaySet repository.old name }
    ensures finished { (c : Collection) → IsAhead (T.files store.old) repository.old c c
        → IfOk result (λ refused. IfSome (S.left source.old) (λ bytes. IsPriorDone None refused c name bytes (K.taken sink.old) (K.taken sink.new) (T.files store.new))) }
    ensures broken { (c : Collection) → IsAhead (T.files store.old) repository.old c c
        → IfErr result (λ fault. IfSome (S.left source.old) (λ bytes. IsPriorBroken None fault c name bytes (K.taken sink.old) (K.taken sink.new) (T.files store.new))) }
    ensures stops { (c : Collection) → IsAhead (T.files store.old) repository.old c c
        → IfSome (S.left source.old) (λ bytes. PriorStops None c name bytes (T.since store.old) (T.since store.new)) }
    ensures swept { OnOk result (AreGone repository.old.stale (T.files store.new)) }
    ensures none_stale { OnOk result (repository.new.stale ≡ []) }
    ensures only { IfErr result IsItemsFault }
    ensures goes_on { GoesOn T.layers T.clock T.longest T.held store.old store.new }
    ensures layers { S.layers source.new ≡ S.layers source.old }
    ensures held { S.held source.new ≡ S.held source.old }
    ensures read { CountsFault CommandFault.Read result (S.faults source.old) (S.faults source.new) }
    ensures write { CountsFault CommandFault.Write result (K.faults sink.old) (K.faults sink.new) }
    ensures store { CountsFault CommandFault.Store result (T.faults store.old) (T.faults store.new) }
{
    let (kept, refused) = match read_rows(alloc, source) {
        Ok(found) => found,
        Err(InputFault::Read) => return Err(CommandFault::Read),
        Err(InputFault::Memory) => return Err(CommandFault::Memory),
    };
    let Ok(rows) = kept.into_rows(alloc) else {
        return Err(CommandFault::Memory);
    };
    match write_rows(alloc, &refused, sink) {
        Ok(()) => {}
        Err(fault) => return Err(CommandFault::of_items(fault)),
    }
    match set_rows(alloc, repository, name, &rows, sink, store) {
        Ok(()) => Ok(!refused.is_empty()),
        Err(fault) => Err(fault),
    }
}

/// Sets the rows of an input as those of the prior of this name, and sweeps. The answer is whether the name or a line is refused.
pub fn set_prior<S: Source, K: Sink, T: Store>(
    alloc: Global,
    repository: &mut Repository,
    name: Name,
    source: &mut S,
    sink: &mut K,
    store: &mut T,
) -> Result<bool, CommandFault>
    requires usable { repository.old.usable ≡ true }
    requires stored { AreStored repository.old }
    ensures finished { (c : Collection) → IsAhead (T.files store.old) repository.old c c
        → IfOk result (λ refused. IfSome (S.left source.old) (λ bytes. IsPriorDone (name_refusal c name) refused c name bytes (K.taken sink.old) (K.taken sink.new) (T.files store.new))) }
    ensures broken { (c : Collection) → IsAhead (T.files store.old) repository.old c c
        → IfErr result (λ fault. IfSome (S.left source.old) (λ bytes. IsPriorBroken (name_refusal c name) fault c name bytes (K.taken sink.old) (K.taken sink.new) (T.files store.new))) }
    ensures stops { (c : Collection) → IsAhead (T.files store.old) repository.old c c
        → IfSome (S.left source.old) (λ bytes. PriorStops (name_refusal c name) c name bytes (T.since store.old) (T.since store.new)) }

    // Where the name is refused nothing is read and nothing changes; where it isn't no stale file is left.
    ensures refused { (c : Collection) → IsAhead (T.files store.old) repository.old c c
        → IsSome (name_refusal c name) → (source.new ≡ source.old) × (store.new ≡ store.old) × (repository.new ≡ repository.old) }
    ensures swept { (c : Collection) → IsAhead (T.files store.old) repository.old c c
        → name_refusal c name ≡ None → OnOk result (AreGone repository.old.stale (T.files store.new) × (repository.new.stale ≡ [])) }

    ensures only { IfErr result IsItemsFault }
    ensures goes_on { GoesOn T.layers T.clock T.longest T.held store.old store.new }
    ensures layers { S.layers source.new ≡ S.layers source.old }
    ensures held { S.held source.new ≡ S.held source.old }
    ensures read { IsErrOf result CommandFault.Read → Rose (S.faults source.old) (S.faults source.new) }
    ensures write { IsErrOf result CommandFault.Write → Rose (K.faults sink.old) (K.faults sink.new) }
    ensures store { IsErrOf result CommandFault.Store → Rose (T.faults store.old) (T.faults store.new) }
    ensures read_later { S.faults source.old ≤ S.faults source.new }
    ensures write_later { K.faults sink.old ≤ K.faults sink.new }
    ensures store_later { T.faults store.old ≤ T.faults store.new }
    ensures read_same { result ≢ Err CommandFault.Read → S.faults source.new ≡ S.faults source.old }
    ensures write_same { result ≢ Err CommandFault.Write → K.faults sink.new ≡ K.faults sink.old }
    ensures store_same { result ≢ Err CommandFault.Store → T.faults store.new ≡ T.faults store.old }
{
    if is_length(&name) {
        return refuse(alloc, &Refusal::Fixed(name), sink);
    }
    if !repository.has_room_for(&name) {
        return refuse(alloc, &Refusal::PriorsFull(name), sink);
    }
    take_rows(alloc, repository, name, source, sink, store)
}
