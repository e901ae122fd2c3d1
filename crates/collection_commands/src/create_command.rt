// The command `create`.
ghost use Rattle.std.specs.Prelude.{◌≡◌, ◌≤◌, ◌≢◌, None, Some, codes, is_some, IfErr, IfOk, IsErrOf, IsTrue, OnOk, Err};
ghost use Rattle.ri_ends.specs.Causes.{Rose};
ghost use Rattle.store_ends.specs.Files.{Files, GoesOn, IsQuiet, Leaves};
ghost use Rattle.command_pieces.specs.CommandFaults.{IsBrokenBy, IsCreateFault, IsExistsFault};
ghost use Rattle.command_pieces.specs.Pieces.{Finished, StandsAlong};
ghost use Rattle.command_pieces.specs.Written.{told_piece};
ghost use Rattle.repository.specs.Names.{manifest_name};
ghost use Rattle.collection_commands.specs.Creation.{IsMade, create_pieces};

use command_pieces::{CommandFault, Reply};
use repository::create;
use ri_base::NoMemory;
use ri_ends::Sink;
use std::alloc::Global;
use store_ends::Store;

fn created_reply(alloc: Global) -> Result<Reply, NoMemory>
    ensures { IfOk result (λ reply. reply ≡ told_piece (codes "created\n")) }
{
    Ok(Reply::told(b"created\n".to_vec(alloc)?))
}

/// Makes a repository in which nothing is, where there is none, and says so.
pub fn create_repository<K: Sink, T: Store>(
    alloc: Global,
    sink: &mut K,
    store: &mut T,
) -> Result<(), CommandFault>
    // Where there is no manifest.
    ensures finished { (f : Files) → T.files store.old ≡ Some f → (f manifest_name).read ≡ None
        → OnOk result (Finished (IsMade (Some f)) None create_pieces (K.taken sink.old) (K.taken sink.new) (T.files store.new)) }
    ensures broken { (f : Files) → T.files store.old ≡ Some f → (f manifest_name).read ≡ None
        → IfErr result (λ fault. IsBrokenBy fault (IsMade (Some f)) None create_pieces (K.taken sink.old) (K.taken sink.new) (T.files store.new)) }
    ensures stops { (f : Files) → T.files store.old ≡ Some f → (f manifest_name).read ≡ None
        → Leaves (T.since store.old) (T.since store.new) (StandsAlong (IsMade (Some f)) None create_pieces) }

    // Where there is one.
    ensures exists { (f : Files) → T.files store.old ≡ Some f → IsTrue (is_some (f manifest_name).read) → IfErr result IsExistsFault × OnOk result ⊥
        × IsQuiet T.files T.layers T.clock T.since T.longest T.held store.old store.new × (K.taken sink.new ≡ K.taken sink.old) }

    ensures only { IfErr result IsCreateFault }
    ensures there { (f : Files) → T.files store.old ≡ Some f → IsErrOf result CommandFault.Exists → IsTrue (is_some (f manifest_name).read) }
    ensures same { IsErrOf result CommandFault.Exists → IsQuiet T.files T.layers T.clock T.since T.longest T.held store.old store.new × (K.taken sink.new ≡ K.taken sink.old) }
    ensures goes_on { GoesOn T.layers T.clock T.longest T.held store.old store.new }
    ensures write { IsErrOf result CommandFault.Write → Rose (K.faults sink.old) (K.faults sink.new) }
    ensures store { IsErrOf result CommandFault.Store → Rose (T.faults store.old) (T.faults store.new) }
    ensures write_later { K.faults sink.old ≤ K.faults sink.new }
    ensures store_later { T.faults store.old ≤ T.faults store.new }
    ensures write_same { result ≢ Err CommandFault.Write → K.faults sink.new ≡ K.faults sink.old }
    ensures store_same { result ≢ Err CommandFault.Store → T.faults store.new ≡ T.faults store.old }
{
    match create(alloc, store) {
        Ok(true) => {}
        Ok(false) => return Err(CommandFault::Exists),
        Err(fault) => return Err(CommandFault::of_files(fault)),
    }
    let Ok(reply) = created_reply(alloc) else {
        return Err(CommandFault::Memory);
    };
    match reply.write(sink) {
        Ok(()) => Ok(()),
        Err(fault) => Err(CommandFault::of_items(fault)),
    }
}
