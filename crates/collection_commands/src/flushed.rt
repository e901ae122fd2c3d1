// What is told behind a flush.
ghost use Rattle.std.specs.Prelude.{◌≡◌, IfOk, Option};
ghost use Rattle.repository.specs.Stands.{Collection};
ghost use Rattle.repository.specs.States.{ReadsAs};
ghost use Rattle.store_ends.specs.Files.{Files};
ghost use Rattle.collection_commands.specs.Flushing.{flushed_piece, flushed_text};

use command_pieces::Reply;
use repository::Repository;
use ri_base::NoMemory;
use std::alloc::Global;

fn flushed_text(alloc: Global, live: u64) -> Result<Vec<u8>, NoMemory>
    ensures { IfOk result (λ text. text.items ≡ flushed_text live) }
{
    let count = live.to_string(alloc)?;
    let mut text = b"flushed ".to_vec(alloc)?;
    text.extend_from_slice(count.as_bytes())?;
    text.push(b'\n')?;
    Ok(text)
}

/// How many documents are live.
pub fn flushed_reply(alloc: Global, repository: &Repository) -> Result<Reply, NoMemory>
    ensures { (told : Option Files) (c : Collection) → ReadsAs told repository.now c → IfOk result (λ reply. reply ≡ flushed_piece c) }
{
    Ok(Reply::told(flushed_text(alloc, repository.live_count())?))
}
