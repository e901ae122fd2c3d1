// Parts as they were at some moment.
ghost use Rattle.std.specs.Prelude.{◌≡◌, ◌≤◌, Option, length, IsTrue, IfOk};
ghost use Rattle.ri_base.specs.Collection.{token_count};
ghost use Rattle.ri_base.specs.declared.limits.TheConstants.{MAX_HELD_TOKENS};
ghost use Rattle.store_ends.specs.Files.{Files};
ghost use Rattle.disk_index.specs.Snapshots.{IsSnapshot, live};
ghost use Rattle.disk_index.specs.declared.limits.TheConstants.{MAX_HELD_DOCS};

use crate::MarkedPart;
use crate::limits::MAX_HELD_DOCS;
use ri_base::NoMemory;
use ri_base::limits::MAX_HELD_TOKENS;
use std::alloc::Global;
use std::marker::Model;

/// Parts with their marks as they were at some moment, seen as the list of these. The documents of a snapshot are the live
/// ones of its parts, one part behind the other.
#[derive(Drop)]
pub struct Snapshot {
    parts: Vec<MarkedPart>,
}

impl Model for Snapshot {
    ghost use Rattle.std.specs.Prelude.{List};
    ghost use Rattle.disk_index.specs.Snapshots.{IsSnapshot, Marked};

    ghost Value = { List Marked };

    ghost view = { λ s. s.parts.items };

    ghost invariant = { λ s. IsSnapshot s.parts.items };
}

impl Snapshot {
    /// The parts as they are now. They are shared, and nothing of a document is copied.
    pub fn of(alloc: Global, parts: &[MarkedPart]) -> Result<Snapshot, NoMemory>
        requires { IsSnapshot parts.now }
        ensures { IfOk result (λ s. s ≡ parts.now) }
    {
        let mut shared = Vec::with_capacity(alloc, parts.len())?;
        for part in parts {
            shared.push(part.share(alloc)?)?;
        }
        Ok(Snapshot { parts: shared })
    }

    /// Its parts with their marks.
    pub fn parts(&self) -> &[MarkedPart]
        ensures parts { result.now ≡ self.now }
        ensures bounds { IsSnapshot self.now }
    {
        self.parts.as_slice()
    }

    /// How many documents it has.
    pub fn live_count(&self) -> u32
        ensures { (told : Option Files) → result ≡ length (live told self.now) }
    {
        let mut count = 0;
        for part in &self.parts {
            count += part.live_count();
        }
        count
    }

    /// How many tokens its documents have.
    pub fn token_count(&self) -> u64
        ensures exact { (told : Option Files) → result ≡ token_count (live told self.now) }
        ensures most { result ≤ MAX_HELD_TOKENS }
    {
        let mut count = 0;
        for part in &self.parts {
            count += part.token_count();
        }
        count
    }
}

/// Whether the parts are few and short enough for a snapshot.
pub fn fits_snapshot(parts: &[MarkedPart]) -> bool
    ensures yes { IsTrue result → IsSnapshot parts.now }
    ensures no { IsSnapshot parts.now → IsTrue result }
{
    let mut documents = 0u64;
    let mut tokens = 0u64;
    for part in parts {
        documents += u64::from(part.part().docs());
        tokens = tokens.saturating_add(part.held_tokens());
        if documents > u64::from(MAX_HELD_DOCS) || tokens > MAX_HELD_TOKENS {
            return false;
        }
    }
    true
}
