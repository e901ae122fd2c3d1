// A store in a folder. It tells nothing of what its files hold, and what the system does with them is trusted.
ghost use Rattle.std.specs.Prelude.{◌≡◌, None, Ok, [], IfOk, OnOk, IsErrOf};
ghost use Rattle.store_ends.specs.Causes.{HasOutCause};
ghost use Rattle.store_ends.specs.declared.limits.TheConstants.{LONGEST_NAME};

use crate::Store;
use crate::folder::Folder;
use ri_ends::{NoMemory, OutFault};
use std::io;
use std::rt::Files;

/// The files of a folder. Each error of the system is a call that failed; that there is no such file is none. A call whose
/// name isn't that of a file of this folder fails: one that is empty, begins with `.`, or has a `/` or a byte 0.
#[derive(Drop)]
pub struct FolderStore<'a, R: Files + AllocGlobal> {
    folder: Folder<'a, R>,
    faults: u64,
}

impl<'a, R: Files + AllocGlobal> FolderStore<'a, R> {
    /// The store on the folder at this path. It takes the room for its paths here.
    pub fn new(rt: &'a R, path: &'a str) -> Result<Self, NoMemory>
        ensures files { IfOk result (λ store. ⟦<FolderStore<'a, R> as Store>⟧.files store ≡ None) }
        ensures layers { IfOk result (λ store. ⟦<FolderStore<'a, R> as Store>⟧.layers store ≡ None) }
        ensures faults { IfOk result (λ store. ⟦<FolderStore<'a, R> as Store>⟧.faults store ≡ 0) }
        ensures longest { IfOk result (λ store. ⟦<FolderStore<'a, R> as Store>⟧.longest store ≡ LONGEST_NAME) }
        ensures held { IfOk result (λ store. ⟦<FolderStore<'a, R> as Store>⟧.held store ≡ []) }
    {
        Ok(FolderStore {
            folder: Folder::new(rt, path)?,
            faults: 0,
        })
    }

    // Hands on what the system answered, and counts an error.
    fn counted<T: Drop>(&mut self, answer: io::Result<T>) -> Result<T, OutFault>
        ensures value { IfOk result (λ value. answer ≡ Ok value) }
        ensures no_memory { IsErrOf result OutFault.Memory → ⊥ }
        ensures cause { HasOutCause self.old.faults self.new.faults result }
        ensures none { OnOk result (self.new.faults ≡ self.old.faults) }
    {
        match answer {
            Ok(value) => Ok(value),
            Err(_) => {
                self.faults = self.faults.saturating_add(1);
                Err(OutFault::Failed)
            }
        }
    }
}

impl<'a, R: Files + AllocGlobal> Store for FolderStore<'a, R> {
    ghost use Rattle.std.proofs.Common.{lit≤};
    ghost use Rattle.store_ends.specs.Files.{none_told};

    ghost files = { λ _. None };

    ghost layers = { λ _. None };

    ghost clock = { λ _. 0 };

    ghost since = { λ _ _ _. ⊥ };

    ghost longest = { λ _. LONGEST_NAME };

    ghost held = { λ _. [] };

    ghost faults = { λ s. s.faults };

    ghost honest = { λ s t f le e. absurd (none_told f e) };

    ghost still = { λ s f left. absurd left };

    ghost earlier = { λ store s t f le left. left };

    ghost has_room = { λ _. lit≤ tt };

    fn len(&mut self, name: &str) -> Result<Option<u64>, OutFault> {
        let answer = self.folder.length_of(name);
        self.counted(answer)
    }

    fn read_at(&mut self, name: &str, at: u64, buf: &mut [u8]) -> Result<usize, OutFault> {
        let answer = self.folder.read_at(name, at, buf);
        self.counted(answer)
    }

    fn put(&mut self, name: &str, bytes: &[u8]) -> Result<(), OutFault> {
        let answer = self.folder.write(name, bytes);
        self.counted(answer)
    }

    fn replace(&mut self, name: &str, bytes: &[u8]) -> Result<(), OutFault> {
        let answer = self.folder.exchange(name, bytes);
        self.counted(answer)
    }

    fn remove(&mut self, name: &str) -> Result<(), OutFault> {
        let answer = self.folder.delete(name);
        self.counted(answer)
    }
}
