// A store in memory.
ghost use Rattle.std.specs.Prelude.{ℕ, List, Option, ◌≡◌, ◌≤◌, [], None, Some, length, IfOk, OnOk, OnErr, IsSome, IsSomeAnd, IsErr, IfSome, IsErrOf, ◌↔◌, unwrap_or, false, true};
ghost use Rattle.std.specs.Option.{option_map};
ghost use Rattle.std.specs.Io.{ReadsAtMost};
ghost use Rattle.store_ends.specs.Past.{first_files, files_of, since_of, next_fail, next_call, fails_of, left_by};
ghost use Rattle.ri_ends.specs.Failing.{call_behind};
ghost use Rattle.store_ends.specs.declared.limits.TheConstants.{LONGEST_NAME};
ghost use Rattle.store_ends.specs.Causes.{HasOutCause};
ghost use Rattle.store_ends.specs.Files.{Files, with_file, AnyState, OldOrNew, Leaves, IsQuiet, GoesOn, Fills};

use crate::Store;
use crate::change::{Change, bytes_of, record};
use crate::failing::{StoreFail, fail_at, outcome};
use ri_ends::OutFault;
use std::alloc::Global;

/// Keeps files in memory, as the files that it began with and the record of all calls that were to change one. So it tells
/// what a stop at each moment leaves. It is meant for tests: to look a file up it goes over the whole record.
#[derive(Drop)]
pub struct MemStore {
    alloc: Global,
    first: Vec<(Vec<u8>, Vec<u8>)>,
    changes: Vec<Change>,
    fails: Vec<StoreFail>,
    calls: u64,
    faults: u64,
}

impl MemStore {
    /// These files, names and contents, kept in memory of this allocator. Of files of one name the first counts. The calls in
    /// `fails` fail; the first call is number 1.
    pub fn new(alloc: Global, files: Vec<(Vec<u8>, Vec<u8>)>, fails: Vec<StoreFail>) -> Self
        ensures files { ⟦<MemStore as Store>⟧.files result ≡ Some (first_files files.items) }
        ensures layers { ⟦<MemStore as Store>⟧.layers result ≡ Some [] }
        ensures clock { ⟦<MemStore as Store>⟧.clock result ≡ 0 }
        ensures held { ⟦<MemStore as Store>⟧.held result ≡ [] }
        ensures faults { ⟦<MemStore as Store>⟧.faults result ≡ 0 }
        ensures longest { ⟦<MemStore as Store>⟧.longest result ≡ LONGEST_NAME }
        ensures fails { fails_of result ≡ fails.items }
        ensures first { next_call result ≡ 1 }
    {
        MemStore {
            alloc,
            first: files,
            changes: Vec::new(alloc),
            fails,
            calls: 0,
            faults: 0,
        }
    }

    // Counts a call that changes no file, and fails where it is to fail.
    fn count(&mut self) -> Result<(), OutFault>
        ensures passes { OnOk result (next_fail self.old ≡ None) }
        ensures fails { OnErr result (IsSome (next_fail self.old)) }
        ensures memory { IsErrOf result OutFault.Memory → ⊥ }
        ensures counts { self.new.calls ≡ call_behind self.old.calls }
        ensures cause { HasOutCause self.old.faults self.new.faults result }
        ensures none { OnOk result (self.new.faults ≡ self.old.faults) }
        ensures same { (self.new.first ≡ self.old.first) × (self.new.changes ≡ self.old.changes) × (self.new.fails ≡ self.old.fails) }
    {
        self.calls = self.calls.saturating_add(1);
        if fail_at(&self.fails, self.calls).is_some() {
            self.faults = self.faults.saturating_add(1);
            return Err(OutFault::Failed);
        }
        Ok(())
    }

    // Does a call that changes one file, or fails at it where it is to fail.
    fn change(&mut self, name: &str, state: Option<&[u8]>, torn: bool) -> Result<(), OutFault>
        ensures done { OnOk result (files_of self.new ≡ with_file name.now (option_map (λ bytes. bytes.now) state.entry) (files_of self.old)) }
        ensures failed { IsErrOf result OutFault.Failed → IsSomeAnd (next_fail self.old)
            (λ left. files_of self.new ≡ left_by torn left name.now (option_map (λ bytes. bytes.now) state.entry) (files_of self.old)) }
        ensures any { IsErrOf result OutFault.Failed → AnyState name.now (Some (files_of self.old)) (Some (files_of self.new)) }
        ensures step { torn ≡ false → IsErrOf result OutFault.Failed → OldOrNew name.now (option_map (λ bytes. bytes.now) state.entry) (Some (files_of self.old)) (Some (files_of self.new)) }
        ensures stops_any { torn ≡ true → Leaves (since_of self.old) (since_of self.new) (AnyState name.now (Some (files_of self.old))) }
        ensures stops_step { torn ≡ false → Leaves (since_of self.old) (since_of self.new) (OldOrNew name.now (option_map (λ bytes. bytes.now) state.entry) (Some (files_of self.old))) }
        ensures within { torn ≡ true → OnOk result ((state : Option (List ℕ)) → since_of self.new (length self.old.changes.items) (with_file name.now state (files_of self.old))) }
        ensures within_failed { torn ≡ true → IsErrOf result OutFault.Failed → (state : Option (List ℕ)) → since_of self.new (length self.old.changes.items) (with_file name.now state (files_of self.old)) }
        ensures step_within { torn ≡ false → OnOk result ((f : Files) → OldOrNew name.now (option_map (λ bytes. bytes.now) state.entry) (Some (files_of self.old)) (Some f) → since_of self.new (length self.old.changes.items) f) }
        ensures step_within_failed { torn ≡ false → IsErrOf result OutFault.Failed → (f : Files) → OldOrNew name.now (option_map (λ bytes. bytes.now) state.entry) (Some (files_of self.old)) (Some f) → since_of self.new (length self.old.changes.items) f }
        ensures memory { IsErrOf result OutFault.Memory → (self.new.changes.items ≡ self.old.changes.items) × (self.new.calls ≡ self.old.calls) × (self.new.faults ≡ self.old.faults) }
        ensures clock { length self.old.changes.items ≤ length self.new.changes.items }
        ensures passes { OnOk result (next_fail self.old ≡ None) }
        ensures counts { OnOk result (self.new.calls ≡ call_behind self.old.calls) }
        ensures counts_failed { IsErrOf result OutFault.Failed → self.new.calls ≡ call_behind self.old.calls }
        ensures cause { HasOutCause self.old.faults self.new.faults result }
        ensures none { OnOk result (self.new.faults ≡ self.old.faults) }
        ensures same { (self.new.first ≡ self.old.first) × (self.new.fails ≡ self.old.fails) }
    {
        let call = self.calls.saturating_add(1);
        let left = fail_at(&self.fails, call);
        let fails = left.is_some();
        let (state, done) = outcome(torn, left, state);
        record(self.alloc, &mut self.changes, name, state, done, torn)?;
        self.calls = call;
        if fails {
            self.faults = self.faults.saturating_add(1);
            return Err(OutFault::Failed);
        }
        Ok(())
    }
}

impl Store for MemStore {
    ghost use Rattle.std.proofs.Common.{lit≤};
    ghost use Rattle.store_ends.specs.Past.{left_now, now_left, earlier_left};

    ghost files = { λ s. Some (files_of s) };

    ghost layers = { λ _. Some [] };

    ghost clock = { λ s. length s.changes.items };

    ghost since = { since_of };

    ghost longest = { λ _. LONGEST_NAME };

    ghost held = { λ _. [] };

    ghost faults = { λ s. s.faults };

    ghost honest = { λ s t f le e. now_left (first_files s.first.items) s.changes.items t f le e };

    ghost still = { λ s f left. left_now (first_files s.first.items) s.changes.items f left };

    ghost earlier = { λ store s t f le left. earlier_left (first_files store.first.items) store.changes.items s t f le left };

    ghost has_room = { λ _. lit≤ tt };

    fn len(&mut self, name: &str) -> Result<Option<u64>, OutFault>
        ensures length { IfOk result (λ n. IfSome (⟦<MemStore as Store>⟧.files self.old) (λ f. n ≡ option_map length (f name.now).read)) }
        ensures quiet { IsQuiet ⟦<MemStore as Store>⟧.files ⟦<MemStore as Store>⟧.layers ⟦<MemStore as Store>⟧.clock ⟦<MemStore as Store>⟧.since ⟦<MemStore as Store>⟧.longest ⟦<MemStore as Store>⟧.held self.old self.new }
        ensures memory { IsErrOf result OutFault.Memory → ⟦<MemStore as Store>⟧.faults self.new ≡ ⟦<MemStore as Store>⟧.faults self.old }
        ensures cause { HasOutCause (⟦<MemStore as Store>⟧.faults self.old) (⟦<MemStore as Store>⟧.faults self.new) result }
        ensures none { OnOk result (⟦<MemStore as Store>⟧.faults self.new ≡ ⟦<MemStore as Store>⟧.faults self.old) }

        // It fails exactly at the calls that are to fail, finds memory always, and counts each call.
        ensures exact { IsErr result ↔ IsSome (next_fail self.old) }
        ensures no_memory { IsErrOf result OutFault.Memory → ⊥ }
        ensures counts { next_call self.new ≡ call_behind (next_call self.old) }
        ensures fails { fails_of self.new ≡ fails_of self.old }
    {
        self.count()?;
        Ok(bytes_of(&self.first, &self.changes, name).map(|bytes| bytes.len() as u64))
    }

    fn read_at(&mut self, name: &str, at: u64, buf: &mut [u8]) -> Result<usize, OutFault>
        ensures bound { ReadsAtMost result buf.new }
        ensures bytes { IfOk result (λ n. IfSome (⟦<MemStore as Store>⟧.files self.old) (λ f. Fills n buf.new at (unwrap_or (f name.now).read []))) }
        ensures quiet { IsQuiet ⟦<MemStore as Store>⟧.files ⟦<MemStore as Store>⟧.layers ⟦<MemStore as Store>⟧.clock ⟦<MemStore as Store>⟧.since ⟦<MemStore as Store>⟧.longest ⟦<MemStore as Store>⟧.held self.old self.new }
        ensures memory { IsErrOf result OutFault.Memory → ⟦<MemStore as Store>⟧.faults self.new ≡ ⟦<MemStore as Store>⟧.faults self.old }
        ensures cause { HasOutCause (⟦<MemStore as Store>⟧.faults self.old) (⟦<MemStore as Store>⟧.faults self.new) result }
        ensures none { OnOk result (⟦<MemStore as Store>⟧.faults self.new ≡ ⟦<MemStore as Store>⟧.faults self.old) }

        // It fails exactly at the calls that are to fail, finds memory always, and counts each call.
        ensures exact { IsErr result ↔ IsSome (next_fail self.old) }
        ensures no_memory { IsErrOf result OutFault.Memory → ⊥ }
        ensures counts { next_call self.new ≡ call_behind (next_call self.old) }
        ensures fails { fails_of self.new ≡ fails_of self.old }
    {
        self.count()?;
        match bytes_of(&self.first, &self.changes, name) {
            Some(bytes) => Ok(fill(bytes, at, buf)),
            None => Ok(0),
        }
    }

    fn put(&mut self, name: &str, bytes: &[u8]) -> Result<(), OutFault>
        ensures done { OnOk result (⟦<MemStore as Store>⟧.files self.new ≡ option_map (with_file name.now (Some bytes.now)) (⟦<MemStore as Store>⟧.files self.old)) }
        ensures failed { IsErrOf result OutFault.Failed → AnyState name.now (⟦<MemStore as Store>⟧.files self.old) (⟦<MemStore as Store>⟧.files self.new) }
        ensures stops { Leaves (⟦<MemStore as Store>⟧.since self.old) (⟦<MemStore as Store>⟧.since self.new) (AnyState name.now (⟦<MemStore as Store>⟧.files self.old)) }
        ensures memory { IsErrOf result OutFault.Memory → (⟦<MemStore as Store>⟧.faults self.new ≡ ⟦<MemStore as Store>⟧.faults self.old) × IsQuiet ⟦<MemStore as Store>⟧.files ⟦<MemStore as Store>⟧.layers ⟦<MemStore as Store>⟧.clock ⟦<MemStore as Store>⟧.since ⟦<MemStore as Store>⟧.longest ⟦<MemStore as Store>⟧.held self.old self.new }
        ensures goes_on { GoesOn ⟦<MemStore as Store>⟧.layers ⟦<MemStore as Store>⟧.clock ⟦<MemStore as Store>⟧.longest ⟦<MemStore as Store>⟧.held self.old self.new }
        ensures cause { HasOutCause (⟦<MemStore as Store>⟧.faults self.old) (⟦<MemStore as Store>⟧.faults self.new) result }
        ensures none { OnOk result (⟦<MemStore as Store>⟧.faults self.new ≡ ⟦<MemStore as Store>⟧.faults self.old) }

        // It fails only at a call that is to fail, leaving what is stated, and passes none.
        ensures exact { IsErrOf result OutFault.Failed → IsSomeAnd (next_fail self.old)
            (λ left. ⟦<MemStore as Store>⟧.files self.new ≡ option_map (left_by true left name.now (Some bytes.now)) (⟦<MemStore as Store>⟧.files self.old)) }
        ensures within { OnOk result ((state : Option (List ℕ)) → ⟦<MemStore as Store>⟧.since self.new (⟦<MemStore as Store>⟧.clock self.old) (with_file name.now state (files_of self.old))) }
        ensures within_failed { IsErrOf result OutFault.Failed → (state : Option (List ℕ)) → ⟦<MemStore as Store>⟧.since self.new (⟦<MemStore as Store>⟧.clock self.old) (with_file name.now state (files_of self.old)) }
        ensures passes { OnOk result (next_fail self.old ≡ None) }
        ensures counts { OnOk result (next_call self.new ≡ call_behind (next_call self.old)) }
        ensures counts_failed { IsErrOf result OutFault.Failed → next_call self.new ≡ call_behind (next_call self.old) }
        ensures counts_none { IsErrOf result OutFault.Memory → next_call self.new ≡ next_call self.old }
        ensures fails { fails_of self.new ≡ fails_of self.old }
    {
        self.change(name, Some(bytes), true)
    }

    fn replace(&mut self, name: &str, bytes: &[u8]) -> Result<(), OutFault>
        ensures done { OnOk result (⟦<MemStore as Store>⟧.files self.new ≡ option_map (with_file name.now (Some bytes.now)) (⟦<MemStore as Store>⟧.files self.old)) }
        ensures failed { IsErrOf result OutFault.Failed → OldOrNew name.now (Some bytes.now) (⟦<MemStore as Store>⟧.files self.old) (⟦<MemStore as Store>⟧.files self.new) }
        ensures stops { Leaves (⟦<MemStore as Store>⟧.since self.old) (⟦<MemStore as Store>⟧.since self.new) (OldOrNew name.now (Some bytes.now) (⟦<MemStore as Store>⟧.files self.old)) }
        ensures memory { IsErrOf result OutFault.Memory → (⟦<MemStore as Store>⟧.faults self.new ≡ ⟦<MemStore as Store>⟧.faults self.old) × IsQuiet ⟦<MemStore as Store>⟧.files ⟦<MemStore as Store>⟧.layers ⟦<MemStore as Store>⟧.clock ⟦<MemStore as Store>⟧.since ⟦<MemStore as Store>⟧.longest ⟦<MemStore as Store>⟧.held self.old self.new }
        ensures goes_on { GoesOn ⟦<MemStore as Store>⟧.layers ⟦<MemStore as Store>⟧.clock ⟦<MemStore as Store>⟧.longest ⟦<MemStore as Store>⟧.held self.old self.new }
        ensures cause { HasOutCause (⟦<MemStore as Store>⟧.faults self.old) (⟦<MemStore as Store>⟧.faults self.new) result }
        ensures none { OnOk result (⟦<MemStore as Store>⟧.faults self.new ≡ ⟦<MemStore as Store>⟧.faults self.old) }

        // It fails only at a call that is to fail, leaving what is stated, and passes none.
        ensures exact { IsErrOf result OutFault.Failed → IsSomeAnd (next_fail self.old)
            (λ left. ⟦<MemStore as Store>⟧.files self.new ≡ option_map (left_by false left name.now (Some bytes.now)) (⟦<MemStore as Store>⟧.files self.old)) }
        ensures within { OnOk result ((f : Files) → OldOrNew name.now (Some bytes.now) (⟦<MemStore as Store>⟧.files self.old) (Some f) → ⟦<MemStore as Store>⟧.since self.new (⟦<MemStore as Store>⟧.clock self.old) f) }
        ensures within_failed { IsErrOf result OutFault.Failed → (f : Files) → OldOrNew name.now (Some bytes.now) (⟦<MemStore as Store>⟧.files self.old) (Some f) → ⟦<MemStore as Store>⟧.since self.new (⟦<MemStore as Store>⟧.clock self.old) f }
        ensures passes { OnOk result (next_fail self.old ≡ None) }
        ensures counts { OnOk result (next_call self.new ≡ call_behind (next_call self.old)) }
        ensures counts_failed { IsErrOf result OutFault.Failed → next_call self.new ≡ call_behind (next_call self.old) }
        ensures counts_none { IsErrOf result OutFault.Memory → next_call self.new ≡ next_call self.old }
        ensures fails { fails_of self.new ≡ fails_of self.old }
    {
        self.change(name, Some(bytes), false)
    }

    fn remove(&mut self, name: &str) -> Result<(), OutFault>
        ensures done { OnOk result (⟦<MemStore as Store>⟧.files self.new ≡ option_map (with_file name.now None) (⟦<MemStore as Store>⟧.files self.old)) }
        ensures failed { IsErrOf result OutFault.Failed → OldOrNew name.now None (⟦<MemStore as Store>⟧.files self.old) (⟦<MemStore as Store>⟧.files self.new) }
        ensures stops { Leaves (⟦<MemStore as Store>⟧.since self.old) (⟦<MemStore as Store>⟧.since self.new) (OldOrNew name.now None (⟦<MemStore as Store>⟧.files self.old)) }
        ensures memory { IsErrOf result OutFault.Memory → (⟦<MemStore as Store>⟧.faults self.new ≡ ⟦<MemStore as Store>⟧.faults self.old) × IsQuiet ⟦<MemStore as Store>⟧.files ⟦<MemStore as Store>⟧.layers ⟦<MemStore as Store>⟧.clock ⟦<MemStore as Store>⟧.since ⟦<MemStore as Store>⟧.longest ⟦<MemStore as Store>⟧.held self.old self.new }
        ensures goes_on { GoesOn ⟦<MemStore as Store>⟧.layers ⟦<MemStore as Store>⟧.clock ⟦<MemStore as Store>⟧.longest ⟦<MemStore as Store>⟧.held self.old self.new }
        ensures cause { HasOutCause (⟦<MemStore as Store>⟧.faults self.old) (⟦<MemStore as Store>⟧.faults self.new) result }
        ensures none { OnOk result (⟦<MemStore as Store>⟧.faults self.new ≡ ⟦<MemStore as Store>⟧.faults self.old) }

        // It fails only at a call that is to fail, leaving what is stated, and passes none.
        ensures exact { IsErrOf result OutFault.Failed → IsSomeAnd (next_fail self.old)
            (λ left. ⟦<MemStore as Store>⟧.files self.new ≡ option_map (left_by false left name.now None) (⟦<MemStore as Store>⟧.files self.old)) }
        ensures within { OnOk result ((f : Files) → OldOrNew name.now None (⟦<MemStore as Store>⟧.files self.old) (Some f) → ⟦<MemStore as Store>⟧.since self.new (⟦<MemStore as Store>⟧.clock self.old) f) }
        ensures within_failed { IsErrOf result OutFault.Failed → (f : Files) → OldOrNew name.now None (⟦<MemStore as Store>⟧.files self.old) (Some f) → ⟦<MemStore as Store>⟧.since self.new (⟦<MemStore as Store>⟧.clock self.old) f }
        ensures passes { OnOk result (next_fail self.old ≡ None) }
        ensures counts { OnOk result (next_call self.new ≡ call_behind (next_call self.old)) }
        ensures counts_failed { IsErrOf result OutFault.Failed → next_call self.new ≡ call_behind (next_call self.old) }
        ensures counts_none { IsErrOf result OutFault.Memory → next_call self.new ≡ next_call self.old }
        ensures fails { fails_of self.new ≡ fails_of self.old }
    {
        self.change(name, None, false)
    }
}

// Puts bytes from a place on at the front of the buffer.
fn fill(bytes: &[u8], at: u64, buf: &mut [u8]) -> usize
    ensures within { result ≤ length buf.new }
    ensures bytes { Fills result buf.new at bytes.now }
{
    let from = (at as usize).min(bytes.len());
    let rest = &bytes[from..];
    let count = rest.len().min(buf.len());
    buf[..count].copy_from_slice(&rest[..count]);
    count
}
