// Where files are kept.
ghost use Rattle.std.specs.Prelude.{◌≡◌, ◌≤◌, ℕ, List, Option, Some, None, [], length, unwrap_or, OnOk, IfOk, IfSome, IsErrOf};
ghost use Rattle.std.specs.Option.{option_map};
ghost use Rattle.std.specs.Io.{ReadsAtMost};
ghost use Rattle.store_ends.specs.Causes.{HasOutCause};
ghost use Rattle.store_ends.specs.Files.{Files, with_file, AnyState, OldOrNew, Leaves, IsQuiet, GoesOn, Fills};

use ri_ends::OutFault;

/// Files by their names. A store may tell what they hold, as one in memory does, or tell nothing.
pub trait Store {
    /// The bytes under each name, where they are told.
    ghost files: { Self → Option Files };

    /// Files that stand behind these, layer by layer, where they are told. No call changes them.
    ghost layers: { Self → Option (List Files) };

    /// A number for the present moment. It never falls.
    ghost clock: { Self → ℕ };

    /// The files that a stop at some moment from that one on may leave, within a call or between two.
    ghost since: { Self → ℕ → Files → Type 0 };

    /// The most bytes of a name.
    ghost longest: { Self → ℕ };

    /// The references that it works through, the outermost first. No call changes them.
    ghost held: { Self → List ℕ };

    /// How often a call has failed. The count stops at 2^64 - 1.
    ghost faults: { Self → ℕ };

    /// The length of the file, or `None` where there is no such file.
    fn len(&mut self, name: &str) -> Result<Option<u64>, OutFault>
        requires { length name.now ≤ longest self.old }
        ensures length { IfOk result (λ n. IfSome (files self.old) (λ f. n ≡ option_map length (f name.now).read)) }
        ensures quiet { IsQuiet files layers clock since longest held self.old self.new }
        ensures memory { IsErrOf result OutFault.Memory → faults self.new ≡ faults self.old }
        ensures cause { HasOutCause (faults self.old) (faults self.new) result }
        ensures none { OnOk result (faults self.new ≡ faults self.old) };

    /// Puts the file's bytes from `at` on at the front of the buffer, as many as there are and as have room, and answers
    /// how many they are. There are none where there is no such file.
    fn read_at(&mut self, name: &str, at: u64, buf: &mut [u8]) -> Result<usize, OutFault>
        requires { length name.now ≤ longest self.old }
        ensures bound { ReadsAtMost result buf.new }
        ensures bytes { IfOk result (λ n. IfSome (files self.old) (λ f. Fills n buf.new at (unwrap_or (f name.now).read []))) }
        ensures quiet { IsQuiet files layers clock since longest held self.old self.new }
        ensures memory { IsErrOf result OutFault.Memory → faults self.new ≡ faults self.old }
        ensures cause { HasOutCause (faults self.old) (faults self.new) result }
        ensures none { OnOk result (faults self.new ≡ faults self.old) };

    /// Makes the file hold these bytes, whether it was there or not. A stop within it, or a failure, leaves any bytes or no
    /// file under that name.
    fn put(&mut self, name: &str, bytes: &[u8]) -> Result<(), OutFault>
        requires { length name.now ≤ longest self.old }
        ensures done { OnOk result (files self.new ≡ option_map (with_file name.now (Some bytes.now)) (files self.old)) }
        ensures failed { IsErrOf result OutFault.Failed → AnyState name.now (files self.old) (files self.new) }
        ensures stops { Leaves (since self.old) (since self.new) (AnyState name.now (files self.old)) }
        ensures memory { IsErrOf result OutFault.Memory → (faults self.new ≡ faults self.old) × IsQuiet files layers clock since longest held self.old self.new }
        ensures goes_on { GoesOn layers clock longest held self.old self.new }
        ensures cause { HasOutCause (faults self.old) (faults self.new) result }
        ensures none { OnOk result (faults self.new ≡ faults self.old) };

    /// Makes the file hold these bytes, whether it was there or not. A stop within it, or a failure, leaves the file as it
    /// was or with the new bytes.
    fn replace(&mut self, name: &str, bytes: &[u8]) -> Result<(), OutFault>
        requires { length name.now ≤ longest self.old }
        ensures done { OnOk result (files self.new ≡ option_map (with_file name.now (Some bytes.now)) (files self.old)) }
        ensures failed { IsErrOf result OutFault.Failed → OldOrNew name.now (Some bytes.now) (files self.old) (files self.new) }
        ensures stops { Leaves (since self.old) (since self.new) (OldOrNew name.now (Some bytes.now) (files self.old)) }
        ensures memory { IsErrOf result OutFault.Memory → (faults self.new ≡ faults self.old) × IsQuiet files layers clock since longest held self.old self.new }
        ensures goes_on { GoesOn layers clock longest held self.old self.new }
        ensures cause { HasOutCause (faults self.old) (faults self.new) result }
        ensures none { OnOk result (faults self.new ≡ faults self.old) };

    /// Leaves no such file, whether it was there or not. A stop within it, or a failure, leaves the file or not.
    fn remove(&mut self, name: &str) -> Result<(), OutFault>
        requires { length name.now ≤ longest self.old }
        ensures done { OnOk result (files self.new ≡ option_map (with_file name.now None) (files self.old)) }
        ensures failed { IsErrOf result OutFault.Failed → OldOrNew name.now None (files self.old) (files self.new) }
        ensures stops { Leaves (since self.old) (since self.new) (OldOrNew name.now None (files self.old)) }
        ensures memory { IsErrOf result OutFault.Memory → (faults self.new ≡ faults self.old) × IsQuiet files layers clock since longest held self.old self.new }
        ensures goes_on { GoesOn layers clock longest held self.old self.new }
        ensures cause { HasOutCause (faults self.old) (faults self.new) result }
        ensures none { OnOk result (faults self.new ≡ faults self.old) };

    // The files as they are now are among those that a stop since now, or since an earlier moment, may leave.
    ghost honest: { (store : Self) (t : ℕ) (f : Files) → t ≤ clock store → files store ≡ Some f → since store t f };

    // Between two calls a stop leaves the files as they are.
    ghost still: { (store : Self) (f : Files) → since store (clock store) f → files store ≡ Some f };

    // A stop since a later moment is one since an earlier moment.
    ghost earlier: { (store : Self) (s t : ℕ) (f : Files) → s ≤ t → since store t f → since store s f };

    ghost has_room: { (store : Self) → 30 ≤ longest store };
}
