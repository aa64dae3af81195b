//! Laws of crashes, over the definitions alone: what each course of [`replace`](crate::replace)
//! leaves of the file.

ghost use Rattle.std.specs.Prelude.{◌≡◌, ◌≢◌, ℕ, List, Result, Ok, Err, Some, ⊤};
ghost use Rattle.safe_files.specs.Steps.{course, settling};
ghost use Rattle.safe_files.specs.Crashes.{HoldsThroughout, IsOldOrNew, IsSurely, after_steps};
ghost use Rattle.safe_files.specs.Crashes.{at_rest, just_renamed};
ghost use Rattle.safe_files.specs.declared.replacing.ReplaceFault.{ReplaceFault};

/// However a replacement ends, a crash at any moment of it leaves the old bytes or the new ones,
/// whole.
pub fn each_moment_is_whole()
    ensures { (old bytes : List ℕ) (result : Result ⊤ ReplaceFault) →
        HoldsThroughout (IsOldOrNew old bytes) at_rest (course (Some bytes) result) }
{}

/// After a replacement that was done, a crash leaves the new bytes.
pub fn done_is_new()
    ensures { (old bytes : List ℕ) (done : ⊤) →
        IsSurely old bytes (after_steps at_rest (course (Some bytes) (Ok done))) }
{}

/// After one that failed before the renaming, a crash leaves the old bytes.
pub fn refused_is_old()
    ensures { (old bytes : List ℕ) (fault : ReplaceFault) →
        fault ≢ ReplaceFault.Rename → fault ≢ ReplaceFault.SyncFolder →
        IsSurely old old (after_steps at_rest (course {T = ⊤} (Some bytes) (Err fault))) }
{}

/// A file that was just given the name, when whoever did it was killed, is surely the new one after
/// it was sent to the device with its name.
pub fn settled_is_new()
    ensures { (old bytes : List ℕ) (done : ⊤) →
        IsSurely old bytes (after_steps (just_renamed bytes) (settling (Some bytes) (Ok done))) }
{}
