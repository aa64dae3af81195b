//! The disk, as one replacement of one file sees it.

ghost use Rattle.std.specs.Prelude.{◌≡◌, ℕ, List, Option, None, IfOk, ⊤};
ghost use Rattle.std.specs.Io.KnownBytes.{IsAtEnd};
ghost use Rattle.safe_files.specs.Steps.{FileStep, Removes, make_step, sync_step, rename_step};
ghost use Rattle.safe_files.specs.Steps.{sync_folder_step};

use std::io::Write;
use thiserror::Error;

/// A step of the disk failed.
#[derive(Clone, Copy, Debug, PartialEq, Eq, Error)]
#[error("a step of the disk failed")]
pub struct DiskFailed;

/// The folder of one file, in which a new file is made beside it and then given its name.
///
/// What each call did is known from the call alone, so a contract can say which steps were taken,
/// in which order, and that an error came of a step that failed.
pub trait Disk {
    /// The new file, open to be written.
    type File: Write + Drop;

    /// What a new file shows of its bytes: that there are none, or nothing at all.
    ghost fresh: { Option (List ℕ) } = { None };

    /// Relates the disk before a step, the step, and the disk after it.
    ghost does: { Self → FileStep → Self → Type 0 } = { λ _ _ _. ⊤ };

    /// Makes a new file beside the old one, with no bytes, under a name that nothing had: no file,
    /// no link, no pipe.
    fn make(&mut self) -> Result<Self::File, DiskFailed>
        ensures fresh { IfOk result (λ file. Self.File.contents file ≡ fresh) }
        ensures did { does self.old (make_step result) self.new };

    /// Sends all bytes of the new file to the device.
    fn sync(&mut self, file: &Self::File) -> Result<(), DiskFailed>
        ensures did { does self.old (sync_step (Self.File.contents file.now) result) self.new };

    /// Gives the new file the old one's name, at one moment. No more can be written to it.
    fn rename(&mut self, file: Self::File) -> Result<(), DiskFailed>
        ensures did { does self.old (rename_step (Self.File.contents file) result) self.new };

    /// Sends the names in the folder to the device.
    fn sync_folder(&mut self) -> Result<(), DiskFailed>
        ensures did { does self.old (sync_folder_step result) self.new };

    /// Removes the file that was made, and no other. If that fails, the file is left.
    fn remove(&mut self)
        ensures did { does self.old Removes self.new };
}
