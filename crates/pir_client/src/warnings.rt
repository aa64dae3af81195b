//! What is said beside a result, on standard error.

use crate::older::Older;

/// What is to be said once the records are printed. A command that fails says so alone.
#[derive(Clone, Copy, Debug, Default)]
pub struct Warnings {
    /// A hint kept was damaged, or could not be read, and was fetched anew.
    pub is_damaged: bool,
    /// The hint kept was of another store with the same plan.
    pub is_of_another_store: bool,
    /// The hint could not be kept.
    pub is_not_kept: bool,
    /// The server is of an older version.
    pub older: Option<Older>,
}

impl Warnings {
    /// Prints a line for each.
    pub fn print(&self, rt: &HostRuntime) {
        if self.is_damaged {
            let _ = eprintln!(rt; "warning: the hint kept is damaged");
        }
        if self.is_of_another_store {
            let _ = eprintln!(rt; "warning: the hint kept is of another store");
        }
        if self.is_not_kept {
            let _ = eprintln!(rt; "warning: the hint can't be kept");
        }
        if let Some(Older { version, seen }) = self.older {
            let _ = eprintln!(rt; "warning: version {version} after {seen}");
        }
    }
}
