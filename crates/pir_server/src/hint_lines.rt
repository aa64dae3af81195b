//! How many rows of the hints are made, on standard error.

ghost use Rattle.std.specs.Prelude.{◌≡◌, IfOk, string_bytes};
ghost use Rattle.pir_server.specs.HintLines.{hint_line};

use mio_server::say_line;
use server_files::Pace;
use std::alloc::{AllocError, Global};
use version_store::HintWatcher;

/// The lines on hints that are made, one after another, if they are wanted.
#[derive(Drop)]
pub struct HintLines<'a> {
    pace: Option<Pace<'a>>,
    alloc: Global,
    // How many rows were made last. Another hint begins with fewer.
    made: usize,
}

impl<'a> HintLines<'a> {
    /// No hint is begun. Without a clock nothing is said.
    pub fn new(rt: &'a HostRuntime, wanted: bool) -> HintLines<'a> {
        HintLines {
            pace: if wanted { Pace::new(rt) } else { None },
            alloc: rt.alloc(),
            made: 0,
        }
    }
}

impl HintWatcher for HintLines<'_> {
    fn see(&mut self, made: usize, rows: usize) {
        let Some(pace) = &mut self.pace else {
            return;
        };
        if made < self.made {
            pace.begin();
        }
        self.made = made;
        if pace.is_due() {
            say(self.alloc, pace, made as u64, rows as u64);
        }
    }
}

// Prints a line.
fn say(alloc: Global, pace: &Pace<'_>, made: u64, rows: u64) {
    let Some(left) = pace.left(made, rows) else {
        return;
    };
    if let Ok(line) = hint_line(alloc, made, rows, left) {
        say_line(&line);
    }
}

// The line after so many rows of a hint, of so many in all.
fn hint_line(alloc: Global, made: u64, rows: u64, left: u128) -> Result<String, AllocError>
    ensures { IfOk result (λ line. string_bytes line ≡ hint_line made rows left) }
{
    format!(in alloc; "hint: {made} of {rows} rows, {left} s left\n")
}
