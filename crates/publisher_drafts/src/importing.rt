//! The changes that the lines of an import ask for.

ghost use Rattle.std.specs.Prelude.{◌≡◌, ◌<◌, ◌++◌, ◌∷◌, [], List, ℕ, length, IfSome};

use crate::changes::{ChangeMap, put_change};
use crate::judging::{EditFault, judge};
use crate::lines::{is_title, read_line};
use log_replay::count_after;
use pir_schemes::Plan;
use std::alloc::{AllocError, Global};
use std::collections::BTreeMap;

/// Why a line was refused.
#[derive(Clone, Copy, Debug, PartialEq, Eq)]
pub enum LineFault {
    /// The line is not one of an import.
    Form,
    /// Its change can't be made.
    Edit(EditFault),
}

/// Why the changes of lines were not taken.
#[derive(Clone, Copy, Debug, PartialEq, Eq)]
pub enum ImportStop {
    /// A line was refused: the first one to be refused.
    Line {
        /// Its number; the first line has the number 1.
        number: u64,
        /// Why.
        fault: LineFault,
    },
    /// Memory was refused.
    Memory,
}

impl From<AllocError> for ImportStop {
    ghost use Rattle.publisher_drafts.specs.declared.importing.ImportStop.TheVariants.{Memory};

    ghost from_gives = { λ _ stop. stop ≡ Memory };

    fn from(_refused: AllocError) -> Self {
        ImportStop::Memory
    }
}

/// The changes that lines ask for, of so many records, one after another. The last line may lack
/// its line feed.
///
/// # Errors
///
/// The first line that is not one of an import, or whose change can't be made; `Memory`.
pub fn changes_of_lines(
    alloc: Global,
    plan: &Plan,
    count: usize,
    text: &[u8],
) -> Result<ChangeMap, ImportStop> {
    let mut taken = Importing {
        changes: BTreeMap::new(alloc),
        count,
    };
    let mut number: u64 = 0;
    let mut rest = text;
    'lines: while let Some((line, after)) = first_line(rest) {
        if !is_title(number, line) {
            taken.take_line(alloc, plan, number, line)?;
        }
        number = number.saturating_add(1);
        rest = after;
    }
    Ok(taken.changes)
}

// The first line without its line feed, which the last one may lack, and what is after it; `None`
// if there is none.
fn first_line(text: &[u8]) -> Option<(&[u8], &[u8])>
    ensures shorter { IfSome result (λ it. length it.1.now < length text.now) }
{
    if text.is_empty() {
        return None;
    }
    match text.iter().position(|byte| *byte == b'\n') {
        Some(end) => Some((&text[..end], &text[end + 1..])),
        None => Some((text, &[])),
    }
}

// The changes of the lines before one, and how many records there are after them.
#[derive(Drop)]
struct Importing {
    changes: ChangeMap,
    count: usize,
}

impl Importing {
    // Takes up a line, the number of which is counted from 0.
    fn take_line(
        &mut self,
        alloc: Global,
        plan: &Plan,
        number: u64,
        line: &[u8],
    ) -> Result<(), ImportStop> {
        let Some(line) = read_line(alloc, line)? else {
            return Err(refused(number, LineFault::Form));
        };
        let place = match judge(plan, self.count, line.target, &line.bytes) {
            Ok(place) => place,
            Err(fault) => return Err(refused(number, LineFault::Edit(fault))),
        };
        put_change(&mut self.changes, place, line.bytes)?;
        self.count = count_after(self.count, place);
        Ok(())
    }
}

// The refusal of a line, the number of which is counted from 0.
fn refused(number: u64, fault: LineFault) -> ImportStop {
    ImportStop::Line {
        number: number.saturating_add(1),
        fault,
    }
}
