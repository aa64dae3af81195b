//! The command `show`.

ghost use Rattle.std.specs.Prelude.{◌≤◌};

use command_words::{Failed, Failure, printed};
use digit_pack::{is_slotted, read_slot};
use noise_odds::{Odds, of_double, of_simple};
use server_files::{LogSize, Whole, failed_at, whole_of};
use session_core::{Layout, Scheme, Snapshot, answer_count, hint_len, is_certain, query_count};
use std::alloc::{AllocError, Global};

/// How many bytes a word has.
const WORD_BYTES: u128 = 4;

/// Prints what a snapshot file holds and what its retrievals take, a line each.
///
/// # Errors
///
/// In this order: those of the file and the snapshot, `Write`. `Memory` if memory was refused.
pub fn show(rt: &HostRuntime, name: &str) -> Result<(), Failed> {
    let Whole { snapshot, log } = match whole_of(rt, name) {
        Ok(whole) => whole,
        Err(failure) => return Err(failed_at(rt, name, failure)),
    };
    let mut text = description_of(rt.alloc(), &snapshot)?;
    if let Some(size) = log {
        let line = log_line(rt.alloc(), size)?;
        text.push_str(&line)?;
    }
    printed(rt, print!(rt; "{text}"))
}

// How many publications a log has, and how many bytes.
fn log_line(alloc: Global, size: LogSize) -> Result<String, AllocError> {
    let LogSize {
        publications,
        bytes,
    } = size;
    format!(in alloc; "log {publications} publications, {bytes} bytes\n")
}

// The lines of a snapshot.
fn description_of(alloc: Global, snapshot: &Snapshot) -> Result<String, Failure>
    requires { snapshot.now.dimension ≤ 1024 }
{
    let Ok(layout) = snapshot.header().layout() else {
        return Err(Failure::Fault("BadLayout"));
    };
    Ok(description(alloc, snapshot, &layout)?)
}

// All the lines.
fn description(alloc: Global, snapshot: &Snapshot, layout: &Layout) -> Result<String, AllocError>
    requires { snapshot.now.dimension ≤ 1024 }
{
    let n = usize::from(snapshot.dimension);
    let version = snapshot.version;
    let form = snapshot.form;
    let mut text = format!(in alloc; "version {version}\nform {form}\n")?;
    add(&mut text, records_line(alloc, snapshot, layout))?;
    add(&mut text, sizes(alloc, layout, n))?;
    add(&mut text, words_of(alloc, Scheme::Simple, layout, n))?;
    add(&mut text, words_of(alloc, Scheme::Double, layout, n))?;
    add(&mut text, certainty_of(alloc, Scheme::Simple, layout))?;
    add(&mut text, certainty_of(alloc, Scheme::Double, layout))?;
    Ok(text)
}

// Adds a line to a text, if there was memory for it.
fn add(text: &mut String, line: Result<String, AllocError>) -> Result<(), AllocError> {
    text.push_str(&line?)
}

// How many records there are, and their length: in form 2 the most that a slot has room for, and
// that of the longest one.
fn records_line(alloc: Global, snapshot: &Snapshot, layout: &Layout) -> Result<String, AllocError> {
    let count = layout.count();
    let len = layout.record_len();
    if !is_slotted(u16::from(snapshot.form)) {
        return format!(in alloc; "records {count} of {len} bytes\n");
    }
    let most = len.saturating_sub(2);
    let longest = longest_of(layout, &snapshot.records);
    format!(in alloc; "records {count} of at most {most} bytes, the longest of {longest}\n")
}

// How many bytes the longest record has, of those in some slots.
fn longest_of(layout: &Layout, slots: &[u8]) -> usize {
    let mut longest = 0;
    for slot in slots.chunks_exact(layout.record_len()) {
        if let Ok(len) = read_slot(slot) {
            longest = longest.max(len);
        }
    }
    longest
}

// The sizes of the digits and of a secret.
fn sizes(alloc: Global, layout: &Layout, n: usize) -> Result<String, AllocError> {
    let width = layout.width();
    let groups = layout.groups();
    let rows = layout.rows();
    let cols = layout.cols();
    format!(in alloc;
        "width {width}\ngroups {groups}\ndigits {rows} rows {cols} columns\ndimension {n}\n"
    )
}

// How many bytes the words of a hint, a query and an answer have.
fn words_of(alloc: Global, scheme: Scheme, layout: &Layout, n: usize) -> Result<String, AllocError>
    requires { n ≤ 1024 }
{
    let name = name_of(scheme);
    let hint = hint_len(scheme, layout, n) as u128 * WORD_BYTES;
    let query = query_count(scheme, layout) as u128 * WORD_BYTES;
    let answer = answer_count(scheme, layout, n) as u128 * WORD_BYTES;
    format!(in alloc; "{name}: hint {hint}, query {query}, answer {answer} bytes\n")
}

fn name_of(scheme: Scheme) -> &'static str {
    match scheme {
        Scheme::Simple => "simple",
        Scheme::Double => "double",
    }
}

// Whether every retrieval gives its record, whatever noise is drawn, or else how rarely a digit of
// one is misread.
fn certainty_of(alloc: Global, scheme: Scheme, layout: &Layout) -> Result<String, AllocError> {
    let name = name_of(scheme);
    if is_certain(scheme, layout) {
        return format!(in alloc; "{name}: certain\n");
    }
    let Odds { even, worst } = odds_of(scheme, layout);
    format!(in alloc; "{name}: depends on the noise, odds 2^-{even}, at worst 2^-{worst}\n")
}

// Bits of the odds that a digit of a retrieval is misread.
fn odds_of(scheme: Scheme, layout: &Layout) -> Odds {
    // A layout has one of each at least.
    let columns = layout.cols().max(1);
    let rows = layout.rows().max(1);
    match scheme {
        Scheme::Simple => of_simple(layout.width(), columns),
        Scheme::Double => of_double(layout.width(), columns, rows),
    }
}
