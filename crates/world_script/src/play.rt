//! A script, played line by line.

ghost use Rattle.std.specs.Prelude.{◌≡◌, ◌≤◌, ◌<◌, ◌⊎◌, ◌∷◌, [], ℕ, List, IfOk, IsErrOf};
ghost use Rattle.std.specs.Prelude.{MatchOption, length, take};
ghost use Rattle.std.specs.Io.KnownBytes.{Appends, Consumes};
ghost use Rattle.world_script.specs.Lines.{is_silent, lines_of};
ghost use Rattle.world_script.specs.Scripts.{IsRehearsal, LeadsText, ScriptPlace, Plays, Start};
ghost use Rattle.world_script.specs.Progress.{IsAt, IsEarly, MakesMove, PlaysScript, ReportsEnd};
ghost use Rattle.world_script.specs.Progress.{SaysText, last_text};

use crate::input::read_script;
use crate::line::read_line;
use crate::outcome::refused_world_line;
use crate::progress::{Progress, say};
use crate::stop::Stop;
use std::alloc::Global;
use std::io::{Read, Write};
use thiserror::Error;

/// Why a rehearsal could not be read or printed.
#[derive(Clone, Copy, Debug, PartialEq, Eq, Error)]
pub enum RehearseFault {
    /// A read failed.
    #[error("a read failed")]
    Read,
    /// A write failed, or took no byte.
    #[error("a write failed")]
    Write,
}

/// Reads a script, plays it, and prints what comes of it. Returns the exit status.
///
/// The status is 0 if the script was played to its end, 3 if the script is too long, if a line
/// doesn't fit its place, and if the world can't be opened, and 4 if memory was refused; the last
/// line printed says so.
///
/// # Errors
///
/// `Read` if a read fails; nothing was printed then. `Write` if a write fails or takes no
/// byte; what was printed then is a part of what the script prints, from its start on.
pub fn rehearse<R: Read, W: Write>(
    alloc: Global,
    reader: &mut R,
    writer: &mut W,
) -> Result<u8, RehearseFault>
    ensures done { IfOk result (λ status. (script : List ℕ) × (printed : List ℕ) ×
        Consumes (R.remaining reader.old) (R.remaining reader.new) script ×
        Appends (W.contents writer.old) (W.contents writer.new) printed ×
        IsRehearsal script (R.remaining reader.new) printed status) }
    ensures cut { IsErrOf result RehearseFault.Write → (script : List ℕ) × (printed : List ℕ) ×
        (status : ℕ) × (count : ℕ) × (count < length printed) ×
        Consumes (R.remaining reader.old) (R.remaining reader.new) script ×
        Appends (W.contents writer.old) (W.contents writer.new) (take count printed) ×
        IsRehearsal script (R.remaining reader.new) printed status }
    ensures unread { IsErrOf result RehearseFault.Read →
        Appends (W.contents writer.old) (W.contents writer.new) [] }
    ensures status { IfOk result (λ status. (status ≡ 0) ⊎ (status ≡ 3) ⊎ (status ≡ 4)) }
{
    let script = match read_script(alloc, reader) {
        Ok(script) => script,
        Err(stop) => return report(alloc, stop, writer),
    };
    match play(alloc, script.as_slice(), writer) {
        Ok(()) => Ok(0),
        Err(stop) => report(alloc, stop, writer),
    }
}

/// Prints why a rehearsal ended before its script, and returns the status.
fn report<W: Write>(alloc: Global, stop: Stop, writer: &mut W) -> Result<u8, RehearseFault>
    ensures printed { ReportsEnd stop (W.contents writer.old) result (W.contents writer.new) }
    ensures status { IfOk result (λ status. (status ≡ 3) ⊎ (status ≡ 4)) }
{
    match stop {
        Stop::Read => Err(RehearseFault::Read),
        Stop::Write => Err(RehearseFault::Write),
        Stop::Memory => report_memory(writer),
        Stop::TooLong => report_end(alloc, Stop::TooLong, writer),
        Stop::BadLine { number } => report_end(alloc, Stop::BadLine { number }, writer),
        Stop::World(fault) => report_end(alloc, Stop::World(fault), writer),
    }
}

/// Prints the last line of a script that ended early, or that memory for it was refused.
fn report_end<W: Write>(alloc: Global, stop: Stop, writer: &mut W) -> Result<u8, RehearseFault>
    requires { IsEarly stop }
    ensures printed { ReportsEnd stop (W.contents writer.old) result (W.contents writer.new) }
    ensures status { IfOk result (λ status. (status ≡ 3) ⊎ (status ≡ 4)) }
{
    match say_end(alloc, stop, writer) {
        Ok(()) => Ok(3),
        Err(Stop::Memory) => report_memory(writer),
        Err(_) => Err(RehearseFault::Write),
    }
}

/// Prints the last line of a script that ended early.
#[tactic(auto, using(crate::proofs::Reported::appends_nothing))]
fn say_end<W: Write>(alloc: Global, stop: Stop, writer: &mut W) -> Result<(), Stop>
    ensures { SaysText (last_text stop) (W.contents writer.old) result (W.contents writer.new) }
{
    match stop {
        Stop::Read => Ok(()),
        Stop::Write => Ok(()),
        Stop::TooLong => say(writer, "script: too long\n"),
        Stop::BadLine { number } => {
            let line = format!(in alloc; "line {number}: bad\n")?;
            say(writer, line.as_str())
        }
        Stop::World(fault) => {
            let line = refused_world_line(alloc, fault)?;
            say(writer, line.as_str())
        }
        Stop::Memory => say(writer, "memory\n"),
    }
}

/// Prints that memory was refused. No memory is taken for that.
fn report_memory<W: Write>(writer: &mut W) -> Result<u8, RehearseFault>
    ensures printed { ReportsEnd Stop.Memory (W.contents writer.old) result
        (W.contents writer.new) }
    ensures status { IfOk result (λ status. status ≡ 4) }
{
    match say(writer, "memory\n") {
        Ok(()) => Ok(4),
        Err(_) => Err(RehearseFault::Write),
    }
}

/// Plays a script's lines, one after another.
fn play<W: Write>(alloc: Global, script: &[u8], writer: &mut W) -> Result<(), Stop>
    requires { length script.now ≤ 1048576 }
    ensures { PlaysScript (Plays (lines_of script.now) Start 1)
        (W.contents writer.old) result (W.contents writer.new) }
{
    let mut progress = Progress::Start;
    let mut number = 1u64;
    let mut rest = script;
    while let Some((text, after)) = first_line(rest) {
        progress = match play_line(alloc, progress, number, text, writer) {
            Ok(next) => next,
            Err(stop) => return Err(stop),
        };
        number += 1;
        rest = after;
    }
    match progress.end(alloc, number) {
        Ok(()) => Ok(()),
        Err(stop) => Err(stop),
    }
}

/// The first line of a script without its line feed, and what follows it.
fn first_line(script: &[u8]) -> Option<(&[u8], &[u8])>
    ensures { MatchOption result (lines_of script.now ≡ []) (λ cut.
        (lines_of script.now ≡ cut.0.now ∷ lines_of cut.1.now) ×
        (length cut.1.now < length script.now)) }
{
    if script.is_empty() {
        return None;
    }
    match script.iter().position(|byte| *byte == b'\n') {
        Some(at) => Some((&script[..at], &script[at + 1..])),
        None => Some((script, &script[script.len()..])),
    }
}

/// Plays the line of a number.
fn play_line<W: Write>(
    alloc: Global,
    progress: Progress,
    number: u64,
    text: &[u8],
    writer: &mut W,
) -> Result<Progress, Stop>
    ensures { (place : ScriptPlace) → IsAt progress place →
        MakesMove (LeadsText place text.now) number
        (W.contents writer.old) result (W.contents writer.new) }
{
    if is_silent(text) {
        return Ok(progress);
    }
    match read_line(alloc, text) {
        Ok(Some(line)) => progress.take(alloc, number, line, writer),
        Ok(None) => Err(Stop::BadLine { number }),
        Err(_) => Err(Stop::Memory),
    }
}

/// An empty line, or one that begins with `#`.
fn is_silent(text: &[u8]) -> bool
    ensures { result ≡ is_silent text.now }
{
    match text {
        [] => true,
        [first, ..] => *first == b'#',
    }
}
