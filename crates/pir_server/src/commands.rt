//! The commands, and how each ends.

ghost use Rattle.std.specs.Prelude.{IfOk};
ghost use Rattle.snapshot_file.specs.declared.snapshot.Snapshot.{Snapshot};
ghost use Rattle.server_commands.specs.Moves.{HasRecordsOf, IsWideOf};

use crate::running::run_file;
use command_words::{Failed, Failure, open_standard_descriptors, printed, program_words};
use mio_server::say_line;
use server_commands::{back_up, make, moved, rekey, serve_file, show, widened};
use server_files::{OwnFile, RecordsOf, compact_file, failed_at, whole_of, write_anew};
use server_words::{Making, Migrating, SEED_TAKES, Task, Widening, task_of};
use session_core::{OnceFault, Snapshot, once};
use std::io;

/// The most reads that `once` makes.
const TURNS: u64 = 1_000_000;

/// The program: reads its command line, does what it asks for, and returns the exit status.
pub fn run(rt: &HostRuntime) -> u8 {
    if let Err(failure) = open_standard_descriptors() {
        return Failed::from(failure).report(rt, false);
    }
    let words = match program_words(rt) {
        Ok(words) => words,
        Err(status) => return status,
    };
    let asked = match task_of(rt.alloc(), &words) {
        Ok(asked) => asked,
        Err(bad) => return bad.report(rt),
    };
    match run_task(rt, asked.task) {
        Ok(()) => 0,
        Err(failed) if matches!(asked.task, Task::Run(_)) => said(rt, &failed, asked.verbose),
        Err(failed) => failed.report(rt, asked.verbose),
    }
}

// Says why a server that ran has ended, and returns the exit status. No reader of it is waited for:
// a server that has failed is to end.
fn said(rt: &HostRuntime, failed: &Failed, verbose: bool) -> u8 {
    let failure = failed.failure;
    let lines = match &failed.cause {
        Some(cause) if verbose => format!(in rt.alloc(); "{failure}\ncause: {cause}\n"),
        _ => format!(in rt.alloc(); "{failure}\n"),
    };
    match lines {
        Ok(lines) => say_line(&lines),
        Err(_) => say_line("fault: Memory\n"),
    };
    failure.status()
}

// Does what was asked for.
fn run_task(rt: &HostRuntime, task: Task<'_>) -> Result<(), Failed> {
    match task {
        Task::Make(making) => make_file(rt, &making),
        Task::Migrate(migrating) => migrate_file(rt, &migrating),
        Task::Widen(widening) => widen_file(rt, &widening),
        Task::Rekey(rekeying) => rekey(rt, &rekeying),
        Task::Show(file) => show(rt, file),
        Task::Compact(file) => compact_file(rt, file),
        Task::BackUp(backing_up) => back_up(rt, &backing_up),
        Task::Serve(serving) => serve_file(rt, &serving),
        Task::Run(options) => run_file(rt, &options),
        Task::Once => Ok(serve_once(rt)?),
    }
}

// Makes a snapshot file, and prints how many records it has and its version.
fn make_file(rt: &HostRuntime, making: &Making<'_>) -> Result<(), Failed> {
    let count = make(rt, making)?;
    printed(rt, println!(rt; "made {count} 1"))
}

// Moves the records of a snapshot file into slots, and prints how many there are and their
// version.
fn migrate_file(rt: &HostRuntime, migrating: &Migrating<'_>) -> Result<(), Failed> {
    let mut out = match OwnFile::to_write(rt, migrating.out) {
        Ok(out) => out,
        Err(failure) => return Err(failed_at(rt, migrating.out, failure)),
    };
    let moved = match moved_of(rt, migrating.file) {
        Ok(moved) => moved,
        Err(failure) => return Err(failed_at(rt, migrating.file, failure)),
    };
    if let Err(failure) = write_whole(rt, &mut out, &moved) {
        return Err(failed_at(rt, migrating.out, failure));
    }
    let count = moved.count;
    let version = moved.version;
    printed(rt, println!(rt; "migrated {count} {version}"))
}

// Puts the records of a snapshot file into a wide store, and prints how many there are and their
// version.
fn widen_file(rt: &HostRuntime, widening: &Widening<'_>) -> Result<(), Failed> {
    let seed = widening
        .seed
        .seed(rt, SEED_TAKES)
        .map_err(|failure| widening.seed.failed(rt, failure))?;
    let mut out = match OwnFile::to_write(rt, widening.out) {
        Ok(out) => out,
        Err(failure) => return Err(failed_at(rt, widening.out, failure)),
    };
    let wide = match widened_of(rt, widening.file, seed) {
        Ok(wide) => wide,
        Err(failure) => return Err(failed_at(rt, widening.file, failure)),
    };
    if let Err(failure) = write_whole(rt, &mut out, &wide) {
        return Err(failed_at(rt, widening.out, failure));
    }
    let count = wide.count;
    let version = wide.version;
    printed(rt, println!(rt; "widened {count} {version}"))
}

// The last version of a file, with its records moved into slots.
fn moved_of(rt: &HostRuntime, name: &str) -> Result<Snapshot, Failure>
    ensures { IfOk result (λ moved. (file : Snapshot) × HasRecordsOf file moved) }
{
    let whole = whole_of(rt, name)?;
    let moved = moved(rt.alloc(), &whole.snapshot)?;
    Ok(moved)
}

// The last version of a file, with its records in a wide store of this seed.
fn widened_of(rt: &HostRuntime, name: &str, seed: [u8; 32]) -> Result<Snapshot, Failure>
    ensures { IfOk result (λ wide. (file : Snapshot) × IsWideOf file seed wide) }
{
    let whole = whole_of(rt, name)?;
    let wide = widened(rt.alloc(), &whole.snapshot, seed)?;
    Ok(wide)
}

// Writes a snapshot to its file.
fn write_whole(
    rt: &HostRuntime,
    out: &mut OwnFile<'_>,
    snapshot: &Snapshot,
) -> Result<(), Failure> {
    let header = snapshot.header();
    let content = RecordsOf {
        header: &header,
        bytes: &snapshot.records,
    };
    write_anew(rt, out, &content)?;
    Ok(())
}

// Serves one database over standard input and output.
fn serve_once(rt: &HostRuntime) -> Result<(), Failure> {
    let mut reader = rt.reader();
    let mut writer = io::writer(rt);
    match once(rt.alloc(), &mut reader, &mut writer, TURNS) {
        Ok(()) => Ok(()),
        Err(OnceFault::Memory) => Err(Failure::Memory),
        Err(fault) => Err(Failure::Fault(fault.name())),
    }
}
