//! The command `run`.

ghost use Rattle.std.specs.Prelude.{◌≡◌, ◌-◌, min, max, IfOk};
ghost use Rattle.server_files.specs.Saved.{saved_version};

use crate::hint_lines::HintLines;
use crate::saving::FileSaver;
use command_words::{Failed, Failure};
use mio_server::{Limits, RunFault, run_service, say_line};
use server_files::{OwnFile, failed_at, not_listening, open_pair, progress_of_file};
use server_words::RunOptions;
use session_core::{Lanes, ServerCore, Store};

/// How many bytes a MiB has.
const MIB: u64 = 1_048_576;

/// How many descriptors are kept for all but connections, without `--status`: standard input,
/// output and error, the listener, events, the file, its lock and folder, a version that is saved,
/// and some that whoever started the process left open.
const OTHER_DESCRIPTORS: u64 = 16;

/// How many are kept for those who ask how the server does: their listener, and eight connections.
const STATUS_DESCRIPTORS: u64 = 9;

/// Serves a snapshot file over many connections side by side, until the process is killed, or
/// standard input has ended if that is wanted. Each publication is appended to the log beside the
/// file before it is made. No other process serves or replaces the file meanwhile.
///
/// # Errors
///
/// In this order: `File` if there is no file, `Locked` if another process has it, those of the
/// snapshot, `Write` if the file can't be sent to the device, those of its log (`File`, `BadLog`,
/// `Write` if a torn end can't be cut off, or if a log that is too long can't be made shorter),
/// `Input` if standard input is to be watched and can't be, `Connect` if the address or that of
/// `--status` can't be listened on, and `Write` if one can't be printed, or what is left of a
/// failed append can't be cut off. `Memory` if memory was refused. A connection that is closed
/// before its end is reported on standard error, and ends nothing else.
pub fn run_file(rt: &HostRuntime, options: &RunOptions<'_>) -> Result<(), Failed> {
    let mut file = match OwnFile::to_read(rt, options.file) {
        Ok(file) => file,
        Err(failure) => return Err(failed_at(rt, options.file, failure)),
    };
    run_own(rt, options, &mut file)
}

// Serves a file that no other process has.
fn run_own(
    rt: &HostRuntime,
    options: &RunOptions<'_>,
    file: &mut OwnFile<'_>,
) -> Result<(), Failed> {
    let limit = bytes_of_mib(options.log_limit);
    let mut lines = HintLines::new(rt, options.progress);
    match open_to_run(rt, file, limit, options.progress, &mut lines) {
        Ok((store, saver)) => run_saved(rt, options, ServerCore::new(rt.alloc(), store), saver),
        Err(failure) => Err(failed_at(rt, options.file, failure)),
    }
}

// Serves a store whose version is saved.
fn run_saved(
    rt: &HostRuntime,
    options: &RunOptions<'_>,
    core: ServerCore<Lanes>,
    saver: FileSaver,
) -> Result<(), Failed>
    requires saved { saved_version saver.log ≡ core.store.version }
{
    let ended = match limits_of(rt, options) {
        Ok(limits) => run_service(rt, core, options.listen, limits, options.status, saver),
        Err(failure) => return Err(Failed::from(failure)),
    };
    match ended {
        Ok(()) => Ok(()),
        Err(fault) => Err(how_ended(rt, options, fault)),
    }
}

// How the command fails when the service has ended so.
fn how_ended(rt: &HostRuntime, options: &RunOptions<'_>, fault: RunFault) -> Failed {
    match fault {
        RunFault::Connect => not_listening(rt, options.listen),
        RunFault::Status => not_listening(rt, options.status.unwrap_or(options.listen)),
        RunFault::Write => failed_at(rt, options.file, Failure::Fault("Write")),
        RunFault::Input => failed_at(rt, "standard input", Failure::Fault("Input")),
        RunFault::Memory => Failed::from(Failure::Memory),
    }
}

// What the service allows.
fn limits_of(rt: &HostRuntime, options: &RunOptions<'_>) -> Result<Limits, Failure> {
    Ok(Limits {
        most: possible_most(rt, options.most, other_descriptors(options))?,
        idle: options.idle.saturating_mul(1000),
        memory: bytes_of_mib(options.memory),
        most_per_peer: most_per_peer(options),
        quiet: options.quiet,
        format: options.log,
        grace: grace_of(options),
        draft: options.draft,
    })
}

// How many milliseconds what was begun has after the end of standard input.
fn grace_of(options: &RunOptions<'_>) -> Option<u64> {
    match options.grace {
        Some(seconds) => Some(seconds.saturating_mul(1000)),
        None => None,
    }
}

// How many connections one peer may have, if that is bounded.
fn most_per_peer(options: &RunOptions<'_>) -> Option<usize> {
    match options.most_per_peer {
        Some(most) => Some(most as usize),
        None => None,
    }
}

// How many bytes so many MiB have.
fn bytes_of_mib(count: u64) -> usize {
    usize::try_from(count.saturating_mul(MIB)).unwrap_or(usize::MAX)
}

// The store of a file and its log, and what appends to that log. A log of more than so many bytes
// is made shorter first. Lines are printed while the file is read, if they are wanted, and while
// the hints are made.
fn open_to_run(
    rt: &HostRuntime,
    file: &mut OwnFile<'_>,
    limit: usize,
    wanted: bool,
    lines: &mut HintLines<'_>,
) -> Result<(Store<Lanes>, FileSaver), Failure>
    ensures { IfOk result (λ it. saved_version it.1.log ≡ it.0.version) }
{
    let progress = if wanted {
        progress_of_file(rt, file.name())
    } else {
        None
    };
    let pair = open_pair(rt, file, limit, progress)?;
    if pair.log.read.torn > 0 {
        let torn = pair.log.read.torn;
        let line = format!(in rt.alloc(); "log: cut {torn} bytes\n")?;
        say_line(&line);
    }
    let (store, log) = pair.store(rt.alloc(), lines)?;
    Ok((store, FileSaver { log }))
}

// How many connections there may be at once: as many as are asked for, or fewer if the process
// may have too few descriptors, which is said then.
fn possible_most(rt: &HostRuntime, asked: usize, others: u64) -> Result<usize, Failure> {
    let Some(descriptors) = descriptor_limit() else {
        return Ok(asked);
    };
    let most = within_descriptors(asked, descriptors, others);
    if most < asked {
        let line = format!(in rt.alloc(); "most: {most}, of {descriptors} descriptors\n")?;
        say_line(&line);
    }
    Ok(most)
}

// How many descriptors are kept for all but connections.
fn other_descriptors(options: &RunOptions<'_>) -> u64 {
    if options.status.is_some() {
        OTHER_DESCRIPTORS + STATUS_DESCRIPTORS
    } else {
        OTHER_DESCRIPTORS
    }
}

// How many of the connections that are asked for fit into so many descriptors beside so many
// others: one at least.
fn within_descriptors(asked: usize, descriptors: u64, others: u64) -> usize
    ensures { result ≡ min asked (max 1 (descriptors - others)) }
{
    let room = descriptors.saturating_sub(others).max(1);
    asked.min(usize::try_from(room).unwrap_or(usize::MAX))
}

// How many descriptors the process may have, if the system says it.
fn descriptor_limit() -> Option<u64> {
    let mut limit = libc::types::rlimit {
        rlim_cur: 0,
        rlim_max: 0,
    };
    if libc::getrlimit(libc::RLIMIT_NOFILE, &mut limit) == 0 {
        Some(limit.rlim_cur)
    } else {
        None
    }
}
