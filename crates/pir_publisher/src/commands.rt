//! The commands, and how each ends.

use crate::pushing::{push, status};
use command_words::{Failed, open_standard_descriptors, printed, program_words};
use publisher_drafts::{EditFault, LineFault};
use publisher_files::{
    Drafted, ImportFault, add, diff, import, init, publish, set, show, show_record,
};
use publisher_words::{AddOptions, InitOptions, SetOptions, ShowOptions, Task, task_of};

/// The exit status of an import with a bad line.
const BAD_LINE: u8 = 3;

/// The program: reads its command line, does what it asks for, and returns the exit status.
pub fn run(rt: &HostRuntime) -> u8 {
    if let Err(failure) = open_standard_descriptors() {
        return Failed::from(failure).report(rt, false);
    }
    let words = match program_words(rt) {
        Ok(words) => words,
        Err(status) => return status,
    };
    let asked = match task_of(rt.alloc(), &words) {
        Ok(asked) => asked,
        Err(bad) => return bad.report(rt),
    };
    if let Task::Import(dir) = asked.task {
        return import_lines(rt, dir, asked.verbose);
    }
    match run_task(rt, asked.task) {
        Ok(()) => 0,
        Err(failed) => failed.report(rt, asked.verbose),
    }
}

// Does what was asked for.
fn run_task(rt: &HostRuntime, task: Task<'_>) -> Result<(), Failed> {
    match task {
        Task::Init(beginning) => begin(rt, &beginning),
        // Done already, since a bad line is reported in its own way.
        Task::Import(_) => Ok(()),
        Task::Set(SetOptions { dir, index, bytes }) => say_drafted(rt, set(rt, dir, index, bytes)?),
        Task::Add(AddOptions { dir, bytes }) => say_drafted(rt, add(rt, dir, bytes)?),
        Task::Show(showing) => show_folder(rt, &showing),
        Task::Diff(dir) => diff(rt, dir),
        Task::Publish(dir) => publish_draft(rt, dir),
        Task::Push(pushing) => push(rt, &pushing),
        Task::Status(asking) => status(rt, &asking),
    }
}

// Prints what a folder has, or a record of it.
fn show_folder(rt: &HostRuntime, showing: &ShowOptions<'_>) -> Result<(), Failed> {
    match showing.index {
        Some(index) => show_record(rt, showing.dir, index),
        None => show(rt, showing.dir),
    }
}

// Begins a folder, and prints how many records it has and its version.
fn begin(rt: &HostRuntime, beginning: &InitOptions<'_>) -> Result<(), Failed> {
    let count = init(rt, beginning.dir, beginning.making)?;
    printed(rt, println!(rt; "made {count} 1"))
}

// Prints how many records the draft changes.
fn say_drafted(rt: &HostRuntime, drafted: Drafted) -> Result<(), Failed> {
    let Drafted(count) = drafted;
    printed(rt, println!(rt; "drafted {count}"))
}

// Publishes a draft, and prints the new version.
fn publish_draft(rt: &HostRuntime, dir: &str) -> Result<(), Failed> {
    let version = publish(rt, dir)?.number();
    printed(rt, println!(rt; "published {version}"))
}

// Imports the lines on standard input, and returns the exit status.
fn import_lines(rt: &HostRuntime, dir: &str, verbose: bool) -> u8 {
    match import(rt, dir) {
        Ok(drafted) => match say_drafted(rt, drafted) {
            Ok(()) => 0,
            Err(failed) => failed.report(rt, verbose),
        },
        Err(ImportFault::Failed(failed)) => failed.report(rt, verbose),
        Err(ImportFault::Line { number, fault }) => bad_line(rt, number, fault, verbose),
    }
}

// Says which line of an import is bad, and returns the exit status.
fn bad_line(rt: &HostRuntime, number: u64, fault: LineFault, verbose: bool) -> u8 {
    let _ = eprintln!(rt; "line {number}: bad");
    if verbose {
        let cause = cause_of(fault);
        let _ = eprintln!(rt; "cause: standard input, line {number}: {cause}");
    }
    BAD_LINE
}

// Why a line is bad.
fn cause_of(fault: LineFault) -> &'static str {
    match fault {
        LineFault::Form => "neither INDEX HEX nor + HEX",
        LineFault::Edit(EditFault::BadIndex) => "BadIndex: there is no record of this index",
        LineFault::Edit(EditFault::BadLength) => {
            "BadLength: a record of the store can't have this number of bytes"
        }
        LineFault::Edit(EditFault::Full) => "Full: the store has room for no further record",
    }
}
