//! The commands over a connection.

ghost use Rattle.std.specs.Prelude.{◌≤◌, ◌<◌, ◌^◌, length};
ghost use Rattle.pir_client.specs.Tasks.{TaskFits, IsDimension};

use crate::command_line::{KEY_TAKES, SEED_TAKES, Task, task_of};
use crate::failures::failure_of;
use crate::folders::{done_in_folder, print_record};
use crate::server::{Address, Server};
use client_commands::{append, get, publish, put};
use command_words::{Failed, Failure, Secret, open_standard_descriptors, printed, program_words};
use session_core::{ClientCore, Lanes, Scheme, ServerInfo};
use std::io;
use world_script::{RehearseFault, rehearse};

/// The program: reads its command line, does what it asks for, and returns the exit status.
pub fn run(rt: &HostRuntime) -> u8 {
    if let Err(failure) = open_standard_descriptors() {
        return Failed::from(failure).report(rt, false);
    }
    let words = match program_words(rt) {
        Ok(words) => words,
        Err(status) => return status,
    };
    let asked = match task_of(rt.alloc(), &words) {
        Ok(asked) => asked,
        Err(bad) => return bad.report(rt),
    };
    match run_task(rt, asked.task) {
        Ok(status) => status,
        Err(failed) => failed.report(rt, asked.verbose),
    }
}

// Does what was asked for, prints what came of it, and returns the exit status.
fn run_task(rt: &HostRuntime, task: Task<'_>) -> Result<u8, Failed>
    requires { TaskFits task }
{
    match task {
        Task::Get {
            server,
            seed,
            number,
            least,
            scheme,
            index,
        } => {
            let seed = seed_of(rt, seed)?;
            get_record(rt, &server, seed, number, least, scheme, index)?
        }
        Task::Put {
            server,
            key,
            index,
            bytes,
        } => {
            let key = key_of(rt, key)?;
            put_record(rt, &server, key, index, &bytes)?
        }
        Task::Append { server, key, bytes } => {
            let key = key_of(rt, key)?;
            append_record(rt, &server, key, &bytes)?
        }
        Task::Publish { server, key } => {
            let key = key_of(rt, key)?;
            publish_draft(rt, &server, key)?
        }
        Task::Folder(task) => done_in_folder(rt, task)?,
        Task::Rehearse => return rehearsed(rt),
    }
    Ok(0)
}

// The seed that a command line gives, or its file.
fn seed_of(rt: &HostRuntime, seed: Secret<'_>) -> Result<[u8; 32], Failed> {
    seed.seed(rt, SEED_TAKES)
        .map_err(|failure| seed.failed(rt, failure))
}

// The key that a command line gives, or its file.
fn key_of(rt: &HostRuntime, key: Secret<'_>) -> Result<[u8; 32], Failed> {
    key.key(rt, KEY_TAKES)
        .map_err(|failure| key.failed(rt, failure))
}

// Plays the script on standard input.
fn rehearsed(rt: &HostRuntime) -> Result<u8, Failed> {
    match rehearse(rt.alloc(), &mut rt.reader(), &mut io::writer(rt)) {
        Ok(status) => Ok(status),
        Err(RehearseFault::Read) => Err(Failed::from(Failure::Fault("Read"))),
        Err(RehearseFault::Write) => Err(Failed::from(Failure::Fault("Write"))),
    }
}

/// The words of a secret with the publication's parameters.
const WHOLE_SECRET: usize = 1024;

// Warns of secrets of fewer words, once the server has reported their number.
fn warn_of_short_secrets(rt: &HostRuntime, known: Option<ServerInfo>) {
    if let Some(known) = known {
        let dimension = known.dimension();
        if dimension < WHOLE_SECRET {
            let _ = eprintln!(rt;
                "warning: the server's secrets have {dimension} words, and hide less than 1024 do"
            );
        }
    }
}

// Retrieves a record, and prints it.
fn get_record(
    rt: &HostRuntime,
    address: &Address<'_>,
    seed: [u8; 32],
    number: u64,
    least: Option<usize>,
    scheme: Scheme,
    index: u32,
) -> Result<(), Failed>
    requires number { number < 2 ^ 62 }
    requires dimension { IsDimension least }
{
    let server = Server::connect(rt, address)?;
    let mut client = ClientCore::new(rt.alloc(), Lanes, seed, number);
    client.speak(address.wide);
    let got = get(
        rt.alloc(),
        &mut client,
        &mut &server,
        &mut &server,
        least.unwrap_or(1),
        scheme,
        index,
    );
    let known = client.known();
    // A call keeps the prover from taking apart on each way out all that a client owns.
    drop(client);
    match got {
        Ok(got) => print_record(rt, &got)?,
        Err(fault) => return Err(server.failed(address, failure_of(fault))),
    }
    // A command that fails says nothing else, so the warning is printed only beside a record.
    if least.is_none() {
        warn_of_short_secrets(rt, known);
    }
    Ok(())
}

// Replaces a record of the draft, and prints the current version.
fn put_record(
    rt: &HostRuntime,
    address: &Address<'_>,
    key: [u8; 32],
    index: u32,
    bytes: &[u8],
) -> Result<(), Failed>
    requires { length bytes.now ≤ 65535 }
{
    let server = Server::connect(rt, address)?;
    let mut client = publisher(rt, address.wide);
    let done = put(
        rt.alloc(),
        &mut client,
        &mut &server,
        &mut &server,
        key,
        index,
        bytes,
    );
    match done {
        Ok(version) => printed(rt, println!(rt; "done {version}")),
        Err(fault) => Err(server.failed(address, failure_of(fault))),
    }
}

// Appends a record to the draft, and prints the current version.
fn append_record(
    rt: &HostRuntime,
    address: &Address<'_>,
    key: [u8; 32],
    bytes: &[u8],
) -> Result<(), Failed>
    requires { length bytes.now ≤ 65535 }
{
    let server = Server::connect(rt, address)?;
    let mut client = publisher(rt, address.wide);
    let done = append(
        rt.alloc(),
        &mut client,
        &mut &server,
        &mut &server,
        key,
        bytes,
    );
    match done {
        Ok(version) => printed(rt, println!(rt; "done {version}")),
        Err(fault) => Err(server.failed(address, failure_of(fault))),
    }
}

// Publishes the draft, and prints the new version.
fn publish_draft(rt: &HostRuntime, address: &Address<'_>, key: [u8; 32]) -> Result<(), Failed> {
    let server = Server::connect(rt, address)?;
    let mut client = publisher(rt, address.wide);
    match publish(rt.alloc(), &mut client, &mut &server, &mut &server, key) {
        Ok(version) => printed(rt, println!(rt; "published {version}")),
        Err(fault) => Err(server.failed(address, failure_of(fault))),
    }
}

// A client that asks for no record, so that any seed serves, and that greets a wide store or an
// ordinary one.
fn publisher(rt: &HostRuntime, wide: bool) -> ClientCore<Lanes> {
    let mut client = ClientCore::new(rt.alloc(), Lanes, [0; 32], 0);
    client.speak(wide);
    client
}
