//! What caused a failure, as its second line says.

use command_words::{Failed, Failure, file_failed};
use std::net::{SocketAddr, TcpListener};

/// How a command on a file failed, with the file in the cause.
pub fn failed_at(rt: &HostRuntime, name: &str, failure: Failure) -> Failed {
    match cause_of(failure) {
        Some(means) => file_failed(rt, name, failure, means),
        None => Failed::from(failure),
    }
}

/// How a server failed that can't listen at an address: with the system's error, if listening fails
/// now, too.
pub fn not_listening(rt: &HostRuntime, address: SocketAddr) -> Failed {
    let alloc = rt.alloc();
    let cause = match TcpListener::bind(rt, address) {
        Err(fault) => format!(in alloc; "{address}: {fault}"),
        Ok(_) => format!(in alloc; "{address}: no connection could be accepted"),
    };
    Failed::by(Failure::Fault("Connect"), cause)
}

// What the fault of a file means; nothing if its name says it all.
fn cause_of(failure: Failure) -> Option<&'static str> {
    let Failure::Fault(name) = failure else {
        return None;
    };
    match name {
        "File" => Some(
            "no file can be opened or made here, or there is a folder, a pipe or a device of \
                that name",
        ),
        "Write" => Some("what was to be written is not on the disk, or could not be printed"),
        "Read" => Some("reading failed"),
        "Input" => Some(
            "no event comes of a file or of the null device: it takes a pipe, a socket or a \
                terminal",
        ),
        "Locked" => Some("another process serves or replaces it"),
        "Exists" => Some("there is a file of that name, and --new replaces none"),
        "NotSnapshot" => Some("not a snapshot"),
        "BadLayout" => Some("the snapshot's layout, dimension or version is outside the limits"),
        "Short" => Some("the snapshot is cut short"),
        "BadDigest" => Some("the snapshot's digest is wrong"),
        "TrailingBytes" => Some("there are bytes after the snapshot"),
        "BadLog" => Some(
            "the log of publications beside it is damaged, or is none of its snapshot",
        ),
        "BadSlot" => Some("a record of the snapshot is no slot"),
        "NotFormOne" => Some("its records stand in slots already"),
        "TooWide" => Some("no store has records of two bytes more"),
        _ => None,
    }
}
