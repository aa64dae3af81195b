//! The command `serve`.

ghost use Rattle.std.specs.Prelude.{◌≡◌, IfOk};

use command_words::{Failed, Failure, printed};
use connection_io::{piece_buffer, read_piece};
use publication_log::{Publications, read_log_file};
use server_files::{
    FileVersion, OwnFile, VersionOf, failed_at, kept_file, log_failure, not_listening, store_after,
    write_anew,
};
use server_words::Serving;
use session_core::{Lanes, ServeFault, ServerCore, Store, serve};
use std::io;
use std::net::{Ipv4Addr, Shutdown, SocketAddr, TcpListener, TcpStream};
use std::time::Duration;
use version_store::Unwatched;

/// The most reads that one connection's session makes.
const TURNS: u64 = 1_000_000;

/// The most reads of what a peer sent after the end of its session: those of one frame of the
/// largest size.
const DRAIN_READS: u32 = 257;

/// How many milliseconds one of these reads waits at most.
const DRAIN_WAIT: u64 = 100;

/// Serves a snapshot file with its log over connections, one after the other. After each in which a
/// version was published the file is replaced, and then needs no log. No other process serves or
/// replaces it meanwhile.
///
/// # Errors
///
/// In this order: `File` if there is no file, `Locked` if another process has it, those of the
/// snapshot, `Write` if the file can't be sent to the device, those of its log (`File`, `BadLog`),
/// `Connect` if the port can't be listened on, and after a connection that published `File` if the
/// file can't be made anew and `Write` if it can't be written. `Memory` if memory was refused. A
/// connection that ends with a fault is reported on standard error, and ends nothing else.
pub fn serve_file(rt: &HostRuntime, serving: &Serving<'_>) -> Result<(), Failed> {
    let mut file = match OwnFile::to_read(rt, serving.file) {
        Ok(file) => file,
        Err(failure) => return Err(failed_at(rt, serving.file, failure)),
    };
    serve_own(rt, serving, &mut file)
}

// Serves a file that no other process has.
fn serve_own(
    rt: &HostRuntime,
    serving: &Serving<'_>,
    file: &mut OwnFile<'_>,
) -> Result<(), Failed> {
    match open_to_serve(rt, file) {
        Ok((store, saved)) => {
            let mut core = ServerCore::new(rt.alloc(), store);
            serve_all(rt, serving, file, &mut core, saved)
        }
        Err(failure) => Err(failed_at(rt, serving.file, failure)),
    }
}

// Listens, and serves so many connections, one after the other.
fn serve_all(
    rt: &HostRuntime,
    serving: &Serving<'_>,
    file: &mut OwnFile<'_>,
    core: &mut ServerCore<Lanes>,
    mut saved: FileVersion,
) -> Result<(), Failed> {
    let listener = listen(rt, serving.port)?;
    for id in 0..serving.connections {
        if let Err(fault) = serve_next(rt, &listener, core, u64::from(id)) {
            let name = fault_name(fault);
            let _ = eprintln!(rt; "connection: {name}");
        }
        saved = match save_published(rt, file, core.store(), saved) {
            Ok(saved) => saved,
            Err(failure) => return Err(failed_at(rt, serving.file, failure)),
        };
    }
    Ok(())
}

// Saves the current version, unless the file has it, and returns what it has then.
fn save_published(
    rt: &HostRuntime,
    file: &mut OwnFile<'_>,
    store: &Store<Lanes>,
    saved: FileVersion,
) -> Result<FileVersion, Failure>
    ensures { IfOk result (λ has. has.version ≡ store.now.version) }
{
    if store.version() == saved.number() {
        return Ok(saved);
    }
    write_anew(rt, file, &VersionOf(store))
}

// The store of a file and its log, and the version that both have. The log stays as it is, and none
// is made.
fn open_to_serve(
    rt: &HostRuntime,
    file: &mut OwnFile<'_>,
) -> Result<(Store<Lanes>, FileVersion), Failure>
    ensures { IfOk result (λ it. it.1.version ≡ it.0.version) }
{
    let kept = kept_file(rt, file, None)?;
    match read_log_file(rt, kept.own.name.as_str(), &kept.own.header) {
        Ok(Some(log)) => store_after(rt.alloc(), kept.read, log.publications(), &mut Unwatched),
        Ok(None) => store_after(
            rt.alloc(),
            kept.read,
            Publications { rest: &[] },
            &mut Unwatched,
        ),
        Err(fault) => Err(log_failure(fault)),
    }
}

// Listens on a port of 127.0.0.1, and tells which one it is.
fn listen(rt: &HostRuntime, port: u16) -> Result<TcpListener, Failed> {
    let wanted = SocketAddr::from((Ipv4Addr::LOCALHOST, port));
    let Ok(listener) = TcpListener::bind(rt, wanted) else {
        return Err(not_listening(rt, wanted));
    };
    let Ok(address) = listener.local_addr() else {
        return Err(not_listening(rt, wanted));
    };
    let port = address.port();
    printed(rt, println!(rt; "listening {port}"))?;
    Ok(listener)
}

// Why a connection did not come to a good end; None if it was not accepted.
type ConnectionFault = Option<ServeFault>;

// Accepts the next connection, and serves its session.
fn serve_next(
    rt: &HostRuntime,
    listener: &TcpListener,
    core: &mut ServerCore<Lanes>,
    id: u64,
) -> Result<(), ConnectionFault> {
    let Ok((stream, _)) = listener.accept() else {
        return Err(None);
    };
    let ended = serve(rt.alloc(), core, id, &mut &stream, &mut &stream, TURNS);
    // What is left of the connection can't change how its session ended.
    let _ = drain(rt, &stream);
    match ended {
        Ok(_) => Ok(()),
        Err(fault) => Err(Some(fault)),
    }
}

// Ends the writing, and reads what the peer still sends, so that the last reply isn't lost with it.
fn drain(rt: &HostRuntime, stream: &TcpStream) -> io::Result<()> {
    stream.shutdown(Shutdown::Write)?;
    stream.set_read_timeout(Some(Duration::from_millis(DRAIN_WAIT)))?;
    let mut buffer = piece_buffer(rt.alloc())?;
    let mut reader = stream;
    for _ in 0..DRAIN_READS {
        match read_piece(&mut reader, &mut buffer) {
            Ok(0) | Err(_) => return Ok(()),
            Ok(_) => {}
        }
    }
    Ok(())
}

// The name that tells it.
fn fault_name(fault: ConnectionFault) -> &'static str {
    match fault {
        None => "Connect",
        Some(fault) => fault.name(),
    }
}
