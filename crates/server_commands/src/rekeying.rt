//! The command `rekey`.

ghost use Rattle.std.specs.Prelude.{◌≡◌};
ghost use Rattle.sha2.specs.Sha256.{sha256};

use command_words::{Failed, Failure, printed};
use server_files::{OwnFile, RecordsOf, failed_at, whole_of, write_anew};
use server_words::{KEY_TAKES, Rekeying};
use session_core::Header;
use sha2::{Digest, Sha256};

/// Gives a snapshot file another publisher's key, and prints how many records it has and its
/// version. All else in it stays.
///
/// # Errors
///
/// In this order: those of the key's file (`File`, `Value`), `File` if there is no file, `Locked`
/// if another process has it, those of its snapshot and its log (`BadLog`), and those of the new
/// file (`File`, `Write`). `Memory` if memory was refused.
pub fn rekey(rt: &HostRuntime, rekeying: &Rekeying<'_>) -> Result<(), Failed> {
    let key = match rekeying.key.key(rt, KEY_TAKES) {
        Ok(key) => key,
        Err(failure) => return Err(rekeying.key.failed(rt, failure)),
    };
    let header = match rekey_file(rt, rekeying.file, &key) {
        Ok(header) => header,
        Err(failure) => return Err(failed_at(rt, rekeying.file, failure)),
    };
    let count = header.count;
    let version = header.version;
    printed(rt, println!(rt; "rekeyed {count} {version}"))
}

// Replaces a snapshot file by the same with another publisher's key, and returns its header.
fn rekey_file(rt: &HostRuntime, name: &str, key: &[u8; 32]) -> Result<Header, Failure> {
    let mut file = OwnFile::to_read(rt, name)?;
    let snapshot = whole_of(rt, file.name())?.snapshot;
    let header = rekeyed(snapshot.header(), key);
    let content = RecordsOf {
        header: &header,
        bytes: &snapshot.records,
    };
    write_anew(rt, &mut file, &content)?;
    Ok(header)
}

// The header with another publisher's key.
fn rekeyed(header: Header, key: &[u8; 32]) -> Header
    ensures { result ≡ record header { publisher = sha256 key.now } }
{
    let mut header = header;
    header.publisher = Sha256::digest(key.as_slice());
    header
}
