//! What a server's store must be.

use crate::broken::Broken;
use crate::records::Truth;
use session_core::{Lanes, Scheme, Store, read_snapshot, write_snapshot};
use std::alloc::Global;

/// Whether a store has the records that were published in its version.
///
/// # Errors
///
/// `OtherRecords` when it has not, `Memory`.
pub fn check_records(
    server: usize,
    store: &Store<Lanes>,
    truth: &Truth,
    room: &mut [u8],
) -> Result<(), Broken> {
    let version = store.version();
    let other = Broken::OtherRecords { server, version };
    let Some(records) = truth.at(version) else {
        return Err(other);
    };
    if store.layout().count() != records.count() {
        return Err(other);
    }
    for index in 0..records.count() {
        if !has_record(store, index, records.get(index), room) {
            return Err(other);
        }
    }
    Ok(())
}

// Whether a store has this record.
fn has_record(store: &Store<Lanes>, index: usize, record: Option<&[u8]>, room: &mut [u8]) -> bool {
    let len = store.layout().record_len();
    if index >= store.layout().count() || room.len() < len {
        return false;
    }
    let (room, _) = room.split_at_mut(len);
    let count = store.copy_record(index, room);
    match record {
        Some(bytes) => room.get(..count) == Some(bytes),
        None => false,
    }
}

/// Whether a store's hints and digits are those that are made of its snapshot anew, and the
/// snapshot is that of each other server of the version.
///
/// # Errors
///
/// `OtherHint`, `OtherSnapshot` when that is not so; `Memory`.
pub fn check_hints(
    alloc: Global,
    server: usize,
    store: &Store<Lanes>,
    truth: &mut Truth,
) -> Result<(), Broken> {
    let version = store.version();
    let mut bytes = Vec::new(alloc);
    if write_snapshot(alloc, store, &mut bytes).is_err() {
        return Err(Broken::Memory);
    }
    if !truth.note_digest(version, last_bytes(&bytes)) {
        return Err(Broken::OtherSnapshot { server, version });
    }
    match made_anew(alloc, &bytes) {
        Some(anew) if are_alike(store, &anew) => Ok(()),
        Some(_) => Err(Broken::OtherHint { server, version }),
        None => Err(Broken::OtherSnapshot { server, version }),
    }
}

// A store that is made of the bytes of a snapshot, if they are any.
fn made_anew(alloc: Global, bytes: &[u8]) -> Option<Store<Lanes>> {
    let mut reader = bytes;
    let snapshot = read_snapshot(alloc, &mut reader).ok()?;
    Store::open(alloc, Lanes, snapshot).ok()
}

// The last 32 bytes.
fn last_bytes(bytes: &[u8]) -> [u8; 32] {
    let mut last = [0u8; 32];
    let start = bytes.len().saturating_sub(32);
    for (place, byte) in last.iter_mut().zip(bytes.iter().skip(start)) {
        *place = *byte;
    }
    last
}

// Whether both have the same hints and digits.
fn are_alike(some: &Store<Lanes>, other: &Store<Lanes>) -> bool {
    has_parts(some, other, Scheme::Simple)
        && has_parts(some, other, Scheme::Double)
        && some.digit_words() == other.digit_words()
        && some.server_words() == other.server_words()
}

// Whether all parts of a scheme's hint are those of the other.
fn has_parts(some: &Store<Lanes>, other: &Store<Lanes>, scheme: Scheme) -> bool {
    for part in 0..usize::MAX {
        match (
            some.hint_words(scheme, part),
            other.hint_words(scheme, part),
        ) {
            (Some(words), Some(others)) if words == others => {}
            (None, None) => return true,
            _ => return false,
        }
    }
    true
}
