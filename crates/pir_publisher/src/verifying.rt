//! What was pushed, retrieved of a server and compared.

use crate::ends::PushCause;
use client_core::{ClientCore, Event};
use pir_schemes::Scheme;
use publication_log::Publications;
use publisher_drafts::{ChangeMap, merged_of};
use session_core::Lanes;
use std::alloc::Global;

/// What comes next.
#[derive(Drop)]
pub enum Verified {
    /// The bytes that are to be sent; there may be none.
    Sends(Vec<u8>),
    /// Each record that was changed is the folder's, in this version.
    All(u64),
}

/// The records that are still to be retrieved of a server.
#[derive(Drop)]
pub struct Verifying {
    client: ClientCore<Lanes>,
    // What each of them is to be, by its place.
    left: ChangeMap,
    version: u64,
}

impl Verifying {
    /// Begins to retrieve the records that publications changed, at the version after them, by a
    /// client that was let in. Gives what is to be sent first; `None` if they changed none.
    ///
    /// # Errors
    ///
    /// `Memory` when memory was refused, `Unverified` if the client does not ask.
    pub fn begin(
        alloc: Global,
        client: ClientCore<Lanes>,
        pushed: Publications<'_>,
        version: u64,
    ) -> Result<Option<(Verifying, Vec<u8>)>, PushCause> {
        let Ok(left) = merged_of(alloc, pushed) else {
            return Err(PushCause::Memory);
        };
        if left.is_empty() {
            return Ok(None);
        }
        let mut client = client;
        let Ok(bytes) = client.sync(Scheme::Simple) else {
            return Err(PushCause::Unverified);
        };
        let verifying = Verifying {
            client,
            left,
            version,
        };
        Ok(Some((verifying, bytes)))
    }

    /// Takes the next piece of the server's stream.
    ///
    /// # Errors
    ///
    /// `Differs` if a record is another one than the folder's, `Unverified` if one could not be
    /// retrieved.
    pub fn feed(&mut self, piece: &[u8]) -> Result<Verified, PushCause> {
        let fed = self.client.feed(piece);
        if fed.fault.is_some() {
            return Err(PushCause::Unverified);
        }
        match fed.events.first() {
            None => Ok(Verified::Sends(fed.out)),
            // The client knows the version that it was welcomed at, before the push.
            Some(Event::Stale(version)) if *version == self.version => self.sync(),
            Some(Event::Synced(_, version)) if *version == self.version => self.ask_next(),
            Some(Event::Retrieved { index, bytes, .. }) => self.compare(*index, bytes.as_slice()),
            Some(_) => Err(PushCause::Unverified),
        }
    }

    // Asks for the hint of the version that the client knows by now.
    fn sync(&mut self) -> Result<Verified, PushCause> {
        match self.client.sync(Scheme::Simple) {
            Ok(bytes) => Ok(Verified::Sends(bytes)),
            Err(_) => Err(PushCause::Unverified),
        }
    }

    // Compares a record that was retrieved, and asks for the next one.
    fn compare(&mut self, place: u32, bytes: &[u8]) -> Result<Verified, PushCause> {
        match self.left.remove(&place) {
            Some(wanted) if wanted.as_slice() == bytes => self.ask_next(),
            _ => Err(PushCause::Differs(place)),
        }
    }

    // Asks for the next record, if there is one left.
    fn ask_next(&mut self) -> Result<Verified, PushCause> {
        let Some((place, _)) = self.left.first_key_value() else {
            return Ok(Verified::All(self.version));
        };
        let place = *place;
        match self.client.ask(place) {
            Ok(bytes) => Ok(Verified::Sends(bytes)),
            Err(_) => Err(PushCause::Unverified),
        }
    }
}
