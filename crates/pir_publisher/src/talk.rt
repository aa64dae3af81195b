//! The connection to one server, in a round.

use crate::ends::{End, PushCause};
use crate::verifying::{Verified, Verifying};
use client_core::{ClientCore, ServerInfo};
use mio::net::TcpStream;
use publication_log::Publications;
use publication_push::{Lack, Push, PushFault, PushStep, lack_of};
use publisher_files::FolderVersion;
use session_core::Lanes;
use std::alloc::{AllocError, Global};
use std::io::{ErrorKind, Read, Write};
use std::mem;

/// What greets a server as a reader.
const READER_KEY: [u8; 32] = [0; 32];

/// How many reads a turn makes at most.
const READS: u32 = 16;

/// What a round is for.
#[derive(Clone, Copy, Debug, PartialEq, Eq)]
pub enum Aim {
    /// Servers are brought to the folder's version.
    Push,
    /// The same, and what was changed is retrieved of each and compared; of one that lacked nothing
    /// what the last publication changed.
    PushAndVerify,
    /// Servers tell what they have.
    Ask,
}

/// What all servers of a round have in common.
#[derive(Clone, Copy)]
pub struct Round<'a> {
    /// The folder's version.
    pub folder: &'a FolderVersion,
    /// What the round is for.
    pub aim: Aim,
    /// The key to greet with: the publisher's, or a reader's of zeros.
    pub key: [u8; 32],
}

impl<'a> Round<'a> {
    /// A round in which servers report what they have, as they do to each reader.
    pub fn to_ask(folder: &'a FolderVersion) -> Round<'a> {
        Round {
            folder,
            aim: Aim::Ask,
            key: READER_KEY,
        }
    }

    /// The same of this round's folder.
    pub fn asking(&self) -> Round<'a> {
        Round::to_ask(self.folder)
    }

    // The publications that a server with only the first so many lacks.
    fn publications_after(&self, count: usize) -> Publications<'a> {
        self.folder.publications().without_first(count)
    }

    // The publications whose changes are verified of a server that had the first so many: those
    // that were pushed, or the last one if it had all.
    fn publications_to_verify(&self, count: usize) -> Publications<'a> {
        let all = self.folder.publications().count();
        self.publications_after(count.min(all.saturating_sub(1)))
    }

    // What a server lacks.
    fn lack(&self, known: &ServerInfo) -> Lack {
        let version = self.folder;
        lack_of(
            &version.plan(),
            version.snapshot_version(),
            version.number(),
            known,
        )
    }
}

// How far the conversation is.
#[derive(Drop)]
enum TalkStage<'a> {
    // The server is greeted, or pushed to.
    Pushing(Push<'a, Lanes>),
    // What was pushed is retrieved.
    Verifying(Verifying),
    // Nothing more is said.
    Over,
}

/// The connection to one server.
#[derive(Drop)]
pub struct Talk<'a> {
    alloc: Global,
    stream: TcpStream,
    stage: TalkStage<'a>,
    // How many of the log's publications the server had when it was greeted.
    had: usize,
    // What is to be sent, of which so many bytes were taken.
    out: Vec<u8>,
    sent: usize,
    readable: bool,
    writable: bool,
    /// When something came or was sent the last time, in milliseconds since the start.
    pub moment: u64,
}

impl<'a> Talk<'a> {
    /// A connection that is being made, and the greeting.
    ///
    /// # Errors
    ///
    /// `Memory` when memory was refused.
    pub fn begin(
        alloc: Global,
        stream: TcpStream,
        client: ClientCore<Lanes>,
        key: [u8; 32],
        now: u64,
    ) -> Result<Talk<'a>, PushCause> {
        let mut push = Push::new(client);
        let out = match push.greet(key) {
            Ok(out) => out,
            Err(fault) => {
                // A call keeps the prover from taking apart here all that a client owns.
                drop(push);
                return Err(PushCause::from(fault));
            }
        };
        Ok(Talk {
            alloc,
            stream,
            stage: TalkStage::Pushing(push),
            had: 0,
            out,
            sent: 0,
            readable: false,
            writable: false,
            moment: now,
        })
    }

    /// Notes what the socket is ready for.
    pub fn note(&mut self, readable: bool, writable: bool) {
        self.readable = self.readable || readable;
        self.writable = self.writable || writable;
    }

    /// Sends and takes what there is, at a moment. Returns how the server's part ended, if it did.
    pub fn turn(&mut self, round: &Round<'a>, now: u64, buffer: &mut [u8]) -> Option<End> {
        if let Err(cause) = self.send(now) {
            return Some(End::Left(cause));
        }
        for _ in 0..READS {
            if !self.readable {
                break;
            }
            match self.receive(round, now, buffer) {
                Ok(None) => {}
                Ok(Some(end)) => return Some(end),
                Err(cause) => return Some(End::Left(cause)),
            }
        }
        match self.send(now) {
            Ok(()) => None,
            Err(cause) => Some(End::Left(cause)),
        }
    }

    /// Whether there is more to be done without waiting.
    pub fn has_more(&self) -> bool {
        self.readable || self.writable && self.sent < self.out.len()
    }

    // Sends what the socket takes.
    fn send(&mut self, now: u64) -> Result<(), PushCause> {
        if !self.writable || self.sent >= self.out.len() {
            return Ok(());
        }
        let mut stream = &self.stream;
        match stream.write(&self.out[self.sent..]) {
            Ok(0) => Err(PushCause::Ended),
            Ok(count) => {
                self.sent = self.sent.saturating_add(count);
                self.moment = now;
                Ok(())
            }
            Err(fault) if fault.kind() == ErrorKind::WouldBlock => {
                self.writable = false;
                Ok(())
            }
            Err(fault) if fault.kind() == ErrorKind::Interrupted => Ok(()),
            Err(fault) if is_refusal(fault.kind()) => Err(PushCause::Connect),
            Err(_) => Err(PushCause::Ended),
        }
    }

    // Reads once, and does what comes of it.
    fn receive(
        &mut self,
        round: &Round<'a>,
        now: u64,
        buffer: &mut [u8],
    ) -> Result<Option<End>, PushCause> {
        let mut stream = &self.stream;
        match stream.read(buffer) {
            Ok(0) => Err(PushCause::Ended),
            Ok(count) => {
                self.moment = now;
                self.take(round, &buffer[..count])
            }
            Err(fault) if fault.kind() == ErrorKind::WouldBlock => {
                self.readable = false;
                Ok(None)
            }
            Err(fault) if fault.kind() == ErrorKind::Interrupted => Ok(None),
            Err(fault) if is_refusal(fault.kind()) => Err(PushCause::Connect),
            Err(_) => Err(PushCause::Ended),
        }
    }

    // Takes what came.
    fn take(&mut self, round: &Round<'a>, piece: &[u8]) -> Result<Option<End>, PushCause> {
        match &mut self.stage {
            TalkStage::Pushing(push) => {
                let step = push.feed(piece)?;
                self.pushed(round, step)
            }
            TalkStage::Verifying(verifying) => {
                let verified = verifying.feed(piece)?;
                self.verified(verified)
            }
            TalkStage::Over => Ok(None),
        }
    }

    // Does what comes next of a push.
    fn pushed(&mut self, round: &Round<'a>, step: PushStep) -> Result<Option<End>, PushCause> {
        let step = match step {
            PushStep::Greeted(known) if round.aim == Aim::Ask => {
                self.go_to(TalkStage::Over);
                return Ok(Some(End::Told(known)));
            }
            PushStep::Greeted(known) => self.begin_push(round, &known)?,
            step => step,
        };
        match step {
            PushStep::Waits => Ok(None),
            PushStep::Sends(bytes) => {
                self.give(&bytes)?;
                Ok(None)
            }
            PushStep::Greeted(_) => Err(PushCause::Push(PushFault::NotDone)),
            PushStep::Pushed(version) => self.end_push(round, version),
        }
    }

    // Begins with what a server lacks, if the log has it.
    fn begin_push(&mut self, round: &Round<'a>, known: &ServerInfo) -> Result<PushStep, PushCause> {
        let TalkStage::Pushing(push) = &mut self.stage else {
            return Err(PushCause::Push(PushFault::NotDone));
        };
        match round.lack(known) {
            Lack::OtherStore => Err(PushCause::OtherStore),
            Lack::Ahead => Err(PushCause::Ahead(known.version)),
            Lack::BeforeLog => Err(PushCause::BeforeLog(known.version)),
            Lack::After(count) => {
                self.had = count;
                Ok(push.begin(round.publications_after(count))?)
            }
        }
    }

    // The server is at a version. What was pushed is verified, if that is wanted.
    fn end_push(&mut self, round: &Round<'a>, version: u64) -> Result<Option<End>, PushCause> {
        let stage = mem::replace(&mut self.stage, TalkStage::Over);
        let TalkStage::Pushing(push) = stage else {
            return Ok(Some(End::Pushed(version)));
        };
        if round.aim != Aim::PushAndVerify {
            drop(push);
            return Ok(Some(End::Pushed(version)));
        }
        let pushed = round.publications_to_verify(self.had);
        let client = push.into_client();
        match Verifying::begin(self.alloc, client, pushed, version)? {
            None => Ok(Some(End::Pushed(version))),
            Some((verifying, bytes)) => {
                self.go_to(TalkStage::Verifying(verifying));
                self.give(&bytes)?;
                Ok(None)
            }
        }
    }

    // Does what comes next of verifying.
    fn verified(&mut self, verified: Verified) -> Result<Option<End>, PushCause> {
        match verified {
            Verified::Sends(bytes) => {
                self.give(&bytes)?;
                Ok(None)
            }
            Verified::All(version) => {
                self.go_to(TalkStage::Over);
                Ok(Some(End::Pushed(version)))
            }
        }
    }

    // The conversation is at another stage.
    fn go_to(&mut self, stage: TalkStage<'a>) {
        self.stage = stage;
    }

    // Bytes are to be sent after those that are.
    fn give(&mut self, bytes: &[u8]) -> Result<(), PushCause> {
        if self.sent >= self.out.len() {
            self.out.clear();
            self.sent = 0;
        }
        match self.out.extend_from_slice(bytes) {
            Ok(()) => Ok(()),
            Err(AllocError) => Err(PushCause::Memory),
        }
    }
}

// Whether a call failed because no connection was made.
fn is_refusal(kind: ErrorKind) -> bool {
    matches!(
        kind,
        ErrorKind::ConnectionRefused
            | ErrorKind::HostUnreachable
            | ErrorKind::NetworkUnreachable
            | ErrorKind::TimedOut
    )
}
