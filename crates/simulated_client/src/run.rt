//! A run, and what it is fed.

use crate::counts::{RunCounts, count};
use crate::fault::RunFault;
use crate::frame_end::FrameEnd;
use crate::kept_hints::MovedHint;
use crate::state::State;
use crate::steps::{Retrieved, RunEnd, RunStep};
use client_core::{CallFault, ClientCore, Event, Fed, Scheme, ServerInfo};
use client_state::Folder;
use lane_kernels::Lanes;
use safe_files::FileSystem;
use std::alloc::Global;
use std::mem;

/// The key of a reader.
const READER: [u8; 32] = [0; 32];

/// A run of a client over one connection: it is let in, and retrieves one record after another.
#[derive(Drop)]
pub struct ClientRun<'a, R: FileSystem> {
    pub(crate) alloc: Global,
    pub(crate) folder: Folder<'a, R>,
    pub(crate) client: ClientCore<Lanes>,
    seed: [u8; 32],
    pub(crate) scheme: Scheme,
    // The numbers of the records wanted, and how many of them had their turn.
    pub(crate) wanted: Vec<u32>,
    pub(crate) turns: usize,
    // The record whose turn it is, and how many of its answers were stale.
    pub(crate) index: u32,
    pub(crate) stale_answers: u32,
    // The hint kept, which the client doesn't hold: of SimplePIR's the rows of a record are read
    // when it is asked for.
    pub(crate) kept: Option<MovedHint<'a, R>>,
    state: State<'a, R>,
    // Where the reply that is awaited ends, and what came of one that the client doesn't take.
    frame: FrameEnd,
    pub(crate) reply: Vec<u8>,
    pub(crate) retrieved: Vec<Retrieved>,
    pub(crate) has_damaged_rows: bool,
    /// What went on in another way than usual.
    pub counts: RunCounts,
}

impl<'a, R: FileSystem> ClientRun<'a, R> {
    /// Begins a run over a store of a kind, and gives the greeting to send. The seed is one that no
    /// other run has. Of the numbers wanted each is taken modulo the count of records known when
    /// its turn comes.
    ///
    /// # Errors
    ///
    /// `Call` when memory was refused.
    pub fn begin(
        alloc: Global,
        folder: Folder<'a, R>,
        seed: [u8; 32],
        scheme: Scheme,
        wide: bool,
        wanted: Vec<u32>,
    ) -> Result<(ClientRun<'a, R>, Vec<u8>), RunFault> {
        let mut client = if wide {
            ClientCore::wide(alloc, Lanes, seed, 0)
        } else {
            ClientCore::new(alloc, Lanes, seed, 0)
        };
        let greeting = client.hello(READER)?;
        let run = ClientRun {
            alloc,
            folder,
            client,
            seed,
            scheme,
            wanted,
            turns: 0,
            index: 0,
            stale_answers: 0,
            kept: None,
            state: State::Greeting,
            frame: FrameEnd::default(),
            reply: Vec::new(alloc),
            retrieved: Vec::new(alloc),
            has_damaged_rows: false,
            counts: RunCounts::default(),
        };
        Ok((run, greeting))
    }

    /// Takes the next piece of the server's stream. One call at most is outstanding, so that a byte
    /// after a reply is a fault.
    pub fn feed(&mut self, piece: &[u8]) -> RunStep {
        let step = match self.advance(piece) {
            Ok(step) => step,
            Err(fault) => RunStep::Ends(RunEnd::Failed(fault)),
        };
        if let RunStep::Ends(_) = &step {
            self.state = State::Over;
            self.kept = None;
        }
        step
    }

    /// The version that the server reported last in this run, if it let the client in.
    pub fn seen(&self) -> Option<u64> {
        let ServerInfo { version, .. } = self.client.known()?;
        Some(version)
    }

    /// The seed.
    pub fn seed(&self) -> &[u8; 32] {
        &self.seed
    }

    /// The number of the next query.
    pub fn next_number(&self) -> u64 {
        self.client.next_number()
    }

    /// The first record retrieved that was not taken yet.
    pub fn take_retrieved(&mut self) -> Option<Retrieved> {
        if self.retrieved.is_empty() {
            return None;
        }
        Some(self.retrieved.remove(0))
    }

    // Sends bytes, and awaits this reply to them.
    pub(crate) fn send(&mut self, state: State<'a, R>, bytes: Vec<u8>) -> RunStep {
        self.state = state;
        self.frame = FrameEnd::default();
        self.reply = Vec::new(self.alloc);
        RunStep::Sends(bytes)
    }

    // Goes on awaiting.
    pub(crate) fn wait(&mut self, state: State<'a, R>) -> RunStep {
        self.state = state;
        RunStep::Waits
    }

    // What is known of the server.
    pub(crate) fn known(&self) -> Result<ServerInfo, RunFault> {
        match self.client.known() {
            Some(known) => Ok(known),
            None => Err(RunFault::Call(CallFault::NotReady)),
        }
    }

    // Takes a piece as the state says.
    fn advance(&mut self, piece: &[u8]) -> Result<RunStep, RunFault> {
        let state = mem::replace(&mut self.state, State::Over);
        if let State::Over = &state {
            return Err(RunFault::Over);
        }
        let Some(is_whole) = self.frame.take(piece) else {
            return Err(RunFault::BadReply);
        };
        match state {
            State::Changes => self.take_changes(piece, is_whole),
            State::Part(partial) => self.take_part(partial, piece, is_whole),
            by_client => self.hear(by_client, piece),
        }
    }

    // Gives a piece to the client.
    fn hear(&mut self, state: State<'a, R>, piece: &[u8]) -> Result<RunStep, RunFault> {
        let Fed { out, events, fault } = self.client.feed(piece);
        if let Some(fault) = fault {
            return Err(RunFault::Client(fault));
        }
        match events.into_iter().next() {
            Some(event) => self.take_event(state, event),
            None if out.is_empty() => Ok(self.wait(state)),
            None => Ok(self.send(state, out)),
        }
    }

    // Takes what a call came to.
    fn take_event(&mut self, state: State<'a, R>, event: Event) -> Result<RunStep, RunFault> {
        let are_sound = match state {
            State::AskOverRows { are_sound } => {
                // The client holds these rows alone, over which no sync is made.
                self.client.drop_hint()?;
                are_sound
            }
            _ => true,
        };
        match event {
            Event::Welcomed(_) => self.take_welcome(),
            Event::Synced(..) => self.take_synced(),
            Event::Retrieved {
                index,
                version,
                bytes,
            } => {
                let record = Retrieved {
                    index,
                    version,
                    bytes,
                };
                self.take_record(record, are_sound)
            }
            Event::Unreadable { .. } => self.take_unreadable(are_sound),
            Event::Stale(version) => {
                count(&mut self.counts.stale);
                self.attempt_again(version)
            }
            Event::Refused(code) => Ok(RunStep::Ends(RunEnd::Refused(code))),
            Event::Done(_) => Err(RunFault::BadReply),
        }
    }
}
