//! The last events, which are printed if something is broken.

use deployment_model::Broken;
use simulated_server::Turned;
use std::alloc::{AllocError, Global};
use std::collections::VecDeque;

/// How many events are kept.
const KEPT: usize = 40;

/// What happened.
#[derive(Clone, Copy, Debug, PartialEq, Eq)]
pub enum What {
    /// A step of a server.
    Server(usize, Turned),
    /// A server began to serve a version.
    Started(usize, u64),
    /// A server did not start, for this reason.
    NotStarted(usize, &'static str),
    /// A client connected to a server.
    Connected(usize, usize),
    /// A client retrieved a record in a version.
    Retrieved(usize, u32, u64),
    /// A client's run ended.
    RunEnded(usize, &'static str),
    /// The publisher drafted a change.
    Drafted,
    /// The publisher published a version.
    Published(u64),
    /// A command of the publisher failed.
    CommandFailed(&'static str),
    /// The publisher made its log shorter.
    Compacted,
    /// A push of a version began.
    PushBegan(u64),
    /// A server was brought to a version.
    Pushed(usize, u64),
    /// A server was left as it was.
    NotPushed(usize, &'static str),
    /// A server got a copy of the publisher's file.
    Restored(usize),
    /// A machine's power is to be cut after so many calls.
    WillCut(usize, u32),
    /// A machine's power was cut.
    PowerCut(usize),
    /// A machine's process was killed.
    Killed(usize),
    /// A connection was broken.
    ConnectionBroken,
    /// A server could be reached or not from now on.
    Reachable(usize, bool),
    /// A machine's disk began to fail, or no longer does.
    DiskFaults(usize, bool),
    /// Something is broken.
    Broken(Broken),
}

/// What happened, and at which step.
#[derive(Clone, Copy, Debug, PartialEq, Eq)]
pub struct Event {
    /// The number of the step.
    pub step: u64,
    /// What happened.
    pub what: What,
}

/// The last events.
#[derive(Drop)]
pub struct Events {
    last: VecDeque<Event>,
}

impl Events {
    /// None.
    pub fn none(alloc: Global) -> Events {
        Events {
            last: VecDeque::new(alloc),
        }
    }

    /// Notes one more. The oldest goes when there are too many.
    ///
    /// # Errors
    ///
    /// `AllocError` when memory was refused.
    pub fn note(&mut self, step: u64, what: What) -> Result<(), AllocError> {
        if self.last.len() >= KEPT {
            self.last.pop_front();
        }
        self.last.push_back(Event { step, what })?;
        Ok(())
    }

    /// All that are kept, the oldest first.
    pub fn all(&self) -> &VecDeque<Event> {
        &self.last
    }
}
