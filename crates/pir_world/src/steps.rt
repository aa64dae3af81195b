//! The steps of a world, and what comes of them.

use client_core::{CallFault, ClientFault, Event, Scheme};
use frame_codec::Bytes;
use thiserror::Error;
use version_store::{AppendError, EditError, PublishError};

/// One step of a world. Clients are counted from 0.
#[derive(Drop)]
pub enum Step {
    /// The publisher gives the store these bytes for record `index` of the next version.
    Edit { index: u32, bytes: Bytes },
    /// The publisher gives the store these bytes for one record more of the next version.
    Append { bytes: Bytes },
    /// The publisher makes its edits and appends the next version.
    Publish,
    /// A client greets the server as a reader.
    Hello { client: usize },
    /// A client asks for a scheme's hint: for the parts of that of the last version that it knows
    /// of, or for what changed since the version of the SimplePIR hint that it holds.
    Sync { client: usize, scheme: Scheme },
    /// A client asks for record `index`.
    Ask { client: usize, index: u32 },
    /// The server is handed the next bytes of a client: as many as wait, at most `most`.
    ToServer { client: usize, most: usize },
    /// A client is handed the next bytes of the server: as many as wait, at most `most`.
    ToClient { client: usize, most: usize },
}

/// What came of a step.
#[derive(Drop)]
pub enum Outcome {
    /// An edit of record `index` was accepted.
    Edited { index: u32 },
    /// An edit of record `index` was refused.
    EditRefused { index: u32, fault: EditError },
    /// An append was accepted.
    Appended,
    /// An append was refused.
    AppendRefused { fault: AppendError },
    /// A publication made this version.
    Published { version: u64 },
    /// A publication was refused.
    PublishRefused { fault: PublishError },
    /// A client reported an event.
    Reported { client: usize, event: Event },
    /// A client refused a call.
    CallRefused { client: usize, fault: CallFault },
    /// A client failed.
    Failed { client: usize, fault: ClientFault },
}

/// Why a step wasn't made.
#[derive(Clone, Copy, Debug, PartialEq, Eq, Error)]
pub enum StepFault {
    /// There is no such client. The world is as it was.
    #[error("there is no such client")]
    NoClient,
    /// Memory was refused. Outcomes and steps are as they were, and every later step answers
    /// `Broken`.
    #[error("out of memory")]
    Memory,
    /// Memory was refused in an earlier step.
    #[error("the world is broken")]
    Broken,
}
