//! A client and a server for programs, also in other languages, that take what comes of a call when
//! it suits them.
//!
//! `ClientCore` hands over what comes of each call, and `ServerCore` adds its replies to a buffer
//! of the caller's. A [`ClientSession`] and a [`ServerSession`] keep these until they are taken,
//! and refuse what would overwrite them. `vulandrai_c` exports both.
//!
//! Their tests are those of the C library, in tests/c.
#![tactic(auto)]

mod client;
mod server;

pub use client::{ClientSession, FeedFault, ResumeFault, STORE_LEN, SessionFault};
pub use client_core::{CallFault, ClientCore, ClientFault, Event, Scheme, ServerInfo};
pub use hint_file::HintError;
pub use server::{PieceFault, ServerSession};
pub use server_core::{FeedError, ServerCore, SessionError};
pub use snapshot_file::SnapshotFault;
pub use version_store::{AppendError, EditError, PublishError};
