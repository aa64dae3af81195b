//! Sessions, all in one place: a server of sessions over one store, a client, and the engines that
//! run both over a reader and a writer. Users of the library begin here.
//!
//! [`ServerCore`] and [`ClientCore`] know no connection: bytes go in by `feed`, in any pieces, and
//! bytes come out. [`serve`] and [`converse`] run them over a reader and a writer, and [`once`]
//! serves one database over one stream. A [`Store`] is opened from a [`Snapshot`], which is made of
//! a [`Header`] and records, or read by [`read_snapshot`], and [`write_snapshot`] writes it back.
//! [`Lanes`] is the kernel to use, [`Plain`] the slow one that it is compared with.
//!
//! Every type that a call takes or returns is here, so nothing else needs to be imported.
//!
//! A whole session by hand: a publisher's store, a session, a client that is let in, gets its hint,
//! and retrieves a record without the server learning which. The test `a_record_is_retrieved` of
//! tests/long/session_core is this code, over both kernels and by both schemes.
//!
//! ```
//! let store = Store::open(alloc, Lanes, snapshot)?;
//! let mut server = ServerCore::new(alloc, store);
//! server.open_session(7)?;
//! // The seed is the client's secret, and no number is ever to be spent twice under it.
//! let mut client = ClientCore::new(alloc, Lanes, seed, 0);
//!
//! let sent = client.hello(READER)?;
//! exchange(alloc, &mut server, &mut client, &sent)?; // Event::Welcomed(1)
//! let sent = client.sync(Scheme::Double)?;
//! exchange(alloc, &mut server, &mut client, &sent)?; // Event::Synced(Scheme::Double, 1)
//! let sent = client.ask(1)?;
//! // Event::Retrieved { index: 1, version: 1, bytes }
//! exchange(alloc, &mut server, &mut client, &sent)?;
//! server.close_session(7);
//! ```
//!
//! where `exchange` carries bytes to and fro until the client has an event, as a connection would:
//!
//! ```
//! let mut sent = first.to_vec(alloc)?;
//! loop {
//!     let mut replies = Vec::new(alloc);
//!     server.feed(7, &sent, &mut replies)?;
//!     let fed = client.feed(&replies);
//!     if let Some(event) = fed.events.into_iter().next() {
//!         return Ok(event);
//!     }
//!     sent = fed.out;
//! }
//! ```
//!
//! Its tests are in tests/long/session_core.
#![tactic(auto)]

pub use blocking_io::{ConverseFault, Ending, ServeFault, converse, serve};
pub use client_core::{
    CallFault, ClientCore, ClientFault, Event, Fed, Hint, SavedClient, Scheme, ServerInfo,
};
pub use digit_pack::{Layout, LayoutError};
pub use frame_codec::{Bytes, Words};
pub use lane_kernels::Lanes;
pub use matrix_u32::{Kernel, Matrix, MatrixError, Plain};
pub use once_session::{OnceFault, once};
pub use pir_schemes::{Plan, answer_count, hint_len, is_certain, query_count};
pub use server_core::{FeedError, ServerCore, SessionError, Standing};
pub use snapshot_file::{
    Header, MigrateError, Snapshot, SnapshotFault, WidenError, WriteFault, migrate, read_snapshot,
    read_snapshot_and_digest, snapshot_digest, widen, write_snapshot_bytes,
};
pub use version_store::{
    AnswerBuffers, AppendError, EditError, OpenError, PublishError, Store, write_snapshot,
};
