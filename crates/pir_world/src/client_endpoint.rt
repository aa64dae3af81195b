//! A client's end of its session, and the bytes on their way.

ghost use Rattle.std.specs.Prelude.{◌≡◌, ◌≢◌, ℕ, IfOk, IfErr, OnOk, Some};
ghost use Rattle.version_store.specs.Histories.{History, StandsFor};
ghost use Rattle.server_core.specs.Cores.{session_of};
ghost use Rattle.server_core.specs.Sessions.{Session};
ghost use Rattle.client_core.specs.Calls.{Accepts, Refuses};
ghost use Rattle.pir_world.specs.Sides.{fresh_side, call_of, TakesDelivery, ServesDelivery};
ghost use Rattle.pir_world.specs.Sides.{MakesCall};

use bytes::BytesMut;
use client_core::{CallFault, ClientCore, Fed, Scheme};
use matrix_u32::Kernel;
use server_core::ServerCore;
use std::alloc::{AllocError, Global};
use std::marker::Model;

/// What a client of a world may be asked for.
#[derive(Clone, Copy, Debug, PartialEq, Eq)]
pub enum Request {
    /// To greet the server as a reader.
    Hello,
    /// For the hint of the last version known.
    Sync(Scheme),
    /// For a record.
    Ask(u32),
}

/// A client, with the bytes on their way from it (`up`) and to it (`down`).
#[derive(Drop)]
pub struct ClientEndpoint<K: Kernel> {
    client: ClientCore<K>,
    up: BytesMut,
    down: BytesMut,
}

impl<K: Kernel> Model for ClientEndpoint<K> {
    ghost use Rattle.pir_world.specs.Sides.{Side};

    ghost Value = { Side };

    ghost view = { λ e. record { client = e.client; up = e.up.items; down = e.down.items } };
}

impl<K: Kernel> ClientEndpoint<K> {
    /// A client of this seed that has sent nothing, of a wide store or of an ordinary one.
    pub fn new(alloc: Global, kernel: K, wide: bool, seed: [u8; 32]) -> ClientEndpoint<K>
        ensures { result ≡ fresh_side wide seed }
    {
        let client = if wide {
            ClientCore::wide(alloc, kernel, seed, 0)
        } else {
            ClientCore::new(alloc, kernel, seed, 0)
        };
        ClientEndpoint {
            client,
            up: BytesMut::new(alloc),
            down: BytesMut::new(alloc),
        }
    }

    /// Hands at most `most` of the server's bytes to the client. What it sends waits after its
    /// other bytes.
    pub fn deliver_down(&mut self, most: usize) -> Result<Fed, AllocError>
        ensures { IfOk result
            (λ fed. TakesDelivery most self.old fed.out.items fed.events.items fed.fault self.new) }
    {
        let n = most.min(self.down.len());
        let fed = self.client.feed(&self.down.as_slice()[..n]);
        self.down.advance(n);
        if self.up.extend_from_slice(fed.out.as_slice()).is_err() {
            return Err(AllocError);
        }
        Ok(fed)
    }

    /// Hands at most `most` of the client's bytes to its session. The replies wait after the
    /// server's other bytes.
    pub fn deliver_up<S: Kernel>(
        &mut self,
        alloc: Global,
        server: &mut ServerCore<S>,
        id: u64,
        most: usize,
    ) -> Result<(), AllocError>
        ensures served { OnOk result ((h : History) (session : Session) →
            StandsFor server.old.store h → session_of server.old.sessions id ≡ Some session →
            (after : Session) × (session_of server.new.sessions id ≡ Some after) ×
            ServesDelivery most h server.old.store self.old session server.new.store self.new
            after) }
        ensures others { (other : ℕ) → other ≢ id →
            session_of server.new.sessions other ≡ session_of server.old.sessions other }
    {
        let n = most.min(self.up.len());
        let mut replies = Vec::new(alloc);
        match server.feed(id, &self.up.as_slice()[..n], &mut replies) {
            Ok(()) => {}
            Err(_) => return Err(AllocError),
        }
        self.up.advance(n);
        if self.down.extend_from_slice(replies.as_slice()).is_err() {
            return Err(AllocError);
        }
        Ok(())
    }

    /// Makes a call, and says why it is refused, if it is. Its bytes wait after the others.
    pub fn call(&mut self, request: Request) -> Result<Option<CallFault>, AllocError>
        ensures { IfOk result (λ refused. MakesCall (call_of request) self.old refused self.new) }
    {
        let called = self.request(request);
        match called {
            Ok(bytes) => {
                if self.up.extend_from_slice(bytes.as_slice()).is_err() {
                    return Err(AllocError);
                }
                Ok(None)
            }
            Err(CallFault::Memory) => Err(AllocError),
            Err(fault) => Ok(Some(fault)),
        }
    }

    /// Makes a call of the client: its frame as bytes, or why it is refused.
    fn request(&mut self, request: Request) -> Result<Vec<u8>, CallFault>
        ensures accepted { IfOk result (λ bytes. Accepts self.old.client.state
            (call_of request) self.new.client.state bytes.items) }
        ensures refused { IfErr result (λ e. Refuses self.old.client.state
            (call_of request) e self.new.client.state) }
        ensures kept { (self.new.client.reader ≡ self.old.client.reader) ×
            (self.new.up ≡ self.old.up) × (self.new.down ≡ self.old.down) }
    {
        match request {
            Request::Hello => return self.client.hello([0; 32]),
            Request::Sync(scheme) => return self.client.sync(scheme),
            Request::Ask(index) => return self.client.ask(index),
        }
    }
}
