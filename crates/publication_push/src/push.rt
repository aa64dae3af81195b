//! A push to one server.

ghost use Rattle.std.specs.Prelude.{◌≡◌, [], ℕ, List, IfOk, IfErr};
ghost use Rattle.publication_log.specs.Publications.{Published};
ghost use Rattle.publication_log.specs.Entries.{chain_bytes};
ghost use Rattle.publication_log.specs.Logs.{bodies_of, AreNext};
ghost use Rattle.client_core.specs.Calls.{ClientCall, Accepts, Refuses};
ghost use Rattle.publication_push.specs.Orders.{Ordered, ordered_of, done_version, HasOrders};
ghost use Rattle.publication_push.specs.Pushes.{
  ordered_call,
  greeted,
  IsUnsent,
  SendsNext,
  BeginsPush,
  Takes,
  OnlyAnswers,
  IsFed,
};

use crate::fault::PushFault;
use crate::orders::{Order, Orders};
use client_core::{CallFault, ClientCore, Event, ServerInfo};
use matrix_u32::Kernel;
use publication_log::Publications;
use std::marker::Model;

/// The most bytes that a record has.
const MOST_BYTES: usize = 65_535;

/// What is to be done next.
#[derive(Drop)]
pub enum PushStep {
    /// More of the server's bytes are awaited.
    Waits,
    /// The bytes that are to be sent.
    Sends(Vec<u8>),
    /// The server took the publisher's greeting, and has this plan, this version and so many
    /// records. The push begins, if they are those of a version of the log.
    Greeted(ServerInfo),
    /// All is done: the server is at this version.
    Pushed(u64),
}

/// A push to one server, without a connection. Contracts see its client, the orders that are left,
/// and the version that the next Done is to name.
#[derive(Drop)]
pub struct Push<'a, K: Kernel> {
    client: ClientCore<K>,
    orders: Orders<'a>,
    awaited: u64,
}

impl<'a, K: Kernel> Model for Push<'a, K> {
    ghost use Rattle.publication_push.specs.Pushes.{Pushing};

    ghost Value = { Pushing };

    ghost view = { λ p. record { client = p.client; orders = p.orders; awaited = p.awaited } };
}

impl<'a, K: Kernel> Push<'a, K> {
    /// A push of nothing so far, by a client that was not let in yet.
    pub fn new(client: ClientCore<K>) -> Push<'a, K>
        ensures client { result.client ≡ client }
        ensures none { HasOrders result.orders [] }
    {
        Push {
            client,
            orders: Orders::none(),
            awaited: 0,
        }
    }

    /// Asks the server to let the publisher in. Gives the bytes to send.
    ///
    /// # Errors
    ///
    /// `Call` with the client's refusal: the server let it in already, or memory was refused.
    pub fn greet(&mut self, key: [u8; 32]) -> Result<Vec<u8>, PushFault>
        ensures accepted { IfOk result (λ bytes. Accepts self.old.client.state
            (ClientCall.Hello key) self.new.client.state bytes.items) }
        ensures refused { IfErr result (λ fault. (why : CallFault) × (fault ≡ PushFault.Call why) ×
            Refuses self.old.client.state (ClientCall.Hello key) why self.new.client.state) }
        ensures reader { self.new.client.reader ≡ self.old.client.reader }
        ensures orders { self.new.orders ≡ self.old.orders }
    {
        Ok(self.client.hello(key)?)
    }

    /// Begins with the publications that the server lacks, once it took the greeting: those after
    /// its version. Gives what is to be sent first; if there are no publications, all is pushed.
    ///
    /// # Errors
    ///
    /// `Call` with the client's refusal: there was no Welcome yet, or memory was refused. `BadLog`,
    /// if these are no publications of a log.
    pub fn begin(&mut self, publications: Publications<'a>) -> Result<PushStep, PushFault>
        ensures { (link : List ℕ) (version : ℕ) (ps : List Published) → AreNext version ps →
            publications.entry.rest.now ≡ chain_bytes link (bodies_of ps) →
            BeginsPush self.old.client self.old.client.state.known ps result self.new }
    {
        let Some(known) = self.client.known() else {
            return Err(PushFault::Call(CallFault::NotReady));
        };
        self.orders = Orders::new(publications, known.count);
        self.awaited = known.version;
        self.go_on()
    }

    /// Takes the next piece of the server's stream.
    ///
    /// # Errors
    ///
    /// `Client` with the client's fault; `Refused` with the code of a refusal; `WrongVersion` if
    /// another version is named as done than the one awaited; `NotDone` if the reply is another;
    /// `Call` if the client did not make the next call. The push is of no further use then. What
    /// was published before stays published, and what was edited or appended since stays in the
    /// server's draft.
    pub fn feed(&mut self, piece: &[u8]) -> Result<PushStep, PushFault>
        ensures { (left : List Ordered) → HasOrders self.old.orders left →
            IsFed self.old left piece.now result self.new }
    {
        let fed = self.client.feed(piece);
        if let Some(fault) = fed.fault {
            return Err(PushFault::Client(fault));
        }
        match fed.events.first() {
            None => Ok(PushStep::Waits),
            Some(event) => self.take(event),
        }
    }

    // What comes of what the server's reply says.
    fn take(&mut self, event: &Event) -> Result<PushStep, PushFault>
        ensures { (left : List Ordered) → HasOrders self.old.orders left →
            Takes self.old left event.now result self.new }
    {
        match event {
            Event::Welcomed(_version) => self.greeted(),
            Event::Done(named) => self.done(*named),
            Event::Refused(code) => Err(PushFault::Refused(*code)),
            _ => Err(PushFault::NotDone),
        }
    }

    // The greeting was taken.
    fn greeted(&self) -> Result<PushStep, PushFault>
        ensures { result ≡ greeted self.now.client.state.known }
    {
        match self.client.known() {
            None => Err(PushFault::NotDone),
            Some(known) => Ok(PushStep::Greeted(known)),
        }
    }

    // What was asked for is done in this version.
    fn done(&mut self, named: u64) -> Result<PushStep, PushFault>
        ensures { (left : List Ordered) → HasOrders self.old.orders left →
            Takes self.old left (Event.Done named) result self.new }
    {
        if named != self.awaited {
            return Err(PushFault::WrongVersion {
                awaited: self.awaited,
                named,
            });
        }
        self.go_on()
    }

    // Asks for what is next, or all is done.
    fn go_on(&mut self) -> Result<PushStep, PushFault>
        ensures { (left : List Ordered) → HasOrders self.old.orders left →
            SendsNext self.old.client self.old.awaited left result self.new }
    {
        let Some(order) = self.orders.next() else {
            return Ok(PushStep::Pushed(self.awaited));
        };
        match ask(&mut self.client, order) {
            Ok(bytes) => {
                self.awaited = done_version(self.awaited, order);
                Ok(PushStep::Sends(bytes))
            }
            Err(fault) => Err(fault),
        }
    }

    /// The client, which may go on in the same session: by a sync and by asks for some records, the
    /// server's version can be compared with that of the log.
    pub fn into_client(self) -> ClientCore<K>
        ensures { result ≡ self.entry.client }
    {
        self.client
    }
}

// The version that the Done to an order is to name, if the server is at this one before.
fn done_version(before: u64, order: Order<'_>) -> u64
    ensures { result ≡ done_version before (ordered_of order.entry) }
{
    match order {
        Order::Publish { version } => version,
        _ => before,
    }
}

// Asks a server for this. Gives the bytes to send.
fn ask<K: Kernel>(client: &mut ClientCore<K>, order: Order<'_>) -> Result<Vec<u8>, PushFault>
    ensures sent { IfOk result (λ bytes. Accepts client.old.state
        (ordered_call (ordered_of order.entry)) client.new.state bytes.items) }
    ensures unsent { IfErr result
        (λ why. IsUnsent client.old (ordered_of order.entry) why client.new) }
    ensures reader { client.new.reader ≡ client.old.reader }
{
    match order {
        Order::Edit { place, bytes } => {
            if bytes.len() > MOST_BYTES {
                return Err(PushFault::BadLog);
            }
            Ok(client.edit(place, bytes)?)
        }
        Order::Append { bytes } => {
            if bytes.len() > MOST_BYTES {
                return Err(PushFault::BadLog);
            }
            Ok(client.append(bytes)?)
        }
        Order::Publish { .. } => Ok(client.publish()?),
    }
}
