//! The places of connections, and what is held for them.

ghost use Rattle.std.specs.Prelude.{◌≡◌, ◌≢◌, ◌≤◌, ◌<◌, ◌↔◌, ℕ, None, Some, IsTrue, IsSome};
ghost use Rattle.std.specs.Prelude.{IsSomeAnd, IfSome, IfNone, IfOk, option_map, false, length};
ghost use Rattle.std.specs.Prelude.{replicate, slice_set};
ghost use Rattle.std.specs.List.{IsFirstMaxByKey};
ghost use Rattle.connection_table.specs.Drafting.{editor_count, edits};
ghost use Rattle.connection_table.specs.Judging.{due_of};
ghost use Rattle.connection_table.specs.Places.{connection_at, held_bytes, owed_bytes, all_held};
ghost use Rattle.connection_table.specs.Places.{all_owed, noted, LosesLargest, open_count};
ghost use Rattle.connection_table.specs.Watching.{is_of, peer_count};

use crate::connection::ServedConnection;
use std::alloc::{AllocError, Global};

/// A place for each connection that there may be at once. Between two calls no more bytes are held
/// for all of them, of unfinished frames and of replies that are owed, than is allowed.
#[derive(Drop)]
pub struct ConnectionTable {
    /// The connection at each place.
    pub connections: Vec<Option<ServedConnection>>,
    /// How many bytes may be held for all connections.
    pub memory: usize,
    /// How many are held.
    pub held: usize,
    ghost is_sum: { held ≡ all_held connections.items },
    ghost within: { held ≤ memory },
}

impl ConnectionTable {
    /// So many places, all free.
    ///
    /// # Errors
    ///
    /// `AllocError` if memory for them was refused.
    pub fn new(alloc: Global, most: usize, memory: usize) -> Result<ConnectionTable, AllocError>
        ensures free { IfOk result (λ places. places.connections.items ≡ replicate most None) }
        ensures memory { IfOk result (λ places. places.memory ≡ memory) }
    {
        let mut connections = Vec::new(alloc);
        for _ in 0..most {
            connections.push(None)?;
        }
        Ok(ConnectionTable {
            connections,
            memory,
            held: 0,
        })
    }

    /// How many places there are.
    pub fn len(&self) -> usize
        ensures { result ≡ length self.now.connections.items }
    {
        self.connections.len()
    }

    /// How many connections there are.
    pub fn open(&self) -> usize
        ensures { result ≡ open_count self.now.connections.items }
    {
        let mut open = 0;
        for connection in &self.connections {
            if connection.is_some() {
                open += 1;
            }
        }
        open
    }

    /// How many bytes are owed to all connections.
    pub fn owed(&self) -> u64
        ensures { result ≡ all_owed self.now.connections.items }
    {
        let mut owed: u64 = 0;
        for connection in &self.connections {
            owed = owed.saturating_add(owed_to(connection));
        }
        owed
    }

    /// How many bytes are held for all connections, of unfinished frames and of replies that are
    /// owed.
    pub fn held(&self) -> usize
        ensures { result ≡ all_held self.now.connections.items }
    {
        self.held
    }

    /// How many connections a peer has.
    pub fn open_of(&self, peer: &[u8; 16]) -> usize
        ensures { result ≡ peer_count peer.now self.now.connections.items }
    {
        let mut open = 0;
        for connection in &self.connections {
            if is_of(connection, peer) {
                open += 1;
            }
        }
        open
    }

    /// How many connections there are whose session has edited the draft of a version, and goes on.
    pub fn editors(&self, version: u64) -> usize
        ensures { result ≡ editor_count version self.now.connections.items }
    {
        let mut editors = 0;
        for connection in &self.connections {
            if edits(connection, version) {
                editors += 1;
            }
        }
        editors
    }

    /// Whether there is a place, and it is free.
    pub fn is_free(&self, place: usize) -> bool
        ensures { IsTrue result ↔ (place < length self.now.connections.items)
            × (connection_at self.now.connections.items place ≡ None) }
    {
        matches!(self.connections.get(place), Some(None))
    }

    /// A free place: the first from this one on, or the first of all.
    pub fn free_from(&self, from: usize) -> Option<usize>
        ensures free { IfSome result (λ place. (place < length self.now.connections.items)
            × (connection_at self.now.connections.items place ≡ None)) }
        ensures none { IfNone result ((place : ℕ) → place < length self.now.connections.items
            → connection_at self.now.connections.items place ≢ None) }
    {
        match self.first_free(from) {
            Some(place) => Some(place),
            None => self.first_free(0),
        }
    }

    // The first free place from this one on.
    fn first_free(&self, from: usize) -> Option<usize>
        ensures free { IfSome result (λ place. (place < length self.now.connections.items)
            × (connection_at self.now.connections.items place ≡ None)) }
        ensures none { IfNone result ((place : ℕ) → from ≤ place
            → place < length self.now.connections.items
            → connection_at self.now.connections.items place ≢ None) }
    {
        for place in from..self.connections.len() {
            if self.connections[place].is_none() {
                return Some(place);
            }
        }
        None
    }

    /// The moment at which something is to be done for the connection at a place even if no event
    /// comes.
    pub fn due_at(&self, place: usize, idle: u64) -> Option<u64>
        ensures { result ≡ option_map (due_of idle)
            (connection_at self.now.connections.items place) }
    {
        match self.connections.get(place) {
            Some(Some(connection)) => Some(connection.due(idle)),
            _ => None,
        }
    }

    /// Notes that the connection at a place will have its turn, and whether its socket may be read
    /// or written. Returns whether there is one that was not to have its turn before.
    pub fn note(&mut self, place: usize, readable: bool, writable: bool) -> bool
        ensures new { IsTrue result ↔ IsSomeAnd
            (connection_at self.old.connections.items place) (λ c. c.queued ≡ false) }
        ensures places { self.new.connections.items ≡ slice_set self.old.connections.items place
            (noted readable writable (connection_at self.old.connections.items place)) }
        ensures memory { self.new.memory ≡ self.old.memory }
    {
        if place >= self.connections.len() {
            return false;
        }
        let Some(connection) = &mut self.connections[place] else {
            return false;
        };
        let queued = connection.queued;
        connection.readable = connection.readable || readable;
        connection.writable = connection.writable || writable;
        connection.queued = true;
        !queued
    }

    /// Takes the connection at a place away.
    pub fn take(&mut self, place: usize) -> Option<ServedConnection>
        ensures taken { result ≡ connection_at self.old.connections.items place }
        ensures places { self.new.connections.items ≡
            slice_set self.old.connections.items place None }
        ensures free { IsSome result → (place < length self.new.connections.items)
            × (connection_at self.new.connections.items place ≡ None) }
        ensures memory { self.new.memory ≡ self.old.memory }
    {
        if place >= self.connections.len() {
            return None;
        }
        self.held -= held_at(&self.connections[place]);
        self.connections[place].take()
    }

    /// Puts a connection into a free place. If too many bytes are held for all then, the one for
    /// which most are held is taken away.
    pub fn put(&mut self, place: usize, connection: ServedConnection) -> Option<ServedConnection>
        requires within { place < length self.old.connections.items }
        requires free { connection_at self.old.connections.items place ≡ None }
        ensures room { IfNone result (self.new.connections.items ≡
            slice_set self.old.connections.items place (Some connection)) }
        ensures crowded { IfSome result (λ lost. LosesLargest
            (slice_set self.old.connections.items place (Some connection)) lost
            self.new.connections.items) }
        ensures exactly { IsSome result ↔ (self.old.memory <
            all_held (slice_set self.old.connections.items place (Some connection))) }
        ensures memory { self.new.memory ≡ self.old.memory }
    {
        let own = connection.held;
        let free = &mut self.connections[place];
        *free = Some(connection);
        if own <= self.memory - self.held {
            self.held += own;
            return None;
        }
        let largest = largest(&self.connections);
        self.held -= held_at(&self.connections[largest]) - own;
        self.connections[largest].take()
    }
}

// Whether a connection is of a peer.
fn is_of(place: &Option<ServedConnection>, peer: &[u8; 16]) -> bool
    ensures { result ≡ is_of peer.now place.now }
{
    match place {
        Some(connection) => connection.peer.as_slice() == peer.as_slice(),
        None => false,
    }
}

// Whether a connection's session has edited the draft of a version, and goes on.
fn edits(place: &Option<ServedConnection>, version: u64) -> bool
    ensures { result ≡ edits version place.now }
{
    match place {
        Some(connection) => {
            connection.lingers.is_none() && connection.watch.edited == Some(version)
        }
        None => false,
    }
}

// How many bytes are owed to the connection at a place.
fn owed_to(place: &Option<ServedConnection>) -> u64
    ensures { result ≡ owed_bytes place.now }
{
    match place {
        Some(connection) => connection.state.owed().len() as u64,
        None => 0,
    }
}

// How many bytes are held for the connection at a place.
fn held_at(place: &Option<ServedConnection>) -> usize
    ensures { result ≡ held_bytes place.now }
{
    match place {
        Some(connection) => connection.held,
        None => 0,
    }
}

// The first of the places of those connections for which most is held.
fn largest(connections: &[Option<ServedConnection>]) -> usize
    requires { 0 < length connections.now }
    ensures { IsFirstMaxByKey held_bytes connections.now (length connections.now) result }
{
    let mut best = 0;
    for place in 1..connections.len() {
        if held_at(&connections[place]) > held_at(&connections[best]) {
            best = place;
        }
    }
    best
}
