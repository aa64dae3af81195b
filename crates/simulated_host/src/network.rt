//! The network between machines: connections whose bytes come when they come.

use crate::dice::Dice;
use std::alloc::{AllocError, Global};
use std::collections::VecDeque;

/// How many bytes one direction of a connection holds.
const ROOM: usize = 300_000;

/// Which end of a connection.
#[derive(Clone, Copy, Debug, PartialEq, Eq)]
pub enum Side {
    /// The one that connected.
    Client,
    /// The one that accepted.
    Server,
}

/// One end of a connection.
#[derive(Clone, Copy, Debug, PartialEq, Eq)]
pub struct End {
    /// The connection's number: none is used twice.
    pub number: u64,
    /// Which end of it.
    pub side: Side,
}

/// What a read or a write came to.
#[derive(Clone, Copy, Debug, PartialEq, Eq)]
pub enum Moved {
    /// So many bytes. A read of none has found the end.
    Bytes(usize),
    /// Nothing can be done yet.
    Later,
    /// The connection is broken.
    Broken,
}

// One direction.
#[derive(Drop)]
struct Direction {
    // Bytes that were written, of which so many have come to the other end.
    bytes: VecDeque<u8>,
    came: usize,
    // No more will be written, and whether the other end can know that.
    ended: bool,
    end_came: bool,
}

impl Direction {
    fn new(alloc: Global) -> Direction {
        Direction {
            bytes: VecDeque::new(alloc),
            came: 0,
            ended: false,
            end_came: false,
        }
    }

    // Takes some of the bytes.
    fn write(&mut self, bytes: &[u8], dice: &mut Dice) -> Result<Moved, AllocError> {
        if self.ended {
            return Ok(Moved::Broken);
        }
        let room = ROOM.saturating_sub(self.bytes.len()).min(bytes.len());
        if room == 0 {
            return Ok(Moved::Later);
        }
        let count = dice.some_of(room);
        for byte in bytes.iter().take(count) {
            self.bytes.push_back(*byte)?;
        }
        Ok(Moved::Bytes(count.min(bytes.len())))
    }

    // Gives some of the bytes that have come.
    fn read(&mut self, buffer: &mut [u8], dice: &mut Dice) -> Moved {
        let most = self.came.min(buffer.len());
        if most == 0 {
            return if self.end_came && self.bytes.is_empty() {
                Moved::Bytes(0)
            } else {
                Moved::Later
            };
        }
        let count = dice.some_of(most);
        let mut taken = 0usize;
        for place in buffer.iter_mut().take(count) {
            let Some(byte) = self.bytes.pop_front() else {
                break;
            };
            *place = byte;
            taken = taken.saturating_add(1);
        }
        self.came = self.came.saturating_sub(taken);
        Moved::Bytes(taken)
    }

    // Whether there is something to read.
    fn is_ready(&self) -> bool {
        self.came > 0 || self.end_came
    }

    // Whether something is on its way.
    fn is_under_way(&self) -> bool {
        self.came < self.bytes.len() || self.ended && !self.end_came
    }

    // Some bytes come, or all, and with the last of them the end.
    fn deliver(&mut self, dice: &mut Dice) {
        let left = self.bytes.len().saturating_sub(self.came);
        let count = if dice.one_in(3) {
            dice.below(left.saturating_add(1))
        } else {
            left
        };
        self.came = self.came.saturating_add(count);
        if self.ended && count == left {
            self.end_came = true;
        }
    }
}

/// A connection between a client and a server.
#[derive(Drop)]
pub struct Connection {
    number: u64,
    /// The number of the client's machine.
    pub client: usize,
    /// The number of the server's machine.
    pub server: usize,
    /// Whether the server has accepted it.
    pub accepted: bool,
    up: Direction,
    down: Direction,
    // Which ends may not use it any more: they let it go, or learnt that it is broken.
    client_gone: bool,
    server_gone: bool,
    broken: bool,
}

impl Connection {
    // Something comes that is on its way, in one direction if there is any, else in the other.
    // Returns whether anything did.
    fn deliver(&mut self, dice: &mut Dice, first_up: bool) -> bool {
        let up = self.up.is_under_way();
        let down = self.down.is_under_way();
        if up && (first_up || !down) {
            self.up.deliver(dice);
        } else if down {
            self.down.deliver(dice);
        }
        up || down
    }
}

/// All connections.
#[derive(Drop)]
pub struct Network {
    alloc: Global,
    connections: Vec<Connection>,
    next: u64,
}

impl Network {
    /// No connections.
    pub fn new(alloc: Global) -> Network {
        Network {
            alloc,
            connections: Vec::new(alloc),
            next: 0,
        }
    }

    /// How many connections there are.
    pub fn len(&self) -> usize {
        self.connections.len()
    }

    /// Whether there are none.
    pub fn is_empty(&self) -> bool {
        self.connections.is_empty()
    }

    /// A client connects to a server, which has yet to accept. Gives the client's end.
    ///
    /// # Errors
    ///
    /// `AllocError` when memory was refused.
    pub fn connect(&mut self, client: usize, server: usize) -> Result<End, AllocError> {
        let number = self.next;
        self.connections.push(Connection {
            number,
            client,
            server,
            accepted: false,
            up: Direction::new(self.alloc),
            down: Direction::new(self.alloc),
            client_gone: false,
            server_gone: false,
            broken: false,
        })?;
        self.next = self.next.wrapping_add(1);
        Ok(End {
            number,
            side: Side::Client,
        })
    }

    /// Whether a server has a connection of a client that it has not let go.
    pub fn is_connected(&self, client: usize, server: usize) -> bool {
        self.connections.iter().any(|connection| {
            connection.client == client && connection.server == server && !connection.server_gone
        })
    }

    /// A server accepts the first connection that waits for it. Gives the server's end.
    pub fn accept(&mut self, server: usize) -> Option<End> {
        for connection in self.connections.iter_mut() {
            if connection.server == server && !connection.accepted && !connection.broken {
                connection.accepted = true;
                return Some(End {
                    number: connection.number,
                    side: Side::Server,
                });
            }
        }
        None
    }

    /// Writes some bytes at an end.
    ///
    /// # Errors
    ///
    /// `AllocError` when memory was refused.
    pub fn write(&mut self, end: End, bytes: &[u8], dice: &mut Dice) -> Result<Moved, AllocError> {
        match self.find(end) {
            Some(connection) if !connection.broken => match end.side {
                Side::Client => connection.up.write(bytes, dice),
                Side::Server => connection.down.write(bytes, dice),
            },
            _ => Ok(Moved::Broken),
        }
    }

    /// Reads some bytes at an end.
    pub fn read(&mut self, end: End, buffer: &mut [u8], dice: &mut Dice) -> Moved {
        match self.find(end) {
            Some(connection) if !connection.broken => match end.side {
                Side::Client => connection.down.read(buffer, dice),
                Side::Server => connection.up.read(buffer, dice),
            },
            _ => Moved::Broken,
        }
    }

    /// Nothing more will be written at an end.
    pub fn end_writing(&mut self, end: End) {
        if let Some(connection) = self.find(end) {
            match end.side {
                Side::Client => connection.up.ended = true,
                Side::Server => connection.down.ended = true,
            }
        }
    }

    /// An end lets its connection go. If the other end has bytes to come, or goes on writing, that
    /// one finds it broken.
    pub fn close(&mut self, end: End) {
        if let Some(connection) = self.find(end) {
            match end.side {
                Side::Client => {
                    connection.up.ended = true;
                    connection.client_gone = true;
                    connection.broken = connection.broken || !connection.down.bytes.is_empty();
                }
                Side::Server => {
                    connection.down.ended = true;
                    connection.server_gone = true;
                    connection.broken = connection.broken || !connection.up.bytes.is_empty();
                }
            }
        }
        self.forget_closed();
    }

    /// Breaks the connections of a machine, whose power was cut or whose process was killed; its
    /// own ends are gone.
    pub fn break_all_of(&mut self, machine: usize) {
        for connection in self.connections.iter_mut() {
            if connection.client == machine {
                connection.broken = true;
                connection.client_gone = true;
            }
            if connection.server == machine {
                connection.broken = true;
                connection.server_gone = true;
            }
        }
        self.forget_closed();
    }

    /// Breaks one connection, chosen at random.
    pub fn break_one(&mut self, dice: &mut Dice) {
        let place = dice.below(self.connections.len());
        if let Some(connection) = self.connections.get_mut(place) {
            connection.broken = true;
        }
        self.forget_closed();
    }

    /// Whether a connection waits for a server to accept it.
    pub fn has_waiting(&self, server: usize) -> bool {
        self.connections.iter().any(|connection| {
            connection.server == server && !connection.accepted && !connection.broken
        })
    }

    /// Whether there is something for an end to read: bytes, the end of the stream, or that the
    /// connection is broken.
    pub fn is_ready(&self, end: End) -> bool {
        match self
            .connections
            .iter()
            .find(|connection| connection.number == end.number)
        {
            Some(connection) if !connection.broken => match end.side {
                Side::Client => connection.down.is_ready(),
                Side::Server => connection.up.is_ready(),
            },
            _ => true,
        }
    }

    /// Bytes come on one connection that has any on their way, chosen at random, unless its server
    /// can't be reached.
    pub fn deliver_some(&mut self, dice: &mut Dice, unreachable: &[bool]) {
        let start = dice
            .below(self.connections.len())
            .min(self.connections.len());
        let first_up = dice.one_in(2);
        let (before, after) = self.connections.split_at_mut(start);
        for connection in after.iter_mut().chain(before.iter_mut()) {
            let is_cut_off = matches!(unreachable.get(connection.server), Some(true));
            if !is_cut_off && connection.deliver(dice, first_up) {
                return;
            }
        }
    }

    // The connection of an end.
    fn find(&mut self, end: End) -> Option<&mut Connection> {
        let mut place = None;
        for (at, connection) in self.connections.iter().enumerate() {
            if connection.number == end.number {
                place = Some(at);
                break;
            }
        }
        self.connections.get_mut(place?)
    }

    // Forgets connections that no end has any more. One that is broken and was never accepted has
    // one end alone.
    fn forget_closed(&mut self) {
        self.connections.retain(|connection| {
            let server_gone = connection.server_gone || connection.broken && !connection.accepted;
            !(connection.client_gone && server_gone)
        });
    }
}
