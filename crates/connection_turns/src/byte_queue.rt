//! Bytes that are used up from their start on.

ghost use Rattle.std.specs.Prelude.{◌≡◌, ◌≤◌, ◌↔◌, [], drop, length, IsTrue, OnOk, OnErr};

use std::alloc::{AllocError, Global};
use std::marker::Model;

/// Bytes that are used up stay in their place while they are fewer than these, or fewer than a
/// third of what is left. So a move copies at most three times what was used up.
const SPARE: usize = 65_536;

/// Bytes that are used up from their start on, and added to at their end. When all are used up
/// their room is given back.
#[derive(Drop)]
pub struct ByteQueue {
    alloc: Global,
    bytes: Vec<u8>,
    at: usize,
}

impl Model for ByteQueue {
    ghost use Rattle.std.specs.Prelude.{◌≤◌, ℕ, List, drop, vec_len};

    ghost Value = { List ℕ };

    ghost view = { λ t. drop t.at t.bytes.items };

    ghost invariant = { λ t. t.at ≤ vec_len t.bytes };
}

impl ByteQueue {
    /// No bytes.
    pub fn new(alloc: Global) -> ByteQueue
        ensures { result ≡ [] }
    {
        ByteQueue {
            alloc,
            bytes: Vec::new(alloc),
            at: 0,
        }
    }

    /// The bytes that are left.
    pub fn as_slice(&self) -> &[u8]
        ensures { result.now ≡ self.now }
    {
        &self.bytes[self.at..]
    }

    /// How many are left.
    pub fn len(&self) -> usize
        ensures { result ≡ length self.now }
    {
        self.bytes.len() - self.at
    }

    /// Uses up the first `n` bytes.
    pub fn skip(&mut self, n: usize)
        requires { n ≤ length self.old }
        ensures { self.new ≡ drop n self.old }
    {
        self.at += n;
        if self.at == self.bytes.len() {
            // A long reply is not to keep its room as long as its connection lasts.
            self.bytes = Vec::new(self.alloc);
            self.at = 0;
        } else if self.at >= SPARE && self.at >= self.bytes.len() / 4 {
            self.give_back();
        }
    }

    // Gives back the room of what was used up, if there is memory to move the rest.
    fn give_back(&mut self)
        ensures { self.new ≡ self.old }
    {
        if let Ok(rest) = self.as_slice().to_vec(self.alloc) {
            self.bytes = rest;
            self.at = 0;
        }
    }

    /// Whether none is left.
    pub fn is_empty(&self) -> bool
        ensures { IsTrue result ↔ (self.now ≡ []) }
    {
        self.as_slice().is_empty()
    }

    /// Adds bytes if none is left.
    pub fn fill(&mut self, bytes: &[u8]) -> Result<(), AllocError>
        requires empty { self.old ≡ [] }
        ensures ok { OnOk result (self.new ≡ bytes.now) }
        ensures err { OnErr result (self.new ≡ self.old) }
    {
        self.bytes.clear();
        self.at = 0;
        self.bytes.extend_from_slice(bytes)
    }

    /// The bytes that are left, in a vector of their own, to be added to. Give them back with
    /// `put_back`.
    pub fn take_out(&mut self) -> Vec<u8>
        ensures taken { result.items ≡ self.old }
    {
        let mut bytes = std::mem::replace(&mut self.bytes, Vec::new(self.alloc));
        if self.at > 0 {
            bytes.drain(..self.at);
            self.at = 0;
        }
        bytes
    }

    /// Puts a vector in the place of what is left.
    pub fn put_back(&mut self, bytes: Vec<u8>)
        ensures { self.new ≡ bytes.items }
    {
        self.bytes = bytes;
        self.at = 0;
    }
}
