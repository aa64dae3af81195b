//! The words of a hint that have come so far.

ghost use Rattle.std.specs.Prelude.{◌≡◌, [], ◌++◌, length, OnOk, OnErr};

use std::alloc::{AllocError, Global};
use std::marker::Model;

/// The words of the parts of an unfinished hint, in order. A contract sees them as a list.
#[derive(Drop)]
pub struct Parts {
    words: Vec<u32>,
}

impl Model for Parts {
    ghost use Rattle.std.specs.Prelude.{List, ℕ};

    ghost Value = { List ℕ };

    ghost view = { λ p. p.words.items };
}

impl Parts {
    /// No words.
    pub fn none(alloc: Global) -> Parts
        ensures { result ≡ [] }
    {
        Parts {
            words: Vec::new(alloc),
        }
    }

    /// How many words there are.
    pub fn len(&self) -> usize
        ensures { result ≡ length self.now }
    {
        self.words.len()
    }

    /// Adds the words of one more part. If memory is refused nothing is added.
    pub fn add(&mut self, words: &[u32]) -> Result<(), AllocError>
        ensures ok { OnOk result (self.new ≡ self.old ++ words.now) }
        ensures err { OnErr result (self.new ≡ self.old) }
    {
        self.words.extend_from_slice(words)
    }

    /// The words, given away.
    pub fn into_vec(self) -> Vec<u32>
        ensures { result.items ≡ self }
    {
        let Parts { words } = self;
        words
    }
}
