//! The frames, and the lists in them.

ghost use Rattle.std.specs.Prelude.{◌≡◌, ◌<◌, ◌^◌, List, ℕ, All, length};
ghost use Rattle.frame_codec.specs.Rows.{RowList, HasWholeRows, row_count, row_at};

use std::marker::Model;

/// Bytes in order.
#[derive(Drop)]
pub struct Bytes {
    items: Vec<u8>,
}

impl Model for Bytes {
    ghost use Rattle.std.specs.Prelude.{◌<◌, ◌^◌, List, ℕ, All};

    ghost Value = { List ℕ };

    ghost view = { λ b. b.items.items };

    ghost invariant = { λ b. All (λ x. x < 2 ^ 8) b.items.items };
}

impl Bytes {
    /// The given bytes.
    pub fn new(items: Vec<u8>) -> Bytes
        ensures items { result ≡ items.items }
        ensures fields { All (λ b. b < 2 ^ 8) result }
    {
        Bytes { items }
    }

    /// The bytes, lent.
    pub fn as_slice(&self) -> &[u8]
        ensures items { result.now ≡ self.now }
        ensures fields { All (λ b. b < 2 ^ 8) self.now }
    {
        self.items.as_slice()
    }

    /// The bytes, given away.
    pub fn into_vec(self) -> Vec<u8>
        ensures { result.items ≡ self }
    {
        let Bytes { items } = self;
        items
    }
}

/// Words of 32 bits in order.
#[derive(Drop)]
pub struct Words {
    items: Vec<u32>,
}

impl Model for Words {
    ghost use Rattle.std.specs.Prelude.{◌<◌, ◌^◌, List, ℕ, All};

    ghost Value = { List ℕ };

    ghost view = { λ w. w.items.items };

    ghost invariant = { λ w. All (λ x. x < 2 ^ 32) w.items.items };
}

impl Words {
    /// The given words.
    pub fn new(items: Vec<u32>) -> Words
        ensures items { result ≡ items.items }
        ensures fields { All (λ w. w < 2 ^ 32) result }
    {
        Words { items }
    }

    /// The words, lent.
    pub fn as_slice(&self) -> &[u32]
        ensures items { result.now ≡ self.now }
        ensures fields { All (λ w. w < 2 ^ 32) self.now }
    {
        &self.items
    }

    /// The words, given away.
    pub fn into_vec(self) -> Vec<u32>
        ensures { result.items ≡ self }
    {
        let Words { items } = self;
        items
    }
}

/// Rows of a hint one after another: of each its number, and then as many words as the dimension
/// says.
#[derive(Drop)]
pub struct Rows {
    dimension: u16,
    words: Words,
}

impl Model for Rows {
    ghost use Rattle.std.specs.Prelude.{◌<◌, ◌^◌};
    ghost use Rattle.frame_codec.specs.Rows.{RowList, HasWholeRows};

    ghost Value = { RowList };

    ghost view = { λ r. record { dimension = r.dimension; words = r.words } };

    ghost invariant = { λ r. HasWholeRows (record { dimension = r.dimension; words = r.words }) };
}

impl Rows {
    /// The given rows, each of its number and `dimension` words.
    pub fn new(dimension: u16, words: Words) -> Rows
        requires { HasWholeRows (record { dimension = dimension; words = words }) }
        ensures { result ≡ record { dimension = dimension; words = words } }
    {
        Rows { dimension, words }
    }

    /// How many words a row has after its number.
    pub fn dimension(&self) -> u16
        ensures { result ≡ self.now.dimension }
    {
        self.dimension
    }

    /// How many rows there are.
    pub fn len(&self) -> usize
        ensures { result ≡ row_count self.now }
    {
        self.words.as_slice().len() / (self.dimension as usize + 1)
    }

    /// The number and the words of row `j`, counted from 0.
    pub fn row(&self, j: usize) -> (u32, &[u32])
        requires { j < row_count self.now }
        ensures number { result.0 ≡ (row_at self.now j).number }
        ensures words { result.1.now ≡ (row_at self.now j).words }
        ensures len { length result.1.now ≡ self.now.dimension }
    {
        let len = self.dimension as usize + 1;
        let row = &self.words.as_slice()[j * len..(j + 1) * len];
        (row[0], &row[1..])
    }

    /// The numbers and the words of the rows, lent.
    pub fn as_slice(&self) -> &[u32]
        ensures items { result.now ≡ self.now.words }
        ensures whole { HasWholeRows self.now }
        ensures fields { All (λ w. w < 2 ^ 32) self.now.words }
    {
        self.words.as_slice()
    }
}

/// Thirty-two bytes in order.
#[derive(Drop)]
pub struct Bytes32 {
    bytes: [u8; 32],
}

impl Model for Bytes32 {
    ghost use Rattle.std.specs.Prelude.{◌≡◌, ◌<◌, ◌^◌, List, ℕ, All, length};

    ghost Value = { List ℕ };

    ghost view = { λ b. b.bytes };

    ghost invariant = { λ b. (length b.bytes ≡ 32) × All (λ x. x < 2 ^ 8) b.bytes };
}

impl Bytes32 {
    /// A copy of these bytes.
    pub fn copied(bytes: &[u8]) -> Bytes32
        requires { length bytes.now ≡ 32 }
        ensures items { result ≡ bytes.now }
        ensures fields { All (λ b. b < 2 ^ 8) result }
    {
        let mut copy = [0u8; 32];
        copy.copy_from_slice(bytes);
        Bytes32 { bytes: copy }
    }

    /// The bytes, lent.
    pub fn as_slice(&self) -> &[u8]
        ensures items { result.now ≡ self.now }
        ensures len { length self.now ≡ 32 }
        ensures fields { All (λ b. b < 2 ^ 8) self.now }
    {
        &self.bytes
    }

    /// The bytes, copied.
    pub fn to_array(&self) -> [u8; 32]
        ensures { result ≡ self.now }
    {
        self.bytes
    }
}

/// A frame of the protocol, by its kind. No field's value is judged here.
#[derive(Drop)]
pub enum Frame {
    /// Kind 01: a database of records of `record_len` bytes each, in `groups` groups of rows, with
    /// digits of `width` bits.
    Load {
        record_len: u16,
        groups: u16,
        width: u8,
        records: Bytes,
    },
    /// Kind 02: who speaks, a reader by the zero key or the publisher.
    Hello {
        profile: u16,
        key: Bytes32,
    },
    /// Kind 03: a part of a version's hint is asked for.
    HintAsk {
        scheme: u8,
        version: u64,
        part: u32,
    },
    /// Kind 04: the rows of the SimplePIR hint that have changed since a version are asked for.
    DeltaAsk {
        since: u64,
    },
    /// Kind 05: a query to a version of the database.
    Query {
        scheme: u8,
        version: u64,
        words: Words,
    },
    /// Kind 06: new bytes for a record.
    Edit {
        index: u32,
        bytes: Bytes,
    },
    /// Kind 07: the edits and the appends become the next version.
    Publish,
    /// Kind 08: the end of a session.
    Bye,
    /// Kind 09: a record of these bytes after the last one.
    Append {
        bytes: Bytes,
    },
    /// Kind 0a, of a wide store alone: the records that have changed since a version are asked
    /// for.
    ChangesAsk {
        since: u64,
    },
    /// Kind 82: the layout, the current version and the public seed.
    Welcome {
        profile: u16,
        width: u8,
        record_len: u16,
        groups: u16,
        count: u32,
        version: u64,
        dimension: u16,
        seed: Bytes32,
    },
    /// Kind 83: a part of a version's hint.
    HintPart {
        scheme: u8,
        version: u64,
        part: u32,
        words: Words,
    },
    /// Kind 84: the rows of the SimplePIR hint of version `now`, with so many records, that have
    /// changed since version `since`.
    Delta {
        since: u64,
        now: u64,
        count: u32,
        rows: Rows,
    },
    /// Kind 85: the answer to a query.
    Answer {
        scheme: u8,
        version: u64,
        words: Words,
    },
    /// Kind 86: another version is current, with so many records.
    Stale {
        version: u64,
        count: u32,
    },
    /// Kind 87: an edit, an append or a publication is done; this version is current.
    Done {
        version: u64,
    },
    /// Kind 88: the rows or the records that have changed aren't known or are too many; this
    /// version is current, with so many records.
    NoDelta {
        version: u64,
        count: u32,
    },
    /// Kind 8a, of a wide store alone: the records of version `now`, with so many records, that
    /// differ from those of version `since`. An entry is a record's index in four bytes, and the
    /// bytes that it had and has in the digits.
    Changes {
        since: u64,
        now: u64,
        count: u32,
        entries: Bytes,
    },
    /// Kind 8f: the request was refused, for the reason that the code names.
    Refused {
        code: u8,
    },
}
