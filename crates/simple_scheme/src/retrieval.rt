//! Which record is retrieved, and what its secrets come from.

/// A retrieval: the record asked for, and the seed and the number that give all that is random
/// about it. It holds no copy of the seed.
#[derive(Clone, Copy)]
pub struct Retrieval<'a> {
    /// The client's seed, which no server learns.
    pub seed: &'a [u8; 32],
    /// Which retrieval of the seed it is.
    pub number: u64,
    /// The index of the record.
    pub i: usize,
}
