//! Servers of an older version than one that was seen before.

ghost use Rattle.pir_client.specs.Older.{IsOlderThan};

/// A server of an older version than one that was seen before.
#[derive(Clone, Copy, Debug, PartialEq, Eq)]
pub struct Older {
    /// The server's version.
    pub version: u64,
    /// The latest version that was seen of the store.
    pub seen: u64,
}

/// What is to be said of a server of a version, if a later one was seen of its store before.
pub fn older_than(seen: u64, version: u64) -> Option<Older>
    ensures { IsOlderThan seen version result }
{
    if version < seen {
        Some(Older { version, seen })
    } else {
        None
    }
}
