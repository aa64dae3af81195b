//! What a server lacks of a folder's publications.

ghost use Rattle.std.specs.Prelude.{◌≡◌};
ghost use Rattle.publication_push.specs.Lacking.{IsLack};

use client_core::ServerInfo;
use pir_schemes::Plan;

/// What a server that was greeted lacks.
#[derive(Clone, Copy, Debug, PartialEq, Eq)]
pub enum Lack {
    /// Its store is another one: the public seed or the sizes differ.
    OtherStore,
    /// The server is at a later version than the folder.
    Ahead,
    /// The log begins after its version.
    BeforeLog,
    /// The server lacks what comes after so many publications of the log.
    After(usize),
}

/// What a server lacks that was greeted, of the publications after version `since` up to the
/// current one.
pub fn lack_of(plan: &Plan, since: u64, current: u64, known: &ServerInfo) -> Lack
    ensures { IsLack plan.now since current known.now result }
{
    if known.plan != *plan {
        return Lack::OtherStore;
    }
    if known.version > current {
        return Lack::Ahead;
    }
    match known.version.checked_sub(since) {
        Some(count) => Lack::After(count as usize),
        None => Lack::BeforeLog,
    }
}
