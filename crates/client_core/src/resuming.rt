//! What is saved of a client, and when a later one may go on with it.

ghost use Rattle.std.specs.Prelude.{◌≡◌, ◌≤◌, ◌↔◌, IsTrue};
ghost use Rattle.pir_schemes.specs.Retrievals.{hint_rows as rows_of_hint};
ghost use Rattle.client_core.specs.States.{IsKnown, shape_known};
ghost use Rattle.client_core.specs.Resuming.{HasBecome, IsHintFor, MayResumeWith};

use crate::state::{Hint, ServerInfo};
use pir_schemes::hint_rows;

/// What is saved of a client, but for its seed: the number of its next retrieval, what the server
/// reported last, and the hint held. A number isn't to be given to two clients of one seed.
#[derive(Drop)]
pub struct SavedClient {
    pub number: u64,
    pub known: Option<ServerInfo>,
    pub hint: Option<Hint>,
}

/// Whether what was known of a server can have become what is known now.
fn has_become(then: &ServerInfo, now: &ServerInfo) -> bool
    ensures { IsTrue result ↔ HasBecome then.now now.now }
{
    then.plan == now.plan
        && then.version <= now.version
        && then.count <= now.count
        && (then.version != now.version || then.count == now.count)
}

/// Whether a hint is one of the plan known, of no later version.
fn is_hint_for(now: &ServerInfo, hint: &Hint) -> bool
    requires { IsKnown now.now }
    ensures { IsTrue result ↔ IsHintFor now.now hint.now }
{
    hint.version <= now.version
        && hint.matrix.rows() == hint_rows(hint.scheme, &now.layout(), now.dimension())
        && hint.matrix.cols() == now.dimension()
}

/// Whether a client that knows this now may go on with the hint saved.
pub(crate) fn may_hold(now: &ServerInfo, known: &Option<ServerInfo>, hint: &Option<Hint>) -> bool
    requires { IsKnown now.now }
    ensures { IsTrue result ↔ MayResumeWith now.now known.now hint.now }
{
    match known {
        None => false,
        Some(then) => match hint {
            None => false,
            Some(hint) => has_become(then, now) && is_hint_for(now, hint),
        },
    }
}
