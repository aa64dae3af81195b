//! What is made of queries before their records are named.

ghost use Rattle.std.specs.Prelude.{◌≡◌, ◌↔◌, ◌≤◌, ◌-◌, ◌^◌, min, IfOk, IsTrue};
ghost use Rattle.digit_pack.specs.Layout.{digit_cols};
ghost use Rattle.client_core.specs.States.{IsKnown, shape_known};
ghost use Rattle.client_core.specs.Preparing.{ServeNext};

use crate::calls::NUMBERS_END;
use crate::state::ServerInfo;
use matrix_u32::Kernel;
use pir_schemes::{MAX_MASKS, QueryMasks, SecretSeed};
use std::alloc::{AllocError, Global};

/// Whether there are masks that have that of retrieval `number`, on the last version known.
pub(crate) fn serve_next(
    masks: &Option<QueryMasks>,
    known: &ServerInfo,
    seed: &SecretSeed,
    number: u64,
) -> bool
    requires { IsKnown known.now }
    ensures { IsTrue result ↔ ServeNext masks.now known.now seed.now number }
{
    match masks {
        None => false,
        Some(masks) => masks.serve(&known.plan, known.count as usize, seed, number),
    }
}

/// The masks of `count` retrievals from number `first` on, on the last version known: of 16 at
/// most, and of no more than the seed has numbers. Only refused memory gives an `Err`.
pub(crate) fn next_masks<K: Kernel>(
    alloc: Global,
    kernel: K,
    known: &ServerInfo,
    seed: &SecretSeed,
    first: u64,
    count: usize,
) -> Result<QueryMasks, AllocError>
    requires known { IsKnown known.now }
    requires number { first ≤ 2 ^ 62 }
    ensures { IfOk result (λ masks. masks ≡ record {
      plan = known.now.plan;
      cols = digit_cols (shape_known known.now);
      seed = seed.now;
      first = first;
      count = min (min count 16) (2 ^ 62 - first);
    }) }
{
    let most = count.min(MAX_MASKS) as u64;
    let count = most.min(NUMBERS_END - first) as usize;
    QueryMasks::new(
        alloc,
        kernel,
        &known.plan,
        known.count as usize,
        seed,
        first,
        count,
    )
}
