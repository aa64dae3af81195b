//! The reading of answers, by scheme.

ghost use Rattle.std.specs.Prelude.{◌≡◌, ◌^◌, ◌<◌, ◌≤◌, IfOk, IfErr, true, false};
ghost use Rattle.pir_schemes.specs.Plans.{IsPlan, shape_at, content, is_slot_of};
ghost use Rattle.pir_schemes.specs.Retrievals.{hint_rows};
ghost use Rattle.pir_schemes.specs.Laws.{ReadsRecordOf};

use crate::plan::{Plan, SecretSeed};
use crate::scheme::Scheme;
use digit_pack::{is_slotted, read_slot};
use matrix_u32::{Kernel, Matrix};
use simple_scheme::RecoverError;
use std::alloc::Global;

/// The record that an answer gives for record i of `count` records of the plan, under the hint of
/// its version.
///
/// # Errors
///
/// `BadLength` exactly when the answer hasn't the scheme's count of words, `BadDigits` exactly when
/// it has and its digits set a bit past the record's last byte, or, if the plan has slots, their
/// bytes are no slot; `Memory` only if it has its words.
#[tactic(auto, unfolding(crate::specs::Retrievals::reading, crate::specs::Plans::record_of))]
pub fn recover<K: Kernel>(
    alloc: Global,
    kernel: K,
    scheme: Scheme,
    plan: &Plan,
    count: usize,
    hint: &Matrix,
    seed: &SecretSeed,
    number: u64,
    i: usize,
    answer: &[u32],
) -> Result<Vec<u8>, RecoverError>
    requires plan { IsPlan plan.now count }
    requires number { number < 2 ^ 62 }
    requires rows { hint.now.rows ≡ hint_rows scheme (shape_at plan.now count) hint.now.cols }
    requires cols { hint.now.cols ≤ 1024 }
    requires record { i < count }
    ensures { ReadsRecordOf scheme plan.now count hint.now seed.now number i answer.now result }
{
    // The sizes are within the limits: this can't fail.
    let layout = plan.layout(count).unwrap();
    let seed = seed.bytes();
    let bytes = match scheme {
        Scheme::Simple => {
            simple_scheme::recover(alloc, kernel, seed, number, hint, &layout, i, answer)?
        }
        Scheme::Double => {
            double_scheme::recover(alloc, kernel, seed, number, hint, &layout, i, answer)?
        }
    };
    record_in(plan, bytes)
}

// The record whose bytes in the digits these are. Takes no memory.
#[tactic(auto, unfolding(crate::specs::Plans::content, crate::specs::Plans::is_slot_of))]
fn record_in(plan: &Plan, mut bytes: Vec<u8>) -> Result<Vec<u8>, RecoverError>
    ensures record { IfOk result (λ given. (is_slot_of plan.now bytes.items ≡ true)
        × (given.items ≡ content plan.now bytes.items)) }
    ensures refused { IfErr result (λ e. (e ≡ RecoverError.BadDigits)
        × (is_slot_of plan.now bytes.items ≡ false)) }
{
    if !is_slotted(plan.form) {
        return Ok(bytes);
    }
    let Ok(len) = read_slot(&bytes) else {
        return Err(RecoverError::BadDigits);
    };
    bytes.copy_within(2..2 + len, 0);
    bytes.truncate(len);
    Ok(bytes)
}
