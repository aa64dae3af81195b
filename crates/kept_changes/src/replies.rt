//! An ask for the records that have changed, and what its reply says.

ghost use Rattle.std.specs.Prelude.{◌≡◌, ◌≤◌, ◌↔◌, ◌&&◌, IfOk, IsTrue};
ghost use Rattle.frame_codec.specs.declared.frame.Frame.{Frame};
ghost use Rattle.frame_codec.specs.Frames.{encoding};
ghost use Rattle.change_file.specs.Files.{move_of};
ghost use Rattle.pir_schemes.specs.Plans.{is_slot_of};
ghost use Rattle.client_core.specs.Replies.{have_slots};
ghost use Rattle.kept_changes.specs.Replies.{IsJudgedReply, IsMoveAsked};

use crate::files::layout_for;
use crate::moving::{EntryChange, change_in};
use change_file::Block;
use client_core::{Plan, ServerInfo};
use digit_pack::{is_slotted, read_slot};
use frame_codec::{Frame, write_frame};
use hint_changes::entry_len;
use std::alloc::{AllocError, Global};

/// The frame that asks for the records that have changed since a version.
///
/// # Errors
///
/// `AllocError` when memory was refused.
pub fn changes_ask(alloc: Global, since: u64) -> Result<Vec<u8>, AllocError>
    ensures { IfOk result (λ bytes. bytes.items ≡ encoding (Frame.ChangesAsk since)) }
{
    let mut bytes = Vec::new(alloc);
    write_frame(&Frame::ChangesAsk { since }, &mut bytes)?;
    Ok(bytes)
}

/// What a reply to an ask for changed records says.
#[derive(Clone, Copy, Debug)]
pub enum ChangesReply<'a> {
    /// The changes since the version asked: a block for the file.
    Moves(Block<'a>),
    /// The server doesn't have them, or they are too many: the hint is to be fetched again.
    NoChanges,
    /// No reply to this ask, or none that can be trusted.
    Other,
}

// Whether a record has these bytes in the digits.
#[tactic(auto, unfolding(pir_schemes::specs::Plans::is_slot_of))]
fn is_slot(plan: &Plan, bytes: &[u8]) -> bool
    ensures { result ≡ is_slot_of plan.now bytes.now }
{
    !is_slotted(plan.form) || read_slot(bytes).is_ok()
}

// Whether the old and the new bytes of a change are those of a record of the plan.
fn has_slots(plan: &Plan, change: &EntryChange<'_>) -> bool
    ensures { result ≡ (is_slot_of plan.now change.now.old.now
        && is_slot_of plan.now change.now.new.now) }
{
    is_slot(plan, change.old) && is_slot(plan, change.new)
}

// The same of the change in each entry.
fn have_slots(plan: &Plan, entries: &[u8]) -> bool
    requires { plan.now.record_len ≤ 256 }
    ensures { result ≡ have_slots plan.now entries.now }
{
    let len = usize::from(plan.record_len);
    for k in 0..entries.len() / entry_len(len) {
        if !has_slots(plan, &change_in(entries, len, k)) {
            return false;
        }
    }
    true
}

// Whether a block's changes are since the version asked, and lead to one that can be.
fn is_asked(plan: &Plan, asked: u64, block: &Block<'_>) -> bool
    ensures { IsTrue result ↔ IsMoveAsked plan.now asked (move_of block.now) }
{
    block.since == asked
        && block.version != 0
        && layout_for(plan, block).is_some()
        && have_slots(plan, block.entries)
}

/// What a reply says to an ask for the records that have changed since a version. The changes are
/// those of the frame, in which its entries stay; they go from the version asked to one that is not
/// 0, whose records have a layout with the plan known, and are of these records, ascending, with
/// the bytes of records.
pub fn judged<'a>(known: &ServerInfo, since: u64, reply: &'a Frame) -> ChangesReply<'a>
    ensures { IsJudgedReply known.now.plan since reply.now result }
{
    match reply {
        Frame::Changes {
            since: base,
            now,
            count,
            entries,
        } => {
            let block = Block {
                since: *base,
                version: *now,
                count: *count,
                entries: entries.as_slice(),
            };
            if is_asked(&known.plan, since, &block) {
                ChangesReply::Moves(block)
            } else {
                ChangesReply::Other
            }
        }
        Frame::NoDelta { .. } => ChangesReply::NoChanges,
        _ => ChangesReply::Other,
    }
}
