//! The rows of a record, moved by a file of changes.

ghost use Rattle.std.specs.Prelude.{◌≡◌, ◌+◌, ◌≤◌, ◌∷◌, [], IsTrue, IsFalse, IfOk, MatchOption};
ghost use Rattle.digit_pack.specs.Layout.{digit_rows};
ghost use Rattle.pir_schemes.specs.Plans.{shape_at};
ghost use Rattle.change_file.specs.Files.{file_moves, move_of, moves_in};
ghost use Rattle.kept_changes.specs.Moves.{AreMovesOf, IsMoveOf, IsMovedOn};

use crate::moving::move_place;
use change_file::{Block, HEAD_LEN, Link, next_block, read_head};
use client_core::{Hint, Plan};
use digit_pack::Layout;
use hint_changes::{PublicRow, are_entries};
use matrix_u32::Kernel;
use std::alloc::{AllocError, Global};

/// The layout of the records that a block leads to: none exactly if they have none, or the block's
/// entries are not of them.
pub(crate) fn layout_for(plan: &Plan, block: &Block<'_>) -> Option<Layout>
    ensures { MatchOption result (¬ IsMoveOf plan.now (move_of block.now))
        (λ layout. IsMoveOf plan.now (move_of block.now)
        × (layout ≡ shape_at plan.now block.now.count)) }
{
    let Ok(layout) = plan.layout(block.count as usize) else {
        return None;
    };
    if !are_entries(&layout, block.entries) {
        return None;
    }
    Some(layout)
}

// Moves the rows of a record by a block. Returns whether the block is one by which they can be
// moved.
fn move_by_block<K: Kernel>(
    kernel: K,
    plan: &Plan,
    public: &mut PublicRow,
    hint: &mut Hint,
    index: usize,
    block: &Block<'_>,
) -> bool
    requires seed { public.old.seed ≡ plan.now.seed }
    requires dimension { public.old.dimension ≡ plan.now.dimension }
    requires rows { hint.old.matrix.rows ≡ digit_rows (shape_at plan.now (index + 1)) }
    requires cols { hint.old.matrix.cols ≡ plan.now.dimension }
    ensures good { IsTrue result → IsMoveOf plan.now (move_of block.now) }
    ensures moved { IsTrue result →
        IsMovedOn plan.now index (move_of block.now ∷ []) hint.old hint.new }
    ensures bad { IsFalse result → ¬ IsMoveOf plan.now (move_of block.now) }
    ensures public { (public.new.seed ≡ public.old.seed) ×
        (public.new.dimension ≡ public.old.dimension) }
{
    let Some(layout) = layout_for(plan, block) else {
        return false;
    };
    let place = index % layout.groups();
    move_place(
        kernel,
        &layout,
        public,
        &mut hint.matrix,
        place,
        block.entries,
    );
    hint.version = block.version;
    true
}

// The rows of a record, moved by all blocks that bytes begin with, after a link.
fn rows_through<K: Kernel>(
    kernel: K,
    plan: &Plan,
    public: PublicRow,
    hint: Hint,
    index: usize,
    link: Link,
    bytes: &[u8],
) -> Option<Hint>
    requires seed { public.seed ≡ plan.now.seed }
    requires dimension { public.dimension ≡ plan.now.dimension }
    requires rows { hint.matrix.rows ≡ digit_rows (shape_at plan.now (index + 1)) }
    requires cols { hint.matrix.cols ≡ plan.now.dimension }
    ensures { MatchOption result
        (¬ AreMovesOf plan.now (moves_in link.bytes hint.version bytes.now))
        (λ after. AreMovesOf plan.now (moves_in link.bytes hint.version bytes.now)
        × IsMovedOn plan.now index (moves_in link.bytes hint.version bytes.now) hint after) }
{
    let mut public = public;
    let mut hint = hint;
    let mut link = link;
    let mut rest = bytes;
    'whole: while let Some(next) = next_block(rest, &link, hint.version) {
        if !move_by_block(kernel, plan, &mut public, &mut hint, index, &next.block) {
            return None;
        }
        link = next.link;
        let (_block, others) = rest.split_at(next.len);
        rest = others;
    }
    Some(hint)
}

/// The rows of record `index` of a hint, moved by all whole blocks of its file of changes to the
/// version after them; what the hint's other rows hold then is not said. A file with another head
/// moves nothing. None exactly if some block's records have no layout, or its entries are not of
/// these records: then the file is of no use.
///
/// The plan's dimension is within the limits for whoever has been let in (`IsKnown`), and the hint
/// has the rows and columns of the plan if `hint_file::parts_for` has found that it serves
/// (`ServesClient`). A row of the public matrix is all the memory that is taken.
///
/// # Errors
///
/// `AllocError` when memory was refused.
pub fn rows_after<K: Kernel>(
    alloc: Global,
    kernel: K,
    plan: &Plan,
    head_digest: &[u8; 32],
    bytes: &[u8],
    hint: Hint,
    index: usize,
) -> Result<Option<Hint>, AllocError>
    requires dimension { (1 ≤ plan.now.dimension) × (plan.now.dimension ≤ 1024) }
    requires rows { hint.matrix.rows ≡ digit_rows (shape_at plan.now (index + 1)) }
    requires cols { hint.matrix.cols ≡ plan.now.dimension }
    ensures { IfOk result (λ found. MatchOption found
        (¬ AreMovesOf plan.now (file_moves head_digest.now hint.version bytes.now))
        (λ after. AreMovesOf plan.now (file_moves head_digest.now hint.version bytes.now)
        × IsMovedOn plan.now index (file_moves head_digest.now hint.version bytes.now) hint
        after)) }
{
    let Some(first) = read_head(bytes, head_digest) else {
        return Ok(Some(hint));
    };
    let (_head, rest) = bytes.split_at(HEAD_LEN);
    let public = PublicRow::new(alloc, &plan.seed, usize::from(plan.dimension))?;
    Ok(rows_through(kernel, plan, public, hint, index, first, rest))
}
