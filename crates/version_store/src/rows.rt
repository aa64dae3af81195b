//! The hints of DoublePIR, after the rows of digits that changed.

ghost use Rattle.std.specs.Prelude.{◌≡◌, ◌-◌, ◌*◌, ◌<◌, ◌≤◌, IfOk, filter, length, max, min};
ghost use Rattle.std.specs.Prelude.{vec_capacity};
ghost use Rattle.std.specs.List.{range_with_len};
ghost use Rattle.lane_kernels.specs.Digit.{split_count};
ghost use Rattle.version_store.specs.Editions.{FollowsRows, is_marked};
ghost use Rattle.version_store.specs.Buffers.{IsRoomForRows};

use digit_pack::DigitStore;
use hint_update::{NewRows, RowsBuffers, update_double_rows};
use matrix_u32::{Kernel, Matrix};
use std::alloc::{AllocError, Global};

/// How many changed rows are taken together: as many as keep their rows of the second public matrix
/// near the processor while the client's hint passes once for all of them.
const ROWS_TOGETHER: usize = 128;

/// Memory for the changed rows that are taken together: their numbers, and what their update needs.
#[derive(Drop)]
pub struct FollowBuffers {
    pub listed: Vec<usize>,
    pub rows: RowsBuffers,
}

impl FollowBuffers {
    /// Memory for changes of at most so many rows, in a hint with so many columns, of digits of w
    /// bits: for all of them together, or for 128 if there are more. Only refused memory gives an
    /// `Err`.
    pub fn new(alloc: Global, rows: usize, cols: usize, w: u32) -> Result<FollowBuffers, AllocError>
        requires cols { cols ≤ 1024 }
        requires width { (6 ≤ w) × (w ≤ 10) }
        ensures rows { IfOk result (λ room. room.rows.public.rows ≡ max (min rows 128) 1) }
        ensures room { IfOk result (IsRoomForRows cols) }
    {
        let most = ROWS_TOGETHER.min(rows).max(1);
        let listed = Vec::with_capacity(alloc, most)?;
        let rows = RowsBuffers::new(alloc, most, cols, w)?;
        Ok(FollowBuffers { listed, rows })
    }
}

/// Rows that changed: those of `hint`, the hint of the changed digits, that are marked. The digits
/// of its words have w bits.
#[derive(Clone, Copy)]
pub struct MarkedRows<'a> {
    pub hint: &'a Matrix,
    pub w: u32,
    pub marks: &'a [bool],
}

/// Changes both hints of DoublePIR by the rows that are marked, each once. Nothing is multiplied
/// for the other rows. Marked rows are taken together, wherever they are, up to 128 of them at a
/// time.
pub fn follow_rows<K: Kernel, S: DigitStore>(
    kernel: K,
    marked: &MarkedRows<'_>,
    a2: &Matrix,
    server: &mut S,
    client: &mut Matrix,
    room: &mut FollowBuffers,
)
    requires width { (6 ≤ marked.now.w) × (marked.now.w ≤ 10) }
    requires marks { length marked.now.marks.now ≡ marked.now.hint.now.rows }
    requires second_rows { a2.now.rows ≡ marked.now.hint.now.rows }
    requires second_cols { a2.now.cols ≡ marked.now.hint.now.cols }
    requires server_rows { (S.digits server.old).rows
        ≡ marked.now.hint.now.cols * split_count marked.now.w }
    requires server_cols { (S.digits server.old).cols ≡ marked.now.hint.now.rows }
    requires client_rows { client.old.rows
        ≡ marked.now.hint.now.cols * split_count marked.now.w }
    requires client_cols { client.old.cols ≡ marked.now.hint.now.cols }
    requires room { IsRoomForRows marked.now.hint.now.cols room.old }
    ensures { FollowsRows marked.now.w marked.now.hint.now a2.now (S.digits server.old)
        (S.digits server.new) client.old client.new marked.now.marks.now }
{
    let most = room.rows.public.rows();
    let mut r = 0;
    while r < marked.marks.len() {
        r = list_marked(marked.marks, r, most, &mut room.listed);
        let new_rows = NewRows {
            hint: marked.hint,
            w: marked.w,
            listed: &room.listed,
        };
        update_double_rows(kernel, server, client, a2, &new_rows, &mut room.rows);
    }
}

// Lists the rows that are marked from row `from` on, ascending, at most `most` of them, and returns
// the row before which it stopped.
fn list_marked(marks: &[bool], from: usize, most: usize, listed: &mut Vec<usize>) -> usize
    requires from { from < length marks.now }
    requires some { 0 < most }
    requires room { most ≤ vec_capacity listed.old }
    ensures further { from < result }
    ensures inside { result ≤ length marks.now }
    ensures listed { listed.new.items
        ≡ filter (is_marked marks.now) (range_with_len from (result - from)) }
    ensures few { length listed.new.items ≤ most }
    ensures room { vec_capacity listed.new ≡ vec_capacity listed.old }
{
    listed.clear();
    for r in from..marks.len() {
        if listed.len() == most {
            return r;
        }
        if marks[r] {
            listed.push_reserved(r);
        }
    }
    marks.len()
}
