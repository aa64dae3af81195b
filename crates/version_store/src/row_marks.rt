//! Marks of rows of digits.

ghost use Rattle.std.specs.Prelude.{◌≡◌, ◌≤◌, ◌+◌, ◌^◌, ◌++◌, ℕ, false, length, vec_len};
ghost use Rattle.std.specs.Prelude.{vec_capacity, IfOk};
ghost use Rattle.digit_pack.specs.Layout.{digit_rows};
ghost use Rattle.version_store.specs.Editions.{is_marked, marked_rows};

use digit_pack::Layout;
use std::alloc::{AllocError, Global};

/// A mark for each row of digits; none is marked.
pub fn marks_for(alloc: Global, layout: &Layout) -> Result<Vec<bool>, AllocError>
    ensures count { IfOk result (λ v. length v.items ≡ digit_rows layout.now) }
    ensures none { IfOk result (λ v. (r : ℕ) → is_marked v.items r ≡ false) }
{
    vec![in alloc; false; layout.rows()]
}

/// Adds the rows that are marked, ascending, to `rows`, which has room for them. Takes no memory.
pub fn push_marked(marks: &[bool], rows: &mut Vec<u32>)
    requires few { length marks.now ≤ 2 ^ 32 }
    requires room { vec_len rows.old + length marks.now ≤ vec_capacity rows.old }
    ensures { rows.new.items ≡ rows.old.items ++ marked_rows marks.now }
{
    for r in 0..marks.len() {
        if marks[r] {
            rows.push_reserved(r as u32);
        }
    }
}
