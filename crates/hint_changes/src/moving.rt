//! A hint moved by one record.

ghost use Rattle.std.specs.Prelude.{◌≡◌, ℕ, ◌+◌, ◌%◌, ◌<◌, ◌≤◌, ◌∷◌, [], length};
ghost use Rattle.matrix_u32.specs.Matrix.{WordMatrix};
ghost use Rattle.seed_expand.specs.Words.{public_rows};
ghost use Rattle.digit_pack.specs.Layout.{column_of, digit_cols, digit_rows, digits_per_record};
ghost use Rattle.digit_pack.specs.Layout.{record_digits};
ghost use Rattle.hint_changes.specs.Changes.{HaveMoved, moved, rows_in_place};

use crate::public_row::PublicRow;
use digit_pack::{Layout, digit_buffer, pack};
use hint_update::update_simple;
use matrix_u32::{Kernel, Matrix};

/// Moves a SimplePIR hint by record `index`, which had bytes `old` in the digits and has `new`,
/// under the first public matrix of a seed, of which `public` becomes the row of the record's
/// column. Takes no memory.
///
/// Each row of the hint in which a digit of the record changed has the change of that digit times
/// this row added; the others stay.
pub fn move_record<K: Kernel>(
    kernel: K,
    layout: &Layout,
    public: &mut PublicRow,
    hint: &mut Matrix,
    index: usize,
    old: &[u8],
    new: &[u8],
)
    requires index { index < layout.now.count }
    requires old { length old.now ≡ layout.now.record_len }
    requires new { length new.now ≡ layout.now.record_len }
    requires rows { hint.old.rows ≡ digit_rows layout.now }
    requires cols { hint.old.cols ≡ public.old.dimension }
    ensures hint { hint.new ≡ moved layout.now
        (public_rows public.old.seed 0 0 (digit_cols layout.now) public.old.dimension)
        (record { index = index; old = old.now; new = new.now } ∷ []) hint.old }
    ensures public { public.new ≡ record public.old { column = column_of layout.now index } }
{
    // Called for what it says of the columns: there are at most 32,768.
    layout.cols();
    let (first, column) = layout.place(index);
    public.turn_to(column);
    move_digits(kernel, layout, public.words(), hint, first, old, new);
}

/// Moves only the rows of a hint in which the record has its digits, as many as it has digits: what
/// [`move_record`] would make of them. A client that keeps its hint in a file moves only the rows
/// that it reads.
pub fn move_record_rows<K: Kernel>(
    kernel: K,
    layout: &Layout,
    public: &mut PublicRow,
    rows: &mut Matrix,
    index: usize,
    old: &[u8],
    new: &[u8],
)
    requires index { index < layout.now.count }
    requires old { length old.now ≡ layout.now.record_len }
    requires new { length new.now ≡ layout.now.record_len }
    requires rows { rows.old.rows ≡ digits_per_record layout.now }
    requires cols { rows.old.cols ≡ public.old.dimension }
    ensures rows { (hint : WordMatrix) → hint.rows ≡ digit_rows layout.now →
        rows.old ≡ rows_in_place layout.now (index % layout.now.groups) hint →
        rows.new ≡ rows_in_place layout.now (index % layout.now.groups) (moved layout.now
        (public_rows public.old.seed 0 0 (digit_cols layout.now) public.old.dimension)
        (record { index = index; old = old.now; new = new.now } ∷ []) hint) }
    ensures public { public.new ≡ record public.old { column = column_of layout.now index } }
{
    // Called for what it says of the columns: there are at most 32,768.
    layout.cols();
    let (_, column) = layout.place(index);
    public.turn_to(column);
    move_digits(kernel, layout, public.words(), rows, 0, old, new);
}

// Moves the rows from one on in which a record has its digits, as `move_rows` does.
fn move_digits<K: Kernel>(
    kernel: K,
    layout: &Layout,
    public: &Matrix,
    hint: &mut Matrix,
    first: usize,
    old: &[u8],
    new: &[u8],
)
    requires old { length old.now ≡ layout.now.record_len }
    requires new { length new.now ≡ layout.now.record_len }
    requires rows { first + digits_per_record layout.now ≤ hint.old.rows }
    requires public { public.now.rows ≡ 1 }
    requires cols { hint.old.cols ≡ public.now.cols }
    ensures { HaveMoved hint.old hint.new public.now first (digits_per_record layout.now)
        (record_digits layout.now old.now) (record_digits layout.now new.now) }
{
    let count = layout.digits_per_record();
    let mut before = digit_buffer();
    let mut after = digit_buffer();
    let before = &mut before[..count];
    let after = &mut after[..count];
    pack(layout, old, before);
    pack(layout, new, after);
    move_rows(kernel, hint, public, first, before, after);
}

// Moves rows of a hint, from one on, by digits that change, each times the one row of `public`.
fn move_rows<K: Kernel>(
    kernel: K,
    hint: &mut Matrix,
    public: &Matrix,
    first: usize,
    old: &[u32],
    new: &[u32],
)
    requires rows { first + length old.now ≤ hint.old.rows }
    requires same { length new.now ≡ length old.now }
    requires public { public.now.rows ≡ 1 }
    requires cols { hint.old.cols ≡ public.now.cols }
    ensures { HaveMoved hint.old hint.new public.now first (length old.now) old.now new.now }
{
    // Called for what it says of the hint: there are rows * cols words.
    hint.rows();
    for d in 0..old.len() {
        update_simple(kernel, hint, public, first + d, 0, old[d], new[d]);
    }
}
