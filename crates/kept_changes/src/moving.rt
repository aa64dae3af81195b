//! Rows of one place that are moved by entries.

ghost use Rattle.std.specs.Prelude.{◌≡◌, ◌<◌, ◌≤◌, ◌∷◌, [], length};
ghost use Rattle.seed_expand.specs.Words.{public_rows};
ghost use Rattle.digit_pack.specs.Layout.{digit_cols, digit_rows};
ghost use Rattle.hint_changes.specs.Changes.{moved, rows_in_place};
ghost use Rattle.hint_changes.specs.Entries.{AreEntries, change_in, changes_in, entry_count};
ghost use Rattle.hint_changes.specs.Entries.{index_in};
ghost use Rattle.kept_changes.specs.Moves.{changed_record};

use byteorder::{ByteOrder, LittleEndian};
use digit_pack::Layout;
use hint_changes::{PublicRow, entry_len, move_record};
use matrix_u32::{Kernel, Matrix};

/// A record that changed: its number, and the bytes that it had and has in the digits.
#[derive(Clone, Copy)]
pub(crate) struct EntryChange<'a> {
    pub(crate) index: usize,
    pub(crate) old: &'a [u8],
    pub(crate) new: &'a [u8],
}

// The number of the record in entry k.
fn number_in(entries: &[u8], len: usize, k: usize) -> usize
    requires len { len ≤ 256 }
    requires inside { k < entry_count len entries.now }
    ensures { result ≡ index_in len entries.now k }
{
    let at = k * entry_len(len);
    LittleEndian::read_u32(&entries[at..]) as usize
}

// The change in entry k.
pub(crate) fn change_in(entries: &[u8], len: usize, k: usize) -> EntryChange<'_>
    requires len { len ≤ 256 }
    requires inside { k < entry_count len entries.now }
    ensures { changed_record result ≡ change_in len entries.now k }
{
    let at = k * entry_len(len);
    EntryChange {
        index: number_in(entries, len, k),
        old: &entries[at + 4..at + 4 + len],
        new: &entries[at + (4 + len)..at + (4 + len) + len],
    }
}

// Moves the rows in one place of the columns by one change, if that is of a record there.
fn move_by_change<K: Kernel>(
    kernel: K,
    layout: &Layout,
    public: &mut PublicRow,
    hint: &mut Matrix,
    place: usize,
    change: &EntryChange<'_>,
)
    requires index { change.now.index < layout.now.count }
    requires old { length change.now.old.now ≡ layout.now.record_len }
    requires new { length change.now.new.now ≡ layout.now.record_len }
    requires rows { hint.old.rows ≡ digit_rows layout.now }
    requires cols { hint.old.cols ≡ public.old.dimension }
    requires place { place < layout.now.groups }
    ensures moved { rows_in_place layout.now place hint.new ≡ rows_in_place layout.now place
        (moved layout.now (public_rows public.old.seed 0 0 (digit_cols layout.now)
        public.old.dimension) (changed_record change.now ∷ []) hint.old) }
    ensures size { (hint.new.rows ≡ hint.old.rows) × (hint.new.cols ≡ hint.old.cols) }
    ensures public { (public.new.seed ≡ public.old.seed) ×
        (public.new.dimension ≡ public.old.dimension) }
{
    if change.index % layout.groups() == place {
        move_record(
            kernel,
            layout,
            public,
            hint,
            change.index,
            change.old,
            change.new,
        );
    }
}

/// Moves the rows of a SimplePIR hint in one place of the columns by entries, under the first
/// public matrix of a seed. What its other rows hold afterwards is not said: entries of other
/// places are passed over. No memory is taken.
pub(crate) fn move_place<K: Kernel>(
    kernel: K,
    layout: &Layout,
    public: &mut PublicRow,
    hint: &mut Matrix,
    place: usize,
    entries: &[u8],
)
    requires entries { AreEntries layout.now entries.now }
    requires rows { hint.old.rows ≡ digit_rows layout.now }
    requires cols { hint.old.cols ≡ public.old.dimension }
    requires place { place < layout.now.groups }
    ensures moved { rows_in_place layout.now place hint.new ≡ rows_in_place layout.now place
        (moved layout.now (public_rows public.old.seed 0 0 (digit_cols layout.now)
        public.old.dimension) (changes_in layout.now.record_len entries.now) hint.old) }
    ensures size { (hint.new.rows ≡ hint.old.rows) × (hint.new.cols ≡ hint.old.cols) }
    ensures public { (public.new.seed ≡ public.old.seed) ×
        (public.new.dimension ≡ public.old.dimension) }
{
    let len = layout.record_len();
    let count = entries.len() / entry_len(len);
    for k in 0..count {
        let change = change_in(entries, len, k);
        move_by_change(kernel, layout, public, hint, place, &change);
    }
}
