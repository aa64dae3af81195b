//! Changes, encoded in bytes.

ghost use Rattle.std.specs.Prelude.{◌≡◌, ◌↔◌, ℕ, ◌+◌, ◌*◌, ◌/◌, ◌%◌, ◌<◌, ◌≤◌, IsTrue, length};
ghost use Rattle.std.specs.Prelude.{take, drop};
ghost use Rattle.byteorder.specs.Endian.{little_number};
ghost use Rattle.seed_expand.specs.Words.{public_rows};
ghost use Rattle.digit_pack.specs.Layout.{digit_cols, digit_rows};
ghost use Rattle.hint_changes.specs.Changes.{moved};
ghost use Rattle.hint_changes.specs.Entries.{AreEntries, change_in, changes_in, entry_count};
ghost use Rattle.hint_changes.specs.Entries.{entry_len, index_in};

use crate::moving::move_record;
use crate::public_row::PublicRow;
use byteorder::{ByteOrder, LittleEndian};
use digit_pack::Layout;
use matrix_u32::{Kernel, Matrix};

/// How many bytes an entry has, for records of so many: a record's number in four, and its old and
/// its new bytes.
pub fn entry_len(record_len: usize) -> usize
    requires { record_len ≤ 256 }
    ensures value { result ≡ entry_len record_len }
    ensures few { result ≤ 516 }
{
    4 + (record_len + record_len)
}

// The number of the record in entry k.
fn number_in(bytes: &[u8], len: usize, k: usize) -> usize
    requires len { len ≤ 256 }
    requires inside { k < entry_count len bytes.now }
    ensures { result ≡ index_in len bytes.now k }
{
    let at = k * entry_len(len);
    LittleEndian::read_u32(&bytes[at..]) as usize
}

/// Whether bytes are whole entries, one after another, of records that there are, each with a
/// greater number than the one before.
pub fn are_entries(layout: &Layout, bytes: &[u8]) -> bool
    ensures { IsTrue result ↔ AreEntries layout.now bytes.now }
{
    let len = layout.record_len();
    if bytes.len() % entry_len(len) != 0 {
        return false;
    }
    let count = bytes.len() / entry_len(len);
    let mut least = 0;
    for k in 0..count {
        let number = number_in(bytes, len, k);
        if number < least || number >= layout.count() {
            return false;
        }
        least = number + 1;
    }
    true
}

/// Moves a SimplePIR hint by the changes in entries, one after another, under the first public
/// matrix of a seed. Each row of this matrix is made once for all changes in its column, since
/// entries are ascending. Takes no memory.
pub fn move_by_entries<K: Kernel>(
    kernel: K,
    layout: &Layout,
    public: &mut PublicRow,
    hint: &mut Matrix,
    bytes: &[u8],
)
    requires entries { AreEntries layout.now bytes.now }
    requires rows { hint.old.rows ≡ digit_rows layout.now }
    requires cols { hint.old.cols ≡ public.old.dimension }
    ensures hint { hint.new ≡ moved layout.now
        (public_rows public.old.seed 0 0 (digit_cols layout.now) public.old.dimension)
        (changes_in layout.now.record_len bytes.now) hint.old }
    ensures public { (public.new.seed ≡ public.old.seed) ×
        (public.new.dimension ≡ public.old.dimension) }
{
    let len = layout.record_len();
    let count = bytes.len() / entry_len(len);
    // Called for what it says of the hint: there are rows * cols words.
    hint.rows();
    for k in 0..count {
        let at = k * entry_len(len);
        let number = number_in(bytes, len, k);
        let old = &bytes[at + 4..at + 4 + len];
        let new = &bytes[at + (4 + len)..at + (4 + len) + len];
        move_record(kernel, layout, public, hint, number, old, new);
    }
}
