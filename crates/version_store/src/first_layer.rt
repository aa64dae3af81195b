//! The records of one version, with what SimplePIR makes from them.

ghost use Rattle.std.specs.Prelude.{◌≡◌, ◌⊎◌, ◌-◌, ◌*◌, ◌^◌, ◌++◌, ◌<◌, ◌≤◌, [], IfOk, OnOk, OnErr};
ghost use Rattle.std.specs.Prelude.{true, false, length, take, drop, replicate, slice_set};
ghost use Rattle.std.specs.Prelude.{vec_capacity};
ghost use Rattle.std.specs.List.{list_all};
ghost use Rattle.digit_pack.specs.Slots.{is_form};
ghost use Rattle.digit_pack.specs.Layout.{IsLayout, is_wide, digit_rows, digit_cols};
ghost use Rattle.digit_pack.specs.Layout.{digits_per_record, record_at, records_in};
ghost use Rattle.pir_schemes.specs.Plans.{IsPlan, fits, is_slot_of, records_held, shape_at};
ghost use Rattle.pir_schemes.specs.Plans.{content, slots, digits_at};
ghost use Rattle.pir_schemes.specs.Retrievals.{hint_matrix, answer_words};
ghost use Rattle.matrix_u32.specs.Matrix.{times_vector};
ghost use Rattle.double_scheme.specs.Steps.{HasFirst};
ghost use Rattle.seed_expand.specs.Words.{public_rows};
ghost use Rattle.version_store.specs.Drafts.{grown_to};
ghost use Rattle.version_store.specs.Editions.{Records, version_shape, MarksChanges};
ghost use Rattle.version_store.specs.HeldRecords.{bytes_held_by, is_in_digits, HasShape};
ghost use Rattle.version_store.specs.Openings.{bytes_of_records};

use crate::columns::replace_in_column;
use crate::held_records::HeldRecords;
use digit_pack::{
    DigitStore, Layout, Wide3, copy_record, is_wide, nth_record, pack, record_buffer, write_record,
};
use double_scheme::{put_rows, put_two_rows, rows_in_step};
use matrix_u32::{Kernel, Matrix};
use pir_schemes::{Plan, Scheme};
use seed_expand::expand;
use simple_scheme::{HintWatcher, setup_watched};
use snapshot_file::RecordSource;
use std::alloc::{AllocError, Global};
use std::marker::Model;

/// How many digits a step of a SimplePIR answer reads, unless one row has more: 2^23, which a
/// processor of today multiplies in one to three milliseconds, also by two words each. The digits
/// stay in its last cache, where a step that multiplies the same rows by other queries finds them.
pub(crate) const STEP_DIGITS: usize = 8_388_608;

/// What keeps the digits: three in a word.
pub type Digits = Wide3;

/// The records of one version, their digit matrix, the first public matrix and the SimplePIR hint.
/// A contract sees it as `Records`: the hint is always the one that is made from scratch. The bytes
/// of the records are kept beside their digits in an ordinary form, and read out of them in a wide
/// one.
#[derive(Drop)]
pub struct FirstLayer {
    plan: Plan,
    layout: Layout,
    a1: Matrix,
    digits: Digits,
    hint: Matrix,
    kept: Vec<u8>,
}

impl Model for FirstLayer {
    ghost use Rattle.pir_schemes.specs.Plans.{records_held};
    ghost use Rattle.version_store.specs.Editions.{Records, IsLayer, bytes_held};

    ghost Value = { Records };

    ghost view = { λ e. record {
      plan = e.plan;
      records = records_held e.plan e.layout.count
          (bytes_held e.plan e.layout e.kept.items e.digits);
    } };

    ghost invariant = { λ e. IsLayer e.plan e.layout e.kept.items e.a1 e.digits e.hint };
}

impl RecordSource for FirstLayer {
    ghost bytes = { λ e. bytes_of_records (slots e.plan e.records) };

    ghost record_len = { λ e. e.plan.record_len };

    fn copy_record(&self, i: usize, out: &mut [u8]) {
        // Called for what they say of the bytes: there is a record i.
        self.bytes_len();
        self.layout();
        self.copy_slot(i, out);
    }
}

impl FirstLayer {
    /// What is made of the records that are held: their digits, the first public matrix of the
    /// plan, and the hint by `setup`. `layout` has the plan's sizes. The hint is watched while its
    /// rows are made. Only refused memory gives an `Err`.
    pub fn open<K: Kernel, W: HintWatcher>(
        alloc: Global,
        kernel: K,
        plan: Plan,
        layout: Layout,
        held: HeldRecords,
        watcher: &mut W,
    ) -> Result<FirstLayer, AllocError>
        requires sizes { shape_at plan layout.count ≡ layout }
        requires dimension { (1 ≤ plan.dimension) × (plan.dimension ≤ 1024) }
        requires form { is_form plan.form plan.record_len ≡ true }
        requires count { length (bytes_held_by held) ≡ layout.count * layout.record_len }
        requires slots { list_all (is_slot_of plan)
            (records_in layout (bytes_held_by held)) ≡ true }
        requires kind { is_in_digits held ≡ is_wide plan.form }
        requires shape { HasShape layout held }
        ensures { IfOk result (λ e. e ≡ record {
          plan = plan;
          records = records_held plan layout.count (bytes_held_by held);
        }) }
    {
        let (digits, kept) = held.into_digits(alloc, &layout)?;
        let dimension = usize::from(plan.dimension);
        let a1 = expand(alloc, &plan.seed, 0, 0, layout.cols(), dimension)?;
        digits.rows();
        let hint = setup_watched(alloc, kernel, &digits, &a1, watcher)?;
        Ok(FirstLayer {
            plan,
            layout,
            a1,
            digits,
            hint,
            kept,
        })
    }

    /// The sizes of the records.
    pub fn layout(&self) -> &Layout
        ensures value { result.now ≡ version_shape self.now }
        ensures plan { IsPlan self.now.plan (length self.now.records) }
    {
        &self.layout
    }

    /// What stays the same in every version.
    pub fn plan(&self) -> &Plan
        ensures { result.now ≡ self.now.plan }
    {
        &self.plan
    }

    /// The bytes of record i, in an ordinary form.
    pub fn record(&self, i: usize) -> &[u8]
        requires index { i < length self.now.records }
        requires ordinary { is_wide self.now.plan.form ≡ false }
        ensures { result.now ≡ record_at self.now.records i }
    {
        self.plan.content(nth_record(&self.layout, &self.kept, i))
    }

    /// The bytes that all records have in the digits, record 0 first, in an ordinary form.
    pub fn bytes(&self) -> &[u8]
        requires { is_wide self.now.plan.form ≡ false }
        ensures { result.now ≡ bytes_of_records (slots self.now.plan self.now.records) }
    {
        &self.kept
    }

    /// How many bytes all records have in the digits.
    pub fn bytes_len(&self) -> usize
        ensures value { result ≡ length (bytes_of_records (slots self.now.plan self.now.records)) }
        ensures each { result ≡ length self.now.records * self.now.plan.record_len }
        ensures records { records_in (version_shape self.now)
            (bytes_of_records (slots self.now.plan self.now.records))
            ≡ slots self.now.plan self.now.records }
        ensures few { result ≤ 2 ^ 38 }
    {
        self.layout.count() * self.layout.record_len()
    }

    /// Writes the bytes that record i has in the digits into `out`, whatever it held: in forms of
    /// slots those of its slot. Takes no memory.
    pub fn copy_slot(&self, i: usize, out: &mut [u8])
        requires index { i < length self.now.records }
        requires room { length out.old ≡ self.now.plan.record_len }
        ensures place { out.new ≡ take self.now.plan.record_len (drop (i * self.now.plan.record_len)
            (bytes_of_records (slots self.now.plan self.now.records))) }
        ensures slot { is_slot_of self.now.plan out.new ≡ true }
        ensures content { content self.now.plan out.new ≡ record_at self.now.records i }
    {
        if is_wide(self.plan.form) {
            copy_record(&self.layout, &self.digits, i, out);
        } else {
            out.copy_from_slice(nth_record(&self.layout, &self.kept, i));
        }
    }

    /// The digits.
    pub fn digits(&self) -> &Digits
        ensures value { result.now ≡ digits_at self.now.plan self.now.records }
        ensures rows { result.now.rows ≡ digit_rows (version_shape self.now) }
        ensures cols { result.now.cols ≡ digit_cols (version_shape self.now) }
    {
        &self.digits
    }

    /// The SimplePIR hint.
    pub fn hint(&self) -> &Matrix
        ensures value { result.now ≡ hint_matrix Scheme.Simple self.now.plan self.now.records }
        ensures rows { result.now.rows ≡ digit_rows (version_shape self.now) }
        ensures cols { result.now.cols ≡ self.now.plan.dimension }
    {
        &self.hint
    }

    /// Writes the answer to the words of a SimplePIR query.
    pub fn put_answer<K: Kernel>(&self, kernel: K, words: &[u32], out: &mut [u32])
        requires words { length words.now ≡ digit_cols (version_shape self.now) }
        requires room { length out.old ≡ digit_rows (version_shape self.now) }
        ensures { out.new ≡ answer_words Scheme.Simple self.now.plan self.now.records words.now }
    {
        self.digits.mul_vec(kernel, words, out);
    }

    /// Writes some more words of the answer to the words of a SimplePIR query, and returns how many
    /// there are then.
    pub fn put_answer_rows<K: Kernel>(
        &self,
        kernel: K,
        query: &[u32],
        made: usize,
        out: &mut [u32],
    ) -> usize
        requires query { length query.now ≡ digit_cols (version_shape self.now) }
        requires room { length out.old ≡ digit_rows (version_shape self.now) }
        requires within { made ≤ digit_rows (version_shape self.now) }
        requires so_far { HasFirst made (times_vector
            (digits_at self.now.plan self.now.records) query.now) out.old }
        ensures so_far { HasFirst result (times_vector
            (digits_at self.now.plan self.now.records) query.now) out.new }
        ensures within { result ≤ digit_rows (version_shape self.now) }
        ensures forward { made ≡ digit_rows (version_shape self.now) ⊎ made < result }
        ensures len { length out.new ≡ length out.old }
    {
        let left = out.len() - made;
        if left == 0 {
            return made;
        }
        let digits = self.digits();
        let count = rows_in_step(STEP_DIGITS, query.len(), left);
        put_rows(kernel, digits, query, made, count, out);
        made + count
    }

    /// The same for two queries, for which the digits are read once.
    pub fn put_two_answer_rows<K: Kernel>(
        &self,
        kernel: K,
        x: &[u32],
        y: &[u32],
        made: usize,
        x_out: &mut [u32],
        y_out: &mut [u32],
    ) -> usize
        requires x { length x.now ≡ digit_cols (version_shape self.now) }
        requires y { length y.now ≡ digit_cols (version_shape self.now) }
        requires x_room { length x_out.old ≡ digit_rows (version_shape self.now) }
        requires y_room { length y_out.old ≡ digit_rows (version_shape self.now) }
        requires within { made ≤ digit_rows (version_shape self.now) }
        requires x_so_far { HasFirst made (times_vector
            (digits_at self.now.plan self.now.records) x.now) x_out.old }
        requires y_so_far { HasFirst made (times_vector
            (digits_at self.now.plan self.now.records) y.now) y_out.old }
        ensures x_so_far { HasFirst result (times_vector
            (digits_at self.now.plan self.now.records) x.now) x_out.new }
        ensures y_so_far { HasFirst result (times_vector
            (digits_at self.now.plan self.now.records) y.now) y_out.new }
        ensures within { result ≤ digit_rows (version_shape self.now) }
        ensures forward { made ≡ digit_rows (version_shape self.now) ⊎ made < result }
        ensures x_len { length x_out.new ≡ length x_out.old }
        ensures y_len { length y_out.new ≡ length y_out.old }
    {
        let left = x_out.len() - made;
        if left == 0 {
            return made;
        }
        let digits = self.digits();
        let count = rows_in_step(STEP_DIGITS, x.len(), left);
        put_two_rows(kernel, digits, x, y, made, count, x_out, y_out);
        made + count
    }

    /// Puts blanks after the records, up to `count` in all: the digits get columns of zeros, and
    /// the hint stays. Only refused memory gives an `Err`, and then nothing has changed; the public
    /// matrix may have got its further rows already.
    pub fn grow(&mut self, alloc: Global, count: usize) -> Result<(), AllocError>
        requires more { length self.old.records ≤ count }
        requires layout { IsLayout (shape_at self.old.plan count) }
        ensures grown { OnOk result (self.new ≡ grown_to count self.old) }
        ensures refused { OnErr result (self.new ≡ self.old) }
    {
        let layout = self.plan.layout(count).unwrap();
        reserve_kept(self.plan.form, &layout, &mut self.kept)?;
        extend_public(alloc, &self.plan, &mut self.a1, layout.cols())?;
        self.digits.rows();
        let Ok(()) = self.digits.grow(layout.cols()) else {
            return Err(AllocError);
        };
        // The room is there: nothing is refused from here on.
        grow_kept(self.plan.form, &layout, &mut self.kept);
        self.layout = layout;
        Ok(())
    }

    /// Puts another record in the place of record i, and marks the rows whose digits change.
    /// `scratch` has room for a record's digits, and `marks` a mark for each row of digits.
    ///
    /// Only the record's digits that change are multiplied, each by one row of the public matrix.
    pub fn replace<K: Kernel>(
        &mut self,
        kernel: K,
        i: usize,
        bytes: &[u8],
        scratch: &mut [u32],
        marks: &mut [bool],
    )
        requires index { i < length self.old.records }
        requires fits { fits self.old.plan bytes.now ≡ true }
        requires room { length scratch.old ≡ digits_per_record (version_shape self.old) }
        requires marks { length marks.old ≡ digit_rows (version_shape self.old) }
        ensures records { self.new ≡
            record self.old { records = slice_set self.old.records i bytes.now } }
        ensures marks { MarksChanges (digits_at self.old.plan self.old.records)
            (digits_at self.new.plan self.new.records) marks.old marks.new }
    {
        let (first, col) = self.layout.place(i);
        let mut room = record_buffer();
        let slot = &mut room[..self.layout.record_len()];
        self.plan.fill(bytes, slot);
        keep_record(self.plan.form, &self.layout, &mut self.kept, i, slot);
        pack(&self.layout, slot, scratch);
        replace_in_column(
            kernel,
            &mut self.digits,
            &mut self.hint,
            &self.a1,
            (first, col),
            scratch,
            marks,
        );
    }
}

// Writes other bytes over those of record i, if the bytes of records are kept.
fn keep_record(form: u16, layout: &Layout, kept: &mut [u8], i: usize, slot: &[u8])
    requires count { is_wide form ≡ false →
        length kept.old ≡ layout.now.count * layout.now.record_len }
    requires index { i < layout.now.count }
    requires len { length slot.now ≡ layout.now.record_len }
    ensures written { is_wide form ≡ false → records_in layout.now kept.new
        ≡ slice_set (records_in layout.now kept.old) i slot.now }
    ensures same { is_wide form ≡ true → kept.new ≡ kept.old }
{
    if !is_wide(form) {
        write_record(layout, kept, i, slot);
    }
}

// Takes memory for the bytes of a layout's records, if they are kept. Only refused memory gives an
// `Err`.
fn reserve_kept(form: u16, layout: &Layout, kept: &mut Vec<u8>) -> Result<(), AllocError>
    requires fewer { is_wide form ≡ false →
        length kept.old.items ≤ layout.now.count * layout.now.record_len }
    ensures same { kept.new.items ≡ kept.old.items }
    ensures room { OnOk result (is_wide form ≡ false →
        layout.now.count * layout.now.record_len ≤ vec_capacity kept.new) }
{
    if is_wide(form) {
        return Ok(());
    }
    kept.reserve_exact(layout.count() * layout.record_len() - kept.len())?;
    Ok(())
}

// Puts zeros after the bytes that are kept, if any are, up to those of a layout's records.
fn grow_kept(form: u16, layout: &Layout, kept: &mut Vec<u8>)
    requires fewer { is_wide form ≡ false →
        length kept.old.items ≤ layout.now.count * layout.now.record_len }
    requires room { is_wide form ≡ false →
        layout.now.count * layout.now.record_len ≤ vec_capacity kept.old }
    ensures grown { is_wide form ≡ false → kept.new.items ≡ kept.old.items
        ++ replicate (layout.now.count * layout.now.record_len - length kept.old.items) 0 }
    ensures same { is_wide form ≡ true → kept.new.items ≡ kept.old.items }
{
    if !is_wide(form) {
        kept.resize(layout.count() * layout.record_len(), 0)
            .unwrap();
    }
}

// Gives the first public matrix at least so many rows. Only refused memory gives an `Err`, and then
// it is as it was.
fn extend_public(alloc: Global, plan: &Plan, a1: &mut Matrix, rows: usize) -> Result<(), AllocError>
    requires few { rows ≤ 32768 }
    requires dimension { (1 ≤ plan.now.dimension) × (plan.now.dimension ≤ 1024) }
    requires public { a1.old ≡ public_rows plan.now.seed 0 0 a1.old.rows plan.now.dimension }
    ensures public { a1.new ≡ public_rows plan.now.seed 0 0 a1.new.rows plan.now.dimension }
    ensures more { a1.old.rows ≤ a1.new.rows }
    ensures enough { OnOk result (rows ≤ a1.new.rows) }
{
    let first = a1.rows();
    if rows <= first {
        return Ok(());
    }
    let dimension = usize::from(plan.dimension);
    let further = expand(alloc, &plan.seed, 0, first, rows - first, dimension)?;
    match a1.push_rows(further.into_words()) {
        Ok(()) => Ok(()),
        Err(_) => Err(AllocError),
    }
}
