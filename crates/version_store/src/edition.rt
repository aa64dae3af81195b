//! One version's records, with everything that is made from them.

ghost use Rattle.std.specs.Prelude.{◌≡◌, [], ◌*◌, ◌<◌, ◌≤◌, IfOk, IfSome, OnOk, OnErr, true, false};
ghost use Rattle.std.specs.Prelude.{length};
ghost use Rattle.std.specs.List.{list_all};
ghost use Rattle.digit_pack.specs.Slots.{is_form};
ghost use Rattle.digit_pack.specs.Layout.{IsLayout, is_wide, digit_rows, digit_cols};
ghost use Rattle.digit_pack.specs.Layout.{digits_per_record, record_at, records_in};
ghost use Rattle.digit_pack.specs.Packed.{packed};
ghost use Rattle.pir_schemes.specs.Plans.{IsPlan, is_slot_of, records_held, shape_at, slots};
ghost use Rattle.pir_schemes.specs.Plans.{digits_at};
ghost use Rattle.pir_schemes.specs.Retrievals.{hint_matrix, server_hint, query_count, answer_words};
ghost use Rattle.version_store.specs.Drafts.{draft_of, grown_to, FitRecords};
ghost use Rattle.version_store.specs.Editions.{Records, version_shape, MarksChanges};
ghost use Rattle.version_store.specs.HeldRecords.{bytes_held_by, is_in_digits, HasShape};
ghost use Rattle.version_store.specs.Openings.{bytes_of_records};
ghost use Rattle.version_store.specs.Buffers.{scheme_answered, IsAnswerBuffers, IsRoomForRows};

use crate::answer_buffers::AnswerBuffers;
use crate::drafts::{Changes, apply_changes};
use crate::first_layer::{self, Digits, FirstLayer};
use crate::held_records::HeldRecords;
use crate::preparing::{Preparation, Preparations};
use crate::rows::{FollowBuffers, MarkedRows, follow_rows};
use digit_pack::{DigitStore, Layout};
use matrix_u32::{Kernel, Matrix};
use pir_schemes::{Plan, Scheme};
use seed_expand::expand;
use simple_scheme::HintWatcher;
use std::alloc::{AllocError, Global};
use std::marker::Model;

/// The records of one version with the hints of both schemes. A contract sees it as `Records`: the
/// hints are always those that are made from scratch.
#[derive(Drop)]
pub struct Edition<K: Kernel> {
    kernel: K,
    layer: FirstLayer,
    a2: Matrix,
    server: Digits,
    client: Matrix,
    // The answers that were begun, of which contracts see nothing.
    prepared: Preparations,
}

impl<K: Kernel> Model for Edition<K> {
    ghost use Rattle.version_store.specs.Editions.{Records, IsMadeTwice};
    ghost use Rattle.version_store.specs.Together.{ArePrepared};

    ghost Value = { Records };

    ghost view = { λ e. e.layer };

    ghost invariant = { λ e. IsMadeTwice e.layer e.a2 e.server e.client
        × ArePrepared e.layer e.prepared };
}

impl<K: Kernel> Edition<K> {
    /// The edition of the records that are held: their digits, the public matrices of the plan, and
    /// the hints by the schemes' `setup`, first that of SimplePIR and then that of DoublePIR, each
    /// watched while its rows are made. `layout` has the plan's sizes. Only refused memory gives an
    /// `Err`.
    pub fn open<W: HintWatcher>(
        alloc: Global,
        kernel: K,
        plan: Plan,
        layout: Layout,
        held: HeldRecords,
        watcher: &mut W,
    ) -> Result<Edition<K>, AllocError>
        requires sizes { shape_at plan layout.count ≡ layout }
        requires dimension { (1 ≤ plan.dimension) × (plan.dimension ≤ 1024) }
        requires form { is_form plan.form plan.record_len ≡ true }
        requires count { length (bytes_held_by held) ≡ layout.count * layout.record_len }
        requires slots { list_all (is_slot_of plan)
            (records_in layout (bytes_held_by held)) ≡ true }
        requires kind { is_in_digits held ≡ is_wide plan.form }
        requires shape { HasShape layout held }
        ensures { IfOk result (λ e. e ≡ record {
          plan = plan;
          records = records_held plan layout.count (bytes_held_by held);
        }) }
    {
        let layer = FirstLayer::open(alloc, kernel, plan, layout, held, watcher)?;
        let layout = layer.layout();
        let dimension = usize::from(plan.dimension);
        let a2 = expand(alloc, &plan.seed, 1, 0, layout.rows(), dimension)?;
        let (server, client) = double_scheme::setup_watched(
            alloc,
            kernel,
            layer.hint(),
            &a2,
            layout.width(),
            watcher,
        )?;
        Ok(Edition {
            kernel,
            layer,
            a2,
            server,
            client,
            prepared: Preparations::none(),
        })
    }

    /// The sizes of the records.
    pub fn layout(&self) -> &Layout
        ensures value { result.now ≡ version_shape self.now }
        ensures plan { IsPlan self.now.plan (length self.now.records) }
    {
        self.layer.layout()
    }

    /// What stays the same in every version.
    pub fn plan(&self) -> &Plan
        ensures { result.now ≡ self.now.plan }
    {
        self.layer.plan()
    }

    /// The bytes of record i, in an ordinary form.
    pub fn record(&self, i: usize) -> &[u8]
        requires index { i < length self.now.records }
        requires ordinary { is_wide self.now.plan.form ≡ false }
        ensures { result.now ≡ record_at self.now.records i }
    {
        self.layer.record(i)
    }

    /// The records, with what SimplePIR makes from them.
    pub fn layer(&self) -> &FirstLayer
        ensures { result.now ≡ self.now }
    {
        &self.layer
    }

    /// The bytes that all records have in the digits, record 0 first, in an ordinary form.
    pub fn bytes(&self) -> &[u8]
        requires { is_wide self.now.plan.form ≡ false }
        ensures { result.now ≡ bytes_of_records (slots self.now.plan self.now.records) }
    {
        self.layer.bytes()
    }

    /// The hint of a scheme, as a client fetches it.
    pub fn hint(&self, scheme: Scheme) -> &Matrix
        ensures { result.now ≡ hint_matrix scheme self.now.plan self.now.records }
    {
        match scheme {
            Scheme::Simple => self.layer.hint(),
            Scheme::Double => &self.client,
        }
    }

    /// The words of the digits, three digits in each, as they are kept.
    pub fn digit_words(&self) -> &[u32]
        ensures { result.now ≡ packed (digits_at self.now.plan self.now.records) }
    {
        self.layer.digits().words()
    }

    /// The words of DoublePIR's server hint, three digits in each, as they are kept.
    pub fn server_words(&self) -> &[u32]
        ensures { result.now ≡ packed (server_hint self.now.plan self.now.records) }
    {
        self.server.words()
    }

    /// Memory for the answer to a query, taken by sizes alone. Only refused memory gives an `Err`.
    pub fn answer_buffers(&self, alloc: Global, scheme: Scheme) -> Result<AnswerBuffers, AllocError>
        ensures scheme { IfOk result (λ room. scheme_answered room ≡ scheme) }
        ensures sizes { IfOk result (λ room.
            IsAnswerBuffers (version_shape self.now) self.now.plan.dimension room) }
    {
        let dimension = usize::from(self.layer.plan().dimension);
        AnswerBuffers::new(alloc, scheme, self.layer.layout(), dimension)
    }

    /// The answer to the words of a query of the room's scheme. Takes no memory.
    pub fn answer_in(&self, room: AnswerBuffers, words: &[u32]) -> Vec<u32>
        requires words { length words.now ≡
            query_count (scheme_answered room) (version_shape self.now) }
        requires sizes { IsAnswerBuffers (version_shape self.now) self.now.plan.dimension room }
        ensures { result.items ≡
            answer_words (scheme_answered room) self.now.plan self.now.records words.now }
    {
        match room {
            AnswerBuffers::Simple(mut out) => {
                self.layer.put_answer(self.kernel, words, &mut out);
                out
            }
            AnswerBuffers::Double(room) => self.double_answer_in(room, words),
        }
    }

    // The answer to the words of a DoublePIR query.
    fn double_answer_in(&self, room: double_scheme::AnswerBuffers, words: &[u32]) -> Vec<u32>
        requires words { length words.now ≡ query_count Scheme.Double (version_shape self.now) }
        requires layout { room.layout ≡ version_shape self.now }
        requires dimension { room.dimension ≡ self.now.plan.dimension }
        ensures { result.items ≡
            answer_words Scheme.Double self.now.plan self.now.records words.now }
    {
        let digits = self.layer.digits();
        room.fill(self.kernel, digits, &self.server, &self.a2, words)
    }

    /// Whether an answer of a scheme is made in more than one step: whether it reads more digits
    /// than one step does.
    pub fn has_steps(&self, scheme: Scheme) -> bool {
        let layout = self.layer.layout();
        let digits = layout.rows().saturating_mul(layout.cols());
        let server = self.server.rows().saturating_mul(self.server.cols());
        match scheme {
            Scheme::Simple => digits > first_layer::STEP_DIGITS,
            Scheme::Double => {
                let parts = server.saturating_mul(layout.digits_per_record());
                digits.saturating_add(parts) > double_scheme::STEP_DIGITS
            }
        }
    }

    /// Begins the answer to a query, in place of all that were begun. Only refused memory gives an
    /// `Err`, and then none is begun.
    pub fn begin_answer(
        &mut self,
        alloc: Global,
        scheme: Scheme,
        query: Vec<u32>,
    ) -> Result<(), AllocError>
        requires { length query.items ≡ query_count scheme (version_shape self.old) }
        ensures { self.new ≡ self.old }
    {
        self.prepared.clear();
        self.add_answer(alloc, scheme, query)
    }

    /// Begins the answer to a query beside those that were begun, unless there are four. Only
    /// refused memory gives an `Err`, and then it is not begun.
    pub fn add_answer(
        &mut self,
        alloc: Global,
        scheme: Scheme,
        query: Vec<u32>,
    ) -> Result<(), AllocError>
        requires { length query.items ≡ query_count scheme (version_shape self.old) }
        ensures { self.new ≡ self.old }
    {
        let layout = self.layer.layout();
        let dimension = usize::from(self.layer.plan().dimension);
        let one = Preparation::new(alloc, scheme, layout, dimension, query)?;
        self.prepared.add(one);
        Ok(())
    }

    /// Makes one more step of the answers that were begun, and returns whether none is left, also
    /// if no answer was begun.
    pub fn step_answers(&mut self) -> bool
        ensures { self.new ≡ self.old }
    {
        self.prepared
            .step(self.kernel, &self.layer, &self.server, &self.a2)
    }

    /// The answer to this query, if it was begun and is whole.
    pub fn take_answer(&mut self, scheme: Scheme, query: &[u32]) -> Option<Vec<u32>>
        ensures same { self.new ≡ self.old }
        ensures answer { IfSome result (λ answer. answer.items ≡
            answer_words scheme self.old.plan self.old.records query.now) }
    {
        self.prepared.take(scheme, query)
    }

    /// Gives up the answers that were begun.
    pub fn drop_answers(&mut self)
        ensures { self.new ≡ self.old }
    {
        self.prepared.clear();
    }

    /// Puts blanks after the records, up to `count` in all: the digits get columns of zeros, and no
    /// hint changes. Only refused memory gives an `Err`, and then nothing has changed.
    pub fn grow(&mut self, alloc: Global, count: usize) -> Result<(), AllocError>
        requires more { length self.old.records ≤ count }
        requires layout { IsLayout (shape_at self.old.plan count) }
        ensures grown { OnOk result (self.new ≡ grown_to count self.old) }
        ensures refused { OnErr result (self.new ≡ self.old) }
    {
        // Called for what it says of the plan.
        self.layer.layout();
        self.prepared.clear();
        self.layer.grow(alloc, count)?;
        Ok(())
    }

    /// Puts each change into the records, marks the rows whose digits change, and leaves no change.
    /// `scratch` has room for a record's digits, `marks` a mark for each row of digits, and `rows`
    /// is what rows that change together need; what `scratch` and `rows` held is lost.
    ///
    /// The hint of SimplePIR follows each digit that changes; those of DoublePIR follow each row
    /// that has one, once, many rows together. Takes no memory.
    pub fn apply(
        &mut self,
        changes: &mut Changes,
        scratch: &mut [u32],
        marks: &mut [bool],
        rows: &mut FollowBuffers,
    )
        requires fit { FitRecords self.old changes.old.entries }
        requires room { length scratch.old ≡ digits_per_record (version_shape self.old) }
        requires marks { length marks.old ≡ digit_rows (version_shape self.old) }
        requires rows { IsRoomForRows self.old.plan.dimension rows.old }
        ensures records { self.new ≡
            record self.old { records = draft_of self.old.records changes.old.entries } }
        ensures none { changes.new.entries ≡ [] }
        ensures marks { MarksChanges (digits_at self.old.plan self.old.records)
            (digits_at self.new.plan self.new.records) marks.old marks.new }
    {
        self.prepared.clear();
        apply_changes(self.kernel, &mut self.layer, changes, scratch, marks);
        let w = self.layer.layout().width();
        let marked = MarkedRows {
            hint: self.layer.hint(),
            w,
            marks,
        };
        follow_rows(
            self.kernel,
            &marked,
            &self.a2,
            &mut self.server,
            &mut self.client,
            rows,
        );
    }
}
