//! The turns of the records wanted: each is asked for over its rows of the hint kept, or once the
//! hint of the version known is held.

use crate::counts::count;
use crate::fault::RunFault;
use crate::kept_hints::{Moved, MovedHint};
use crate::replies::whole_frame;
use crate::run::ClientRun;
use crate::state::State;
use crate::steps::{Retrieved, RunEnd, RunStep};
use client_core::{Hint, SavedClient, Scheme, ServerInfo};
use frame_codec::Frame;
use hint_file::HintError;
use kept_changes::{ChangesReply, changes_ask, judged};
use safe_files::FileSystem;
use std::alloc::AllocError;

/// How often an answer may be stale before a retrieval is given up.
const STALE_ANSWERS: u32 = 3;

// The rows of one record.
#[derive(Drop)]
struct Rows {
    saved: SavedClient,
    // Whether the rows are those that were kept; else they are zeros.
    are_sound: bool,
}

impl<'a, R: FileSystem> ClientRun<'a, R> {
    /// Opens the hint that is kept for the store. A server of an older version than one seen before
    /// is asked nothing.
    pub(crate) fn take_welcome(&mut self) -> Result<RunStep, RunFault> {
        let now = self.known()?;
        let other = match self.scheme {
            Scheme::Simple => Scheme::Double,
            Scheme::Double => Scheme::Simple,
        };
        self.kept = self.kept_hint(self.scheme, &now)?;
        let beside = self.kept_hint(other, &now)?;
        let seen = version_seen(&self.kept).max(version_seen(&beside));
        if now.version < seen {
            let version = now.version;
            return Ok(RunStep::Ends(RunEnd::Older { version, seen }));
        }
        self.take_turn()
    }

    // The hint kept of a scheme for the store. One that is damaged, or can't be read, is none.
    fn kept_hint(
        &mut self,
        scheme: Scheme,
        now: &ServerInfo,
    ) -> Result<Option<MovedHint<'a, R>>, RunFault> {
        match MovedHint::of(self.alloc, &self.folder, scheme, &now.plan) {
            Ok(kept) => Ok(kept),
            Err(HintError::Memory) => Err(RunFault::Memory),
            Err(HintError::Damaged | HintError::Read) => {
                count(&mut self.counts.damaged);
                Ok(None)
            }
        }
    }

    /// Begins the turn of the next record wanted, or ends the run.
    pub(crate) fn take_turn(&mut self) -> Result<RunStep, RunFault> {
        let now = self.known()?;
        let Some(number) = self.wanted.get(self.turns).copied() else {
            self.discard_damaged(&now);
            return Ok(RunStep::Ends(RunEnd::Over));
        };
        let left = self.wanted.len().saturating_sub(self.turns);
        if left > 1 {
            // If memory for it is refused, each is made by itself.
            let _ = self.client.prepare_queries(left);
        }
        self.turns = self.turns.saturating_add(1);
        self.index = number.checked_rem(now.count).unwrap_or(0);
        self.stale_answers = 0;
        self.attempt()
    }

    // Drops the hint kept, if rows of it were damaged: at the end alone, so that all records are
    // asked for in the same way.
    fn discard_damaged(&self, now: &ServerInfo) {
        if self.has_damaged_rows {
            // One that stays is found damaged again.
            let _ = self.folder.discard(self.scheme, &now.plan);
        }
    }

    /// Asks for the record once more, with the hint of the next version, unless its answers were
    /// stale too often.
    pub(crate) fn attempt_again(&mut self, version: u64) -> Result<RunStep, RunFault> {
        if self.stale_answers >= STALE_ANSWERS {
            return Ok(RunStep::Ends(RunEnd::Stale(version)));
        }
        self.stale_answers = self.stale_answers.saturating_add(1);
        self.attempt()
    }

    // Asks for the record: first, if the hint kept is to be moved to the version known, for what
    // has changed.
    fn attempt(&mut self) -> Result<RunStep, RunFault> {
        let now = self.known()?;
        let since = match &self.kept {
            Some(kept) => kept.asked_since(&now),
            None => None,
        };
        match since {
            Some(since) => {
                let ask = changes_ask(self.alloc, since)?;
                Ok(self.send(State::Changes, ask))
            }
            None => self.ask_over_rows(),
        }
    }

    /// Takes a piece of the reply that says what has changed.
    pub(crate) fn take_changes(
        &mut self,
        piece: &[u8],
        is_whole: bool,
    ) -> Result<RunStep, RunFault> {
        self.reply.extend_from_slice(piece)?;
        if !is_whole {
            return Ok(self.wait(State::Changes));
        }
        let frame = whole_frame(self.alloc, &self.reply)?;
        if let Frame::Refused { code } = frame {
            return Ok(RunStep::Ends(RunEnd::Refused(code)));
        }
        self.move_kept(&frame)?;
        self.ask_over_rows()
    }

    // Moves the hint kept by what a reply says. One that it can't move is of no further use.
    fn move_kept(&mut self, frame: &Frame) -> Result<(), RunFault> {
        let now = self.known()?;
        let Some(kept) = &mut self.kept else {
            return Ok(());
        };
        let since = kept.fields().version;
        let moved = match judged(&now, since, frame) {
            ChangesReply::Moves(block) => kept.add(&self.folder, &now, &block)?,
            ChangesReply::NoChanges => {
                self.kept = None;
                return Ok(());
            }
            ChangesReply::Other => return Err(RunFault::BadReply),
        };
        match moved {
            Moved::On => {}
            Moved::NotKept => count(&mut self.counts.not_kept),
            Moved::Full => self.fold()?,
        }
        Ok(())
    }

    // Asks for the record over its rows of the hint kept, if this serves; else once the hint is
    // held.
    fn ask_over_rows(&mut self) -> Result<RunStep, RunFault> {
        if let Some(Rows { saved, are_sound }) = self.rows_kept()? {
            if self.client.resume(saved)? {
                return self.ask(State::AskOverRows { are_sound });
            }
            count(&mut self.counts.of_another_store);
            self.kept = None;
        }
        self.hold_hint()
    }

    // The rows of the record in the hint kept, if that is one of SimplePIR and of the version
    // known. Damaged rows are zeros.
    fn rows_kept(&self) -> Result<Option<Rows>, RunFault> {
        let now = self.known()?;
        let Some(kept) = &self.kept else {
            return Ok(None);
        };
        let Some(span) = kept.parts_for(&now, self.index) else {
            return Ok(None);
        };
        let known = kept.fields().known;
        let (hint, are_sound) = match kept.rows(&now, span, self.index) {
            Ok(rows) => (rows, true),
            Err(HintError::Memory) => return Err(RunFault::Memory),
            Err(HintError::Damaged | HintError::Read) => match kept.zeros(&now) {
                Ok(zeros) => (zeros, false),
                Err(_) => return Err(RunFault::Memory),
            },
        };
        let saved = self.saved(known, hint);
        Ok(Some(Rows { saved, are_sound }))
    }

    /// What is saved of the client, with a hint that was kept.
    pub(crate) fn saved(&self, known: ServerInfo, hint: Hint) -> SavedClient {
        SavedClient {
            number: self.client.next_number(),
            known: Some(known),
            hint: Some(hint),
        }
    }

    /// Asks for the record over what the client holds.
    pub(crate) fn ask(&mut self, state: State<'a, R>) -> Result<RunStep, RunFault> {
        let query = self.client.ask(self.index)?;
        Ok(self.send(state, query))
    }

    /// Takes a record, if its rows were sound, and goes on with the next.
    pub(crate) fn take_record(
        &mut self,
        record: Retrieved,
        are_sound: bool,
    ) -> Result<RunStep, RunFault> {
        if are_sound {
            add(&mut self.retrieved, record)?;
        } else {
            self.note_damaged_rows();
        }
        self.take_turn()
    }

    /// Goes on with the next record after an answer that could not be read.
    pub(crate) fn take_unreadable(&mut self, are_sound: bool) -> Result<RunStep, RunFault> {
        if are_sound {
            count(&mut self.counts.unreadable);
        } else {
            self.note_damaged_rows();
        }
        self.take_turn()
    }

    // Notes that the record's rows were damaged.
    fn note_damaged_rows(&mut self) {
        count(&mut self.counts.damaged);
        self.has_damaged_rows = true;
    }
}

// Adds one more.
fn add(items: &mut Vec<Retrieved>, item: Retrieved) -> Result<(), AllocError> {
    items.push(item)?;
    Ok(())
}

// The version that a server had reported last beside a hint kept; 0 if there is none.
fn version_seen<R: FileSystem>(kept: &Option<MovedHint<'_, R>>) -> u64 {
    match kept {
        Some(kept) => kept.fields().known.version,
        None => 0,
    }
}
