//! The hint of the version known, held by the client: the one kept, read as a whole, or as a sync
//! has moved or brought it.

use crate::counts::count;
use crate::fault::RunFault;
use crate::replies::part_in;
use crate::run::ClientRun;
use crate::state::State;
use crate::steps::RunStep;
use client_core::Scheme;
use client_state::{Fetched, FolderFault, PartialFile};
use hint_file::{HintError, KeptHint};
use safe_files::FileSystem;
use std::mem;

impl<'a, R: FileSystem> ClientRun<'a, R> {
    /// Sees to it that the client holds the hint of the version known, and asks for the record.
    pub(crate) fn hold_hint(&mut self) -> Result<RunStep, RunFault> {
        if let Some(kept) = self.kept.take() {
            self.take_up(kept.whole())?;
        }
        if self.holds_current()? {
            return self.ask(State::Ask);
        }
        match self.client.hint() {
            // What changed is less than the hint.
            Some(hint) if hint.scheme == Scheme::Simple && self.scheme == Scheme::Simple => {
                self.sync()
            }
            _ => self.fetch(),
        }
    }

    // Whether the client holds the hint of the version known.
    fn holds_current(&self) -> Result<bool, RunFault> {
        let now = self.known()?;
        match self.client.hint() {
            Some(hint) => Ok(hint.scheme == self.scheme && hint.version == now.version),
            None => Ok(false),
        }
    }

    // Takes up a hint that was read as a whole.
    fn take_up(&mut self, kept: Result<KeptHint, HintError>) -> Result<(), RunFault> {
        match kept {
            Ok(KeptHint { known, hint }) => {
                let saved = self.saved(known, hint);
                if !self.client.resume(saved)? {
                    count(&mut self.counts.of_another_store);
                }
                Ok(())
            }
            Err(HintError::Memory) => Err(RunFault::Memory),
            Err(HintError::Damaged | HintError::Read) => {
                count(&mut self.counts.damaged);
                Ok(())
            }
        }
    }

    /// Writes the hint kept anew, as its changes have moved it. One that is damaged is of no
    /// further use.
    pub(crate) fn fold(&mut self) -> Result<(), RunFault> {
        let Some(kept) = &self.kept else {
            return Ok(());
        };
        match kept.whole() {
            Ok(KeptHint { known, hint }) => {
                if self.folder.keep(&known, &hint).is_err() {
                    count(&mut self.counts.not_kept);
                }
                Ok(())
            }
            Err(HintError::Memory) => Err(RunFault::Memory),
            Err(HintError::Damaged | HintError::Read) => {
                count(&mut self.counts.damaged);
                self.kept = None;
                Ok(())
            }
        }
    }

    // Moves the hint by what changed of it, or fetches it without the folder.
    fn sync(&mut self) -> Result<RunStep, RunFault> {
        let ask = self.client.sync(self.scheme)?;
        Ok(self.send(State::Sync, ask))
    }

    /// Keeps the hint that came of a sync, and asks for the record.
    pub(crate) fn take_synced(&mut self) -> Result<RunStep, RunFault> {
        let now = self.known()?;
        if let Some(hint) = self.client.hint() {
            if self.folder.keep(&now, hint).is_err() {
                count(&mut self.counts.not_kept);
            }
        }
        self.ask(State::Ask)
    }

    // Fetches the hint part by part through the folder, if this can have a partial file of it now.
    fn fetch(&mut self) -> Result<RunStep, RunFault> {
        let now = self.known()?;
        match self.folder.partial(&now, self.scheme) {
            Ok(Some(partial)) => self.fetch_next(partial),
            Ok(None) | Err(FolderFault::State) => self.sync(),
            Err(FolderFault::Memory) => Err(RunFault::Memory),
        }
    }

    // Asks for the next part, or takes up the hint of which all are there.
    fn fetch_next(&mut self, partial: PartialFile<'a, R>) -> Result<RunStep, RunFault> {
        if partial.next_len().is_some() {
            let ask = partial.ask()?;
            return Ok(self.send(State::Part(partial), ask));
        }
        match partial.finish() {
            Ok(fetched) => self.take_fetched(fetched),
            Err(HintError::Memory) => Err(RunFault::Memory),
            Err(HintError::Damaged | HintError::Read) => self.sync(),
        }
    }

    /// Takes a piece of the reply that has the next part.
    pub(crate) fn take_part(
        &mut self,
        partial: PartialFile<'a, R>,
        piece: &[u8],
        is_whole: bool,
    ) -> Result<RunStep, RunFault> {
        self.reply.extend_from_slice(piece)?;
        if !is_whole {
            return Ok(self.wait(State::Part(partial)));
        }
        let reply = mem::replace(&mut self.reply, Vec::new(self.alloc));
        match part_in(&partial, &reply)? {
            Some(bytes) => self.add_part(partial, bytes),
            // The sync says which version there is, or fetches the hint without the folder.
            None => self.sync(),
        }
    }

    // Adds a part to its file, and goes on with the next.
    fn add_part(&mut self, partial: PartialFile<'a, R>, bytes: &[u8]) -> Result<RunStep, RunFault> {
        let mut partial = partial;
        if partial.add(bytes).is_err() {
            partial.discard();
            return self.sync();
        }
        self.fetch_next(partial)
    }

    // Takes up a hint that was fetched, and asks for the record.
    fn take_fetched(&mut self, fetched: Fetched<'a, R>) -> Result<RunStep, RunFault> {
        if !fetched.could_keep {
            count(&mut self.counts.not_kept);
        }
        self.take_up(fetched.file.whole())?;
        if self.holds_current()? {
            return self.ask(State::Ask);
        }
        self.sync()
    }
}
