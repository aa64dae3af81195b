//! Steps of the publisher, and of its pushes.

use super::{Round, World};
use crate::events::What;
use deployment_model::{Broken, Command, PushEnd, Pushed, Talk, is_damage, name_of};
use publisher_files::{FolderVersion, settled_folder};

/// The power of the publisher's machine is cut soon after one command in so many, or in twice or
/// six times as many.
const COMMANDS: usize = 32;

impl World<'_> {
    /// A command of the publisher, chosen at random.
    pub(super) fn act_publisher(&mut self) -> Result<(), Broken> {
        if self.is_calm {
            return Ok(());
        }
        if self.troubles.power && self.dice.one_in(COMMANDS.saturating_mul(self.setting.rest)) {
            self.cut_later(0)?;
        }
        let command = self.publisher.command(&mut self.dice, &mut self.truth)?;
        match command {
            Command::Drafted => self.note(What::Drafted)?,
            Command::Published(version) => {
                self.counts.published = self.counts.published.saturating_add(1);
                self.note(What::Published(version))?;
            }
            Command::Compacted => self.note(What::Compacted)?,
            Command::Failed(fault) => self.note(What::CommandFailed(fault))?,
        }
        if self.publisher.is_unclear() {
            return self.cut_power(0);
        }
        self.look_at_power(0)
    }

    /// Whether a push is to begin.
    pub fn wants_push(&mut self) -> bool {
        self.dice.one_in(100)
    }

    /// The folder's version, which is to be pushed. None if it can't be read now.
    ///
    /// # Errors
    ///
    /// What is broken.
    pub fn version_to_push(&mut self) -> Result<Option<FolderVersion>, Broken> {
        let files = self.publisher.files();
        match settled_folder(files, self.publisher.records_name()) {
            Ok(version) => {
                self.publisher.push(&version, &mut self.truth)?;
                Ok(Some(version))
            }
            Err(failure) => match name_of(failure) {
                fault if is_damage(fault) => Err(Broken::BadFolder { fault }),
                _ => Ok(None),
            },
        }
    }

    /// Begins a push to all servers with which none goes on.
    ///
    /// # Errors
    ///
    /// What is broken.
    pub fn begin_round<'v>(&mut self, version: &'v FolderVersion) -> Result<Round<'v>, Broken> {
        self.counts.rounds = self.counts.rounds.saturating_add(1);
        self.note(What::PushBegan(version.number()))?;
        let mut talks = Vec::new(self.alloc);
        for server in 0..self.servers.len() {
            let machine = self.sizes.server(server);
            // A draft of a session that a server still takes for open can't be kept from being
            // added to (docs/DECISIONS.md).
            if self.network.is_connected(0, machine) {
                continue;
            }
            let end = self.network.connect(0, machine)?;
            let talk = Talk::begin(
                self.alloc,
                end,
                server,
                self.setting.is_wide(),
                self.setting.key,
            );
            match talk {
                Ok(talk) => talks.push(talk)?,
                Err(_) => return Err(Broken::Memory),
            }
        }
        Ok(Round { version, talks })
    }

    /// A step of one conversation of a push.
    pub(super) fn act_round(&mut self, round: &mut Round<'_>) -> Result<(), Broken> {
        let place = self.ready_talk(round);
        if place >= round.talks.len() {
            return Ok(());
        }
        let mut talk = round.talks.swap_remove(place);
        let pushed = talk.step(
            round.version,
            &mut self.network,
            &mut self.dice,
            &mut self.buffer,
        )?;
        self.after_push(&pushed)?;
        if pushed.end.is_some() {
            self.network.close(talk.end());
        } else {
            round.talks.push(talk)?;
        }
        Ok(())
    }

    // The place of a conversation in which there is something to do, chosen at random; now and then
    // of any.
    fn ready_talk(&mut self, round: &Round<'_>) -> usize {
        let count = round.talks.len();
        let start = self.dice.below(count);
        if self.dice.one_in(8) {
            return start;
        }
        for place in (start..count).chain(0..start) {
            if matches!(round.talks.get(place), Some(talk) if talk.is_ready(&self.network)) {
                return place;
            }
        }
        start
    }

    // Notes what came of a step.
    fn after_push(&mut self, pushed: &Pushed) -> Result<(), Broken> {
        let server = pushed.server;
        if let Some(version) = pushed.reported {
            self.report(server, version);
        }
        match pushed.end {
            None => {}
            Some(PushEnd::Pushed(version)) => {
                self.counts.pushed = self.counts.pushed.saturating_add(1);
                self.note(What::Pushed(server, version))?;
            }
            Some(PushEnd::BeforeLog) => {
                if let Some(behind) = self.behind.get_mut(server) {
                    *behind = true;
                }
                self.note(What::NotPushed(server, "BeforeLog"))?;
            }
            Some(PushEnd::Left(why)) => {
                self.counts.left = self.counts.left.saturating_add(1);
                self.note(What::NotPushed(server, why))?;
            }
        }
        Ok(())
    }

    /// Ends a push: what goes on is cut short.
    pub fn end_round(&mut self, round: Round<'_>) {
        for talk in round.talks.iter() {
            self.network.close(talk.end());
        }
    }
}
