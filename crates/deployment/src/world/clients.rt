//! Steps of clients.

use super::{CLIENT, Sizes, World};
use crate::events::What;
use deployment_model::{Asked, Broken, Client, ClientStep};
use pir_schemes::Scheme;
use simulated_host::SimulatedFiles;
use std::alloc::{AllocError, Global};

/// All clients, with no run.
///
/// # Errors
///
/// `AllocError` when memory was refused.
pub fn all<'a>(
    alloc: Global,
    files: &'a [SimulatedFiles<'a>],
    sizes: &Sizes,
) -> Result<Vec<Client<'a>>, AllocError> {
    let mut clients = Vec::new(alloc);
    for client in 0..sizes.clients {
        if let Some(own) = files.get(sizes.client(client)) {
            clients.push(Client::new(client, own, CLIENT))?;
        }
    }
    Ok(clients)
}

impl World<'_> {
    /// A step of a client for which there is something to do, chosen at random; now and then of
    /// any.
    pub(super) fn act_client(&mut self) -> Result<(), Broken> {
        let start = self.dice.below(self.clients.len());
        let client = if self.dice.one_in(8) {
            start
        } else {
            self.ready_from(start)
        };
        let Some(node) = self.clients.get_mut(client) else {
            return Ok(());
        };
        if !node.runs() {
            return if !self.is_calm && self.dice.one_in(2) {
                let count = self.dice.below(3).saturating_add(1);
                let wanted = self.some_numbers(count)?;
                self.begin_run(client, wanted)
            } else {
                Ok(())
            };
        }
        let step = node.step(
            &self.truth,
            &mut self.network,
            &mut self.dice,
            &mut self.buffer,
        )?;
        match step {
            ClientStep::Nothing | ClientStep::Moved => {}
            ClientStep::Retrieved(index, version) => {
                self.counts.retrieved = self.counts.retrieved.saturating_add(1);
                self.note(What::Retrieved(client, index, version))?;
            }
            ClientStep::Ended(how) => self.note(What::RunEnded(client, how))?,
        }
        self.look_at_seen(client)?;
        let machine = self.sizes.client(client);
        self.look_at_power(machine)
    }

    // The first client from a number on for which there is something to do, or the first of all;
    // the one given if there is none.
    fn ready_from(&self, start: usize) -> usize {
        let count = self.clients.len();
        for client in (start..count).chain(0..start) {
            if matches!(self.clients.get(client), Some(node) if node.is_ready(&self.network)) {
                return client;
            }
        }
        start
    }

    // So many random numbers.
    fn some_numbers(&mut self, count: usize) -> Result<Vec<u32>, AllocError> {
        let mut numbers = Vec::new(self.alloc);
        for _ in 0..count {
            numbers.push((self.dice.number() % 1_000) as u32)?;
        }
        Ok(numbers)
    }

    /// Begins a run of a client with a server, chosen at random.
    pub(super) fn begin_run(&mut self, client: usize, wanted: Vec<u32>) -> Result<(), Broken> {
        let server = self.dice.below(self.servers.len());
        let Some(node) = self.clients.get_mut(client) else {
            return Ok(());
        };
        let mut seed = [0u8; 32];
        self.dice.fill(&mut seed);
        let scheme = if self.dice.one_in(2) {
            Scheme::Simple
        } else {
            Scheme::Double
        };
        let end = self
            .network
            .connect(self.sizes.client(client), self.sizes.server(server))?;
        let asked = Asked {
            seed,
            scheme,
            wide: self.setting.is_wide(),
            wanted,
        };
        if node.begin(self.alloc, end, server, asked)? {
            self.note(What::Connected(client, server))?;
        } else {
            self.network.close(end);
        }
        Ok(())
    }

    // Judges the version that a client's server has reported.
    fn look_at_seen(&mut self, client: usize) -> Result<(), Broken> {
        let Some(node) = self.clients.get(client) else {
            return Ok(());
        };
        let Some((server, now)) = node.seen() else {
            return Ok(());
        };
        let place = client
            .saturating_mul(self.sizes.servers)
            .saturating_add(server);
        if let Some(before) = self.seen.get_mut(place) {
            if now < *before {
                let before = *before;
                return Err(Broken::WentBack {
                    server,
                    before,
                    now,
                });
            }
            *before = now;
        }
        self.report(server, now);
        Ok(())
    }
}
