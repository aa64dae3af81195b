//! The end: nothing goes wrong any more, and everything is to be reached.

use super::World;
use deployment_model::Broken;
use simulated_host::Faults;

impl World<'_> {
    /// Nothing goes wrong from now on, and nothing new is begun.
    ///
    /// # Errors
    ///
    /// What is broken.
    pub fn calm(&mut self) -> Result<(), Broken> {
        self.is_calm = true;
        for unreachable in self.unreachable.iter_mut() {
            *unreachable = false;
        }
        for machine in 0..self.sizes.machines() {
            if let Ok(mut disk) = self.disk.try_borrow_mut() {
                disk.set_faults(machine, Faults::none());
                disk.cut_after(machine, None);
            }
        }
        // What the publisher's commands have left is to be clear.
        self.cut_power(0)?;
        if !self.publisher.settle(&mut self.truth)? {
            return Err(Broken::Stuck {
                what: "the publisher's folder can't be read",
            });
        }
        for server in 0..self.servers.len() {
            if matches!(self.servers.get(server), Some(node) if !node.runs()) {
                self.start(server)?;
            }
        }
        Ok(())
    }

    /// Whether all servers have the last version. Those that lack more than the log has get a copy.
    ///
    /// # Errors
    ///
    /// What is broken.
    pub fn are_up_to_date(&mut self) -> Result<bool, Broken> {
        for server in 0..self.servers.len() {
            if matches!(self.behind.get(server), Some(true)) {
                self.restore(server)?;
                self.start(server)?;
            }
        }
        let last = self.truth.last();
        Ok(
            self.servers.iter().all(|node| match node.store() {
                Some(store) => store.version() == last,
                None => false,
            }),
        )
    }

    /// Judges the stores of all servers.
    ///
    /// # Errors
    ///
    /// What is broken.
    pub fn check_all(&mut self) -> Result<(), Broken> {
        for server in 0..self.servers.len() {
            self.check_store(server, 1)?;
        }
        Ok(())
    }

    /// How many clients there are.
    pub fn client_count(&self) -> usize {
        self.clients.len()
    }

    /// Begins a run of a client that retrieves each record.
    ///
    /// # Errors
    ///
    /// What is broken.
    pub fn ask_for_all(&mut self, client: usize) -> Result<(), Broken> {
        let count = self.record_count();
        let mut wanted = Vec::new(self.alloc);
        for index in 0..count {
            wanted.push(u32::try_from(index).unwrap_or(u32::MAX))?;
        }
        self.begin_run(client, wanted)
    }

    /// Whether a client's run goes on.
    pub fn has_run(&self, client: usize) -> bool {
        matches!(self.clients.get(client), Some(node) if node.runs())
    }

    /// Whether a client has retrieved each record in its last run.
    pub fn has_all(&self, client: usize) -> bool {
        matches!(self.clients.get(client), Some(node) if node.in_run == self.record_count())
    }

    // How many records the last version has.
    fn record_count(&self) -> usize {
        match self.truth.at(self.truth.last()) {
            Some(records) => records.count(),
            None => 0,
        }
    }
}
