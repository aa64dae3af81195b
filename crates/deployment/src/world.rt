//! All machines, and one step after another.

mod clients;
mod disturbing;
mod ending;
mod publishing;
mod servers;

use crate::events::{Event, Events, What};
use deployment_model::{Broken, Client, Publisher, Records, RunSetting, Talk, Truth};
use publisher_files::FolderVersion;
use simulated_host::{Dice, Network, SimulatedDisk, SimulatedFiles};
use simulated_server::{PIECE_LEN, Server};
use std::alloc::{AllocError, Global};
use std::cell::RefCell;
use std::collections::VecDeque;

/// The publisher's folder, a server's file and a client's folder, on their machines.
pub const PUBLISHER: &str = "p";
/// The publisher's snapshot.
pub const RECORDS: &str = "p/records.pir";
/// A server's folder.
pub const SERVER: &str = "s";
/// A server's file.
pub const FILE: &str = "s/records.pir";
/// A client's folder.
pub const CLIENT: &str = "c";

/// What may go wrong.
#[derive(Clone, Copy, Debug, PartialEq, Eq)]
pub struct Troubles {
    /// A machine's power is cut.
    pub power: bool,
    /// A process is killed.
    pub kills: bool,
    /// A connection breaks.
    pub breaks: bool,
    /// A server can't be reached for a while.
    pub partitions: bool,
    /// A disk is full, or its calls fail.
    pub disks: bool,
}

/// How many machines there are of each kind, and how large the store is.
#[derive(Clone, Copy, Debug, PartialEq, Eq)]
pub struct Sizes {
    /// How many servers.
    pub servers: usize,
    /// How many clients. Two of them have one machine, and one folder.
    pub clients: usize,
    /// Whether the store is a large one, whose hints come in more than one part; else a few are.
    pub large: bool,
}

impl Sizes {
    /// How many machines there are: the publisher's, those of servers, those of clients.
    pub fn machines(&self) -> usize {
        self.clients
            .div_ceil(2)
            .saturating_add(self.servers)
            .saturating_add(1)
    }

    /// The number of a server's machine.
    pub fn server(&self, server: usize) -> usize {
        server.saturating_add(1)
    }

    /// The number of a client's machine.
    pub fn client(&self, client: usize) -> usize {
        (client / 2).saturating_add(self.servers).saturating_add(1)
    }
}

/// What was done, in counts.
#[derive(Clone, Copy, Debug, Default, PartialEq, Eq)]
pub struct Counts {
    /// Records that were retrieved.
    pub retrieved: u64,
    /// Versions that were published.
    pub published: u64,
    /// Pushes that began.
    pub rounds: u64,
    /// Servers that were brought to a version.
    pub pushed: u64,
    /// Servers that a push left as they were.
    pub left: u64,
    /// Processes of servers that began.
    pub started: u64,
    /// Machines whose power was cut.
    pub power_cuts: u64,
    /// Hints that were made anew and compared.
    pub compared: u64,
}

/// A push that goes on.
#[derive(Drop)]
pub struct Round<'v> {
    /// The folder's version, which is pushed.
    pub version: &'v FolderVersion,
    /// The conversations that go on.
    pub talks: Vec<Talk<'v>>,
}

/// All machines.
#[derive(Drop)]
pub struct World<'a> {
    alloc: Global,
    disk: &'a RefCell<SimulatedDisk>,
    sizes: Sizes,
    setting: RunSetting,
    troubles: Troubles,
    dice: Dice,
    network: Network,
    publisher: Publisher<'a>,
    servers: Vec<Server<'a>>,
    clients: Vec<Client<'a>>,
    // What each client saw of each server.
    seen: Vec<u64>,
    truth: Truth,
    now: u64,
    step: u64,
    unreachable: Vec<bool>,
    // Servers that lack more than the publisher's log has.
    behind: Vec<bool>,
    // Nothing goes wrong any more, and nothing new is begun.
    is_calm: bool,
    events: Events,
    counts: Counts,
    buffer: Vec<u8>,
    room: Vec<u8>,
}

impl<'a> World<'a> {
    /// The number of the next step.
    pub fn step(&self) -> u64 {
        self.step
    }

    /// The last events.
    pub fn events(&self) -> &VecDeque<Event> {
        self.events.all()
    }

    /// What was done.
    pub fn counts(&self) -> Counts {
        self.counts
    }

    // Notes an event.
    fn note(&mut self, what: What) -> Result<(), AllocError> {
        self.events.note(self.step, what)
    }

    /// One step.
    ///
    /// # Errors
    ///
    /// What is broken.
    pub fn act(&mut self, round: Option<&mut Round<'_>>) -> Result<(), Broken> {
        self.step = self.step.saturating_add(1);
        self.now = self.now.saturating_add(1);
        match self.dice.below(1_000) {
            0..=299 => self.deliver(),
            300..=589 => self.act_server(),
            590..=774 => self.act_client(),
            775..=954 => match round {
                Some(round) => self.act_round(round),
                None => self.act_client(),
            },
            955..=984 => self.act_publisher(),
            985..=989 => self.pass_time(),
            _ => self.trouble(),
        }
    }

    // Bytes come.
    fn deliver(&mut self) -> Result<(), Broken> {
        self.network.deliver_some(&mut self.dice, &self.unreachable);
        Ok(())
    }

    // Time passes.
    fn pass_time(&mut self) -> Result<(), Broken> {
        let passed = self.dice.below(2_000);
        self.now = self.now.saturating_add(passed as u64);
        Ok(())
    }
}

/// A world at its beginning: each server has version 1, and the publisher's folder, too.
///
/// # Errors
///
/// `Memory`.
pub fn begin<'a>(
    alloc: Global,
    disk: &'a RefCell<SimulatedDisk>,
    files: &'a [SimulatedFiles<'a>],
    sizes: Sizes,
    troubles: Troubles,
    mut dice: Dice,
) -> Result<World<'a>, Broken> {
    let setting = RunSetting::choose(&mut dice, sizes.large);
    let first = setting.first(alloc, &mut dice)?;
    servers::make_files(alloc, disk, files, &sizes, &setting, &first)?;
    let Actors {
        publisher,
        servers,
        clients,
    } = actors_at_first(alloc, files, &sizes, &setting, &first)?;
    let (truth, notes, rooms) = match beside(alloc, &sizes, first) {
        Ok(made) => made,
        Err(_) => return Err(Broken::Memory),
    };
    Ok(World {
        alloc,
        disk,
        sizes,
        setting,
        troubles,
        dice,
        network: Network::new(alloc),
        publisher,
        servers,
        clients,
        seen: notes.seen,
        truth,
        now: 0,
        step: 0,
        unreachable: notes.unreachable,
        behind: notes.behind,
        is_calm: false,
        events: Events::none(alloc),
        counts: Counts::default(),
        buffer: rooms.buffer,
        room: rooms.room,
    })
}

// Who acts.
#[derive(Drop)]
struct Actors<'a> {
    publisher: Publisher<'a>,
    servers: Vec<Server<'a>>,
    clients: Vec<Client<'a>>,
}

// Those who act, with nothing that goes on.
fn actors_at_first<'a>(
    alloc: Global,
    files: &'a [SimulatedFiles<'a>],
    sizes: &Sizes,
    setting: &RunSetting,
    first: &Records,
) -> Result<Actors<'a>, Broken> {
    let Some(own) = files.first() else {
        return Err(Broken::Memory);
    };
    let servers = servers::all(alloc, files, sizes)?;
    let clients = clients::all(alloc, files, sizes)?;
    let publisher = Publisher::new(
        alloc,
        own,
        (PUBLISHER, RECORDS),
        (setting.most(), !setting.has_slots()),
        first,
    )?;
    Ok(Actors {
        publisher,
        servers,
        clients,
    })
}

// What is noted of machines.
#[derive(Drop)]
struct Notes {
    seen: Vec<u64>,
    unreachable: Vec<bool>,
    behind: Vec<bool>,
}

impl Notes {
    fn new(alloc: Global, sizes: &Sizes) -> Result<Notes, AllocError> {
        let pairs = sizes.servers.saturating_mul(sizes.clients);
        Ok(Notes {
            seen: Vec::from_elem(alloc, 0u64, pairs.min(65_536))?,
            unreachable: Vec::from_elem(alloc, false, sizes.machines().min(65_536))?,
            behind: Vec::from_elem(alloc, false, sizes.servers.min(65_536))?,
        })
    }
}

// Room for pieces and records.
#[derive(Drop)]
struct Rooms {
    buffer: Vec<u8>,
    room: Vec<u8>,
}

impl Rooms {
    fn new(alloc: Global) -> Result<Rooms, AllocError> {
        Ok(Rooms {
            buffer: Vec::from_elem(alloc, 0u8, PIECE_LEN)?,
            room: Vec::from_elem(alloc, 0u8, 65_535)?,
        })
    }
}

// What there is beside those who act. Each part is made by itself: what is dropped when one can't
// be made is proved for each.
fn beside(
    alloc: Global,
    sizes: &Sizes,
    first: Records,
) -> Result<(Truth, Notes, Rooms), AllocError> {
    let truth = Truth::new(alloc, first)?;
    let notes = Notes::new(alloc, sizes)?;
    let rooms = Rooms::new(alloc)?;
    Ok((truth, notes, rooms))
}
