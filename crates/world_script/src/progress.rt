//! How far a script has come.

ghost use Rattle.std.specs.Prelude.{◌≡◌, ◌++◌, ℕ, IfOk, drop, false, length, true};
ghost use Rattle.pir_world.specs.Runs.{State};
ghost use Rattle.pir_world.specs.Worlds.{IsRunOf};
ghost use Rattle.world_script.specs.Texts.{no_client_text};
ghost use Rattle.pir_schemes.specs.Plans.{fits};
ghost use Rattle.world_script.specs.Scripts.{Leads, LeadsAtEnd, LeadsFilled, MakesStep};
ghost use Rattle.world_script.specs.Scripts.{ScriptPlace};
ghost use Rattle.world_script.specs.Scripts.{client_move, kept_of, named_client, plan_of_filling};
ghost use Rattle.world_script.specs.Scripts.{record_move, sized_move, start_move};
ghost use Rattle.world_script.specs.Progress.{EndsAs, IsAt, MovesQuietly, MakesMove, OpensWorld};
ghost use Rattle.world_script.specs.Progress.{SaysAll, SaysText, running_world, filling_of};

use crate::line::{HeaderSizes, Line};
use crate::outcome::outcome_line;
use crate::stop::Stop;
use connection_io::write_out;
use digit_pack::{fill_slot, is_slotted};
use frame_codec::Bytes;
use lane_kernels::Lanes;
use pir_schemes::Plan;
use pir_world::{Outcome, Step, StepFault, World};
use std::alloc::{AllocError, Global};
use std::io::Write;
use version_store::{OpenError, Snapshot};

/// How many clients a world may have.
const MOST_CLIENTS: usize = 16;

/// How many bytes a record of a world has at most.
const LONGEST_RECORD: u16 = 256;

/// How far a script has come: what its header has said, or the world that it has opened.
#[derive(Drop)]
pub enum Progress {
    /// Nothing was said.
    Start,
    /// The sizes were.
    Sized(HeaderSizes),
    /// The seed was, and maybe records, and after these maybe clients.
    Filling(WorldOpening),
    /// Steps are made.
    Running(World<Lanes>),
}

/// What a world is opened with.
#[derive(Drop)]
pub struct WorldOpening {
    sizes: HeaderSizes,
    seed: [u8; 32],
    records: Vec<u8>,
    count: u32,
    clients: Vec<[u8; 32]>,
}

impl Progress {
    /// Takes the line of a number.
    pub fn take<W: Write>(
        self,
        alloc: Global,
        number: u64,
        line: Line,
        writer: &mut W,
    ) -> Result<Progress, Stop>
        ensures { (place : ScriptPlace) → IsAt self place →
            MakesMove (Leads place line) number (W.contents writer.old) result
            (W.contents writer.new) }
    {
        match self {
            Progress::Start => sized(number, line),
            Progress::Sized(sizes) => seeded(alloc, number, sizes, line),
            Progress::Filling(opening) => opening.take(alloc, number, line, writer),
            Progress::Running(world) => match line {
                Line::Step(step) => make_step(alloc, world, step, writer),
                _ => {
                    drop(world);
                    Err(Stop::BadLine { number })
                }
            },
        }
    }

    /// Ends the script before the line of a number. A world that made no step is opened now.
    pub fn end(self, alloc: Global, number: u64) -> Result<(), Stop>
        ensures { (place : ScriptPlace) → IsAt self place →
            EndsAs (LeadsAtEnd place) number result }
    {
        match self {
            Progress::Start => Err(Stop::BadLine { number }),
            Progress::Sized(_) => Err(Stop::BadLine { number }),
            Progress::Filling(opening) => {
                if opening.clients.is_empty() {
                    return Err(Stop::BadLine { number });
                }
                match opening.open(alloc) {
                    Ok(world) => {
                        drop(world);
                        Ok(())
                    }
                    Err(stop) => Err(stop),
                }
            }
            Progress::Running(world) => {
                drop(world);
                Ok(())
            }
        }
    }
}

/// The first line of a header.
fn sized(number: u64, line: Line) -> Result<Progress, Stop>
    ensures { MovesQuietly (λ move. move ≡ start_move line) number result }
{
    match line {
        Line::World(sizes) => Ok(Progress::Sized(sizes)),
        _ => Err(Stop::BadLine { number }),
    }
}

/// The second line of a header.
fn seeded(alloc: Global, number: u64, sizes: HeaderSizes, line: Line) -> Result<Progress, Stop>
    ensures { MovesQuietly (λ move. move ≡ sized_move sizes line) number result }
{
    match line {
        Line::Seed(seed) => Ok(Progress::Filling(WorldOpening {
            sizes,
            seed,
            records: Vec::new(alloc),
            count: 0,
            clients: Vec::new(alloc),
        })),
        _ => Err(Stop::BadLine { number }),
    }
}

impl WorldOpening {
    /// Takes a line once the seed was said. The first step opens the world.
    fn take<W: Write>(
        self,
        alloc: Global,
        number: u64,
        line: Line,
        writer: &mut W,
    ) -> Result<Progress, Stop>
        ensures { MakesMove (LeadsFilled (filling_of self) line) number
            (W.contents writer.old) result (W.contents writer.new) }
    {
        match line {
            Line::Record(bytes) => self.add_record(number, bytes),
            Line::Client(seed) => self.add_client(number, seed),
            Line::Step(step) => self.make_first_step(alloc, number, step, writer),
            _ => Err(Stop::BadLine { number }),
        }
    }

    /// Takes a record.
    fn add_record(mut self, number: u64, bytes: Bytes) -> Result<Progress, Stop>
        ensures { MovesQuietly (λ move. move ≡ record_move (filling_of self) bytes) number result }
    {
        let plan = self.plan();
        if !self.clients.is_empty() || !plan.fits(bytes.as_slice()) {
            return Err(Stop::BadLine { number });
        }
        // No script within its limit has so many.
        let Some(count) = self.count.checked_add(1) else {
            return Err(Stop::Memory);
        };
        keep_record(&plan, &mut self.records, bytes.as_slice())?;
        self.count = count;
        Ok(Progress::Filling(self))
    }

    /// What stays the same in every version of the world.
    fn plan(&self) -> Plan
        ensures { result ≡ plan_of_filling (filling_of self.now) }
    {
        Plan {
            form: u16::from(self.sizes.form),
            width: self.sizes.width,
            record_len: self.sizes.record_len,
            groups: self.sizes.groups,
            dimension: self.sizes.dimension,
            seed: self.seed,
        }
    }

    /// Takes a client.
    fn add_client(mut self, number: u64, seed: [u8; 32]) -> Result<Progress, Stop>
        ensures { MovesQuietly (λ move. move ≡ client_move (filling_of self) seed) number result }
    {
        if self.count == 0 || self.clients.len() >= MOST_CLIENTS {
            return Err(Stop::BadLine { number });
        }
        if self.clients.push(seed).is_err() {
            return Err(Stop::Memory);
        }
        Ok(Progress::Filling(self))
    }

    /// Opens the world and makes its first step.
    fn make_first_step<W: Write>(
        self,
        alloc: Global,
        number: u64,
        step: Step,
        writer: &mut W,
    ) -> Result<Progress, Stop>
        ensures { MakesMove (LeadsFilled (filling_of self) (Line.Step step)) number
            (W.contents writer.old) result (W.contents writer.new) }
    {
        if self.clients.is_empty() {
            return Err(Stop::BadLine { number });
        }
        match self.open(alloc) {
            Ok(world) => make_step(alloc, world, step, writer),
            Err(stop) => Err(stop),
        }
    }

    /// Opens the world, at version 1 and for no publisher.
    fn open(self, alloc: Global) -> Result<World<Lanes>, Stop>
        ensures { OpensWorld (filling_of self) result }
    {
        let WorldOpening {
            sizes,
            seed,
            records,
            count,
            clients,
        } = self;
        let snapshot = Snapshot {
            form: sizes.form,
            width: sizes.width,
            record_len: sizes.record_len,
            groups: sizes.groups,
            count,
            dimension: sizes.dimension,
            version: 1,
            seed,
            publisher: [0; 32],
            records,
        };
        match World::new(alloc, Lanes, snapshot, clients) {
            Ok(world) => {
                // Their contract says what the world was opened with.
                world.outcomes();
                Ok(world)
            }
            Err(OpenError::Memory) => Err(Stop::Memory),
            Err(fault) => Err(Stop::World(fault)),
        }
    }
}

/// Appends the bytes that a record has in the digits. A world whose records are longer than any
/// layout allows is refused when it is opened, and nothing is kept for it: a short script would
/// otherwise take many times its own length in slots.
#[tactic(auto, unfolding(pir_schemes::specs::Plans::fits, pir_schemes::specs::Plans::slot))]
fn keep_record(plan: &Plan, records: &mut Vec<u8>, bytes: &[u8]) -> Result<(), AllocError>
    requires fits { fits plan.now bytes.now ≡ true }
    ensures { IfOk result (λ _. records.new.items ≡
        records.old.items ++ kept_of plan.now bytes.now) }
{
    if plan.record_len > LONGEST_RECORD {
        return Ok(());
    }
    if is_slotted(plan.form) {
        let start = records.len();
        records.resize(start + usize::from(plan.record_len), 0)?;
        fill_slot(bytes, &mut records[start..]);
        return Ok(());
    }
    records.extend_from_slice(bytes)
}

/// Makes a step, and prints what comes of it. A world that ends is given to `drop`: the prover
/// would otherwise take apart all that it owns at each way out.
fn make_step<W: Write>(
    alloc: Global,
    mut world: World<Lanes>,
    step: Step,
    writer: &mut W,
) -> Result<Progress, Stop>
    ensures { (s : State) (number : ℕ) → IsRunOf world s → world.broken ≡ false →
        MakesMove (MakesStep (running_world world s) step) number
        (W.contents writer.old) result (W.contents writer.new) }
{
    let client = client_of(&step);
    let before = world.outcomes().len();
    match world.step(step) {
        Ok(()) => match say_added(alloc, &world, before, writer) {
            Ok(()) => Ok(Progress::Running(world)),
            Err(stop) => {
                drop(world);
                Err(stop)
            }
        },
        Err(StepFault::NoClient) => match say_no_client(alloc, client, writer) {
            Ok(()) => Ok(Progress::Running(world)),
            Err(stop) => {
                drop(world);
                Err(stop)
            }
        },
        Err(_) => {
            drop(world);
            Err(Stop::Memory)
        }
    }
}

/// Prints a line for each outcome after the first ones.
fn say_added<W: Write>(
    alloc: Global,
    world: &World<Lanes>,
    before: usize,
    writer: &mut W,
) -> Result<(), Stop>
    ensures { SaysAll (drop before world.now.outcomes)
        (W.contents writer.old) result (W.contents writer.new) }
{
    let outcomes = world.outcomes();
    let from = before.min(outcomes.len());
    say_all(alloc, &outcomes[from..], writer)
}

/// Prints a line for each outcome.
fn say_all<W: Write>(alloc: Global, outcomes: &[Outcome], writer: &mut W) -> Result<(), Stop>
    ensures { SaysAll outcomes.now (W.contents writer.old) result (W.contents writer.new) }
{
    for outcome in outcomes {
        let Ok(line) = outcome_line(alloc, outcome) else {
            return Err(Stop::Memory);
        };
        if write_out(writer, line.as_bytes()).is_err() {
            return Err(Stop::Write);
        }
    }
    Ok(())
}

/// Prints that there is no such client.
fn say_no_client<W: Write>(alloc: Global, client: usize, writer: &mut W) -> Result<(), Stop>
    ensures { SaysText (no_client_text client)
        (W.contents writer.old) result (W.contents writer.new) }
{
    let line = format!(in alloc; "client {client}: none\n")?;
    say(writer, line.as_str())
}

/// The client that a step names, or 0.
fn client_of(step: &Step) -> usize
    ensures { result ≡ named_client step.now }
{
    match step {
        Step::Edit { .. } => 0,
        Step::Append { .. } => 0,
        Step::Publish => 0,
        Step::Hello { client } => *client,
        Step::Sync { client, .. } => *client,
        Step::Ask { client, .. } => *client,
        Step::ToServer { client, .. } => *client,
        Step::ToClient { client, .. } => *client,
    }
}

/// Writes a text whole.
pub fn say<W: Write>(writer: &mut W, text: &str) -> Result<(), Stop>
    ensures { SaysText text.now (W.contents writer.old) result (W.contents writer.new) }
{
    write_out(writer, text.as_bytes())?;
    Ok(())
}
