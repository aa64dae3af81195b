//! A world.

ghost use Rattle.std.specs.Prelude.{◌≡◌, ◌∷◌, ◌++◌, [], List, ℕ, ◌↔◌, true, false, OnOk, IfOk};
ghost use Rattle.std.specs.Prelude.{IfErr, IsErrOf, length, map, Some, None, All, ◌^◌, ◌<◌, ◌⊎◌};
ghost use Rattle.snapshot_file.specs.Snapshots.{header_of};
ghost use Rattle.version_store.specs.Openings.{IsOpenFault};
ghost use Rattle.server_core.specs.Cores.{session_of};
ghost use Rattle.server_core.specs.Sessions.{new_session};
ghost use Rattle.pir_world.specs.Runs.{State, StepsTo, opening, outcomes_of, setting_in};
ghost use Rattle.pir_world.specs.Freshness.{IsFreshLog};
ghost use Rattle.pir_world.specs.Headlines.{Headline, IsRunFrom};
ghost use Rattle.pir_world.specs.Shapes.{HidesIndices};
ghost use Rattle.pir_world.specs.Sides.{fresh_side, has_client};
ghost use Rattle.pir_world.specs.Worlds.{IsNew, IsRunOf};

use crate::client_endpoint::ClientEndpoint;
use crate::laws::{answers_are_fresh, every_run_is_right, indices_change_no_shape};
use crate::moves::{apply_step, names_client};
use crate::steps::{Outcome, Step, StepFault};
use digit_pack::is_wide;
use matrix_u32::Kernel;
use server_core::ServerCore;
use std::alloc::{AllocError, Global};
use std::marker::Model;
use version_store::{Header, OpenError, Snapshot, Store};

/// A server over one store, and clients with a session each, with the bytes that wait between them.
///
/// Contracts see what it was opened with, the server, the clients' ends, the steps made, the
/// outcomes, and whether memory was refused in a step. The outcomes are those of a run of the
/// steps; until memory was refused, the server and the ends are what that run leaves, too.
#[derive(Drop)]
pub struct World<K: Kernel> {
    alloc: Global,
    header: Header,
    records: Vec<u8>,
    seeds: Vec<[u8; 32]>,
    server: ServerCore<K>,
    ends: Vec<ClientEndpoint<K>>,
    steps: Vec<Step>,
    outcomes: Vec<Outcome>,
    broken: bool,
}

impl<K: Kernel> Model for World<K> {
    ghost use Rattle.pir_world.specs.Worlds.{WorldSeen};
    ghost use Rattle.pir_world.specs.Inside.{IsKeptRun, shown};

    ghost Value = { WorldSeen };

    ghost view = { shown };

    ghost invariant = { IsKeptRun };
}

impl<K: Kernel> World<K> {
    /// The world of a snapshot's store and a client for each seed. Client k has session k, and its
    /// first retrieval has number 0.
    ///
    /// # Errors
    ///
    /// As `Store::open` refuses the snapshot: `BadLayout`, `BadVersion`, `BadRecords`, `Memory`.
    pub fn new(
        alloc: Global,
        kernel: K,
        snapshot: Snapshot,
        seeds: Vec<[u8; 32]>,
    ) -> Result<World<K>, OpenError>
        ensures opened { IfOk result
            (λ w. IsNew w (header_of snapshot) snapshot.records.items seeds.items) }
        ensures refused { IfErr result (IsOpenFault (header_of snapshot) snapshot.records.items) }
    {
        let header = snapshot.header();
        let copied = copy_of(alloc, snapshot.records.as_slice());
        let store = match Store::open(alloc, kernel, snapshot) {
            Ok(store) => store,
            Err(fault) => return Err(fault),
        };
        // Memory is judged after the snapshot's own faults.
        let Ok(records) = copied else {
            return Err(OpenError::Memory);
        };
        let mut server = ServerCore::new(alloc, store);
        let wide = is_wide(u16::from(header.form));
        let Ok(ends) = open_ends(alloc, kernel, wide, &mut server, seeds.as_slice()) else {
            return Err(OpenError::Memory);
        };
        Ok(World {
            alloc,
            header,
            records,
            seeds,
            server,
            ends,
            steps: Vec::new(alloc),
            outcomes: Vec::new(alloc),
            broken: false,
        })
    }

    /// What came of the steps so far, in order: the accepted and refused edits, appends and
    /// publications, the events, the refused calls and the faults.
    ///
    /// The outcomes are those of a run of the steps, also in a world that was refused memory in a
    /// later step, and all of it is right: an answered retrieval whose noise sums stay below half
    /// of delta gave exactly its record's bytes in the version that its hint names, and a query was
    /// refused as stale, with the current version, exactly when it named another. The log of the
    /// run says by earlier entries which call, which query and which reply each retrieval had. No
    /// answer is older than a version that had been reported to anybody when its query was served.
    ///
    /// Steps that differ from these in the indices of asks alone put the same shapes on each link:
    /// as many frames each way, in the same order, of the same kinds and lengths; and of each
    /// client's calls the same are refused, for the same causes. Of both it is asked that no reply
    /// was refused because the server is out of memory, and of the asks whose index differs that
    /// none is refused for its index. An ask that is the same in both may be of no record, or come
    /// too early: it is refused alike, and sends nothing.
    ///
    /// Clause `right` names no part of the code: it says all this of some run of the steps that has
    /// these outcomes. Clause `run` says it of a run whose last state, with the waiting bytes, is
    /// the world's own until memory was refused in a step. Clause `extends` of [`World::step`]
    /// leads each such run on by the step made: so its frames are those that the cores sent.
    pub fn outcomes(&self) -> &[Outcome]
        ensures kept { result.now ≡ self.now.outcomes }
        ensures run { (s : State) × IsRunOf self.now s × (result.now ≡ outcomes_of s.log) ×
            Headline (setting_in self.now.header) self.now.seeds s × IsFreshLog s.log ×
            HidesIndices (setting_in self.now.header)
            (opening self.now.header self.now.records self.now.seeds) self.now.steps s }
        ensures right { (s : State) × IsRunFrom self.now.header self.now.records self.now.seeds
            self.now.steps s × (result.now ≡ outcomes_of s.log) ×
            Headline (setting_in self.now.header) self.now.seeds s × IsFreshLog s.log ×
            HidesIndices (setting_in self.now.header)
            (opening self.now.header self.now.records self.now.seeds) self.now.steps s }
    {
        every_run_is_right();
        answers_are_fresh();
        indices_change_no_shape();
        self.outcomes.as_slice()
    }

    /// The steps that answered `Ok`, in order.
    pub fn steps(&self) -> &[Step]
        ensures { result.now ≡ self.now.steps }
    {
        self.steps.as_slice()
    }

    /// Makes one step.
    ///
    /// # Errors
    ///
    /// `Broken` exactly when memory was refused in an earlier step; else `NoClient` exactly when
    /// the step names a client that there is none of, and the world is as it was; else it is made,
    /// or `Memory`: then outcomes and steps are as they were, and every later step answers
    /// `Broken`. A reply that the server is refused memory for is no such fault: the client is
    /// refused with code 12, and the world goes on.
    pub fn step(&mut self, step: Step) -> Result<(), StepFault>
        ensures extends { OnOk result ((s : State) → IsRunOf self.old s → (t : State) ×
            StepsTo (setting_in self.old.header) s step t × IsRunOf self.new t) }
        ensures steps { OnOk result (self.new.steps ≡ self.old.steps ++ step ∷ []) }
        ensures alive { OnOk result ((self.old.broken ≡ false) × (self.new.broken ≡ false)) }
        ensures broken { IsErrOf result StepFault.Broken ↔ (self.old.broken ≡ true) }
        ensures no_client { IsErrOf result StepFault.NoClient ↔ ((self.old.broken ≡ false) ×
            (has_client step (length self.old.ends) ≡ false)) }
        ensures unchanged { (IsErrOf result StepFault.NoClient ⊎ IsErrOf result StepFault.Broken) →
            self.new ≡ self.old }
        ensures memory { IsErrOf result StepFault.Memory → (self.new.broken ≡ true) ×
            (self.new.outcomes ≡ self.old.outcomes) × (self.new.steps ≡ self.old.steps) }
        ensures opening { (self.new.header ≡ self.old.header) ×
            (self.new.records ≡ self.old.records) × (self.new.seeds ≡ self.old.seeds) ×
            (length self.new.ends ≡ length self.old.ends) }
    {
        pir_schemes::laws::retrieval_gives_the_record();
        if self.broken {
            return Err(StepFault::Broken);
        }
        if !names_client(&step, self.ends.len()) {
            return Err(StepFault::NoClient);
        }
        if self.steps.reserve(1).is_err() {
            self.broken = true;
            return Err(StepFault::Memory);
        }
        if apply_step(
            self.alloc,
            &mut self.server,
            &mut self.ends,
            &mut self.outcomes,
            &step,
        )
        .is_err()
        {
            self.broken = true;
            return Err(StepFault::Memory);
        }
        self.steps.push_reserved(step);
        Ok(())
    }
}

/// The same bytes once more.
fn copy_of(alloc: Global, bytes: &[u8]) -> Result<Vec<u8>, AllocError>
    ensures items { IfOk result (λ copy. copy.items ≡ bytes.now) }
    ensures bytes { All (λ b. b < 2 ^ 8) bytes.now }
{
    bytes.to_vec(alloc)
}

/// A client for each seed, each with a session of its number.
fn open_ends<K: Kernel>(
    alloc: Global,
    kernel: K,
    wide: bool,
    server: &mut ServerCore<K>,
    seeds: &[[u8; 32]],
) -> Result<Vec<ClientEndpoint<K>>, AllocError>
    requires { (id : ℕ) → session_of server.old.sessions id ≡ None }
    ensures ends { IfOk result (λ ends. ends.items ≡ map (fresh_side wide) seeds.now) }
    ensures opened { OnOk result ((id : ℕ) → id < length seeds.now →
        session_of server.new.sessions id ≡ Some new_session) }
    ensures store { server.new.store ≡ server.old.store }
{
    let mut ends = Vec::new(alloc);
    for (id, seed) in seeds.iter().enumerate() {
        if server.open_session(id as u64).is_err() {
            return Err(AllocError);
        }
        if ends
            .push(ClientEndpoint::new(alloc, kernel, wide, *seed))
            .is_err()
        {
            return Err(AllocError);
        }
    }
    Ok(ends)
}
