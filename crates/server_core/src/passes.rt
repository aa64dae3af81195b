//! Whose long answers are made together, and whose queries wait for the end of that. Contracts see
//! nothing of either.

ghost use Rattle.std.specs.Prelude.{◌<◌, IfSome, length};

use std::alloc::Global;

/// How many answers are made together at most.
const TOGETHER: usize = 4;

/// How many queries wait at most: as many as may be begun beside another one.
const MOST_WAITING: usize = TOGETHER - 1;

/// A query of SimplePIR that waits.
#[derive(Drop)]
pub(crate) struct WaitingQuery {
    pub(crate) id: u64,
    pub(crate) words: Vec<u32>,
}

/// The sessions whose answers are begun and not given yet, and the queries of others that wait
/// until there is none of these.
#[derive(Drop)]
pub(crate) struct Passes {
    alloc: Global,
    begun: [Option<u64>; TOGETHER],
    // Whether all answers that are begun are whole.
    is_whole: bool,
    waiting: Vec<WaitingQuery>,
}

impl Passes {
    /// No answer is begun, and no query waits.
    pub(crate) fn new(alloc: Global) -> Passes {
        Passes {
            alloc,
            begun: [None; TOGETHER],
            is_whole: false,
            waiting: Vec::new(alloc),
        }
    }

    /// Whether an answer is begun that is not given yet.
    pub(crate) fn is_busy(&self) -> bool {
        for k in 0..TOGETHER {
            if self.begun[k].is_some() {
                return true;
            }
        }
        false
    }

    /// Whether the answer of this session is begun and not given yet.
    pub(crate) fn has_begun(&self, id: u64) -> bool {
        for k in 0..TOGETHER {
            if self.begun[k] == Some(id) {
                return true;
            }
        }
        false
    }

    /// The sessions whose answers are begun and not given yet.
    pub(crate) fn begun(&self) -> &[Option<u64>] {
        &self.begun
    }

    /// Whether all answers that are begun are whole.
    pub(crate) fn is_whole(&self) -> bool {
        self.is_whole
    }

    /// Notes that all answers that are begun are whole.
    pub(crate) fn end(&mut self) {
        self.is_whole = true;
    }

    /// Notes that the answer of this session is begun, and no other one.
    pub(crate) fn begin(&mut self, id: u64) {
        self.begun = [Some(id), None, None, None];
        self.is_whole = false;
    }

    /// Notes that the answer of this session is begun beside the others.
    pub(crate) fn add(&mut self, id: u64) {
        for k in 0..TOGETHER {
            if self.begun[k].is_none() {
                self.begun[k] = Some(id);
                return;
            }
        }
    }

    /// Notes that the answer of this session is given, or given up.
    pub(crate) fn remove(&mut self, id: u64) {
        for k in 0..TOGETHER {
            if self.begun[k] == Some(id) {
                self.begun[k] = None;
            }
        }
    }

    /// Whether a query of this session may wait: there is room, and none of it waits.
    pub(crate) fn may_wait(&self, id: u64) -> bool {
        self.waiting.len() < MOST_WAITING && self.place_of(id).is_none()
    }

    /// Has a query wait, unless memory is refused.
    pub(crate) fn wait(&mut self, id: u64, words: Vec<u32>) {
        let _ = self.waiting.push(WaitingQuery { id, words });
    }

    /// Has the query of this session wait no more.
    pub(crate) fn forget(&mut self, id: u64) {
        if let Some(k) = self.place_of(id) {
            self.waiting.remove(k);
        }
    }

    /// Forgets all queries that wait.
    pub(crate) fn forget_all(&mut self) {
        self.waiting = Vec::new(self.alloc);
    }

    /// Takes the query that has waited longest, if any waits.
    pub(crate) fn next(&mut self) -> Option<WaitingQuery> {
        if self.waiting.is_empty() {
            return None;
        }
        Some(self.waiting.remove(0))
    }

    // The place of this session's query among those that wait.
    fn place_of(&self, id: u64) -> Option<usize>
        ensures { IfSome result (λ k. k < length self.now.waiting.items) }
    {
        for k in 0..self.waiting.len() {
            if self.waiting[k].id == id {
                return Some(k);
            }
        }
        None
    }
}
