//! The first layers of several queries, made ahead and together, except for what names a record.

ghost use Rattle.std.specs.Prelude.{◌≡◌, ◌↔◌, ◌+◌, ◌^◌, ◌<◌, ◌≤◌, IfOk, IsTrue};
ghost use Rattle.digit_pack.specs.Layout.{digit_cols, digit_rows};
ghost use Rattle.seed_expand.specs.Words.{public_rows};
ghost use Rattle.simple_scheme.specs.Simple.{simple_query};
ghost use Rattle.double_scheme.specs.Double.{double_query};
ghost use Rattle.pir_schemes.specs.Plans.{IsPlan, shape_at};
ghost use Rattle.pir_schemes.specs.Masks.{Serve, public_over};

use crate::plan::{Plan, SecretSeed};
use matrix_u32::Kernel;
use seed_expand::{WordSource, source_gives_rows};
use simple_scheme::{MaskBuffers, Retrieval};
use std::alloc::{AllocError, Global};
use std::marker::Model;

/// The most retrievals that masks are made for.
pub const MAX_MASKS: usize = 16;

/// What masks are made for: a plan and its columns of digits, and `count` retrievals of a client's
/// seed, from number `first` on.
#[derive(Clone, Copy)]
pub(crate) struct MasksFor {
    plan: Plan,
    cols: usize,
    seed: SecretSeed,
    first: u64,
    count: usize,
}

impl MasksFor {
    // Whether retrieval `number` of a client's seed, on a version with so many records, is one of
    // these.
    fn have(&self, plan: &Plan, records: usize, seed: &SecretSeed, number: u64) -> bool
        requires { IsPlan plan.now records }
        ensures { IsTrue result ↔ Serve self.now plan.now records seed.now number }
    {
        // The sizes are within the limits: this can't fail.
        let layout = plan.layout(records).unwrap();
        self.plan == *plan
            && self.cols == layout.cols()
            && is_same(self.seed.bytes(), seed.bytes())
            && is_among(self.first, self.count, number)
    }
}

fn is_same(seed: &[u8; 32], other: &[u8; 32]) -> bool
    ensures { IsTrue result ↔ (seed.now ≡ other.now) }
{
    seed == other
}

// Whether a number is one of `count` from `first` on.
fn is_among(first: u64, count: usize, number: u64) -> bool
    ensures { IsTrue result ↔ (first ≤ number) × (number < first + count) }
{
    first <= number && number - first < count as u64
}

/// The masks of several retrievals, by either scheme, which their queries are made of once their
/// records are named (`QueryBuffers::fill_masked`): all of a query by SimplePIR, of one by
/// DoublePIR its first part, which is as long. Each row of the first public matrix is made once for
/// all of them.
///
/// A contract sees what they are made for.
#[derive(Drop)]
pub struct QueryMasks {
    made: MasksFor,
    masks: simple_scheme::QueryMasks,
}

impl Model for QueryMasks {
    ghost use Rattle.std.specs.Prelude.{◌≡◌};
    ghost use Rattle.simple_scheme.specs.Masks.{masks_of};
    ghost use Rattle.pir_schemes.specs.declared.query_masks.MasksFor.{MasksFor};
    ghost use Rattle.pir_schemes.specs.Masks.{public_over};

    ghost Value = { MasksFor };

    ghost view = { λ m. m.made };

    ghost invariant = { λ m. m.masks ≡
        masks_of (public_over m.made.plan m.made.cols) m.made.seed m.made.first m.made.count };
}

impl QueryMasks {
    /// The masks of the `count` retrievals of a client's seed from number `first` on, at most 16,
    /// on a version with so many records.
    ///
    /// # Errors
    ///
    /// Only refused memory gives an `Err`; it is asked for first, by sizes alone.
    pub fn new<K: Kernel>(
        alloc: Global,
        kernel: K,
        plan: &Plan,
        records: usize,
        seed: &SecretSeed,
        first: u64,
        count: usize,
    ) -> Result<QueryMasks, AllocError>
        requires plan { IsPlan plan.now records }
        requires numbers { first + count ≤ 2 ^ 62 }
        requires count { count ≤ 16 }
        ensures { IfOk result (λ masks. masks ≡ record {
          plan = plan.now;
          cols = digit_cols (shape_at plan.now records);
          seed = seed.now;
          first = first;
          count = count;
        }) }
    {
        // The sizes are within the limits: this can't fail.
        let layout = plan.layout(records).unwrap();
        let n = usize::from(plan.dimension);
        let room = MaskBuffers::new(alloc, &layout, n, count)?;
        source_gives_rows();
        let source = WordSource::at(&plan.seed, 0, 0);
        let masks = room.fill(kernel, source, seed.bytes(), first);
        let made = MasksFor {
            plan: *plan,
            cols: layout.cols(),
            seed: *seed,
            first,
            count,
        };
        Ok(QueryMasks { made, masks })
    }

    /// Whether retrieval `number` of a client's seed, on a version with so many records, is one of
    /// them.
    pub fn serve(&self, plan: &Plan, records: usize, seed: &SecretSeed, number: u64) -> bool
        requires { IsPlan plan.now records }
        ensures { IsTrue result ↔ Serve self.now plan.now records seed.now number }
    {
        self.made.have(plan, records, seed, number)
    }

    /// The query by SimplePIR for record i of retrieval `number`, which is one of them. Takes no
    /// memory.
    pub(crate) fn fill(&self, room: simple_scheme::QueryBuffers, number: u64, i: usize) -> Vec<u32>
        requires low { self.now.first ≤ number }
        requires high { number < self.now.first + self.now.count }
        requires number { number < 2 ^ 62 }
        requires columns { digit_cols room.layout ≡ self.now.cols }
        requires record { i < room.layout.count }
        ensures { result.items ≡
            simple_query room.layout (public_over self.now.plan self.now.cols) self.now.seed number
            i }
    {
        let c = (number - self.made.first) as usize;
        room.fill_masked(&self.masks, c, self.made.seed.bytes(), number, i)
    }

    /// The query by DoublePIR for record i of retrieval `number`, which is one of them. The rows of
    /// the second public matrix are made for it alone. Takes no memory.
    pub(crate) fn fill_double<K: Kernel>(
        &self,
        kernel: K,
        room: double_scheme::QueryBuffers,
        number: u64,
        i: usize,
    ) -> Vec<u32>
        requires low { self.now.first ≤ number }
        requires high { number < self.now.first + self.now.count }
        requires number { number < 2 ^ 62 }
        requires columns { digit_cols room.layout ≡ self.now.cols }
        requires record { i < room.layout.count }
        ensures { result.items ≡
            double_query room.layout (public_over self.now.plan self.now.cols)
            (public_rows self.now.plan.seed 1 0 (digit_rows room.layout) room.second_dimension)
            self.now.seed number i }
    {
        let c = (number - self.made.first) as usize;
        source_gives_rows();
        let second = WordSource::at(&self.made.plan.seed, 1, 0);
        let seed = self.made.seed.bytes();
        let asked = Retrieval { seed, number, i };
        room.fill_masked(kernel, &self.masks, c, second, &asked)
    }
}
