//! The memory that queries are made in.

ghost use Rattle.std.specs.Prelude.{◌≡◌, ◌^◌, ◌<◌, ◌≤◌, IfOk};
ghost use Rattle.pir_schemes.specs.Plans.{IsPlan, shape_at};
ghost use Rattle.pir_schemes.specs.Retrievals.{query_words};
ghost use Rattle.pir_schemes.specs.Buffers.{scheme_asked, IsSchemeBuffers};

use crate::plan::{Plan, SecretSeed};
use crate::query_masks::QueryMasks;
use crate::scheme::Scheme;
use digit_pack::Layout;
use matrix_u32::Kernel;
use seed_expand::{WordSource, source_gives_rows};
use std::alloc::{AllocError, Global};
use std::marker::Model;

// What the schemes do not have in common.
#[derive(Drop)]
enum SchemeBuffers {
    Simple(simple_scheme::QueryBuffers),
    Double(double_scheme::QueryBuffers),
}

/// The memory that a query is made in, taken for a scheme, a plan and a count of records: no index,
/// number or secret seed is known yet when it is refused. The public matrices are made row by row
/// with each query, and not held.
///
/// A contract sees it as these three.
#[derive(Drop)]
pub struct QueryBuffers {
    plan: Plan,
    count: usize,
    words: SchemeBuffers,
}

impl Model for QueryBuffers {
    ghost use Rattle.pir_schemes.specs.Buffers.{Asking, IsQueryBuffers, scheme_asked};

    ghost Value = { Asking };

    ghost view = { λ r.
        record { scheme = scheme_asked r.words; plan = r.plan; count = r.count } };

    ghost invariant = { λ r. IsQueryBuffers r.plan r.count r.words };
}

impl QueryBuffers {
    /// Memory for a query of a scheme on `count` records.
    ///
    /// # Errors
    ///
    /// Only refused memory gives an `Err`.
    pub fn new(
        alloc: Global,
        scheme: Scheme,
        plan: &Plan,
        count: usize,
    ) -> Result<QueryBuffers, AllocError>
        requires { IsPlan plan.now count }
        ensures { IfOk result (λ room.
            room ≡ record { scheme = scheme; plan = plan.now; count = count }) }
    {
        // The sizes are within the limits: this can't fail.
        let layout = plan.layout(count).unwrap();
        let n = usize::from(plan.dimension);
        let words = scheme_buffers(alloc, scheme, &layout, n)?;
        Ok(QueryBuffers {
            plan: *plan,
            count,
            words,
        })
    }

    /// The query for record i. `number` says which retrieval of the client's seed it is. Takes no
    /// memory.
    #[tactic(auto, unfolding(crate::specs::Retrievals::query_words))]
    pub fn fill<K: Kernel>(self, kernel: K, seed: &SecretSeed, number: u64, i: usize) -> Vec<u32>
        requires number { number < 2 ^ 62 }
        requires record { i < self.count }
        ensures { result.items ≡ query_words self.scheme (shape_at self.plan self.count)
            self.plan.dimension self.plan.seed seed.now number i }
    {
        let QueryBuffers { plan, words, .. } = self;
        source_gives_rows();
        let first = WordSource::at(&plan.seed, 0, 0);
        let seed = seed.bytes();
        match words {
            SchemeBuffers::Simple(room) => room.fill(kernel, first, seed, number, i),
            SchemeBuffers::Double(room) => {
                let second = WordSource::at(&plan.seed, 1, 0);
                room.fill(kernel, first, second, seed, number, i)
            }
        }
    }

    /// The same query, made of masks, without the first public matrix, if there are masks that
    /// serve it.
    #[tactic(auto, unfolding(crate::specs::Retrievals::query_words))]
    pub fn fill_masked<K: Kernel>(
        self,
        kernel: K,
        masks: &Option<QueryMasks>,
        seed: &SecretSeed,
        number: u64,
        i: usize,
    ) -> Vec<u32>
        requires number { number < 2 ^ 62 }
        requires record { i < self.count }
        ensures { result.items ≡ query_words self.scheme (shape_at self.plan self.count)
            self.plan.dimension self.plan.seed seed.now number i }
    {
        let Some(masks) = masks else {
            return self.fill(kernel, seed, number, i);
        };
        if !masks.serve(&self.plan, self.count, seed, number) {
            return self.fill(kernel, seed, number, i);
        }
        let QueryBuffers { words, .. } = self;
        match words {
            SchemeBuffers::Simple(room) => masks.fill(room, number, i),
            SchemeBuffers::Double(room) => masks.fill_double(kernel, room, number, i),
        }
    }
}

// Memory for a query of a scheme, under public matrices of n columns.
fn scheme_buffers(
    alloc: Global,
    scheme: Scheme,
    layout: &Layout,
    n: usize,
) -> Result<SchemeBuffers, AllocError>
    requires { n ≤ 1024 }
    ensures scheme { IfOk result (λ room. scheme_asked room ≡ scheme) }
    ensures room { IfOk result (IsSchemeBuffers layout.now n) }
{
    match scheme {
        Scheme::Simple => {
            let room = simple_scheme::QueryBuffers::new(alloc, layout, n)?;
            Ok(SchemeBuffers::Simple(room))
        }
        Scheme::Double => {
            let room = double_scheme::QueryBuffers::new(alloc, layout, n, n)?;
            Ok(SchemeBuffers::Double(room))
        }
    }
}
