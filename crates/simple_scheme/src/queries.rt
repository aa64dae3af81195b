//! Queries and their answers.

ghost use Rattle.std.specs.Prelude.{◌≡◌, ℕ, ◌+◌, ◌^◌, ◌<◌, IfOk, length};
ghost use Rattle.matrix_u32.specs.Matrix.{WordMatrix};
ghost use Rattle.digit_pack.specs.Layout.{digit_cols, column_of};
ghost use Rattle.seed_expand.specs.Words.{source_rows};
ghost use Rattle.simple_scheme.specs.Simple.{secret, query_noise, simple_query, simple_answer};
ghost use Rattle.simple_scheme.specs.Buffers.{HasSize};
ghost use Rattle.simple_scheme.specs.Masks.{masks_of};

use crate::mask::Mask;
use crate::masks::QueryMasks;
use crate::retrieval::Retrieval;
use digit_pack::{DigitStore, Layout};
use matrix_u32::{Kernel, Matrix};
use seed_expand::WordSource;
use std::alloc::{AllocError, Global};
use std::marker::Model;

/// The memory that a query is made in, taken by sizes alone: no index, number or seed is known yet
/// when it is refused.
///
/// A contract sees it as these sizes.
#[derive(Drop)]
pub struct QueryBuffers {
    layout: Layout,
    mask: Mask,
    words: Vec<u32>,
}

impl Model for QueryBuffers {
    ghost use Rattle.std.specs.Prelude.{◌≡◌, length};
    ghost use Rattle.digit_pack.specs.Layout.{digit_cols, column_of};
    ghost use Rattle.simple_scheme.specs.Buffers.{BufferSizes};

    ghost Value = { BufferSizes };

    ghost view = { λ r. record { layout = r.layout; dimension = length r.mask.secret } };

    ghost invariant = { λ r. (length r.mask.noise ≡ digit_cols r.layout) ×
        (length r.words.items ≡ digit_cols r.layout) };
}

impl QueryBuffers {
    /// Memory for a query on a layout, under a public matrix of `dimension` columns.
    pub fn new(alloc: Global, layout: &Layout, dimension: usize) -> Result<QueryBuffers, AllocError>
        ensures { IfOk result (λ room.
            room ≡ record { layout = layout.now; dimension = dimension }) }
    {
        Ok(QueryBuffers {
            layout: *layout,
            mask: Mask::zeros(alloc, layout.cols(), dimension)?,
            words: vec![in alloc; 0; layout.cols()]?,
        })
    }

    /// The query for record i, as [`query`] says it, under the public matrix whose words a source
    /// gives, row by row. The matrix is never held as a whole. No memory is taken.
    pub fn fill<K: Kernel>(
        self,
        kernel: K,
        source: WordSource,
        seed: &[u8; 32],
        number: u64,
        i: usize,
    ) -> Vec<u32>
        requires number { number < 2 ^ 62 }
        requires record { i < self.layout.count }
        ensures { result.items ≡ simple_query self.layout
            (source_rows source (digit_cols self.layout) self.dimension) seed.now number i }
    {
        let QueryBuffers {
            layout,
            mut mask,
            words: mut out,
        } = self;
        let asked = Retrieval { seed, number, i };
        put_query_under(kernel, source, &asked, &layout, &mut mask, &mut out);
        out
    }

    /// The query for record i of masks: of retrieval c of them, whose number is `number`. Under the
    /// public matrix that they were made of, and with their seed, this is the query as [`query`]
    /// says it. No memory is taken.
    pub fn fill_masked(
        self,
        masks: &QueryMasks,
        c: usize,
        seed: &[u8; 32],
        number: u64,
        i: usize,
    ) -> Vec<u32>
        requires number { number < 2 ^ 62 }
        requires record { i < self.layout.count }
        requires rows { masks.now.rows ≡ digit_cols self.layout }
        requires retrieval { c < masks.now.cols }
        ensures { (a1 : WordMatrix) → (first count : ℕ) →
            masks.now ≡ masks_of a1 seed.now first count → number ≡ first + c →
            result.items ≡ simple_query self.layout a1 seed.now number i }
    {
        let QueryBuffers {
            layout,
            mut mask,
            words: mut out,
        } = self;
        let asked = Retrieval { seed, number, i };
        put_masked_query(masks, c, &asked, &layout, &mut mask, &mut out);
        out
    }
}

/// Writes the query of a retrieval. The mask has the size of `a1`, and what it held is lost.
#[tactic(auto, unfolding(crate::specs::Simple::simple_query))]
pub fn put_query<K: Kernel>(
    kernel: K,
    asked: &Retrieval<'_>,
    a1: &Matrix,
    layout: &Layout,
    mask: &mut Mask,
    out: &mut [u32],
)
    requires number { asked.now.number < 2 ^ 62 }
    requires rows { a1.now.rows ≡ digit_cols layout.now }
    requires record { asked.now.i < layout.now.count }
    requires mask { HasSize a1.now.rows a1.now.cols mask.old }
    requires room { length out.old ≡ a1.now.rows }
    ensures { out.new ≡
        simple_query layout.now a1.now asked.now.seed.now asked.now.number asked.now.i }
{
    let column = draw_for(asked, layout, mask);
    mask.encrypt(kernel, a1, layout.width(), column, out);
}

/// Writes the query of a retrieval under the public matrix whose words a source gives, row by row,
/// one for each column of the layout; a row has as many words as the mask's secret. What the mask
/// held is lost.
#[tactic(auto, unfolding(crate::specs::Simple::simple_query))]
pub fn put_query_under<K: Kernel>(
    kernel: K,
    source: WordSource,
    asked: &Retrieval<'_>,
    layout: &Layout,
    mask: &mut Mask,
    out: &mut [u32],
)
    requires number { asked.now.number < 2 ^ 62 }
    requires record { asked.now.i < layout.now.count }
    requires mask { length mask.old.noise ≡ digit_cols layout.now }
    requires room { length out.old ≡ digit_cols layout.now }
    ensures { out.new ≡ simple_query layout.now
        (source_rows source (digit_cols layout.now) (length mask.old.secret))
        asked.now.seed.now asked.now.number asked.now.i }
{
    let column = draw_for(asked, layout, mask);
    mask.encrypt_under(kernel, source, layout.width(), column, out);
}

/// Writes the query of a retrieval of masks: of retrieval c of them, whose number is that asked
/// for. Under the public matrix that the masks were made of, and with their seed, this is the query
/// as [`query`] says it. What the mask held is lost.
pub fn put_masked_query(
    masks: &QueryMasks,
    c: usize,
    asked: &Retrieval<'_>,
    layout: &Layout,
    mask: &mut Mask,
    out: &mut [u32],
)
    requires number { asked.now.number < 2 ^ 62 }
    requires record { asked.now.i < layout.now.count }
    requires rows { masks.now.rows ≡ digit_cols layout.now }
    requires retrieval { c < masks.now.cols }
    requires mask { length mask.old.noise ≡ digit_cols layout.now }
    requires room { length out.old ≡ digit_cols layout.now }
    ensures { (a1 : WordMatrix) → (first count : ℕ) →
        masks.now ≡ masks_of a1 asked.now.seed.now first count → asked.now.number ≡ first + c →
        out.new ≡ simple_query layout.now a1 asked.now.seed.now asked.now.number asked.now.i }
{
    let column = draw_for(asked, layout, mask);
    masks.put_column(c, out);
    mask.cover(layout.width(), column, out);
}

// Draws what hides the column of the record asked for, and gives the column.
fn draw_for(asked: &Retrieval<'_>, layout: &Layout, mask: &mut Mask) -> usize
    requires number { asked.now.number < 2 ^ 62 }
    requires record { asked.now.i < layout.now.count }
    ensures column { result ≡ column_of layout.now asked.now.i }
    ensures inside { result < digit_cols layout.now }
    ensures secret { mask.new.secret ≡
        secret asked.now.seed.now asked.now.number (length mask.old.secret) }
    ensures noise { mask.new.noise ≡
        query_noise asked.now.seed.now asked.now.number (length mask.old.noise) }
    ensures size { HasSize (length mask.old.noise) (length mask.old.secret) mask.new }
{
    let (_, column) = layout.place(asked.i);
    mask.draw(asked.seed, 4 * asked.number, 0, 0);
    column
}

/// The query for record i: the encryption of its column under the public matrix `a1`, which has a
/// row for each column of the layout. `number` says which retrieval of the client's seed it is.
pub fn query<K: Kernel>(
    alloc: Global,
    kernel: K,
    seed: &[u8; 32],
    number: u64,
    a1: &Matrix,
    layout: &Layout,
    i: usize,
) -> Result<Vec<u32>, AllocError>
    requires number { number < 2 ^ 62 }
    requires rows { a1.now.rows ≡ digit_cols layout.now }
    requires record { i < layout.now.count }
    ensures { IfOk result (λ v. v.items ≡ simple_query layout.now a1.now seed.now number i) }
{
    let mut mask = Mask::zeros(alloc, a1.rows(), a1.cols())?;
    let mut out = vec![in alloc; 0; a1.rows()]?;
    let asked = Retrieval { seed, number, i };
    put_query(kernel, &asked, a1, layout, &mut mask, &mut out);
    Ok(out)
}

/// The answer to the words of a query: the digits times the query, one word for each digit row. Its
/// memory is taken by the number of rows alone.
#[tactic(auto, unfolding(crate::specs::Simple::simple_answer))]
pub fn answer<K: Kernel, S: DigitStore>(
    alloc: Global,
    kernel: K,
    digits: &S,
    words: &[u32],
) -> Result<Vec<u32>, AllocError>
    requires { length words.now ≡ (S.digits digits.now).cols }
    ensures { IfOk result (λ v. v.items ≡ simple_answer (S.digits digits.now) words.now) }
{
    let mut out = vec![in alloc; 0; digits.rows()]?;
    digits.mul_vec(kernel, words, &mut out);
    Ok(out)
}
