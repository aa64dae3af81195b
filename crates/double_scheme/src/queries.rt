//! Queries.

ghost use Rattle.std.specs.Prelude.{◌≡◌, ℕ, ◌+◌, ◌*◌, ◌^◌, ◌<◌, ◌≤◌, IfOk, length};
ghost use Rattle.matrix_u32.specs.Matrix.{WordMatrix};
ghost use Rattle.digit_pack.specs.Layout.{digit_rows, digit_cols, digits_per_record, first_row};
ghost use Rattle.seed_expand.specs.Words.{source_rows};
ghost use Rattle.regev_core.specs.Encryption.{with_noise};
ghost use Rattle.simple_scheme.specs.Masks.{masks_of};
ghost use Rattle.double_scheme.specs.Double.{part_noise, part_queries_of, double_query_count};
ghost use Rattle.double_scheme.specs.Double.{double_query};
ghost use Rattle.double_scheme.specs.Buffers.{HasPartBuffers, HasProducts};

use crate::secrets::{part_secrets, put_matrix_products, put_products, zero_products};
use digit_pack::Layout;
use matrix_u32::{Kernel, Matrix};
use seed_expand::WordSource;
use simple_scheme::{
    Mask, QueryMasks, Retrieval, draw_noise, put_masked_query, put_query, put_query_under,
};
use std::alloc::{AllocError, Global};
use std::marker::Model;

/// The memory of a query's parts: their secrets, the noise of one, a row of the second public
/// matrix, its products with all secrets, and the products of each secret.
#[derive(Drop)]
struct PartBuffers {
    secrets: Vec<u32>,
    noise: Vec<i32>,
    row: Vec<u32>,
    column: Vec<u32>,
    products: Matrix,
}

/// The memory that a query is made in, taken by sizes alone: no index, number or seed is known yet
/// when it is refused.
///
/// A contract sees it as these sizes.
#[derive(Drop)]
pub struct QueryBuffers {
    layout: Layout,
    mask: Mask,
    parts: PartBuffers,
    words: Vec<u32>,
}

impl Model for QueryBuffers {
    ghost use Rattle.std.specs.Prelude.{length};
    ghost use Rattle.double_scheme.specs.Buffers.{QuerySizes, HasQueryBuffers};

    ghost Value = { QuerySizes };

    ghost view = { λ r. record {
      layout = r.layout;
      first_dimension = length r.mask.secret;
      second_dimension = length r.parts.row.items;
    } };

    ghost invariant = { λ r. HasQueryBuffers r.layout r.mask r.parts r.words.items };
}

impl QueryBuffers {
    /// Memory for a query on a layout, under public matrices of so many columns.
    pub fn new(
        alloc: Global,
        layout: &Layout,
        first_dimension: usize,
        second_dimension: usize,
    ) -> Result<QueryBuffers, AllocError>
        requires { second_dimension ≤ 1024 }
        ensures { IfOk result (λ room. room ≡ record {
          layout = layout.now;
          first_dimension = first_dimension;
          second_dimension = second_dimension;
        }) }
    {
        let cols = layout.cols();
        let count = cols + layout.digits_per_record() * layout.rows();
        Ok(QueryBuffers {
            layout: *layout,
            mask: Mask::zeros(alloc, cols, first_dimension)?,
            parts: part_buffers(alloc, layout, second_dimension)?,
            words: vec![in alloc; 0; count]?,
        })
    }

    /// The query for record i, as [`query`] says it, with the words of both public matrices from
    /// sources, row by row. No matrix is held as a whole, and each is gone through once. No memory
    /// is taken.
    pub fn fill<K: Kernel>(
        self,
        kernel: K,
        first: WordSource,
        second: WordSource,
        seed: &[u8; 32],
        number: u64,
        i: usize,
    ) -> Vec<u32>
        requires number { number < 2 ^ 62 }
        requires record { i < self.layout.count }
        ensures words { result.items ≡ double_query self.layout
            (source_rows first (digit_cols self.layout) self.first_dimension)
            (source_rows second (digit_rows self.layout) self.second_dimension)
            seed.now number i }
        ensures count { length result.items ≡ double_query_count self.layout }
    {
        let QueryBuffers {
            layout,
            mut mask,
            parts: room,
            words: mut out,
        } = self;
        let (prefix, parts) = out.split_at_mut(layout.cols());
        let asked = Retrieval { seed, number, i };
        put_query_under(kernel, first, &asked, &layout, &mut mask, prefix);
        put_parts_under(kernel, second, &asked, &layout, room, parts);
        out
    }

    /// The query of a retrieval, whose prefix is made of masks: of retrieval c of them, whose
    /// number is that asked for. Its parts are made by one pass over the second public matrix,
    /// whose words a source gives, row by row. Under the first public matrix that the masks were
    /// made of, and with their seed, this is the query as [`query`] says it. No memory is taken.
    pub fn fill_masked<K: Kernel>(
        self,
        kernel: K,
        masks: &QueryMasks,
        c: usize,
        second: WordSource,
        asked: &Retrieval<'_>,
    ) -> Vec<u32>
        requires number { asked.now.number < 2 ^ 62 }
        requires record { asked.now.i < self.layout.count }
        requires rows { masks.now.rows ≡ digit_cols self.layout }
        requires retrieval { c < masks.now.cols }
        ensures { (a1 : WordMatrix) → (first count : ℕ) →
            masks.now ≡ masks_of a1 asked.now.seed.now first count → asked.now.number ≡ first + c →
            result.items ≡ double_query self.layout a1
            (source_rows second (digit_rows self.layout) self.second_dimension)
            asked.now.seed.now asked.now.number asked.now.i }
    {
        let QueryBuffers {
            layout,
            mut mask,
            parts: room,
            words: mut out,
        } = self;
        let (prefix, parts) = out.split_at_mut(layout.cols());
        put_masked_query(masks, c, asked, &layout, &mut mask, prefix);
        put_parts_under(kernel, second, asked, &layout, room, parts);
        out
    }
}

// Memory for the parts of a query on a layout, under a second public matrix of n columns.
fn part_buffers(alloc: Global, layout: &Layout, n: usize) -> Result<PartBuffers, AllocError>
    requires { n ≤ 1024 }
    ensures room { IfOk result (HasPartBuffers layout.now) }
    ensures dimension { IfOk result (λ room. length room.row.items ≡ n) }
{
    let rows = layout.rows();
    let parts = layout.digits_per_record();
    Ok(PartBuffers {
        secrets: vec![in alloc; 0; parts * n]?,
        noise: vec![in alloc; 0; rows]?,
        row: vec![in alloc; 0; n]?,
        column: vec![in alloc; 0; parts]?,
        products: zero_products(alloc, parts, rows)?,
    })
}

// Writes all parts of a query in one pass over the second public matrix, whose words a source
// gives, row by row.
fn put_parts_under<K: Kernel>(
    kernel: K,
    source: WordSource,
    asked: &Retrieval<'_>,
    layout: &Layout,
    room: PartBuffers,
    out: &mut [u32],
)
    requires number { asked.now.number < 2 ^ 62 }
    requires record { asked.now.i < layout.now.count }
    requires part_buffers { HasPartBuffers layout.now room }
    requires room { length out.old ≡ digits_per_record layout.now * digit_rows layout.now }
    ensures { out.new ≡ part_queries_of layout.now
        (source_rows source (digit_rows layout.now) (length room.row.items))
        asked.now.seed.now asked.now.number asked.now.i }
{
    let PartBuffers {
        secrets,
        mut noise,
        mut row,
        mut column,
        mut products,
    } = room;
    let parts = layout.digits_per_record();
    let secrets = part_secrets(asked.seed, asked.number, parts, row.len(), secrets);
    put_products(
        kernel,
        source,
        &secrets,
        &mut row,
        &mut column,
        &mut products,
    );
    put_noisy_parts(asked, layout, &products, &mut noise, out);
}

// The same under a second public matrix that is held as a whole.
fn put_parts<K: Kernel>(
    kernel: K,
    a2: &Matrix,
    asked: &Retrieval<'_>,
    layout: &Layout,
    room: PartBuffers,
    out: &mut [u32],
)
    requires number { asked.now.number < 2 ^ 62 }
    requires record { asked.now.i < layout.now.count }
    requires rows { a2.now.rows ≡ digit_rows layout.now }
    requires cols { a2.now.cols ≡ length room.row.items }
    requires part_buffers { HasPartBuffers layout.now room }
    requires room { length out.old ≡ digits_per_record layout.now * digit_rows layout.now }
    ensures { out.new ≡
        part_queries_of layout.now a2.now asked.now.seed.now asked.now.number asked.now.i }
{
    let PartBuffers {
        secrets,
        mut noise,
        row,
        mut column,
        mut products,
    } = room;
    let parts = layout.digits_per_record();
    let secrets = part_secrets(asked.seed, asked.number, parts, row.len(), secrets);
    put_matrix_products(kernel, a2, &secrets, &mut column, &mut products);
    put_noisy_parts(asked, layout, &products, &mut noise, out);
}

// Writes all parts of a query from the products of the second public matrix with the secrets, a row
// for each part.
fn put_noisy_parts(
    asked: &Retrieval<'_>,
    layout: &Layout,
    products: &Matrix,
    noise: &mut [i32],
    out: &mut [u32],
)
    requires number { asked.now.number < 2 ^ 62 }
    requires record { asked.now.i < layout.now.count }
    requires parts { products.now.rows ≡ digits_per_record layout.now }
    requires rows { products.now.cols ≡ digit_rows layout.now }
    requires noise { length noise.old ≡ digit_rows layout.now }
    requires room { length out.old ≡ digits_per_record layout.now * digit_rows layout.now }
    ensures { (a2 : WordMatrix) → a2.rows ≡ digit_rows layout.now →
        HasProducts (digits_per_record layout.now) a2
        asked.now.seed.now asked.now.number products.now →
        out.new ≡ part_queries_of layout.now a2 asked.now.seed.now asked.now.number asked.now.i }
{
    let rows = layout.rows();
    for d in 0..layout.digits_per_record() {
        let at = d * rows;
        let part = &mut out[at..at + rows];
        put_noisy_part(asked, layout, products.row(d), d, noise, part);
    }
}

// Writes part d of a query: products, the part's own noise, and delta at the row of the record's
// digit d.
fn put_noisy_part(
    asked: &Retrieval<'_>,
    layout: &Layout,
    products: &[u32],
    d: usize,
    noise: &mut [i32],
    out: &mut [u32],
)
    requires number { asked.now.number < 2 ^ 62 }
    requires record { asked.now.i < layout.now.count }
    requires part { d < digits_per_record layout.now }
    requires rows { length products.now ≡ digit_rows layout.now }
    requires noise { length noise.old ≡ digit_rows layout.now }
    requires room { length out.old ≡ digit_rows layout.now }
    ensures words { out.new ≡ with_noise layout.now.width products.now
        (part_noise asked.now.seed.now asked.now.number (digit_rows layout.now) d)
        (first_row layout.now asked.now.i + d) }
    ensures noise { length noise.new ≡ length noise.old }
{
    let rows = layout.rows();
    let (first, _) = layout.place(asked.i);
    draw_noise(asked.seed, 4 * asked.number + 3, (d * rows) as u64, noise);
    out.copy_from_slice(products);
    regev_core::add_noise(noise, first + d, layout.width(), out);
}

/// The query for record i: the encryption of its column under `a1`, which has a row for each column
/// of the layout, and then, for each digit of the record, the encryption of the digit's row under
/// `a2`, which has a row for each row of the layout and at most 1024 columns. `number` says which
/// retrieval of the client's seed it is.
pub fn query<K: Kernel>(
    alloc: Global,
    kernel: K,
    seed: &[u8; 32],
    number: u64,
    a1: &Matrix,
    a2: &Matrix,
    layout: &Layout,
    i: usize,
) -> Result<Vec<u32>, AllocError>
    requires number { number < 2 ^ 62 }
    requires rows { a1.now.rows ≡ digit_cols layout.now }
    requires second_rows { a2.now.rows ≡ digit_rows layout.now }
    requires second_cols { a2.now.cols ≤ 1024 }
    requires record { i < layout.now.count }
    ensures words { IfOk result (λ v. v.items ≡
        double_query layout.now a1.now a2.now seed.now number i) }
    ensures count { IfOk result (λ v. length v.items ≡ double_query_count layout.now) }
{
    let rows = layout.rows();
    let mut mask = Mask::zeros(alloc, a1.rows(), a1.cols())?;
    let room = part_buffers(alloc, layout, a2.cols())?;
    let count = a1.rows() + layout.digits_per_record() * rows;
    let mut out = vec![in alloc; 0; count]?;
    let (prefix, parts) = out.split_at_mut(a1.rows());
    let asked = Retrieval { seed, number, i };
    put_query(kernel, &asked, a1, layout, &mut mask, prefix);
    put_parts(kernel, a2, &asked, layout, room, parts);
    Ok(out)
}
