//! Masks: what the queries of several retrievals are made of, before any record is named.

ghost use Rattle.std.specs.Prelude.{◌≡◌, ◌+◌, ◌^◌, ◌<◌, ◌≤◌, length, IfOk};
ghost use Rattle.matrix_u32.specs.Matrix.{column};
ghost use Rattle.digit_pack.specs.Layout.{digit_cols};
ghost use Rattle.seed_expand.specs.Words.{source_rows};
ghost use Rattle.simple_scheme.specs.Masks.{secrets_of, masks_of, row_products};

use crate::mask::draw_words;
use digit_pack::Layout;
use matrix_u32::{Kernel, Matrix};
use seed_expand::{WordSource, fill_words};
use std::alloc::{AllocError, Global};
use std::marker::Model;

/// The memory that masks are made in, taken by sizes alone: no number or seed is known yet when it
/// is refused.
///
/// A contract sees it as these sizes.
#[derive(Drop)]
pub struct MaskBuffers {
    // A row for each retrieval.
    secrets: Matrix,
    // As long as a secret.
    row: Vec<u32>,
    // A row for each of the public matrix, a column for each retrieval.
    products: Matrix,
}

impl Model for MaskBuffers {
    ghost use Rattle.std.specs.Prelude.{◌≡◌, length};
    ghost use Rattle.simple_scheme.specs.Masks.{MaskSizes};

    ghost Value = { MaskSizes };

    ghost view = { λ r. record {
      rows = r.products.rows;
      dimension = r.secrets.cols;
      count = r.secrets.rows;
    } };

    ghost invariant = { λ r. (length r.row.items ≡ r.secrets.cols) ×
        (r.products.cols ≡ r.secrets.rows) };
}

impl MaskBuffers {
    /// Memory for the masks of `count` retrievals on a layout, under a public matrix of `dimension`
    /// columns. Both are at most 1024.
    ///
    /// # Errors
    ///
    /// Only refused memory gives an `Err`.
    pub fn new(
        alloc: Global,
        layout: &Layout,
        dimension: usize,
        count: usize,
    ) -> Result<MaskBuffers, AllocError>
        requires dimension { dimension ≤ 1024 }
        requires count { count ≤ 1024 }
        ensures { IfOk result (λ room. room ≡ record {
          rows = digit_cols layout.now;
          dimension = dimension;
          count = count;
        }) }
    {
        let Ok(secrets) = Matrix::zeros(alloc, count, dimension) else {
            return Err(AllocError);
        };
        let Ok(products) = Matrix::zeros(alloc, layout.cols(), count) else {
            return Err(AllocError);
        };
        Ok(MaskBuffers {
            secrets,
            row: vec![in alloc; 0; dimension]?,
            products,
        })
    }

    /// The masks of the retrievals from number `first` on, under the public matrix whose words a
    /// source gives, row by row. Each row is made once for all of them, and no more than one is
    /// held at any time. No memory is taken.
    pub fn fill<K: Kernel>(
        self,
        kernel: K,
        source: WordSource,
        seed: &[u8; 32],
        first: u64,
    ) -> QueryMasks
        requires numbers { first + self.count ≤ 2 ^ 62 }
        ensures masks { result ≡
            masks_of (source_rows source self.rows self.dimension) seed.now first self.count }
        ensures rows { result.rows ≡ self.rows }
        ensures count { result.cols ≡ self.count }
    {
        let MaskBuffers {
            mut secrets,
            mut row,
            mut products,
        } = self;
        draw_secrets(seed, first, &mut secrets);
        put_products(kernel, source, &secrets, &mut row, &mut products);
        QueryMasks { products }
    }
}

/// The masks of several retrievals: for each row of the public matrix its product with each of
/// their secrets. With its noise and its record's column one column of them is the query of its
/// retrieval (`QueryBuffers::fill_masked`).
///
/// A contract sees them as the matrix of these products.
#[derive(Drop)]
pub struct QueryMasks {
    products: Matrix,
}

impl Model for QueryMasks {
    ghost use Rattle.matrix_u32.specs.Matrix.{WordMatrix};

    ghost Value = { WordMatrix };

    ghost view = { λ m. m.products };
}

impl QueryMasks {
    /// Writes column c: the products with the secret of retrieval c of them.
    pub(crate) fn put_column(&self, c: usize, out: &mut [u32])
        requires column { c < self.now.cols }
        requires room { length out.old ≡ self.now.rows }
        ensures { out.new ≡ column self.now c }
    {
        for j in 0..out.len() {
            out[j] = self.products.get(j, c);
        }
    }
}

// Draws the secrets of the retrievals from number `first` on, one in each row.
fn draw_secrets(seed: &[u8; 32], first: u64, secrets: &mut Matrix)
    requires { first + secrets.old.rows ≤ 2 ^ 62 }
    ensures { secrets.new ≡ secrets_of seed.now first secrets.old.rows secrets.old.cols }
{
    for c in 0..secrets.rows() {
        draw_words(seed, 4 * (first + c as u64), 0, secrets.row_mut(c));
    }
}

// Writes the products of each row of the matrix whose words a source gives with each secret. The
// rows are made one after another in the memory of one, which is `row`.
fn put_products<K: Kernel>(
    kernel: K,
    mut source: WordSource,
    secrets: &Matrix,
    row: &mut [u32],
    products: &mut Matrix,
)
    requires row { length row.old ≡ secrets.now.cols }
    requires cols { products.old.cols ≡ secrets.now.rows }
    ensures { products.new ≡
        row_products (source_rows source products.old.rows secrets.now.cols) secrets.now }
{
    // Called for its bound: a place below 2^68 stays where it is when there are no rows.
    source.place();
    for j in 0..products.rows() {
        fill_words(&mut source, row);
        kernel.mul_vec(secrets, row, products.row_mut(j));
    }
}
