//! The products of words, and the plain way to make them.

ghost use Rattle.std.specs.Prelude.{◌≡◌, ◌+◌, ◌<◌, ◌≤◌, length, slice_index};
ghost use Rattle.matrix_u32.specs.Sum.{dot};
ghost use Rattle.matrix_u32.specs.Matrix.{entry, product, row, times_vector, plus_scaled};
ghost use Rattle.matrix_u32.specs.Blocks.{plus_rows};

use crate::matrix::Matrix;

/// What makes products of words. All arithmetic is modulo 2^32: each word of a result is the sum of
/// the products over whole numbers, reduced once at the end.
///
/// Every implementation gives the same words, so code above is proved once for all of them. An
/// implementation writes four calls; `add_rows` goes by `add_scaled` if no faster way is written.
pub trait Kernel: Copy {
    /// The dot product x . y of two lists of the same length.
    fn dot(self, x: &[u32], y: &[u32]) -> u32
        requires { length x.now ≡ length y.now }
        ensures { result ≡ dot x.now y.now };

    /// Writes a x into `out`, whatever it held: `x` has a word for each column of `a`, `out` one
    /// for each row.
    fn mul_vec(self, a: &Matrix, x: &[u32], out: &mut [u32])
        requires x_fits { length x.now ≡ a.now.cols }
        requires out_fits { length out.old ≡ a.now.rows }
        ensures { out.new ≡ times_vector a.now x.now };

    /// Writes a b into `out`, whatever it held.
    fn mul_into(self, a: &Matrix, b: &Matrix, out: &mut Matrix)
        requires fits { a.now.cols ≡ b.now.rows }
        requires rows { out.old.rows ≡ a.now.rows }
        requires cols { out.old.cols ≡ b.now.cols }
        ensures { out.new ≡ product a.now b.now };

    /// Adds k x to `out`, word by word.
    fn add_scaled(self, out: &mut [u32], x: &[u32], k: u32)
        requires { length x.now ≡ length out.old }
        ensures { out.new ≡ plus_scaled out.old x.now k };

    /// Adds the rows of `b` from `start` on to `out`, each times its factor.
    fn add_rows(self, out: &mut [u32], factors: &[u32], b: &Matrix, start: usize)
        requires width { length out.old ≡ b.now.cols }
        requires inside { start + length factors.now ≤ b.now.rows }
        ensures { out.new
            ≡ plus_rows out.old (length factors.now) (λ k. slice_index factors.now k) b.now start }
    {
        let _rows = b.rows();
        for k in 0..factors.len() {
            self.add_scaled(out, b.row(start + k), factors[k]);
        }
    }
}

/// The plain kernel: one word after the other, as the definitions say it. Faster kernels are
/// compared with it.
#[derive(Clone, Copy, Debug)]
pub struct Plain;

impl Kernel for Plain {
    #[tactic(auto, using(crate::proofs::Sums::sum_below_more, crate::proofs::Sums::sum_below_none), unfolding(crate::specs::Sum::dot))]
    fn dot(self, x: &[u32], y: &[u32]) -> u32 {
        let mut sum: u32 = 0;
        for k in 0..x.len() {
            sum = sum.wrapping_add(x[k].wrapping_mul(y[k]));
        }
        sum
    }

    fn mul_vec(self, a: &Matrix, x: &[u32], out: &mut [u32]) {
        for i in 0..out.len() {
            out[i] = self.dot(a.row(i), x);
        }
    }

    fn mul_into(self, a: &Matrix, b: &Matrix, out: &mut Matrix) {
        let _rows = out.rows();
        for i in 0..a.rows() {
            put_product_row(a, b, i, out.row_mut(i));
        }
    }

    fn add_scaled(self, out: &mut [u32], x: &[u32], k: u32) {
        for j in 0..out.len() {
            out[j] = out[j].wrapping_add(k.wrapping_mul(x[j]));
        }
    }
}

// Row i of a times b.
fn put_product_row(a: &Matrix, b: &Matrix, i: usize, out: &mut [u32])
    requires fits { a.now.cols ≡ b.now.rows }
    requires row { i < a.now.rows }
    requires width { length out.old ≡ b.now.cols }
    ensures { out.new ≡ row (product a.now b.now) i }
{
    for j in 0..b.cols() {
        out[j] = column_dot(a, b, i, j);
    }
}

// Row i of a times column j of b.
#[tactic(auto, using(crate::proofs::Sums::sum_below_more, crate::proofs::Sums::sum_below_none))]
fn column_dot(a: &Matrix, b: &Matrix, i: usize, j: usize) -> u32
    requires fits { a.now.cols ≡ b.now.rows }
    requires row { i < a.now.rows }
    requires col { j < b.now.cols }
    ensures { result ≡ entry (product a.now b.now) i j }
{
    let mut sum: u32 = 0;
    for k in 0..a.cols() {
        sum = sum.wrapping_add(a.get(i, k).wrapping_mul(b.get(k, j)));
    }
    sum
}
