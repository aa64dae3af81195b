//! The pieces of work that are timed.

ghost use Rattle.std.specs.Prelude.{◌≡◌, ◌<◌, ◌*◌, length, IfSome, OnSome};

use crate::data::{filled, vector};
use crate::figure::Figure;
use crate::timing;
use digit_pack::{DigitStore, Packed3};
use matrix_u32::{MAX_WORDS, Matrix};
use std::alloc::Global;

/// How large the matrices are, and how often the short pieces are done.
#[derive(Clone, Copy)]
pub struct BenchSizes {
    /// The rows of the digit matrix, its columns, and the rows of the public matrix.
    pub side: u16,
    /// The columns of the public matrix.
    pub secret: u16,
    /// How many records share a column.
    pub groups: u16,
    pub turns: u32,
    /// The time that is printed in place of each that was measured, so that all lines are known
    /// before.
    pub nanos: Option<u64>,
}

// The bits of a digit.
const DIGIT: u32 = 1023;

/// Does every piece of work, and prints how long each took. None if memory or the clock is refused.
pub fn time_kernels(rt: &HostRuntime, sizes: BenchSizes) -> Option<()> {
    let side = usize::from(sizes.side);
    let digits = filled(rt.alloc(), side, side, 1, DIGIT)?;
    let public = filled(rt.alloc(), side, usize::from(sizes.secret), 2, u32::MAX)?;
    time_digits(rt, sizes, &digits)?;
    time_packed(rt, sizes, &digits, &public)?;
    hint(rt, &digits, &public)?.print(rt, sizes.nanos)?;
    time_hints(rt, sizes, &public)
}

// What is done with the digits alone.
fn time_digits(rt: &HostRuntime, sizes: BenchSizes, digits: &Matrix) -> Option<()> {
    flat_product(rt, sizes.turns, digits)?.print(rt, sizes.nanos)?;
    long_dot(rt, sizes.turns, digits)?.print(rt, sizes.nanos)?;
    scaled_rows(rt, sizes.turns, digits)?.print(rt, sizes.nanos)
}

// D x for a flat D, all rows at once.
fn flat_product(rt: &HostRuntime, turns: u32, digits: &Matrix) -> Option<Figure> {
    let x = vector(rt.alloc(), digits.cols(), 3)?;
    let mut out = vector(rt.alloc(), digits.rows(), 4)?;
    let took = timing::flat(rt, turns, digits, &x, &mut out)?;
    let count = digits.words().len();
    Some(Figure::new("flat matrix by vector", count, count, took, &out))
}

// The digits as one long list.
fn long_dot(rt: &HostRuntime, turns: u32, digits: &Matrix) -> Option<Figure> {
    let (took, word) = timing::dot(rt, turns, digits.words(), digits.words())?;
    let count = digits.words().len();
    Some(Figure::new("one long dot product", count, count, took, &[word]))
}

// The rows of the digits, added.
fn scaled_rows(rt: &HostRuntime, turns: u32, digits: &Matrix) -> Option<Figure> {
    let mut row = vector(rt.alloc(), digits.cols(), 5)?;
    let took = timing::scaled(rt, turns, digits, 77, &mut row)?;
    let count = digits.words().len();
    Some(Figure::new("rows scaled and added", count, count, took, &row))
}

// What is done with digits as a store keeps them.
fn time_packed(rt: &HostRuntime, sizes: BenchSizes, digits: &Matrix, public: &Matrix) -> Option<()>
    requires { digits.now.cols ≡ public.now.rows }
{
    let store = stored(rt.alloc(), digits)?;
    packed_product(rt, sizes.turns, &store)?.print(rt, sizes.nanos)?;
    two_products(rt, sizes.turns, &store)?.print(rt, sizes.nanos)?;
    query(rt, sizes.turns, &store)?.print(rt, sizes.nanos)?;
    simple_hint(rt, &store, public)?.print(rt, sizes.nanos)
}

// D x for a packed D.
fn packed_product(rt: &HostRuntime, turns: u32, store: &Packed3) -> Option<Figure> {
    let x = vector(rt.alloc(), store.cols(), 3)?;
    let mut out = vector(rt.alloc(), store.rows(), 4)?;
    let took = timing::packed(rt, turns, store, &x, &mut out)?;
    let products = store.rows().saturating_mul(store.cols());
    Some(Figure::new(
        "packed matrix by vector",
        store.words().len(),
        products,
        took,
        &out,
    ))
}

/// Multiplies the digits of a store by a vector so many times one after another, and prints how
/// long one took at the mean.
pub fn time_rate(rt: &HostRuntime, sizes: BenchSizes, turns: u32) -> Option<()> {
    let side = usize::from(sizes.side);
    let digits = filled(rt.alloc(), side, side, 1, DIGIT)?;
    let store = stored(rt.alloc(), &digits)?;
    let x = vector(rt.alloc(), store.cols(), 3)?;
    let mut out = vector(rt.alloc(), store.rows(), 4)?;
    let took = timing::packed_in_a_row(rt, turns, &store, &x, &mut out)?;
    let products = store.rows().saturating_mul(store.cols());
    Figure::new(
        "packed matrix by vector, in a row",
        store.words().len(),
        products,
        took / u64::from(turns.max(1)),
        &out,
    )
    .print(rt, sizes.nanos)
}

// D x and D y for a packed D, which is read once for both.
fn two_products(rt: &HostRuntime, turns: u32, store: &Packed3) -> Option<Figure> {
    let x = vector(rt.alloc(), store.cols(), 3)?;
    let y = vector(rt.alloc(), store.cols(), 8)?;
    let mut out = vector(rt.alloc(), store.rows(), 4)?;
    let mut last = vector(rt.alloc(), store.rows(), 4)?;
    let took = timing::packed_two(rt, turns, store, &x, &y, &mut out, &mut last)?;
    let products = store.rows().saturating_mul(store.cols());
    out.extend_from_slice(&last).ok()?;
    Some(Figure::new(
        "packed matrix by two vectors",
        store.words().len(),
        products.saturating_mul(2),
        took,
        &out,
    ))
}

// The answer to a query.
fn query(rt: &HostRuntime, turns: u32, store: &Packed3) -> Option<Figure> {
    let asked = vector(rt.alloc(), store.cols(), 3)?;
    let (took, words) = timing::answer(rt, turns, store, &asked)?;
    let products = store.rows().saturating_mul(store.cols());
    Some(Figure::new(
        "query answered",
        store.words().len(),
        products,
        took,
        &words,
    ))
}

// SimplePIR's hint.
fn simple_hint(rt: &HostRuntime, store: &Packed3, public: &Matrix) -> Option<Figure>
    requires { store.now.cols ≡ public.now.rows }
{
    if store.rows().checked_mul(public.cols())? > MAX_WORDS {
        return None;
    }
    let (took, hint) = timing::simple_setup(rt, store, public)?;
    let count = store.rows().saturating_mul(store.cols());
    let products = count.saturating_mul(public.cols());
    Some(Figure::new("setup of SimplePIR", count, products, took, hint.words()))
}

// The digits, three in a word.
fn stored(alloc: Global, digits: &Matrix) -> Option<Packed3>
    ensures { IfSome result (λ store. (store.rows ≡ digits.now.rows) ×
        (store.cols ≡ digits.now.cols)) }
{
    let mut store = Packed3::zeros(alloc, digits.rows(), digits.cols()).ok()?;
    store_rows(digits, &mut store);
    Some(store)
}

fn store_rows(digits: &Matrix, store: &mut Packed3)
    requires rows { store.old.rows ≡ digits.now.rows }
    requires cols { store.old.cols ≡ digits.now.cols }
    ensures rows { store.new.rows ≡ store.old.rows }
    ensures cols { store.new.cols ≡ store.old.cols }
{
    for i in 0..digits.rows() {
        store_row(digits.row(i), i, store);
    }
}

fn store_row(row: &[u32], i: usize, store: &mut Packed3)
    requires row { i < store.old.rows }
    requires cols { length row.now ≡ store.old.cols }
    ensures rows { store.new.rows ≡ store.old.rows }
    ensures cols { store.new.cols ≡ store.old.cols }
{
    for j in 0..row.len() {
        store.set(i, j, row[j] % 1024);
    }
}

// The hint D A1.
fn hint(rt: &HostRuntime, digits: &Matrix, public: &Matrix) -> Option<Figure>
    requires { digits.now.cols ≡ public.now.rows }
{
    let mut hint = Matrix::zeros(rt.alloc(), digits.rows(), public.cols()).ok()?;
    let took = timing::product(rt, digits, public, &mut hint)?;
    let count = digits.words().len();
    let products = count.saturating_mul(public.cols());
    Some(Figure::new("D A1", count, products, took, hint.words()))
}

// What is done with a hint, which is `across` read across.
fn time_hints(rt: &HostRuntime, sizes: BenchSizes, public: &Matrix) -> Option<()> {
    let across = filled(rt.alloc(), public.cols(), public.rows(), 6, u32::MAX)?;
    both_hints(rt, &across, public)?.print(rt, sizes.nanos)?;
    let height = public.cols().checked_mul(4)?;
    let mut server = Matrix::zeros(rt.alloc(), height, public.rows()).ok()?;
    server_hint(rt, sizes.turns, &across, &mut server)?.print(rt, sizes.nanos)?;
    client_hint(rt, &server, public)?.print(rt, sizes.nanos)
}

// Both hints of DoublePIR.
fn both_hints(rt: &HostRuntime, across: &Matrix, public: &Matrix) -> Option<Figure>
    requires rows { across.now.rows ≡ public.now.cols }
    requires cols { across.now.cols ≡ public.now.rows }
{
    if public.rows() > 4096 || public.cols() > 1024 {
        return None;
    }
    let hint = transposed(rt.alloc(), across)?;
    let (took, client) = timing::double_setup(rt, &hint, public)?;
    let count = public.rows().saturating_mul(client.rows());
    let products = count.saturating_mul(public.cols());
    Some(Figure::new("setup of DoublePIR", count, products, took, client.words()))
}

fn transposed(alloc: Global, a: &Matrix) -> Option<Matrix>
    ensures { IfSome result (λ m. (m.rows ≡ a.now.cols) × (m.cols ≡ a.now.rows)) }
{
    let mut m = Matrix::zeros(alloc, a.cols(), a.rows()).ok()?;
    read_columns(a, &mut m);
    Some(m)
}

fn read_columns(a: &Matrix, m: &mut Matrix)
    requires rows { m.old.rows ≡ a.now.cols }
    requires cols { m.old.cols ≡ a.now.rows }
    ensures rows { m.new.rows ≡ m.old.rows }
    ensures cols { m.new.cols ≡ m.old.cols }
{
    for i in 0..m.rows() {
        read_column(a, i, m.row_mut(i));
    }
}

fn read_column(a: &Matrix, j: usize, out: &mut [u32])
    requires col { j < a.now.cols }
    requires rows { length out.old ≡ a.now.rows }
{
    for i in 0..out.len() {
        out[i] = a.get(i, j);
    }
}

// The server hint H, which has four rows for each column of the hint.
fn server_hint(rt: &HostRuntime, turns: u32, across: &Matrix, server: &mut Matrix) -> Option<Figure>
    requires rows { server.old.rows ≡ across.now.rows * 4 }
    requires cols { server.old.cols ≡ across.now.cols }
    ensures { OnSome result (server.new.cols ≡ server.old.cols) }
{
    let took = timing::split(rt, turns, across, server)?;
    let count = server.words().len();
    Some(Figure::new("rows split into digits", count, 0, took, server.words()))
}

// H A2.
fn client_hint(rt: &HostRuntime, server: &Matrix, public: &Matrix) -> Option<Figure>
    requires { server.now.cols ≡ public.now.rows }
{
    let mut client = Matrix::zeros(rt.alloc(), server.rows(), public.cols()).ok()?;
    let took = timing::product(rt, server, public, &mut client)?;
    let count = server.words().len();
    let products = count.saturating_mul(public.cols());
    Some(Figure::new("H A2", count, products, took, client.words()))
}
