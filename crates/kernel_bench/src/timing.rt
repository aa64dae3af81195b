//! Each kernel, timed. A time is that of the quickest turn, in nanoseconds; None if there is no
//! clock.

ghost use Rattle.std.specs.Prelude.{◌≡◌, ◌≤◌, ◌*◌, length, OnSome};
ghost use Rattle.matrix_u32.specs.Matrix.{product};

use digit_pack::{DigitStore, Packed3};
use lane_kernels::{Lanes, split_row};
use matrix_u32::{Kernel, Matrix};
use std::time::Instant;

/// The time now.
pub fn now(rt: &HostRuntime) -> Option<Instant> {
    Instant::now(rt).ok()
}

/// The nanoseconds since a start.
pub fn nanos_since(rt: &HostRuntime, start: Instant) -> Option<u64> {
    let took = now(rt)?.duration_since(start);
    Some(u64::try_from(took.as_nanos()).unwrap_or(u64::MAX))
}

/// The time and the word.
pub fn dot(rt: &HostRuntime, turns: u32, x: &[u32], y: &[u32]) -> Option<(u64, u32)>
    requires { length x.now ≡ length y.now }
{
    let mut least = u64::MAX;
    let mut word = 0;
    for _turn in 0..turns {
        let start = now(rt)?;
        word = Lanes.dot(x, y);
        least = least.min(nanos_since(rt, start)?);
    }
    Some((least, word))
}

pub fn flat(rt: &HostRuntime, turns: u32, a: &Matrix, x: &[u32], out: &mut [u32]) -> Option<u64>
    requires x_fits { length x.now ≡ a.now.cols }
    requires out_fits { length out.old ≡ a.now.rows }
{
    let mut least = u64::MAX;
    for _turn in 0..turns {
        let start = now(rt)?;
        Lanes.mul_vec(a, x, out);
        least = least.min(nanos_since(rt, start)?);
    }
    Some(least)
}

/// A product with digits as a store keeps them, three in a word.
pub fn packed(
    rt: &HostRuntime,
    turns: u32,
    digits: &Packed3,
    x: &[u32],
    out: &mut [u32],
) -> Option<u64>
    requires x_fits { length x.now ≡ digits.now.cols }
    requires out_fits { length out.old ≡ digits.now.rows }
{
    let mut least = u64::MAX;
    for _turn in 0..turns {
        let start = now(rt)?;
        digits.mul_vec(Lanes, x, out);
        least = least.min(nanos_since(rt, start)?);
    }
    Some(least)
}

/// The same product so many times one after another: the time of all together.
pub fn packed_in_a_row(
    rt: &HostRuntime,
    turns: u32,
    store: &Packed3,
    x: &[u32],
    out: &mut [u32],
) -> Option<u64>
    requires x_fits { length x.now ≡ store.now.cols }
    requires out_fits { length out.old ≡ store.now.rows }
{
    let start = now(rt)?;
    for _turn in 0..turns {
        store.mul_vec(Lanes, x, out);
    }
    nanos_since(rt, start)
}

/// Products of such digits with two vectors.
pub fn packed_two(
    rt: &HostRuntime,
    turns: u32,
    digits: &Packed3,
    x: &[u32],
    y: &[u32],
    x_out: &mut [u32],
    y_out: &mut [u32],
) -> Option<u64>
    requires x_fits { length x.now ≡ digits.now.cols }
    requires y_fits { length y.now ≡ digits.now.cols }
    requires x_room { length x_out.old ≡ digits.now.rows }
    requires y_room { length y_out.old ≡ digits.now.rows }
{
    let mut least = u64::MAX;
    for _turn in 0..turns {
        let start = now(rt)?;
        digits.mul_two(Lanes, x, y, x_out, y_out);
        least = least.min(nanos_since(rt, start)?);
    }
    Some(least)
}

/// The answer to a query, over digits as a store keeps them.
pub fn answer(
    rt: &HostRuntime,
    turns: u32,
    digits: &Packed3,
    query: &[u32],
) -> Option<(u64, Vec<u32>)>
    requires { length query.now ≡ digits.now.cols }
{
    let mut least = u64::MAX;
    let mut words = Vec::new(rt.alloc());
    for _turn in 0..turns {
        let start = now(rt)?;
        words = simple_scheme::answer(rt.alloc(), Lanes, digits, query).ok()?;
        least = least.min(nanos_since(rt, start)?);
    }
    Some((least, words))
}

/// SimplePIR's hint, made in one turn.
pub fn simple_setup(rt: &HostRuntime, digits: &Packed3, a1: &Matrix) -> Option<(u64, Matrix)>
    requires rows { a1.now.rows ≡ digits.now.cols }
    requires size { digits.now.rows * a1.now.cols ≤ 33554432 }
{
    let start = now(rt)?;
    let hint = simple_scheme::setup(rt.alloc(), Lanes, digits, a1).ok()?;
    Some((nanos_since(rt, start)?, hint))
}

/// Both hints of DoublePIR in digits of ten bits, made in one turn; the client's is given back.
pub fn double_setup(rt: &HostRuntime, hint: &Matrix, a2: &Matrix) -> Option<(u64, Matrix)>
    requires rows { a2.now.rows ≡ hint.now.rows }
    requires cols { a2.now.cols ≡ hint.now.cols }
    requires row_limit { hint.now.rows ≤ 4096 }
    requires col_limit { hint.now.cols ≤ 1024 }
{
    let start = now(rt)?;
    let made: (Packed3, Matrix) = double_scheme::setup(rt.alloc(), Lanes, hint, a2, 10).ok()?;
    let took = nanos_since(rt, start)?;
    let (_server, client) = made;
    Some((took, client))
}

/// Adds each row of `a` to one list, which holds zeros before.
pub fn scaled(rt: &HostRuntime, turns: u32, a: &Matrix, k: u32, out: &mut [u32]) -> Option<u64>
    requires { length out.old ≡ a.now.cols }
{
    let mut least = u64::MAX;
    for _turn in 0..turns {
        out.fill(0);
        let start = now(rt)?;
        add_rows(a, k, out);
        least = least.min(nanos_since(rt, start)?);
    }
    Some(least)
}

fn add_rows(a: &Matrix, k: u32, out: &mut [u32])
    requires { length out.old ≡ a.now.cols }
    ensures { length out.new ≡ length out.old }
{
    for i in 0..a.rows() {
        Lanes.add_scaled(out, a.row(i), k);
    }
}

/// One product, in one turn.
pub fn product(rt: &HostRuntime, a: &Matrix, b: &Matrix, out: &mut Matrix) -> Option<u64>
    requires fits { a.now.cols ≡ b.now.rows }
    requires rows { out.old.rows ≡ a.now.rows }
    requires cols { out.old.cols ≡ b.now.cols }
    ensures { OnSome result (out.new ≡ product a.now b.now) }
{
    let start = now(rt)?;
    Lanes.mul_into(a, b, out);
    nanos_since(rt, start)
}

/// Splits each word of `a` into four digits of ten bits, in four rows one below the other.
pub fn split(rt: &HostRuntime, turns: u32, a: &Matrix, out: &mut Matrix) -> Option<u64>
    requires rows { out.old.rows ≡ a.now.rows * 4 }
    requires cols { out.old.cols ≡ a.now.cols }
    ensures { OnSome result ((out.new.rows ≡ out.old.rows) × (out.new.cols ≡ out.old.cols)) }
{
    let mut least = u64::MAX;
    for _turn in 0..turns {
        let start = now(rt)?;
        split_rows(a, out);
        least = least.min(nanos_since(rt, start)?);
    }
    Some(least)
}

#[tactic(auto, unfolding(lane_kernels::specs::Digit::split_count))]
fn split_rows(a: &Matrix, out: &mut Matrix)
    requires rows { out.old.rows ≡ a.now.rows * 4 }
    requires cols { out.old.cols ≡ a.now.cols }
    ensures rows { out.new.rows ≡ out.old.rows }
    ensures cols { out.new.cols ≡ out.old.cols }
{
    for r in 0..out.rows() {
        split_row(a.row(r / 4), 10, (r % 4) as u32, out.row_mut(r));
    }
}
