//! Publications in a store.

use crate::figure::Figure;
use crate::timing::{nanos_since, now};
use crate::work::BenchSizes;
use lane_kernels::Lanes;
use std::alloc::Global;
use version_store::{Header, Scheme, Store};

// Records of 80 bytes are 64 digits of ten bits.
const RECORD_LEN: u16 = 80;

const DIGITS: u64 = 64;

// The record that is edited.
const EDITED: usize = 17;

/// Opens a store of `side` columns, publishes one record in each turn, of which each digit changes,
/// and prints how long it took for each row of digits. None if memory or the clock is refused.
pub fn time_publication(rt: &HostRuntime, sizes: BenchSizes) -> Option<()> {
    let mut store = opened(rt.alloc(), header_of(sizes))?;
    let took = publications(rt, sizes.turns, &mut store)?;
    let made = store.hint_words(Scheme::Simple, 0).unwrap_or(&[]);
    Figure::new("publication of a row", 0, 0, took / DIGITS, made).print(rt, sizes.nanos)
}

// The time of the quickest publication.
fn publications(rt: &HostRuntime, turns: u32, store: &mut Store<Lanes>) -> Option<u64> {
    let mut least = u64::MAX;
    for turn in 0..turns {
        // The digits of these bytes are 0x2aa in one turn and 0x155 in the next.
        let byte = if turn % 2 == 0 { 0xaa } else { 0x55 };
        store.edit(EDITED, &[byte; 80]).ok()?;
        let start = now(rt)?;
        store.publish().ok()?;
        least = least.min(nanos_since(rt, start)?);
    }
    Some(least)
}

/// Opens a store with a row of digits for each of `side` records of one byte, publishes a quarter
/// of them in each turn, one after another, and prints how long it took. None if memory or the
/// clock is refused.
pub fn time_neighbours(rt: &HostRuntime, sizes: BenchSizes) -> Option<()> {
    let header = Header {
        form: 1,
        width: 8,
        record_len: 1,
        groups: sizes.side,
        count: u32::from(sizes.side),
        ..header_of(sizes)
    };
    let mut store = opened(rt.alloc(), header)?;
    let took = neighbours(rt, sizes, &mut store)?;
    let made = store.hint_words(Scheme::Double, 0).unwrap_or(&[]);
    Figure::new("publication of neighbours", 0, 0, took, made).print(rt, sizes.nanos)
}

// The time of the quickest publication.
fn neighbours(rt: &HostRuntime, sizes: BenchSizes, store: &mut Store<Lanes>) -> Option<u64> {
    let mut least = u64::MAX;
    for turn in 0..sizes.turns {
        let byte = if turn % 2 == 0 { 0xaa } else { 0x55 };
        for record in 0..usize::from(sizes.side / 4) {
            store.edit(record, &[byte]).ok()?;
        }
        let start = now(rt)?;
        store.publish().ok()?;
        least = least.min(nanos_since(rt, start)?);
    }
    Some(least)
}

// Records of 80 bytes in `side` columns.
fn header_of(sizes: BenchSizes) -> Header {
    Header {
        form: 1,
        width: 10,
        record_len: RECORD_LEN,
        groups: sizes.groups,
        count: u32::from(sizes.side).saturating_mul(u32::from(sizes.groups)),
        dimension: sizes.secret,
        version: 1,
        seed: [0; 32],
        publisher: [0; 32],
    }
}

fn opened(alloc: Global, header: Header) -> Option<Store<Lanes>> {
    let records = records_of(alloc, &header)?;
    Store::open(alloc, Lanes, header.with_records(records)).ok()
}

// Bytes for as many records as the header names.
fn records_of(alloc: Global, header: &Header) -> Option<Vec<u8>> {
    let count = (header.count as usize).saturating_mul(usize::from(header.record_len));
    let mut records = Vec::from_elem(alloc, 0u8, count).ok()?;
    let mut state = 1u32;
    for byte in records.iter_mut() {
        state = state.wrapping_mul(1_664_525).wrapping_add(1_013_904_223);
        *byte = (state >> 24) as u8;
    }
    Some(records)
}
