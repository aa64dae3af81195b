//! Tests of snapshots and stores.

mod refused_memory;
