//! Tests of frames.

mod refused_memory;
mod room;
