//! Tests of words of a seed and of noise.

mod sources;
