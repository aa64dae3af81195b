//! How much of a hint has come, on standard error.

use std::time::{Duration, Instant};

/// How many milliseconds pass at least between two lines, but for the last one.
const BETWEEN: u128 = 1000;

/// How much of a hint has come.
#[derive(Drop)]
pub struct FetchProgress<'a> {
    rt: &'a HostRuntime,
    // When the first ask went out, if anything is said.
    began: Option<Instant>,
    // When a line was printed.
    said: Option<Instant>,
    // How many parts were there before, and how many there are in all.
    first: usize,
    parts: usize,
}

impl<'a> FetchProgress<'a> {
    /// Of so many parts, the first ones are there.
    pub fn new(rt: &'a HostRuntime, says: bool, first: usize, parts: usize) -> FetchProgress<'a> {
        let began = if says { Instant::now(rt).ok() } else { None };
        FetchProgress {
            rt,
            began,
            said: None,
            first,
            parts,
        }
    }

    /// Says how many are there, after the first and the last one that come, and between them once a
    /// second.
    pub fn say(&mut self, taken: usize) {
        let Some(began) = self.began else {
            return;
        };
        if taken < self.parts && !self.is_due() {
            return;
        }
        let Ok(passed) = began.elapsed(self.rt) else {
            return;
        };
        self.said = Instant::now(self.rt).ok();
        let parts = self.parts;
        let left = seconds_left(
            passed,
            taken.saturating_sub(self.first),
            parts.saturating_sub(taken),
        );
        let _ = eprintln!(self.rt; "hint: {taken} of {parts} parts, {left} s left");
    }

    // Whether a second has passed since the last line.
    fn is_due(&self) -> bool {
        let Some(said) = self.said else {
            return true;
        };
        match said.elapsed(self.rt) {
            Ok(passed) => passed.as_millis() >= BETWEEN,
            Err(_) => false,
        }
    }
}

// How many seconds some parts take, rounded up, when others took so long.
fn seconds_left(passed: Duration, taken: usize, left: usize) -> u64 {
    let passed = passed
        .as_secs()
        .saturating_mul(1000)
        .saturating_add(u64::from(passed.subsec_millis()));
    let Some(each) = passed.checked_div(taken as u64) else {
        return 0;
    };
    each.saturating_mul(left as u64).div_ceil(1000)
}
