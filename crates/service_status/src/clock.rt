//! The clocks of the machine. One that can't be read shows zero.

use std::time::{Instant, SystemTime, UNIX_EPOCH};

/// How many microseconds have passed since a moment; 0 if there is none, or the clock can't be
/// read.
pub fn micros_since(rt: &HostRuntime, moment: Option<Instant>) -> u64 {
    let Some(moment) = moment else {
        return 0;
    };
    match moment.elapsed(rt) {
        Ok(elapsed) => u64::try_from(elapsed.as_micros()).unwrap_or(u64::MAX),
        Err(_) => 0,
    }
}

/// Milliseconds since 1970 began in UTC; 0 if the clock can't be read.
pub fn unix_millis(rt: &HostRuntime) -> u64 {
    let Ok(now) = SystemTime::now(rt) else {
        return 0;
    };
    match now.duration_since(UNIX_EPOCH) {
        Ok(since) => u64::try_from(since.as_millis()).unwrap_or(u64::MAX),
        Err(_) => 0,
    }
}
