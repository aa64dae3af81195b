//! The frames of a stream, by their kinds alone.

ghost use Rattle.std.specs.Prelude.{◌≡◌, ◌++◌, List};
ghost use Rattle.service_watch.specs.Counts.{Amount, IsTally};
ghost use Rattle.service_watch.specs.Scans.{after_byte, ended_kind, frame_of, frames_in};
ghost use Rattle.service_watch.specs.Scans.{scan_after};

use crate::counters::{Counted, Counters};

/// Where in a stream of frames the next byte is.
#[derive(Clone, Copy)]
pub struct FrameScan {
    // How many bytes of a frame came.
    came: u64,
    // What those of its length come to.
    len: u64,
    // Its kind.
    kind: u8,
}

impl FrameScan {
    /// At the start of a stream.
    pub fn new() -> FrameScan
        ensures { result ≡ record { came = 0; len = 0; kind = 0 } }
    {
        FrameScan {
            came: 0,
            len: 0,
            kind: 0,
        }
    }

    /// Counts the frames that end in some bytes, by their kinds.
    pub fn count(&mut self, bytes: &[u8], counters: &mut Counters)
        ensures tally { (events : List Amount) → IsTally counters.old.counts events →
            IsTally counters.new.counts (events ++ frames_in self.old bytes.now) }
        ensures scan { self.new ≡ scan_after self.old bytes.now }
    {
        for byte in bytes {
            self.count_byte(*byte, counters);
        }
    }

    // Counts the frame that ends with the next byte, if one does.
    fn count_byte(&mut self, byte: u8, counters: &mut Counters)
        ensures tally { (events : List Amount) → IsTally counters.old.counts events →
            IsTally counters.new.counts (events ++ frame_of (ended_kind self.old byte)) }
        ensures scan { self.new ≡ after_byte self.old byte }
    {
        if let Some(kind) = self.take(byte) {
            counters.add(Counted::Frame(kind), 1);
        }
    }

    // Takes the next byte, and returns the kind of the frame that ends with it, if one does.
    #[tactic(auto, unfolding(crate::specs::Scans::after_byte, crate::specs::Scans::ended_kind))]
    fn take(&mut self, byte: u8) -> Option<u8>
        ensures scan { self.new ≡ after_byte self.old byte }
        ensures kind { result ≡ ended_kind self.old byte }
    {
        if self.came < 4 {
            self.len = (self.len >> 8) + (byte as u64) * 0x100_0000;
        } else if self.came == 4 {
            self.kind = byte;
        }
        self.came = self.came.saturating_add(1);
        if self.came < self.len.saturating_add(5) {
            return None;
        }
        let kind = self.kind;
        *self = FrameScan::new();
        Some(kind)
    }
}
