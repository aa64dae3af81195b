//! Where the frame that is awaited ends.

/// How many bytes of a frame say how long its payload is.
const LEN_BYTES: usize = 4;

/// How many bytes come before the payload: its length and its kind.
const PREFIX_LEN: usize = 5;

/// The most bytes of a payload.
const MOST_PAYLOAD: usize = 1 << 24;

/// How much of one frame has come.
#[derive(Clone, Copy, Debug, Default)]
pub struct FrameEnd {
    len: [u8; LEN_BYTES],
    came: usize,
}

impl FrameEnd {
    /// Takes more bytes. Returns whether the frame is whole then; none if it is longer than any, or
    /// bytes come after it.
    pub fn take(&mut self, piece: &[u8]) -> Option<bool> {
        self.note_len(piece);
        self.came = self.came.saturating_add(piece.len());
        if self.came < LEN_BYTES {
            return Some(false);
        }
        let len = u32::from_le_bytes(self.len) as usize;
        let whole = PREFIX_LEN + len;
        if len > MOST_PAYLOAD || self.came > whole {
            return None;
        }
        Some(self.came == whole)
    }

    // Notes what a piece says of the frame's length.
    fn note_len(&mut self, piece: &[u8]) {
        let mut at = self.came;
        for byte in piece {
            if at >= LEN_BYTES {
                return;
            }
            self.len[at] = *byte;
            at += 1;
        }
    }
}
