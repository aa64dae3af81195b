//! What a reply begins with.

ghost use Rattle.std.specs.Prelude.{◌≡◌};
ghost use Rattle.service_watch.specs.Replies.{reply_head};

/// The first bytes of a reply.
#[derive(Clone, Copy, Debug, PartialEq, Eq)]
pub struct ReplyHead {
    /// Its kind.
    pub kind: u8,
    /// The first byte of its payload: a refusal's code, an answer's scheme. 0 if there is none.
    pub first: u8,
}

/// What a reply begins with; none if it doesn't have the five bytes before a payload.
pub fn head_of_reply(bytes: &[u8]) -> Option<ReplyHead>
    ensures { result ≡ reply_head bytes.now }
{
    if bytes.len() < 5 {
        return None;
    }
    let kind = bytes[4];
    let first = if bytes.len() > 5 { bytes[5] } else { 0 };
    Some(ReplyHead { kind, first })
}
