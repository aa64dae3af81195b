//! Why a server refuses a frame, and the code of it in Refused.

ghost use Rattle.std.specs.Prelude.{◌≡◌};
ghost use Rattle.frame_codec.specs.Refusals.{code_of};

/// Why a server refuses a frame.
#[derive(Clone, Copy, Debug, PartialEq, Eq)]
pub enum Refusal {
    /// A frame that can't be read, or that no client sends. The session is closed.
    BadFrame,
    /// No greeting was accepted yet.
    NotWelcome,
    /// A greeting in another profile.
    BadProfile,
    /// A key that is neither a reader's nor the publisher's.
    BadKey,
    /// Only the publisher may do this.
    NotPublisher,
    /// There is no such record.
    BadIndex,
    /// The bytes can't be a record.
    BadLength,
    /// No edit and no append was accepted since the last publication.
    NothingToPublish,
    /// There is no further version number.
    VersionsUsedUp,
    /// The hint has no such part.
    BadPart,
    /// A query of this scheme has another number of words.
    BadQueryLength,
    /// Memory was refused.
    Memory,
    /// The scheme isn't offered.
    BadScheme,
    /// The draft has as many records as its layout allows.
    Full,
}

impl Refusal {
    /// The code that Refused carries.
    pub fn code(self) -> u8
        ensures { result ≡ code_of self }
    {
        match self {
            Refusal::BadFrame => 1,
            Refusal::NotWelcome => 2,
            Refusal::BadProfile => 3,
            Refusal::BadKey => 4,
            Refusal::NotPublisher => 5,
            Refusal::BadIndex => 6,
            Refusal::BadLength => 7,
            Refusal::NothingToPublish => 8,
            Refusal::VersionsUsedUp => 9,
            Refusal::BadPart => 10,
            Refusal::BadQueryLength => 11,
            Refusal::Memory => 12,
            Refusal::BadScheme => 13,
            Refusal::Full => 14,
        }
    }
}
