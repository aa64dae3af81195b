//! Who a session speaks for.

ghost use Rattle.std.specs.Prelude.{◌≡◌};
ghost use Rattle.server_core.specs.Serving.{is_closed, is_publisher, is_welcome};

/// Who a session speaks for, as its last accepted greeting says.
#[derive(Clone, Copy, Debug, PartialEq, Eq)]
pub enum Standing {
    /// No greeting was accepted yet.
    Stranger,
    /// A reader: the key of 32 zero bytes.
    Reader,
    /// The publisher: a key with the publisher's digest.
    Publisher,
    /// Nothing more is served.
    Closed,
}

impl Standing {
    /// Whether a greeting was accepted.
    pub fn is_welcome(self) -> bool
        ensures { result ≡ is_welcome self }
    {
        matches!(self, Standing::Reader | Standing::Publisher)
    }

    /// Whether it is the publisher's.
    pub fn is_publisher(self) -> bool
        ensures { result ≡ is_publisher self }
    {
        self == Standing::Publisher
    }

    /// Whether nothing more is served.
    pub fn is_closed(self) -> bool
        ensures { result ≡ is_closed self }
    {
        self == Standing::Closed
    }
}
