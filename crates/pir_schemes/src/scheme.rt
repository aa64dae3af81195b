//! The two schemes, and the profile that a client asks for.

ghost use Rattle.std.specs.Prelude.{◌≡◌};
ghost use Rattle.pir_schemes.specs.Schemes.{scheme_byte, scheme_of_byte};
ghost use Rattle.pir_schemes.specs.Plans.{client_profile};

/// The profile that a client of an ordinary store asks for in its greeting: forms 1 and 2 are known
/// to it. A server speaks the profile of its form.
pub const CLIENT_PROFILE: u16 = 2;

/// The profile that a client of a wide store asks for: forms 129 and 130 are known to it.
pub const WIDE_PROFILE: u16 = 130;

/// The profile that a client asks for, of a wide store or of an ordinary one.
pub fn client_profile(wide: bool) -> u16
    ensures { result ≡ client_profile wide }
{
    if wide { WIDE_PROFILE } else { CLIENT_PROFILE }
}

/// Which scheme a hint, a query or an answer belongs to.
#[derive(Clone, Copy, Debug, PartialEq, Eq)]
pub enum Scheme {
    /// SimplePIR.
    Simple,
    /// DoublePIR.
    Double,
}

impl Scheme {
    /// The byte that names the scheme in a frame.
    pub fn byte(self) -> u8
        ensures { result ≡ scheme_byte self }
    {
        match self {
            Scheme::Simple => 0,
            Scheme::Double => 1,
        }
    }

    /// The scheme that a byte names, if it names one.
    pub fn of_byte(byte: u8) -> Option<Scheme>
        ensures { result ≡ scheme_of_byte byte }
    {
        match byte {
            0 => Some(Scheme::Simple),
            1 => Some(Scheme::Double),
            _ => None,
        }
    }
}
