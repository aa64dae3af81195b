//! The codes of results that both sides have, as include/vulandrai.h lists them.

/// Done.
pub const OK: u32 = 0;

/// No greeting was accepted yet, or no hint is held.
pub const NOT_READY: u32 = 1;

/// Memory was refused.
pub const MEMORY: u32 = 5;

/// The handle is closed.
pub const CLOSED: u32 = 32;

/// A first number above 2^62.
pub const BAD_NUMBER: u32 = 33;

/// There is no such scheme.
pub const BAD_SCHEME: u32 = 34;

/// Another number of bytes than there are to take, or a record's bytes that fit no frame.
pub const BAD_LENGTH: u32 = 35;

/// Bytes or events wait that the call would overwrite.
pub const UNTAKEN: u32 = 36;

/// There is no session of this number.
pub const NO_SESSION: u32 = 48;
