//! The store that most tests have.

use snapshot_file::Header;

/// The SHA-256 digest of 32 bytes 01, the publisher's key of the tests.
pub const PUBLISHER: [u8; 32] = [
    0x72, 0xcd, 0x6e, 0x84, 0x22, 0xc4, 0x07, 0xfb, 0x6d, 0x09, 0x86, 0x90, 0xf1, 0x13, 0x0b, 0x7d,
    0xed, 0x7e, 0xc2, 0xf7, 0xf5, 0xe1, 0xd3, 0x0b, 0xd9, 0xd5, 0x21, 0xf0, 0x15, 0x36, 0x37, 0x93,
];

/// The header of two records of one byte: digits of eight bits, one record to a column, secrets of
/// one word, a seed of zeros, version 1. Other stores of tests are written as what they have in
/// place of it.
pub const TWO_RECORDS: Header = Header {
    form: 1,
    width: 8,
    record_len: 1,
    groups: 1,
    count: 2,
    dimension: 1,
    version: 1,
    seed: [0; 32],
    publisher: PUBLISHER,
};

/// Its records.
pub const RECORDS: [u8; 2] = [0x0a, 0xc8];
