//! Numbers read and written with their lowest byte first.

ghost use Rattle.std.specs.Prelude.{◌≡◌, ◌≤◌, ◌+◌, ◌*◌, ◌/◌, ◌++◌, length, vec_len, vec_capacity};
ghost use Rattle.frame_codec.specs.Numbers.{number_bytes, number_in, word_bytes};

use byteorder::{ByteOrder, LittleEndian};

/// The number in the first two bytes.
#[tactic(auto, unfolding(crate::specs::Numbers::number_in))]
pub fn u16_at(bytes: &[u8]) -> u16
    requires { 2 ≤ length bytes.now }
    ensures { result ≡ number_in 2 bytes.now }
{
    LittleEndian::read_u16(bytes)
}

/// The number in the first four bytes.
#[tactic(auto, unfolding(crate::specs::Numbers::number_in))]
pub fn u32_at(bytes: &[u8]) -> u32
    requires { 4 ≤ length bytes.now }
    ensures { result ≡ number_in 4 bytes.now }
{
    LittleEndian::read_u32(bytes)
}

/// The number in the first eight bytes.
#[tactic(auto, unfolding(crate::specs::Numbers::number_in))]
pub fn u64_at(bytes: &[u8]) -> u64
    requires { 8 ≤ length bytes.now }
    ensures { result ≡ number_in 8 bytes.now }
{
    LittleEndian::read_u64(bytes)
}

/// Adds bytes for which there is room.
pub fn put(out: &mut Vec<u8>, bytes: &[u8])
    requires { vec_len out.old + length bytes.now ≤ vec_capacity out.old }
    ensures items { out.new.items ≡ out.old.items ++ bytes.now }
    ensures len { vec_len out.new ≡ vec_len out.old + length bytes.now }
    ensures room { vec_capacity out.old ≤ vec_capacity out.new }
{
    let _ = out.extend_from_slice(bytes);
}

/// Adds the two bytes of a number, for which there is room.
#[tactic(auto, unfolding(crate::specs::Numbers::number_bytes))]
pub fn put_u16(out: &mut Vec<u8>, number: u16)
    requires { vec_len out.old + 2 ≤ vec_capacity out.old }
    ensures items { out.new.items ≡ out.old.items ++ number_bytes 2 number }
    ensures len { vec_len out.new ≡ vec_len out.old + 2 }
    ensures room { vec_capacity out.old ≤ vec_capacity out.new }
{
    let mut bytes = [0u8; 2];
    LittleEndian::write_u16(&mut bytes, number);
    put(out, &bytes);
}

/// Adds the four bytes of a number, for which there is room.
#[tactic(auto, unfolding(crate::specs::Numbers::number_bytes))]
pub fn put_u32(out: &mut Vec<u8>, number: u32)
    requires { vec_len out.old + 4 ≤ vec_capacity out.old }
    ensures items { out.new.items ≡ out.old.items ++ number_bytes 4 number }
    ensures len { vec_len out.new ≡ vec_len out.old + 4 }
    ensures room { vec_capacity out.old ≤ vec_capacity out.new }
{
    let mut bytes = [0u8; 4];
    LittleEndian::write_u32(&mut bytes, number);
    put(out, &bytes);
}

/// Adds the eight bytes of a number, for which there is room.
#[tactic(auto, unfolding(crate::specs::Numbers::number_bytes))]
pub fn put_u64(out: &mut Vec<u8>, number: u64)
    requires { vec_len out.old + 8 ≤ vec_capacity out.old }
    ensures items { out.new.items ≡ out.old.items ++ number_bytes 8 number }
    ensures len { vec_len out.new ≡ vec_len out.old + 8 }
    ensures room { vec_capacity out.old ≤ vec_capacity out.new }
{
    let mut bytes = [0u8; 8];
    LittleEndian::write_u64(&mut bytes, number);
    put(out, &bytes);
}

/// How many words are encoded or decoded at once.
pub const BLOCK_WORDS: usize = 256;

/// Adds four bytes for each word of a block, for which there is room.
fn put_block(out: &mut Vec<u8>, words: &[u32])
    requires block { length words.now ≤ 256 }
    requires space { vec_len out.old + 4 * length words.now ≤ vec_capacity out.old }
    ensures items { out.new.items ≡ out.old.items ++ word_bytes words.now }
    ensures len { vec_len out.new ≡ vec_len out.old + 4 * length words.now }
    ensures room { vec_capacity out.old ≤ vec_capacity out.new }
{
    let mut block = [0u8; 4 * BLOCK_WORDS];
    let bytes = &mut block[..4 * words.len()];
    LittleEndian::write_u32_into(words, bytes);
    put(out, bytes);
}

/// Adds four bytes for each word, for which there is room: block by block.
pub fn put_words(out: &mut Vec<u8>, words: &[u32])
    requires { vec_len out.old + 4 * length words.now ≤ vec_capacity out.old }
    ensures items { out.new.items ≡ out.old.items ++ word_bytes words.now }
    ensures len { vec_len out.new ≡ vec_len out.old + 4 * length words.now }
    ensures room { vec_capacity out.old ≤ vec_capacity out.new }
{
    let mut rest = words;
    while !rest.is_empty() {
        let (block, beyond) = rest.split_at(rest.len().min(BLOCK_WORDS));
        put_block(out, block);
        rest = beyond;
    }
}

/// Adds words for which there is room.
fn push_words(out: &mut Vec<u32>, words: &[u32])
    requires { vec_len out.old + length words.now ≤ vec_capacity out.old }
    ensures items { out.new.items ≡ out.old.items ++ words.now }
    ensures len { vec_len out.new ≡ vec_len out.old + length words.now }
    ensures room { vec_capacity out.old ≤ vec_capacity out.new }
{
    let _ = out.extend_from_slice(words);
}

/// Reads the words that bytes encode.
fn read_words(bytes: &[u8], words: &mut [u32])
    requires { length bytes.now ≡ 4 * length words.old }
    ensures bytes { word_bytes words.new ≡ bytes.now }
    ensures len { length words.new ≡ length words.old }
{
    LittleEndian::read_u32_into(bytes, words);
}

/// Adds the words that a block of bytes encodes, for which there is room.
pub fn push_block(out: &mut Vec<u32>, bytes: &[u8])
    requires whole { length bytes.now ≡ 4 * (length bytes.now / 4) }
    requires block { length bytes.now ≤ 1024 }
    requires space { vec_len out.old + length bytes.now / 4 ≤ vec_capacity out.old }
    ensures items { word_bytes out.new.items ≡ word_bytes out.old.items ++ bytes.now }
    ensures len { vec_len out.new ≡ vec_len out.old + length bytes.now / 4 }
    ensures room { vec_capacity out.old ≤ vec_capacity out.new }
{
    let mut block = [0u32; BLOCK_WORDS];
    let words = &mut block[..bytes.len() / 4];
    read_words(bytes, words);
    push_words(out, words);
}
