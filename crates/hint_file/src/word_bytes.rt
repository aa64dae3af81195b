//! Words as bytes and back, the lowest byte first.

ghost use Rattle.std.specs.Prelude.{◌≡◌, ◌≤◌, ◌<◌, ◌+◌, ◌*◌, ◌^◌, ◌++◌, ℕ, List, All, length, IfOk};
ghost use Rattle.std.specs.Prelude.{OnOk};
ghost use Rattle.frame_codec.specs.Numbers.{word_bytes};
ghost use Rattle.hint_file.specs.Reading.{among_zeros};

use byteorder::{ByteOrder, LittleEndian};
use std::alloc::{AllocError, Global};

/// How many words are written at once.
const BLOCK_WORDS: usize = 256;

// Adds four bytes for each word of a block.
fn add_block(out: &mut Vec<u8>, words: &[u32]) -> Result<(), AllocError>
    requires { length words.now ≤ 256 }
    ensures { OnOk result (out.new.items ≡ out.old.items ++ word_bytes words.now) }
{
    let mut block = [0u8; 4 * BLOCK_WORDS];
    let bytes = &mut block[..4 * words.len()];
    LittleEndian::write_u32_into(words, bytes);
    out.extend_from_slice(bytes)
}

/// Adds four bytes for each word, block by block.
pub fn add_words(out: &mut Vec<u8>, words: &[u32]) -> Result<(), AllocError>
    ensures { OnOk result (out.new.items ≡ out.old.items ++ word_bytes words.now) }
{
    let mut rest = words;
    while !rest.is_empty() {
        let (block, beyond) = rest.split_at(rest.len().min(BLOCK_WORDS));
        add_block(out, block)?;
        rest = beyond;
    }
    Ok(())
}

// Adds the words that the bytes of a block encode.
fn add_read_block(out: &mut Vec<u32>, bytes: &[u8]) -> Result<(), AllocError>
    requires { (n : ℕ) × (length bytes.now ≡ 4 * n) × (n ≤ 256) }
    ensures { OnOk result (word_bytes out.new.items ≡ word_bytes out.old.items ++ bytes.now) }
{
    let mut block = [0u32; BLOCK_WORDS];
    let (words, _) = block.split_at_mut(bytes.len() / 4);
    LittleEndian::read_u32_into(bytes, words);
    out.extend_from_slice(words)
}

/// Adds the words that the bytes encode, block by block.
pub fn add_read(out: &mut Vec<u32>, bytes: &[u8]) -> Result<(), AllocError>
    requires { (n : ℕ) × (length bytes.now ≡ 4 * n) }
    ensures { OnOk result (word_bytes out.new.items ≡ word_bytes out.old.items ++ bytes.now) }
{
    let mut rest = bytes;
    while !rest.is_empty() {
        let (block, beyond) = rest.split_at(rest.len().min(4 * BLOCK_WORDS));
        add_read_block(out, block)?;
        rest = beyond;
    }
    Ok(())
}

/// So many zeros, with the words that the bytes encode written over them from a place on.
pub fn words_among_zeros(
    alloc: Global,
    total: usize,
    start: usize,
    bytes: &[u8],
) -> Result<Vec<u32>, AllocError>
    requires { (n : ℕ) × (length bytes.now ≡ 4 * n) × (start + n ≤ total) }
    ensures words { IfOk result (λ all. (words : List ℕ) × All (λ w. w < 2 ^ 32) words
        × (word_bytes words ≡ bytes.now) × (all.items ≡ among_zeros total start words)) }
    ensures count { IfOk result (λ all. length all.items ≡ total) }
{
    let mut all = vec![in alloc; 0u32; total]?;
    let (_, rest) = all.split_at_mut(start);
    let (words, _) = rest.split_at_mut(bytes.len() / 4);
    LittleEndian::read_u32_into(bytes, words);
    Ok(all)
}
