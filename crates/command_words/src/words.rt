//! Words as values.

ghost use Rattle.std.specs.Prelude.{◌≡◌, ◌≢◌, ◌↔◌, ◌<◌, ◌≤◌, ◌^◌, ◌*◌, length, replicate, SomeIff};
ghost use Rattle.std.specs.Prelude.{IsSome, IfSome, MatchOption, IfOk, Ok, Some, None};
ghost use Rattle.std.specs.Prelude.{string_bytes};
ghost use Rattle.std.specs.List.{AllPass};
ghost use Rattle.std.specs.Str.Parse.{IsNumeral, digits_value};
ghost use Rattle.hex.specs.Hex.{decode_of, is_hex_digit};
ghost use Rattle.command_words.specs.Values.{IsNoRecord, bytes_in, hex_or_dash};

use hex::{FromHex, FromHexError};
use std::alloc::{AllocError, Global};

/// The most bytes that a word of hex digits may encode.
const MAX_RECORD_BYTES: usize = 65_535;

/// The word for no bytes, which hex digits can't write as a word.
const NO_BYTES: &str = "-";

/// A number of decimal digits alone: no sign; leading zeros are ignored.
pub fn decimal(text: &str) -> Option<u64>
    ensures { SomeIff result (IsNumeral 10 text.now × (digits_value 10 text.now < 2 ^ 64))
        (digits_value 10 text.now) }
{
    // `parse` would take it.
    if text.starts_with('+') {
        return None;
    }
    text.parse().ok()
}

/// 32 bytes as 64 hex digits of either case.
pub fn bytes32_from_hex(text: &str) -> Option<[u8; 32]>
    ensures value { IfSome result (λ bytes. decode_of text.now ≡ Ok bytes) }
    ensures found { IsSome result ↔ ((length text.now ≡ 64) × AllPass is_hex_digit text.now) }
{
    <[u8; 32] as FromHex>::from_hex(text).ok()
}

/// A publisher's key: 32 bytes that are not all zero.
pub fn publisher_key(text: &str) -> Option<[u8; 32]>
    ensures value { IfSome result (λ key. decode_of text.now ≡ Ok key) }
    ensures not_zero { IfSome result (λ key. key ≢ replicate 32 0) }
    ensures found { IsSome result ↔ ((length text.now ≡ 64) × AllPass is_hex_digit text.now ×
        (decode_of text.now ≢ Ok (replicate 32 0))) }
{
    let key = bytes32_from_hex(text)?;
    if key == [0; 32] {
        return None;
    }
    Some(key)
}

/// Bytes as two hex digits each, or `-` if there are none. Only refused memory gives an `Err`.
pub fn bytes_from_hex(alloc: Global, text: &str) -> Result<Option<Vec<u8>>, AllocError>
    ensures { IfOk result (λ found. MatchOption found (bytes_in text.now ≡ None)
        (λ bytes. bytes_in text.now ≡ Some bytes.items)) }
{
    if text == NO_BYTES {
        return Ok(Some(Vec::new(alloc)));
    }
    if text.is_empty() {
        return Ok(None);
    }
    match hex::decode(alloc, text) {
        Ok(bytes) => Ok(Some(bytes)),
        Err(FromHexError::OutOfMemory) => Err(AllocError),
        Err(_) => Ok(None),
    }
}

/// A record's bytes, at most 65,535. Only refused memory gives an `Err`.
pub fn record_bytes(alloc: Global, text: &str) -> Result<Option<Vec<u8>>, AllocError>
    ensures { IfOk result (λ found. MatchOption found (IsNoRecord text.now)
        (λ bytes. (bytes_in text.now ≡ Some bytes.items) × (length bytes.items ≤ 65535))) }
{
    Ok(bytes_from_hex(alloc, text)?.filter(|bytes| bytes.len() <= MAX_RECORD_BYTES))
}

/// A record's bytes in hex, or a dash if there are none.
///
/// # Errors
///
/// `AllocError` when memory was refused.
#[tactic(auto, unfolding(crate::specs::Values::hex_or_dash))]
pub fn shown_bytes(alloc: Global, bytes: &[u8]) -> Result<String, AllocError>
    ensures { IfOk result (λ text. string_bytes text ≡ hex_or_dash bytes.now) }
{
    if bytes.is_empty() {
        return String::from_str(alloc, NO_BYTES);
    }
    hex::encode(alloc, bytes)
}
