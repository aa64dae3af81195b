//! The names in a client's folder.

use safe_files::{MARKED_DIGITS, are_hex_digits};

/// How many hex digits name a store.
const STORE_DIGITS: usize = 64;

/// Whether this is the name of a hint's file.
pub fn is_hint_name(name: &str) -> bool {
    match after_hint_name(name) {
        Some(rest) => rest.is_empty(),
        None => false,
    }
}

/// Whether this is the name of a hint's file, of its lock, of what a replacement of it left, or of
/// its partial file or its changes or the lock of either.
pub fn is_name_of_ours(name: &str) -> bool {
    match after_hint_name(name) {
        Some("" | ".lock" | ".new" | ".part" | ".part.lock") => true,
        Some(".changes" | ".changes.lock") => true,
        Some(rest) => match rest.strip_prefix(".new-") {
            Some(digits) => are_hex_digits(digits, MARKED_DIGITS),
            None => false,
        },
        None => false,
    }
}

// What comes after the name of a hint's file.
fn after_hint_name(name: &str) -> Option<&str> {
    let (scheme, rest) = name.split_once('-')?;
    if scheme != "simple" && scheme != "double" {
        return None;
    }
    let (store, rest) = rest.split_once('.')?;
    if !are_hex_digits(store, STORE_DIGITS) {
        return None;
    }
    rest.strip_prefix("hint")
}
