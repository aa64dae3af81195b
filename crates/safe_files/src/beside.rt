//! Files beside another one, by their names.

use crate::system::FileSystem;
use std::fs;

/// How many hex digits follow a mark in the name of a file beside another.
pub const MARKED_DIGITS: usize = 16;

/// The folder that a file is in.
pub fn folder_of(name: &str) -> &str {
    match name.rsplit_once('/') {
        Some(("", _)) => "/",
        Some((folder, _)) => folder,
        None => ".",
    }
}

/// The last part of a file's name, after its folder.
pub(crate) fn base_of(name: &str) -> &str {
    match name.rsplit_once('/') {
        Some((_, base)) => base,
        None => name,
    }
}

/// Whether these are so many hex digits, in lower case.
pub fn are_hex_digits(digits: &str, count: usize) -> bool {
    digits.len() == count
        && digits
            .bytes()
            .all(|byte| matches!(byte, b'0'..=b'9' | b'a'..=b'f'))
}

// Whether a name is another one with a mark and 16 hex digits after it, or what a replacement of
// such a file left.
fn is_marked(name: &str, mark: &str, other: &str) -> bool {
    let Some(rest) = other.strip_prefix(name) else {
        return false;
    };
    let Some(rest) = rest.strip_prefix(mark) else {
        return false;
    };
    match rest.split_once(".new") {
        None => are_hex_digits(rest, MARKED_DIGITS),
        Some((digits, left)) => {
            are_hex_digits(digits, MARKED_DIGITS) && (left.is_empty() || is_after_dash(left))
        }
    }
}

// Whether these are a dash and 16 hex digits.
fn is_after_dash(text: &str) -> bool {
    match text.strip_prefix("-") {
        Some(digits) => are_hex_digits(digits, MARKED_DIGITS),
        None => false,
    }
}

// Whether there is a file at a name, and not a link to one.
fn is_own_file<R: FileSystem>(rt: &R, name: &str) -> bool {
    match fs::symlink_metadata(rt, name) {
        Ok(found) => found.is_file(),
        Err(_) => false,
    }
}

/// Removes the files beside one whose names are its own with a mark and 16 hex digits after it, but
/// the one that is kept, and what killed processes left that were replacing such a file. Links and
/// folders of such names stay. Whoever calls this has the lock of the file.
///
/// One that can't be removed takes room, and does no other harm: it is not reported.
pub fn remove_beside<R: FileSystem>(rt: &R, name: &str, mark: &str, kept: &str) {
    let Ok(entries) = fs::read_dir(rt, folder_of(name)) else {
        return;
    };
    let own = base_of(name);
    let kept = base_of(kept);
    for entry in entries {
        let Ok(entry) = entry else {
            return;
        };
        let path = entry.path();
        let other = base_of(path.as_str());
        if other != kept && is_marked(own, mark, other) && is_own_file(rt, path.as_str()) {
            let _ = fs::remove_file(rt, path.as_str());
        }
    }
}
