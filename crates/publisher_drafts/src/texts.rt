//! What is printed.

ghost use Rattle.std.specs.Prelude.{◌≡◌, IfOk, string_bytes};
ghost use Rattle.publisher_drafts.specs.Texts.{changed_text, appended_text};

use command_words::shown_bytes;
use std::alloc::{AllocError, Global};

/// The line of a changed record: its index, its old bytes, its new bytes.
///
/// # Errors
///
/// `AllocError` when memory was refused.
pub fn changed_line(alloc: Global, index: u32, old: &[u8], new: &[u8]) -> Result<String, AllocError>
    ensures { IfOk result (λ line. string_bytes line ≡ changed_text index old.now new.now) }
{
    let old = shown_bytes(alloc, old)?;
    let new = shown_bytes(alloc, new)?;
    let old = old.as_str();
    let new = new.as_str();
    format!(in alloc; "{index} {old} {new}\n")
}

/// The line of an appended record: its bytes.
///
/// # Errors
///
/// `AllocError` when memory was refused.
pub fn appended_line(alloc: Global, new: &[u8]) -> Result<String, AllocError>
    ensures { IfOk result (λ line. string_bytes line ≡ appended_text new.now) }
{
    let new = shown_bytes(alloc, new)?;
    let new = new.as_str();
    format!(in alloc; "+ {new}\n")
}
