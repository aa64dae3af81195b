//! What is printed of hints, and the names of their files.

ghost use Rattle.std.specs.Prelude.{◌≡◌, IfOk, string_bytes};
ghost use Rattle.hint_file.specs.Texts.{scheme_text, file_name, hint_text, state_text, hint_texts};

use crate::heads::{HintFields, KeptHead, plan_bytes};
use crate::sealing::digest_of;
use client_core::{Plan, Scheme};
use std::alloc::{AllocError, Global};

// A scheme, as the command line names it.
fn scheme_name(scheme: Scheme) -> &'static str
    ensures { result.now ≡ scheme_text scheme }
{
    match scheme {
        Scheme::Simple => "simple",
        Scheme::Double => "double",
    }
}

/// The name of the file of a hint in a folder: one for each scheme and store.
///
/// # Errors
///
/// `AllocError` when memory was refused.
pub fn file_name(alloc: Global, scheme: Scheme, plan: &Plan) -> Result<String, AllocError>
    ensures { IfOk result (λ name. string_bytes name ≡ file_name scheme plan.now) }
{
    let store = digest_of(&plan_bytes(alloc, plan)?);
    let digits = hex::encode(alloc, store)?;
    let digits = digits.as_str();
    let scheme = scheme_name(scheme);
    format!(in alloc; "{scheme}-{digits}.hint")
}

// The lines on a hint.
fn hint_lines(alloc: Global, fields: &HintFields) -> Result<String, AllocError>
    ensures { IfOk result (λ text. string_bytes text ≡ hint_text fields.now) }
{
    let scheme = scheme_name(fields.scheme);
    let of = fields.version;
    let version = fields.known.version;
    let count = fields.known.count;
    let dimension = fields.known.plan.dimension;
    format!(in alloc;
        "hint {scheme} {of}\nversion {version}\nrecords {count}\ndimension {dimension}\n"
    )
}

// The lines on each of some hints.
fn all_lines(alloc: Global, heads: &[KeptHead]) -> Result<String, AllocError>
    ensures { IfOk result (λ text. string_bytes text ≡ hint_texts heads.now) }
{
    let mut text = String::new(alloc);
    for head in heads {
        let lines = hint_lines(alloc, &head.fields)?;
        text.push_str(lines.as_str())?;
    }
    Ok(text)
}

/// The lines that say which hints a folder has.
///
/// # Errors
///
/// `AllocError` when memory was refused.
#[tactic(auto, unfolding(crate::specs::Texts::state_text))]
pub fn state_lines(alloc: Global, heads: &[KeptHead]) -> Result<String, AllocError>
    ensures { IfOk result (λ text. string_bytes text ≡ state_text heads.now) }
{
    match heads {
        [] => String::from_str(alloc, "hint none\n"),
        _ => all_lines(alloc, heads),
    }
}
