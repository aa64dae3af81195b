//! By which scheme records are retrieved.

use client_state::Folder;
use hint_file::HintError;
use pir_schemes::{HintsHeld, cheaper_scheme};
use session_core::{Scheme, ServerInfo};
use std::alloc::AllocError;

/// How many publications back a server's deltas reach.
const DELTAS: u64 = 16;

/// The most words that a secret has.
const DIMENSIONS: usize = 1024;

/// By which scheme records are retrieved.
#[derive(Clone, Copy, Debug, PartialEq, Eq)]
pub enum SchemeChoice {
    /// By this one.
    One(Scheme),
    /// By the one that moves fewer words for so many records, with the hints that are kept.
    Cheaper(u32),
}

impl SchemeChoice {
    /// The scheme for a store, of which a folder keeps hints. How many records are asked for has a
    /// part in this, and not which.
    ///
    /// # Errors
    ///
    /// Only if memory is refused.
    pub fn scheme(self, folder: &Folder<'_>, now: &ServerInfo) -> Result<Scheme, AllocError> {
        let times = match self {
            SchemeChoice::One(scheme) => return Ok(scheme),
            SchemeChoice::Cheaper(times) => times,
        };
        let Ok(layout) = now.plan.layout(now.count as usize) else {
            return Ok(Scheme::Simple);
        };
        let held = HintsHeld {
            // A hint of a few publications before is moved by a delta, which is short beside the
            // hint.
            simple: is_kept(folder, Scheme::Simple, now, DELTAS)?,
            double: is_kept(folder, Scheme::Double, now, 0)?,
        };
        Ok(cheaper_scheme(&layout, now.dimension().min(DIMENSIONS), times, held))
    }
}

// Whether a hint of a scheme is kept that is of the version known, or of at most so many
// publications before.
fn is_kept(
    folder: &Folder<'_>,
    scheme: Scheme,
    now: &ServerInfo,
    most: u64,
) -> Result<bool, AllocError> {
    match folder.kept(scheme, &now.plan) {
        Ok(Some(kept)) => match now.version.checked_sub(folder.changes(&kept)?.version()) {
            Some(before) => Ok(before <= most),
            None => Ok(false),
        },
        Ok(None) | Err(HintError::Damaged | HintError::Read) => Ok(false),
        Err(HintError::Memory) => Err(AllocError),
    }
}
