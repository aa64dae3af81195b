//! What a log begins with, and its name.

ghost use Rattle.std.specs.Prelude.{◌≡◌, IfOk, string_bytes};
ghost use Rattle.publication_log.specs.Logs.{log_header_bytes, log_name};

use std::alloc::{AllocError, Global};

/// What is between a file's name and the digits of its snapshot's digest, in the name of the log.
pub(crate) const LOG_MARK: &str = ".log-";

/// How many bytes of a snapshot's digest are in the name of its log.
const NAMED_LEN: usize = 8;

/// The snapshot to which a log belongs.
#[derive(Clone, Copy, Debug, PartialEq, Eq)]
pub struct LogHeader {
    /// The form of the snapshot.
    pub form: u8,
    /// The SHA-256 digest at the snapshot's end.
    pub digest: [u8; 32],
    /// The version of the snapshot.
    pub version: u64,
    /// The public seed, which the words of the public matrices come from.
    pub seed: [u8; 32],
}

impl LogHeader {
    /// The bytes with which a log of this snapshot begins.
    ///
    /// # Errors
    ///
    /// `AllocError` when memory was refused.
    #[tactic(auto, unfolding(crate::specs::Logs::log_header_bytes, crate::specs::Publications::log_number_bytes))]
    pub fn to_bytes(&self, alloc: Global) -> Result<Vec<u8>, AllocError>
        ensures { IfOk result (λ bytes. bytes.items ≡ log_header_bytes self.now) }
    {
        let mut bytes = Vec::new(alloc);
        bytes.extend_from_slice(b"PIRLOG01")?;
        bytes.extend_from_slice(&[self.form])?;
        bytes.extend_from_slice(&self.digest)?;
        bytes.extend_from_slice(&self.version.to_le_bytes())?;
        bytes.extend_from_slice(&self.seed)?;
        Ok(bytes)
    }
}

/// The name of the log of a file's snapshot, by the digest at the snapshot's end.
///
/// # Errors
///
/// `AllocError` when memory was refused.
pub fn log_name(alloc: Global, file: &str, digest: &[u8; 32]) -> Result<String, AllocError>
    ensures { IfOk result (λ name. string_bytes name ≡ log_name file.now digest.now) }
{
    let digits = hex::encode(alloc, &digest[..NAMED_LEN])?;
    let digits = digits.as_str();
    format!(in alloc; "{file}.log-{digits}")
}
