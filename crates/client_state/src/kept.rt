//! The file of a hint in a client's folder, open.

use client_core::Hint;
use hint_file::{
    HintError, KeptHead, KeptHint, MOST_HEAD, PartSpan, head_in, parts_in, place_of, read_hint,
};
use safe_files::FileSystem;
use std::fs::OpenFile;
use std::io;
use std::io::Read;

/// How many bytes come before the digests of the parts.
const FRONT_LEN: usize = 86;

/// How many bytes a digest has.
const DIGEST_LEN: usize = 32;

/// The file of a hint that was kept, open: what another run puts in its place changes nothing of
/// it.
#[derive(Drop)]
pub struct KeptFile<'a, R: FileSystem = HostRuntime> {
    rt: &'a R,
    file: R::File,
    head: KeptHead,
    digest: [u8; DIGEST_LEN],
}

// A file as it is read from its start.
#[derive(Drop)]
struct FromStart<'a, R: FileSystem> {
    rt: &'a R,
    file: &'a R::File,
    at: u64,
}

impl<R: FileSystem> Read for FromStart<'_, R> {
    fn read(&mut self, buffer: &mut [u8]) -> io::Result<usize> {
        let count = self.rt.read_at(self.file, buffer, self.at)?;
        self.at = self.at.saturating_add(count as u64);
        Ok(count)
    }
}

impl<'a, R: FileSystem> KeptFile<'a, R> {
    /// Reads the head of an open file. Its words are not read.
    ///
    /// # Errors
    ///
    /// `Damaged` when the file begins with no head of a hint, or is longer or shorter than that
    /// head says; `Read` when it can't be read; `Memory` when memory was refused.
    pub(crate) fn of(rt: &'a R, file: R::File) -> Result<KeptFile<'a, R>, HintError> {
        let (head, digest) = read_head(rt, &file)?;
        Ok(KeptFile {
            rt,
            file,
            head,
            digest,
        })
    }

    /// The head: which hint the file has, and the digests of its parts.
    pub fn head(&self) -> &KeptHead {
        &self.head
    }

    /// The digest of the head, with which it ends: no other file's is the same.
    pub fn digest(&self) -> &[u8; DIGEST_LEN] {
        &self.digest
    }

    /// The head alone.
    pub(crate) fn into_head(self) -> KeptHead {
        self.head
    }

    /// The hint, of which the parts of a span are read; its other words are zeros.
    ///
    /// # Errors
    ///
    /// `Damaged` when the hint has no such parts, or the file has other bytes than its head says;
    /// `Read` when it can't be read; `Memory` when memory was refused.
    pub fn parts(&self, span: PartSpan) -> Result<Hint, HintError> {
        let alloc = self.rt.alloc();
        let Some((start, len)) = place_of(&self.head, span) else {
            return Err(HintError::Damaged);
        };
        let mut bytes = vec![in alloc; 0u8; len]?;
        if self
            .rt
            .read_exact_at(&self.file, &mut bytes, start)
            .is_err()
        {
            return Err(HintError::Read);
        }
        parts_in(alloc, &self.head, span, &bytes)
    }

    /// The whole hint, with what the server had reported last. No more than the bytes of one of its
    /// parts are in memory beside its words.
    ///
    /// # Errors
    ///
    /// `Damaged` when the file is no hint's, `Read` when it can't be read, `Memory` when memory was
    /// refused.
    pub fn whole(&self) -> Result<KeptHint, HintError> {
        let mut reader = FromStart {
            rt: self.rt,
            file: &self.file,
            at: 0,
        };
        read_hint(self.rt.alloc(), &mut reader)
    }
}

// The head of a file, if that is as long as its head says, and the digest of the head.
fn read_head<R: FileSystem>(
    rt: &R,
    file: &R::File,
) -> Result<(KeptHead, [u8; DIGEST_LEN]), HintError> {
    let Ok(found) = file.metadata() else {
        return Err(HintError::Read);
    };
    let most = found.len().min(MOST_HEAD as u64) as usize;
    let mut bytes = vec![in rt.alloc(); 0u8; most]?;
    if rt.read_exact_at(file, &mut bytes, 0).is_err() {
        return Err(HintError::Read);
    }
    let head = head_in(rt.alloc(), &bytes)?;
    if found.len() != head.file_len() {
        return Err(HintError::Damaged);
    }
    let digest = head_digest(&head, &bytes)?;
    Ok((head, digest))
}

// The digest at the end of a head, which is at the beginning of these bytes.
fn head_digest(head: &KeptHead, bytes: &[u8]) -> Result<[u8; DIGEST_LEN], HintError> {
    let start = FRONT_LEN.saturating_add(head.digests.len());
    if start > bytes.len() || bytes.len() - start < DIGEST_LEN {
        return Err(HintError::Damaged);
    }
    let mut digest = [0u8; DIGEST_LEN];
    digest.copy_from_slice(&bytes[start..start + DIGEST_LEN]);
    Ok(digest)
}
