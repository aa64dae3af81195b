//! The file of a hint, read from its beginning to its end.

ghost use Rattle.std.specs.Prelude.{◌≡◌, ◌≢◌, ◌≤◌, ◌<◌, ◌*◌, ◌++◌, ℕ, List, length, min, vec_len};
ghost use Rattle.std.specs.Prelude.{IfOk, OnOk, IfSome, IsErrOf};
ghost use Rattle.std.specs.Io.KnownBytes.{Consumes, IsAtEnd};
ghost use Rattle.frame_codec.specs.Numbers.{word_bytes};
ghost use Rattle.matrix_u32.specs.Matrix.{most_words};
ghost use Rattle.client_core.specs.declared.state.ServerInfo.{ServerInfo};
ghost use Rattle.client_core.specs.declared.state.Hint.{Hint};
ghost use Rattle.hint_file.specs.declared.heads.HintFields.{HintFields};
ghost use Rattle.hint_file.specs.Files.{old_hint_magic, head_after, file_after, hint_bytes};
ghost use Rattle.hint_file.specs.Files.{old_hint_bytes, AreKeepable, HasDigests, IsKeepable};

use crate::digests::digests_of_words;
use crate::heads::{FIELDS_LEN, HintError, KeptHead, digests_len, fields_in, head_after, magic};
use crate::hints::KeptHint;
use crate::sealing::{DIGEST_LEN, MAGIC_LEN, after};
use crate::word_bytes::add_read;
use client_core::Hint;
use matrix_u32::Matrix;
use pir_schemes::PART_WORDS;
use std::alloc::{AllocError, Global};
use std::io::Read;

// As many bytes as there is room for; `Damaged` exactly when the reader has fewer.
fn fill<R: Read>(reader: &mut R, out: &mut [u8]) -> Result<(), HintError>
    ensures read { OnOk result
        (Consumes (R.remaining reader.old) (R.remaining reader.new) out.new) }
    ensures damaged { IsErrOf result HintError.Damaged → IfSome (R.remaining reader.old)
        (λ bytes. length bytes < length out.old) }
{
    let mut at = 0;
    while at < out.len() {
        match reader.read(&mut out[at..]) {
            Ok(0) => return Err(HintError::Damaged),
            Err(_) => return Err(HintError::Read),
            Ok(n) => at += n,
        }
    }
    Ok(())
}

// So many bytes; `Damaged` exactly when the reader has fewer.
fn read_bytes<R: Read>(alloc: Global, reader: &mut R, len: usize) -> Result<Vec<u8>, HintError>
    ensures count { IfOk result (λ bytes. length bytes.items ≡ len) }
    ensures read { IfOk result (λ bytes. Consumes (R.remaining reader.old) (R.remaining reader.new)
        bytes.items) }
    ensures damaged { IsErrOf result HintError.Damaged → IfSome (R.remaining reader.old)
        (λ bytes. length bytes < len) }
{
    let mut bytes = vec![in alloc; 0u8; len]?;
    match fill(reader, &mut bytes) {
        Ok(()) => Ok(bytes),
        Err(fault) => Err(fault),
    }
}

// What a hint file in the earlier format begins with.
#[tactic(auto, unfolding(crate::specs::Files::old_hint_magic))]
fn old_magic() -> [u8; MAGIC_LEN]
    ensures { result ≡ old_hint_magic }
{
    *b"PIRHINT2"
}

// The head that goes on, after the bytes of the prefix, with what the reader has; `Damaged` exactly
// when no head does.
fn read_head<R: Read>(alloc: Global, front: &[u8], reader: &mut R) -> Result<KeptHead, HintError>
    ensures read { IfOk result (λ head. (rest : List ℕ)
        × (front.now ++ rest ≡ head_after front.now head.fields head.digests.items)
        × Consumes (R.remaining reader.old) (R.remaining reader.new) rest) }
    ensures keepable { IfOk result (λ head. AreKeepable head.fields ×
        HasDigests head.fields head.digests.items) }
    ensures damaged { IsErrOf result HintError.Damaged → IfSome (R.remaining reader.old)
        (λ bytes. (f : HintFields) (digests rest : List ℕ) → AreKeepable f → HasDigests f digests →
        front.now ++ bytes ≢ head_after front.now f digests ++ rest) }
{
    let named = match read_bytes(alloc, reader, FIELDS_LEN) {
        Ok(named) => named,
        Err(fault) => return Err(fault),
    };
    let Some(fields) = fields_in(&named) else {
        return Err(HintError::Damaged);
    };
    let Some(len) = digests_len(&fields) else {
        return Err(HintError::Damaged);
    };
    let others = match read_bytes(alloc, reader, len + DIGEST_LEN) {
        Ok(others) => others,
        Err(fault) => return Err(fault),
    };
    let mut bytes = front.to_vec(alloc)?;
    bytes.extend_from_slice(&named)?;
    bytes.extend_from_slice(&others)?;
    head_after(alloc, front, &bytes)
}

// Room for the bytes of a part, or of so many words if they are fewer. What bytes it holds is not
// said.
fn part_buffer(alloc: Global, count: usize) -> Result<Vec<u8>, AllocError>
    ensures { IfOk result (λ buffer. vec_len buffer ≡ 4 * min count 65536) }
{
    Vec::from_elem(alloc, 0u8, 4 * count.min(PART_WORDS))
}

// As many words as the buffer has room for, added to those that were read before; `Damaged` exactly
// when the reader has fewer bytes.
fn read_part<R: Read>(
    reader: &mut R,
    buffer: &mut [u8],
    words: &mut Vec<u32>,
) -> Result<(), HintError>
    requires { (n : ℕ) × (length buffer.old ≡ 4 * n) }
    ensures read { OnOk result ((part : List ℕ) × (length part ≡ length buffer.old)
        × Consumes (R.remaining reader.old) (R.remaining reader.new) part
        × (word_bytes words.new.items ≡ word_bytes words.old.items ++ part)) }
    ensures damaged { IsErrOf result HintError.Damaged → IfSome (R.remaining reader.old)
        (λ bytes. length bytes < length buffer.old) }
{
    match fill(reader, buffer) {
        Ok(()) => {}
        Err(fault) => return Err(fault),
    }
    add_read(words, buffer)?;
    Ok(())
}

// So many words. No more than the bytes of one part are in memory beside them; `Damaged` exactly
// when the reader has fewer.
fn read_words<R: Read>(alloc: Global, reader: &mut R, count: usize) -> Result<Vec<u32>, HintError>
    requires { count ≤ most_words }
    ensures count { IfOk result (λ words. length words.items ≡ count) }
    ensures read { IfOk result (λ words. Consumes (R.remaining reader.old) (R.remaining reader.new)
        (word_bytes words.items)) }
    ensures damaged { IsErrOf result HintError.Damaged → IfSome (R.remaining reader.old)
        (λ bytes. length bytes < 4 * count) }
{
    let mut words = Vec::with_capacity(alloc, count)?;
    let mut buffer = part_buffer(alloc, count)?;
    while words.len() < count {
        let wanted = PART_WORDS.min(count - words.len());
        let (room, _) = buffer.split_at_mut(4 * wanted);
        match read_part(reader, room, &mut words) {
            Ok(()) => {}
            Err(fault) => return Err(fault),
        }
    }
    Ok(words)
}

// Nothing more; `Damaged` exactly when there is more.
fn read_end<R: Read>(reader: &mut R) -> Result<(), HintError>
    ensures read { OnOk result (IsAtEnd (R.remaining reader.old)) }
    ensures damaged { IsErrOf result HintError.Damaged → IfSome (R.remaining reader.old)
        (λ bytes. 0 < length bytes) }
{
    let mut next = [0u8; 1];
    match reader.read(&mut next) {
        Ok(0) => Ok(()),
        Ok(_) => Err(HintError::Damaged),
        Err(_) => Err(HintError::Read),
    }
}

// The hint whose file goes on, after the bytes of the prefix, with what the reader has up to its
// end; `Damaged` exactly when no file does.
fn read_after<R: Read>(alloc: Global, front: &[u8], reader: &mut R) -> Result<KeptHint, HintError>
    ensures read { IfOk result (λ kept. IfSome (R.remaining reader.old)
        (λ bytes. front.now ++ bytes ≡ file_after front.now kept.known kept.hint)) }
    ensures damaged { IsErrOf result HintError.Damaged → IfSome (R.remaining reader.old)
        (λ bytes. (known : ServerInfo) (hint : Hint) → IsKeepable known hint →
        front.now ++ bytes ≢ file_after front.now known hint) }
{
    let head = match read_head(alloc, front, reader) {
        Ok(head) => head,
        Err(fault) => return Err(fault),
    };
    let fields = head.fields;
    let words = match read_words(alloc, reader, fields.rows * fields.cols) {
        Ok(words) => words,
        Err(fault) => return Err(fault),
    };
    match read_end(reader) {
        Ok(()) => {}
        Err(fault) => return Err(fault),
    }
    let digests = digests_of_words(alloc, &words)?;
    if digests.as_slice() != head.digests.as_slice() {
        return Err(HintError::Damaged);
    }
    // There are rows * cols words, and a matrix holds as many: no refusal is left.
    let matrix = Matrix::from_words(fields.rows, fields.cols, words).unwrap();
    let hint = Hint {
        scheme: fields.scheme,
        version: fields.version,
        matrix,
    };
    Ok(KeptHint {
        known: fields.known,
        hint,
    })
}

// The hint whose file the reader gives up to its end, with a prefix of a magic and a name of so
// many bytes; `Damaged` exactly when it gives no such file.
fn read_named<R: Read>(
    alloc: Global,
    magic: &[u8; MAGIC_LEN],
    name_len: usize,
    reader: &mut R,
) -> Result<KeptHint, HintError>
    requires { name_len ≤ 32 }
    ensures read { IfOk result (λ kept. IfSome (R.remaining reader.old)
        (λ bytes. (name : List ℕ) × (length name ≡ name_len)
        × (bytes ≡ file_after (magic.now ++ name) kept.known kept.hint))) }
    ensures damaged { IsErrOf result HintError.Damaged → IfSome (R.remaining reader.old)
        (λ bytes. (name : List ℕ) (known : ServerInfo) (hint : Hint) → length name ≡ name_len →
        IsKeepable known hint → bytes ≢ file_after (magic.now ++ name) known hint) }
{
    let front = match read_bytes(alloc, reader, MAGIC_LEN + name_len) {
        Ok(front) => front,
        Err(fault) => return Err(fault),
    };
    let Some(_) = after(&front, magic) else {
        return Err(HintError::Damaged);
    };
    read_after(alloc, &front, reader)
}

/// The hint whose file the reader gives up to its end, with what the server had reported last.
/// Beside the hint's words, no more than the bytes of one part are in memory.
///
/// # Errors
///
/// `Damaged` exactly when the bytes are no file of a hint, `Read` when a read failed, even an
/// interrupted one, `Memory` when memory was refused.
pub fn read_hint<R: Read>(alloc: Global, reader: &mut R) -> Result<KeptHint, HintError>
    ensures read { IfOk result (λ kept. IfSome (R.remaining reader.old)
        (λ bytes. bytes ≡ hint_bytes kept.known kept.hint)) }
    ensures damaged { IsErrOf result HintError.Damaged → IfSome (R.remaining reader.old)
        (λ bytes. (known : ServerInfo) (hint : Hint) → IsKeepable known hint →
        bytes ≢ hint_bytes known hint) }
{
    let begins = magic();
    read_named(alloc, &begins, 0, reader)
}

/// The hint whose file in the earlier format the reader gives up to its end, whichever seed it
/// names.
///
/// # Errors
///
/// As of [`read_hint`]: `Damaged` exactly when the bytes are no hint file in the earlier
/// format.
pub fn read_old_hint<R: Read>(alloc: Global, reader: &mut R) -> Result<KeptHint, HintError>
    ensures read { IfOk result (λ kept. IfSome (R.remaining reader.old)
        (λ bytes. (name : List ℕ) × (length name ≡ 32)
        × (bytes ≡ old_hint_bytes name kept.known kept.hint))) }
    ensures damaged { IsErrOf result HintError.Damaged → IfSome (R.remaining reader.old)
        (λ bytes. (name : List ℕ) (known : ServerInfo) (hint : Hint) → length name ≡ 32 →
        IsKeepable known hint → bytes ≢ old_hint_bytes name known hint) }
{
    let begins = old_magic();
    read_named(alloc, &begins, DIGEST_LEN, reader)
}
