//! How much of a hint is sent at a time.

ghost use Rattle.std.specs.Prelude.{◌≡◌, ◌≤◌, ◌*◌, ◌↔◌, IsNone, IfSome, length, take};
ghost use Rattle.pir_schemes.specs.Parts.{part_of, part_len as words_of_part};

/// The most words of a part of a hint.
pub const PART_WORDS: usize = 65_536;

/// The most rows that a delta has. If more rows of a hint changed, the hint is sent by parts.
pub const DELTA_ROWS: usize = 1024;

/// How many words part `part` of `total` words has: those from 65,536 `part` on, at most 65,536.
pub fn part_len(total: usize, part: u32) -> usize
    ensures { result ≡ words_of_part total part }
{
    total
        .saturating_sub(part as usize * PART_WORDS)
        .min(PART_WORDS)
}

/// Part `part` of a hint's words: those from 65,536 `part` on, at most 65,536. `None` exactly when
/// there is no such part.
pub fn part_words(words: &[u32], part: usize) -> Option<&[u32]>
    ensures none { IsNone result ↔ (length words.now ≤ 65536 * part) }
    ensures words { IfSome result (λ some. some.now ≡ part_of words.now part) }
{
    let start = part.checked_mul(PART_WORDS)?;
    if start >= words.len() {
        return None;
    }
    Some(prefix(&words[start..]))
}

// The first words, as many as a part has.
fn prefix(words: &[u32]) -> &[u32]
    ensures { result.now ≡ take 65536 words.now }
{
    if words.len() < PART_WORDS {
        words
    } else {
        &words[..PART_WORDS]
    }
}
