//! Secrets of a command line, which may be in a file.

ghost use Rattle.std.specs.Prelude.{◌≡◌, ◌≢◌, ◌<◌, ◌≤◌, ◌∷◌, ℕ, List, None, Some, Ok, length, take};
ghost use Rattle.std.specs.Prelude.{replicate, IfOk, IfErr, IfSome, MatchOption};
ghost use Rattle.std.specs.Io.KnownBytes.{Consumes, IsAtEnd};
ghost use Rattle.clap.specs.Matches.{first_value, found_of};
ghost use Rattle.command_words.specs.Secrets.{IsSecretOf, IsKey, IsNoSecret, IsNoKeySecret};
ghost use Rattle.command_words.specs.Secrets.{IsWithoutEnd, IsLineOf, GivesSeed, GivesKey};
ghost use Rattle.command_words.specs.Secrets.{IsReadAs, IsSecretFailure};

use crate::bad_line::BadLine;
use crate::failed::{Failed, file_failed};
use crate::failure::Failure;
use crate::options::text_at;
use crate::words::{bytes32_from_hex, publisher_key};
use clap::ArgMatches;
use std::fs::File;
use std::io::Read;
use std::str;

/// The most bytes that are read of a secret's file: 64 digits, the end of a line, and one more.
const MOST_SECRET: usize = 67;

/// Where the files of secrets are.
pub trait SecretFiles {
    /// What the file of a name begins with: as many bytes as there is room for, or all of them if
    /// these are fewer.
    ghost begins: { Self → ℕ → List ℕ → List ℕ → Type 0 };

    /// The file of a name can't be read.
    ghost fails: { Self → List ℕ → Type 0 };

    /// Reads what a file begins with, as many bytes as there is room for or all of them, and
    /// returns how many these are; `None` if it can't be read.
    fn read_start(&self, name: &str, out: &mut [u8]) -> Option<usize>
        ensures within { IfSome result (λ n. n ≤ length out.old) }
        ensures start { MatchOption result (fails self.now name.now)
            (λ n. begins self.now (length out.old) name.now (take n out.new)) };
}

impl SecretFiles for HostRuntime {
    ghost begins = { λ _ _ _ _. Unit {0} };

    ghost fails = { λ _ _. Unit {0} };

    fn read_start(&self, name: &str, out: &mut [u8]) -> Option<usize> {
        let Ok(mut file) = File::open(self, name) else {
            return None;
        };
        first_bytes(&mut file, out)
    }
}

/// A secret as a command line gives it, so that it needn't be where other users see it. Its file is
/// read by [`seed`](Secret::seed) or [`key`](Secret::key), once the whole line was judged: a line
/// that is bad elsewhere opens none.
#[derive(Clone, Copy)]
pub enum Secret<'a> {
    /// The bytes that the digits on the line encode.
    Bytes([u8; 32]),
    /// The file that has the digits, given as `@FILE`.
    File(&'a str),
}

impl<'a> Secret<'a> {
    /// The 32 bytes of a seed.
    ///
    /// # Errors
    ///
    /// `Fault` with `File` if the file can't be read, or its first 67 bytes are no text; `Value`,
    /// with what the option takes, if its text without the end of its line isn't 64 hex digits.
    /// None if the line has the bytes.
    pub fn seed<F: SecretFiles>(self, files: &F, takes: &'static str) -> Result<[u8; 32], Failure>
        ensures given { GivesSeed (F.begins files.now 67) (F.fails files.now) takes.now
            self.entry result }
        ensures refused { IfErr result (IsSecretFailure takes.now) }
    {
        match self {
            Secret::Bytes(bytes) => Ok(bytes),
            Secret::File(name) => {
                let mut start = [0; MOST_SECRET];
                match files.read_start(name, &mut start) {
                    Some(count) => seed_in(&start[..count], takes),
                    None => Err(Failure::Fault("File")),
                }
            }
        }
    }

    /// The 32 bytes of a publisher's key, which are not all zero.
    ///
    /// # Errors
    ///
    /// As those of [`seed`](Secret::seed), and `Value` if all bytes are zero.
    pub fn key<F: SecretFiles>(self, files: &F, takes: &'static str) -> Result<[u8; 32], Failure>
        ensures given { GivesKey (F.begins files.now 67) (F.fails files.now) takes.now
            self.entry result }
        ensures not_zero { IfOk result (λ key. key ≢ replicate 32 0) }
        ensures refused { IfErr result (IsSecretFailure takes.now) }
    {
        let key = self.seed(files, takes)?;
        if key == [0; 32] {
            return Err(Failure::Value(takes));
        }
        Ok(key)
    }
}

impl Secret<'_> {
    /// How a command failed whose secret was not read, with the name of its file.
    pub fn failed(&self, rt: &HostRuntime, failure: Failure) -> Failed
        ensures { result.failure ≡ failure }
    {
        match self {
            Secret::Bytes(_) => Failed::from(failure),
            Secret::File(name) => file_failed(
                rt,
                name,
                failure,
                "no 64 hex digits, and at most the end of a line after them",
            ),
        }
    }
}

/// The seed given for an option.
///
/// # Errors
///
/// `Value`, with what it takes, if none was given, and if it is neither `@FILE` nor 64 hex digits.
pub fn seed_at<'a>(
    found: &ArgMatches<'a>,
    name: &str,
    takes: &'static str,
) -> Result<Secret<'a>, BadLine<'a>>
    ensures value { IfOk result (λ secret.
        MatchOption (first_value (found_of found.now) name.now) ⊥
        (λ text. IsSecretOf text secret)) }
    ensures refused { IfErr result (λ bad. (bad ≡ BadLine.Value takes.entry) ×
        IsNoSecret (first_value (found_of found.now) name.now)) }
{
    let text = text_at(found, name, takes)?;
    if let Some(name) = file_in(text) {
        return Ok(Secret::File(name));
    }
    match bytes32_from_hex(text) {
        Some(seed) => Ok(Secret::Bytes(seed)),
        None => Err(BadLine::Value(takes)),
    }
}

/// The publisher's key given for an option.
///
/// # Errors
///
/// As those of [`seed_at`], and if the digits encode bytes that are all zero.
pub fn key_at<'a>(
    found: &ArgMatches<'a>,
    name: &str,
    takes: &'static str,
) -> Result<Secret<'a>, BadLine<'a>>
    ensures value { IfOk result (λ secret.
        MatchOption (first_value (found_of found.now) name.now) ⊥
        (λ text. IsSecretOf text secret)) }
    ensures not_zero { IfOk result IsKey }
    ensures refused { IfErr result (λ bad. (bad ≡ BadLine.Value takes.entry) ×
        IsNoKeySecret (first_value (found_of found.now) name.now)) }
{
    let text = text_at(found, name, takes)?;
    if let Some(name) = file_in(text) {
        return Ok(Secret::File(name));
    }
    match publisher_key(text) {
        Some(key) => Ok(Secret::Bytes(key)),
        None => Err(BadLine::Value(takes)),
    }
}

/// The file that a value names as the place of a secret.
pub(crate) fn file_in<'a>(value: &'a str) -> Option<&'a str>
    ensures { MatchOption result ((rest : List ℕ) → value.now ≢ 64 ∷ rest)
        (λ name. value.now ≡ 64 ∷ name.now) }
{
    value.strip_prefix('@')
}

/// A text without the end of its last line.
pub(crate) fn line_of<'a>(text: &'a str) -> &'a str
    ensures { IsLineOf text.now result.now }
{
    without_end(without_end(text, '\n'), '\r')
}

// A text without this last character, if it has that.
fn without_end<'a>(text: &'a str, end: char) -> &'a str
    requires ascii { end < 128 }
    ensures { IsWithoutEnd end text.now result.now }
{
    match text.strip_suffix(end) {
        Some(rest) => rest,
        None => text,
    }
}

// The seed that a text has.
fn seed_in(text: &[u8], takes: &'static str) -> Result<[u8; 32], Failure>
    ensures read { IsReadAs takes.now text.now result }
    ensures refused { IfErr result (IsSecretFailure takes.now) }
{
    let Ok(text) = str::from_utf8(text) else {
        return Err(Failure::Fault("File"));
    };
    match bytes32_from_hex(line_of(text)) {
        Some(seed) => Ok(seed),
        None => Err(Failure::Value(takes)),
    }
}

// The first bytes of a reader, as many as there is room for, or all of them.
fn first_bytes<R: Read>(reader: &mut R, out: &mut [u8]) -> Option<usize>
    ensures within { IfSome result (λ n. n ≤ length out.old) }
    ensures taken { IfSome result (λ n.
        Consumes (R.remaining reader.old) (R.remaining reader.new) (take n out.new)) }
    ensures whole { IfSome result (λ n. n < length out.old → IsAtEnd (R.remaining reader.new)) }
{
    let mut at = 0;
    while at < out.len() {
        match reader.read(&mut out[at..]) {
            Ok(0) => return Some(at),
            Err(_) => return None,
            Ok(n) => at += n,
        }
    }
    Some(at)
}
