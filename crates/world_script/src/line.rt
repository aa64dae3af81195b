//! What a line says.

ghost use Rattle.std.specs.Prelude.{◌≡◌, ◌==◌, ◌<◌, ◌^◌, ◌∷◌, [], IfOk, MatchOption, map, true};
ghost use Rattle.std.specs.List.{slice_split};
ghost use Rattle.std.specs.Option.{option_map};
ghost use Rattle.command_words.specs.Values.{bytes_in};
ghost use Rattle.world_script.specs.Lines.{append_in, ask_in, bytes32_in, edit_in, hello_in, line_of};
ghost use Rattle.world_script.specs.Lines.{line_of_one, line_of_two, line_of_words, most_in};
ghost use Rattle.world_script.specs.Lines.{numeral_value, scheme_in, sizes_in, sync_in, to_client_in};
ghost use Rattle.world_script.specs.Lines.{to_server_in};

use client_core::Scheme;
use command_words::{bytes_from_hex, bytes32_from_hex, decimal};
use frame_codec::Bytes;
use pir_world::Step;
use std::alloc::{AllocError, Global};
use std::str;

/// The sizes of a world.
#[derive(Clone, Copy, Debug, PartialEq, Eq)]
pub struct HeaderSizes {
    /// 1 if all records have one length, 2 if each has its own and is in a slot; 129 and 130
    /// likewise, with a wide digit matrix.
    pub form: u8,
    /// How many bits a digit has.
    pub width: u8,
    /// How many bytes a record has.
    pub record_len: u16,
    /// How many records a column of the digit matrix has.
    pub groups: u16,
    /// How many words a secret has.
    pub dimension: u16,
}

/// A line of a script, whatever its place.
#[derive(Drop)]
pub enum Line {
    /// The world's sizes.
    World(HeaderSizes),
    /// The public seed.
    Seed([u8; 32]),
    /// The next record.
    Record(Bytes),
    /// The next client's seed.
    Client([u8; 32]),
    /// A step.
    Step(Step),
}

/// Reads a line. `None` if no line is written so.
pub fn read_line(alloc: Global, text: &[u8]) -> Result<Option<Line>, AllocError>
    ensures { IfOk result (λ found. found ≡ line_of text.now) }
{
    if !text.is_ascii() {
        return Ok(None);
    }
    let Ok(text) = str::from_utf8(text) else {
        return Ok(None);
    };
    read_words(alloc, text)
}

/// Reads a line of ASCII.
fn read_words(alloc: Global, text: &str) -> Result<Option<Line>, AllocError>
    ensures { IfOk result (λ found. found ≡
        line_of_words (slice_split (λ b. b == 32) text.now)) }
{
    let words = words_of(alloc, text)?;
    match words.as_slice() {
        [] => Ok(None),
        [name] => Ok(read_name(name)),
        [name, word] => read_one(alloc, name, word),
        [name, first, second] => read_two(alloc, name, first, second),
        [_, _, _, _] => Ok(None),
        [name, width, record_len, groups, dimension] => {
            Ok(read_sizes(name, width, record_len, groups, dimension))
        }
        [_, _, _, _, _, _, ..] => Ok(None),
    }
}

/// The words of a line.
fn words_of(alloc: Global, text: &str) -> Result<Vec<&str>, AllocError>
    ensures { IfOk result (λ words. map (λ word. word.now) words.items ≡
        slice_split (λ b. b == 32) text.now) }
{
    text.split(' ').collect(alloc)
}

/// Reads a line of one word.
fn read_name(name: &str) -> Option<Line>
    ensures { result ≡ line_of_words (name.now ∷ []) }
{
    if name == "publish" {
        return Some(Line::Step(Step::Publish));
    }
    None
}

/// Reads a name with one word after it.
fn read_one(alloc: Global, name: &str, word: &str) -> Result<Option<Line>, AllocError>
    ensures { IfOk result (λ found. found ≡ line_of_one name.now word.now) }
{
    if name == "seed" {
        return Ok(bytes32_of(word).map(Line::Seed));
    }
    if name == "record" {
        return Ok(bytes_of(alloc, word)?.map(Line::Record));
    }
    if name == "client" {
        return Ok(bytes32_of(word).map(Line::Client));
    }
    if name == "append" {
        return Ok(append(alloc, word)?.map(Line::Step));
    }
    if name == "hello" {
        return Ok(hello(word).map(Line::Step));
    }
    Ok(None)
}

/// Reads a name with two words after it.
fn read_two(
    alloc: Global,
    name: &str,
    first: &str,
    second: &str,
) -> Result<Option<Line>, AllocError>
    ensures { IfOk result (λ found. found ≡ line_of_two name.now first.now second.now) }
{
    if name == "edit" {
        return Ok(edit(alloc, first, second)?.map(Line::Step));
    }
    if name == "sync" {
        return Ok(sync(first, second).map(Line::Step));
    }
    if name == "ask" {
        return Ok(ask(first, second).map(Line::Step));
    }
    if name == "to-server" {
        return Ok(to_server(first, second).map(Line::Step));
    }
    if name == "to-client" {
        return Ok(to_client(first, second).map(Line::Step));
    }
    Ok(None)
}

/// Reads a name with four words after it.
fn read_sizes(
    name: &str,
    width: &str,
    record_len: &str,
    groups: &str,
    dimension: &str,
) -> Option<Line>
    ensures { result ≡ line_of_words
        (name.now ∷ width.now ∷ record_len.now ∷ groups.now ∷ dimension.now ∷ []) }
{
    if name == "world" {
        return sizes_of(1, width, record_len, groups, dimension).map(Line::World);
    }
    if name == "world2" {
        return sizes_of(2, width, record_len, groups, dimension).map(Line::World);
    }
    if name == "wide" {
        return sizes_of(129, width, record_len, groups, dimension).map(Line::World);
    }
    if name == "wide2" {
        return sizes_of(130, width, record_len, groups, dimension).map(Line::World);
    }
    None
}

fn edit(alloc: Global, index: &str, bytes: &str) -> Result<Option<Step>, AllocError>
    ensures { IfOk result (λ found. found ≡ edit_in index.now bytes.now) }
{
    let Some(index) = index_of(index) else {
        return Ok(None);
    };
    match bytes_of(alloc, bytes)? {
        Some(bytes) => Ok(Some(Step::Edit { index, bytes })),
        None => Ok(None),
    }
}

fn append(alloc: Global, bytes: &str) -> Result<Option<Step>, AllocError>
    ensures { IfOk result (λ found. found ≡ append_in bytes.now) }
{
    match bytes_of(alloc, bytes)? {
        Some(bytes) => Ok(Some(Step::Append { bytes })),
        None => Ok(None),
    }
}

fn hello(client: &str) -> Option<Step>
    ensures { result ≡ hello_in client.now }
{
    let client = client_of(client)?;
    Some(Step::Hello { client })
}

fn sync(client: &str, scheme: &str) -> Option<Step>
    ensures { result ≡ sync_in client.now scheme.now }
{
    let client = client_of(client)?;
    let scheme = scheme_of(scheme)?;
    Some(Step::Sync { client, scheme })
}

fn ask(client: &str, index: &str) -> Option<Step>
    ensures { result ≡ ask_in client.now index.now }
{
    let client = client_of(client)?;
    let index = index_of(index)?;
    Some(Step::Ask { client, index })
}

fn to_server(client: &str, most: &str) -> Option<Step>
    ensures { result ≡ to_server_in client.now most.now }
{
    let client = client_of(client)?;
    let most = most_of(most)?;
    Some(Step::ToServer { client, most })
}

fn to_client(client: &str, most: &str) -> Option<Step>
    ensures { result ≡ to_client_in client.now most.now }
{
    let client = client_of(client)?;
    let most = most_of(most)?;
    Some(Step::ToClient { client, most })
}

fn sizes_of(
    form: u8,
    width: &str,
    record_len: &str,
    groups: &str,
    dimension: &str,
) -> Option<HeaderSizes>
    ensures { result ≡ sizes_in form width.now record_len.now groups.now dimension.now }
{
    let width = width_of(width)?;
    let record_len = size_of(record_len)?;
    let groups = size_of(groups)?;
    let dimension = size_of(dimension)?;
    Some(HeaderSizes {
        form,
        width,
        record_len,
        groups,
        dimension,
    })
}

/// A number of bits.
fn width_of(text: &str) -> Option<u8>
    ensures { result ≡ numeral_value (2 ^ 8) text.now }
{
    let number = number_of(text)?;
    u8::try_from(number).ok()
}

/// A number of bytes, records or words.
fn size_of(text: &str) -> Option<u16>
    ensures { result ≡ numeral_value (2 ^ 16) text.now }
{
    let number = number_of(text)?;
    u16::try_from(number).ok()
}

/// A record's index.
fn index_of(text: &str) -> Option<u32>
    ensures { result ≡ numeral_value (2 ^ 32) text.now }
{
    let number = number_of(text)?;
    u32::try_from(number).ok()
}

/// A client's number.
fn client_of(text: &str) -> Option<usize>
    ensures { result ≡ numeral_value (2 ^ 64) text.now }
{
    let number = number_of(text)?;
    Some(number as usize)
}

/// A number.
fn number_of(text: &str) -> Option<u64>
    ensures { result ≡ numeral_value (2 ^ 64) text.now }
{
    decimal(text)
}

/// How many bytes are handed on at most.
fn most_of(text: &str) -> Option<usize>
    ensures { result ≡ most_in text.now }
{
    if text == "all" {
        return Some(usize::MAX);
    }
    client_of(text)
}

fn scheme_of(text: &str) -> Option<Scheme>
    ensures { result ≡ scheme_in text.now }
{
    if text == "simple" {
        return Some(Scheme::Simple);
    }
    if text == "double" {
        return Some(Scheme::Double);
    }
    None
}

/// 32 bytes in hex.
fn bytes32_of(text: &str) -> Option<[u8; 32]>
    ensures { result ≡ bytes32_in text.now }
{
    bytes32_from_hex(text)
}

/// Bytes in hex, or a dash for none.
fn bytes_of(alloc: Global, text: &str) -> Result<Option<Bytes>, AllocError>
    ensures { IfOk result (λ found. found ≡ bytes_in text.now) }
{
    Ok(bytes_from_hex(alloc, text)?.map(Bytes::new))
}
