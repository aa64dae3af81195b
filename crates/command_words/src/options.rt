//! Options and words of a command, and their values.

ghost use Rattle.std.specs.Prelude.{◌≡◌, ◌≤◌, true, None, Some, IfOk, IfErr, MatchOption};
ghost use Rattle.std.specs.Str.Parse.{IsNumeral, digits_value};
ghost use Rattle.clap.specs.declared.builder.action.ArgAction.{ArgAction};
ghost use Rattle.clap.specs.Matches.{first_value, found_of};
ghost use Rattle.command_words.specs.Statuses.{Shows};
ghost use Rattle.command_words.specs.Values.{IsNoNumber};

use crate::bad_line::BadLine;
use crate::words::decimal;
use clap::{Arg, ArgAction, ArgMatches};
use std::alloc::Global;

/// A required option `--name VALUE`.
pub fn option<'a>(alloc: Global, name: &'a str, value: &'a str, help: &'a str) -> Arg<'a>
    ensures long { (result.id ≡ name.entry) × (result.long ≡ Some name.entry) }
    ensures shown { result.help ≡ Some help.entry }
    ensures required { result.required ≡ true }
    ensures takes_a_value { result.action ≡ Some ArgAction.Set }
{
    Arg::new(alloc, name)
        .long(name)
        .value_name(value)
        .help(help)
        .required(true)
        .action(ArgAction::Set)
}

/// The flag `--verbose`, by which a failure says its cause.
pub fn verbose_flag<'a>(alloc: Global) -> Arg<'a>
    ensures takes_no_value { result.action ≡ Some ArgAction.SetTrue }
{
    Arg::new(alloc, "verbose")
        .long("verbose")
        .help("Says the cause of a fault in a second line")
        .action(ArgAction::SetTrue)
}

/// A required word that is known by its place.
pub fn word<'a>(alloc: Global, name: &'a str, help: &'a str) -> Arg<'a>
    ensures by_place { (result.id ≡ name.entry) × (result.long ≡ None) × (result.short ≡ None) }
    ensures shown { result.help ≡ Some help.entry }
    ensures required { result.required ≡ true }
    ensures takes_a_value { result.action ≡ Some ArgAction.Set }
{
    Arg::new(alloc, name)
        .value_name(name)
        .help(help)
        .required(true)
        .action(ArgAction::Set)
}

/// The text given for an option or a word.
///
/// # Errors
///
/// `Value`, with what it takes, if none was given.
pub fn text_at<'a>(
    found: &ArgMatches<'a>,
    name: &str,
    takes: &'static str,
) -> Result<&'a str, BadLine<'a>>
    ensures found { IfOk result (λ text. first_value (found_of found.now) name.now ≡
        Some text.now) }
    ensures missing { IfErr result (λ bad. (bad ≡ BadLine.Value takes.entry) ×
        (first_value (found_of found.now) name.now ≡ None)) }
{
    match found.get_str(name) {
        Some(text) => Ok(text),
        None => Err(BadLine::Value(takes)),
    }
}

/// The number given for an option or a word, at most `most`.
///
/// # Errors
///
/// `Value`, with what it takes, if none was given; `Given`, with the text too, if it is no number
/// or a larger one.
pub fn number_at<'a>(
    found: &ArgMatches<'a>,
    name: &str,
    most: u64,
    takes: &'static str,
) -> Result<u64, BadLine<'a>>
    ensures most { IfOk result (λ n. n ≤ most) }
    ensures value { IfOk result (λ n. MatchOption (first_value (found_of found.now) name.now) ⊥
        (λ text. IsNumeral 10 text × (digits_value 10 text ≡ n))) }
    ensures refused { IfErr result (λ bad.
        Shows takes.now (first_value (found_of found.now) name.now) bad ×
        IsNoNumber most (first_value (found_of found.now) name.now)) }
{
    let text = text_at(found, name, takes)?;
    match decimal(text) {
        Some(number) if number <= most => Ok(number),
        _ => Err(BadLine::Given(takes, text)),
    }
}
