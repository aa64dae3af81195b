//! The command line of `make`.

ghost use Rattle.std.specs.Prelude.{IfOk, codes};
ghost use Rattle.clap.specs.Matches.{found_of};
ghost use Rattle.command_words.specs.Given.{IsNumberIfGiven};
ghost use Rattle.server_words.specs.Tasks.{IsNumberOr, ReadsMake};

use crate::command_line::{KEY_TAKES, OUT_TAKES, SEED_TAKES};
use crate::run_line::{number_if, number_or};
use clap::ArgMatches;
use command_words::{Argument, BadLine, CommandText, Secret, key_at, number_at, seed_at, text_at};

const FORM_TAKES: &str = "--form takes 1 or 2";

const WIDTH_TAKES: &str = "--width takes a number from 6 to 10";

const RECORD_TAKES: &str = "--record takes a number from 0 to 65535";

const GROUPS_TAKES: &str = "--groups takes a number from 0 to 65535";

const COUNT_TAKES: &str = "--count takes a number from 1 to 4294967295";

/// What `make` is to make.
#[derive(Clone, Copy)]
pub struct Making<'a> {
    /// The file that is written.
    pub out: &'a str,
    /// Whether it must be new.
    pub new: bool,
    /// 1 for records of one length, 2 for records of their own lengths in slots.
    pub form: u8,
    /// Whether the store is a wide one.
    pub wide: bool,
    /// How many bits a digit has.
    pub width: u8,
    /// How many bytes a record has, or its slot.
    pub record_len: u16,
    /// How many records a column of the digit matrix has.
    pub groups: u16,
    /// How many records there are, if that is known before they are read: 1 to 4294967295.
    pub count: Option<u32>,
    /// Whether it is said how many bytes have been read.
    pub progress: bool,
    /// The key of the public matrix.
    pub seed: Secret<'a>,
    /// The publisher's key.
    pub key: Secret<'a>,
}

/// The command `make`.
pub const MAKE: CommandText = CommandText {
    name: "make",
    about: "Makes a snapshot file, at version 1, of the records on standard input",
    example: "Prints 'made COUNT 1', COUNT being how many records there are. Secrets will have \
        1024 words.\n\n\
        Without --count all records are read before any is written, up to 1.2 GB of a wide store. \
        The file is the same.\n\n\
        With --progress standard error has lines 'input: BYTES bytes', with --count and ', SECONDS \
        s left' at their end.\n\n\
        A seed is for one store alone: whoever keeps a hint of another store with this seed and \
        these sizes would read wrong records.\n\n\
        Example, two records of one byte:\
        \n  printf '\\012\\310' | pir_server make --new --out two.pir --width 8 --record 1 \
        --groups 1 \\\
        \n    --seed $(openssl rand -hex 32) \\\
        \n    --key 0101010101010101010101010101010101010101010101010101010101010101\n\n\
        Example, one record of one byte and one of none:\
        \n  printf '0a\\n\
        -\\n\
        ' | pir_server make --new --out slots.pir --form 2 --width 8 --record 3 --groups 1 \\\
        \n    --seed $(openssl rand -hex 32) \\\
        \n    --key 0101010101010101010101010101010101010101010101010101010101010101\n\n\
        With --verbose a fault has a second line, 'cause: TEXT', that says what failed and where.",
    arguments: &[
        Argument::Verbose,
        Argument::Required {
            name: "out",
            value: "FILE",
            help: "The snapshot file to write",
        },
        Argument::Flag {
            name: "new",
            help: "Makes no file if there is something of that name",
        },
        Argument::Optional {
            name: "form",
            value: "F",
            help: "1 (also if not given): records of R bytes, one after the other; 2: of up to R - \
                2 bytes, a line of hex each, or -",
        },
        Argument::Flag {
            name: "wide",
            help: "Makes a wide store, of up to 32768 rows and columns, which clients greet as one",
        },
        Argument::Required {
            name: "width",
            value: "W",
            help: "How many bits a digit has, 6 to 10, or to 9 in a wide store: more make it \
                faster and leave less room for noise",
        },
        Argument::Required {
            name: "record",
            value: "R",
            help: "How many bytes a record has, 1 to 256; in form 2 those of its slot, 2 to 256, \
                of which two hold its length",
        },
        Argument::Required {
            name: "groups",
            value: "G",
            help: "How many records stand in one column, so that the digit matrix has G * ceil(8 R \
                / W) rows (at most 4096, or 32768)",
        },
        Argument::Optional {
            name: "count",
            value: "N",
            help: "How many records there are, 1 to 4294967295: they are written as they are read, \
                in little memory (all are read first if not given)",
        },
        Argument::Flag {
            name: "progress",
            help: "Says each second on standard error how many bytes have been read, and with \
                --count how many seconds are left",
        },
        Argument::Required {
            name: "seed",
            value: "HEX",
            help: "The public seed of the matrix that all clients use: 32 bytes as 64 hex digits, \
                or @FILE",
        },
        Argument::Required {
            name: "key",
            value: "HEX",
            help: "The publisher's key: 32 bytes as 64 hex digits, not all 0, or @FILE; the \
                snapshot keeps its SHA-256 alone",
        },
    ],
};

/// What the words of `make` ask for.
pub fn making_of<'a>(found: &ArgMatches<'a>) -> Result<Making<'a>, BadLine<'a>>
    ensures { IfOk result (ReadsMake (found_of found.now)) }
{
    Ok(Making {
        out: text_at(found, "out", OUT_TAKES)?,
        new: found.get_flag("new"),
        form: form_of(found)?,
        wide: found.get_flag("wide"),
        width: number_at(found, "width", u64::from(u8::MAX), WIDTH_TAKES)? as u8,
        record_len: number_at(found, "record", u64::from(u16::MAX), RECORD_TAKES)? as u16,
        groups: number_at(found, "groups", u64::from(u16::MAX), GROUPS_TAKES)? as u16,
        count: count_of(found)?,
        progress: found.get_flag("progress"),
        seed: seed_at(found, "seed", SEED_TAKES)?,
        key: key_at(found, "key", KEY_TAKES)?,
    })
}

/// The form of a new store: 1 if none is given.
///
/// # Errors
///
/// `Given` if it is neither 1 nor 2.
pub fn form_of<'a>(found: &ArgMatches<'a>) -> Result<u8, BadLine<'a>>
    ensures { IfOk result (IsNumberOr 1 (found_of found.now) (codes "form")) }
{
    Ok(number_or(found, "form", 1, 2, FORM_TAKES)? as u8)
}

/// How many records there are, if that is given.
///
/// # Errors
///
/// `Given` if it is no number from 1 to 4294967295.
pub fn count_of<'a>(found: &ArgMatches<'a>) -> Result<Option<u32>, BadLine<'a>>
    ensures { IfOk result (IsNumberIfGiven (found_of found.now) (codes "count")) }
{
    match number_if(found, "count", u64::from(u32::MAX), COUNT_TAKES)? {
        Some(count) => Ok(Some(count as u32)),
        None => Ok(None),
    }
}
