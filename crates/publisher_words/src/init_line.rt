//! The command line of `init`.

ghost use Rattle.std.specs.Prelude.{IfOk};
ghost use Rattle.clap.specs.Matches.{found_of};
ghost use Rattle.publisher_words.specs.Tasks.{ReadsInit};

use crate::command_line::{DIR_TAKES, KEY_TAKES, SEED_TAKES};
use clap::ArgMatches;
use command_words::{Argument, BadLine, CommandText, key_at, number_at, seed_at, text_at};
use server_words::{Making, count_of, form_of};

const WIDTH_TAKES: &str = "--width takes a number from 6 to 10";

const RECORD_TAKES: &str = "--record takes a number from 0 to 65535";

const GROUPS_TAKES: &str = "--groups takes a number from 0 to 65535";

/// The folder that `init` is to begin.
#[derive(Clone, Copy)]
pub struct InitOptions<'a> {
    /// The folder.
    pub dir: &'a str,
    /// What its snapshot is made with. The line names the folder in place of a file.
    pub making: Making<'a>,
}

/// The command `init`.
pub const INIT: CommandText = CommandText {
    name: "init",
    about: "Begins a publisher's folder with a snapshot, at version 1, of the records on standard \
        input",
    example: "Prints 'made COUNT 1', COUNT being how many records there are. The folder is made if \
        it is missing, for its owner alone. Its snapshot is DIR/records.pir,\n\
        of the same format as a server's file, and of which a copy begins each server.\n\n\
        Without --count all records are read before any is written, up to 1.2 GB of a wide store. \
        The file is the same.\n\n\
        A seed is for one store alone: whoever keeps a hint of another store with this seed and \
        these sizes would read wrong records.\n\n\
        Example, two records of one byte:\
        \n  printf '\\012\\310' | pir_publisher init --dir mine --width 8 --record 1 --groups 1 \\\
        \n    --seed $(openssl rand -hex 32) --key @key.txt\n\n\
        With --verbose a fault has a second line, 'cause: TEXT', that says what failed and where.",
    arguments: &[
        Argument::Verbose,
        Argument::Required {
            name: "dir",
            value: "DIR",
            help: "The folder",
        },
        Argument::Optional {
            name: "form",
            value: "F",
            help: "1 (also if not given): records of R bytes, one after the other; 2: of up to R - \
                2 bytes, a line of hex each, or -",
        },
        Argument::Flag {
            name: "wide",
            help: "Makes a wide store, of up to 32768 rows and columns, which clients greet as one",
        },
        Argument::Required {
            name: "width",
            value: "W",
            help: "How many bits a digit has, 6 to 10, or to 9 in a wide store: more make it \
                faster and leave less room for noise",
        },
        Argument::Required {
            name: "record",
            value: "R",
            help: "How many bytes a record has, 1 to 256; in form 2 those of its slot, 2 to 256, \
                of which two hold its length",
        },
        Argument::Required {
            name: "groups",
            value: "G",
            help: "How many records stand in one column, so that the digit matrix has G * ceil(8 R \
                / W) rows (at most 4096, or 32768)",
        },
        Argument::Optional {
            name: "count",
            value: "N",
            help: "How many records there are, 1 to 4294967295: they are written as they are read, \
                in little memory (all are read first if not given)",
        },
        Argument::Flag {
            name: "progress",
            help: "Says each second on standard error how many bytes have been read, and with \
                --count how many seconds are left",
        },
        Argument::Required {
            name: "seed",
            value: "HEX",
            help: "The public seed of the matrix that all clients use: 32 bytes as 64 hex digits, \
                or @FILE",
        },
        Argument::Required {
            name: "key",
            value: "HEX",
            help: "The publisher's key: 32 bytes as 64 hex digits, not all 0, or @FILE; the \
                snapshot keeps its SHA-256 alone",
        },
    ],
};

/// What the words of `init` ask for.
pub fn init_options_of<'a>(found: &ArgMatches<'a>) -> Result<InitOptions<'a>, BadLine<'a>>
    ensures { IfOk result (ReadsInit (found_of found.now)) }
{
    let dir = text_at(found, "dir", DIR_TAKES)?;
    let making = Making {
        out: dir,
        new: true,
        form: form_of(found)?,
        wide: found.get_flag("wide"),
        width: number_at(found, "width", u64::from(u8::MAX), WIDTH_TAKES)? as u8,
        record_len: number_at(found, "record", u64::from(u16::MAX), RECORD_TAKES)? as u16,
        groups: number_at(found, "groups", u64::from(u16::MAX), GROUPS_TAKES)? as u16,
        count: count_of(found)?,
        progress: found.get_flag("progress"),
        seed: seed_at(found, "seed", SEED_TAKES)?,
        key: key_at(found, "key", KEY_TAKES)?,
    };
    Ok(InitOptions { dir, making })
}
