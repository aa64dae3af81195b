//! The command line.

ghost use Rattle.std.specs.Prelude.{IfOk};
ghost use Rattle.clap.specs.Matches.{found_of};
ghost use Rattle.server_words.specs.Tasks.{ReadsBackup, ReadsMigrate, ReadsRekey, ReadsServe};
ghost use Rattle.server_words.specs.Tasks.{ReadsWiden};

use crate::make_line::{MAKE, Making, making_of};
use crate::run_line::{RUN, RunOptions, options_of_run};
use clap::{ArgMatches, Command};
use command_words::{
    Argument, BadLine, CommandText, Secret, key_at, number_at, seed_at, text_at, with_command,
};
use std::alloc::{AllocError, Global};

/// What `--out` takes, as a bad one is reported.
pub const OUT_TAKES: &str = "--out takes a file's name";

const FILE_TAKES: &str = "--file takes a file's name";

/// What `--seed` takes, as a bad one is reported.
pub const SEED_TAKES: &str =
    "--seed takes 32 bytes as 64 hex digits, or @FILE with them in the file";

/// What `--key` takes, as a bad one is reported.
pub const KEY_TAKES: &str =
    "--key takes 32 bytes as 64 hex digits that are not all 0, or @FILE with them in the file";

const PORT_TAKES: &str = "--port takes a number from 0 to 65535";

const CONNECTIONS_TAKES: &str = "--connections takes a number from 0 to 4294967295";

/// What `serve` is to serve.
#[derive(Clone, Copy)]
pub struct Serving<'a> {
    /// The snapshot file.
    pub file: &'a str,
    /// The port on 127.0.0.1, where 0 is any that is free.
    pub port: u16,
    /// How many connections are served before the end.
    pub connections: u32,
}

/// What `migrate` is to move into slots.
#[derive(Clone, Copy)]
pub struct Migrating<'a> {
    /// The snapshot file of form 1.
    pub file: &'a str,
    /// The file that is written.
    pub out: &'a str,
}

/// Of which file a wide one is to be made.
#[derive(Clone, Copy)]
pub struct Widening<'a> {
    /// The snapshot file of form 1 or 2.
    pub file: &'a str,
    /// The file that is written.
    pub out: &'a str,
    /// The key of the new store's public matrix.
    pub seed: Secret<'a>,
}

/// Whose publisher's key is to be changed.
#[derive(Clone, Copy)]
pub struct Rekeying<'a> {
    /// The snapshot file.
    pub file: &'a str,
    /// The publisher's key from now on.
    pub key: Secret<'a>,
}

/// Of which file the last version is to be copied.
#[derive(Clone, Copy)]
pub struct BackingUp<'a> {
    /// The snapshot file, with its log.
    pub file: &'a str,
    /// The file that is written.
    pub out: &'a str,
}

/// What the words ask for.
#[derive(Clone, Copy)]
pub enum Task<'a> {
    /// A snapshot file of records on standard input.
    Make(Making<'a>),
    /// A snapshot file of the same records in slots.
    Migrate(Migrating<'a>),
    /// A snapshot file of the same records in a wide store.
    Widen(Widening<'a>),
    /// A snapshot file whose publisher gets another key.
    Rekey(Rekeying<'a>),
    /// What the snapshot file of this name holds.
    Show(&'a str),
    /// The snapshot file of this name with a shorter log.
    Compact(&'a str),
    /// A snapshot file of another one's last version.
    BackUp(BackingUp<'a>),
    /// A snapshot file served over connections, one after the other.
    Serve(Serving<'a>),
    /// A snapshot file served over many connections side by side.
    Run(RunOptions<'a>),
    /// One database served over standard input and output.
    Once,
}

/// What a command line asks for.
#[derive(Clone, Copy)]
pub struct Asked<'a> {
    /// What is to be done.
    pub task: Task<'a>,
    /// Whether the cause of a failure is to be said, too.
    pub verbose: bool,
}

// The command `migrate`.
const MIGRATE: CommandText = CommandText {
    name: "migrate",
    about: "Makes a snapshot file of the same records in slots, so that each may have a length of \
        its own",
    example: "Prints 'migrated COUNT VERSION'. A slot has two bytes more than the record had: its \
        length. Version, seed and the\n\
        publisher's key stay; hints of the old file are of no use with the new one.\n\n\
        Example: pir_server migrate --file two.pir --out slots.pir\n\n\
        With --verbose a fault has a second line, 'cause: TEXT', that says what failed and where.",
    arguments: &[
        Argument::Verbose,
        Argument::Required {
            name: "file",
            value: "FILE",
            help: "The snapshot file of form 1; it stays as it is, unless --out names it",
        },
        Argument::Required {
            name: "out",
            value: "FILE",
            help: "The snapshot file to write",
        },
    ],
};

// The command `widen`.
const WIDEN: CommandText = CommandText {
    name: "widen",
    about: "Makes a snapshot file of the same records in a wide store, which can grow beyond an \
        ordinary one",
    example: "Prints 'widened COUNT VERSION'. Form 1 becomes 129, and 2 becomes 130. Version and \
        the publisher's key stay; hints of the old file are of\n\
        no use with the new one.\n\n\
        Example: pir_server widen --file two.pir --out wide.pir --seed $(openssl rand -hex 32)\n\n\
        With --verbose a fault has a second line, 'cause: TEXT', that says what failed and where.",
    arguments: &[
        Argument::Verbose,
        Argument::Required {
            name: "file",
            value: "FILE",
            help: "The snapshot file of form 1 or 2; it stays as it is, unless --out names it",
        },
        Argument::Required {
            name: "out",
            value: "FILE",
            help: "The snapshot file to write",
        },
        Argument::Required {
            name: "seed",
            value: "HEX",
            help: "The public seed of the new store's matrices: 32 bytes as 64 hex digits that no \
                other store has, or @FILE",
        },
    ],
};

// The command `rekey`.
const REKEY: CommandText = CommandText {
    name: "rekey",
    about: "Gives a snapshot file another publisher's key, while no server serves it",
    example: "Prints 'rekeyed COUNT VERSION'. Records, version and seed are as before, so that \
        hints of this version remain good;\n\
        whoever has an earlier one fetches a whole hint. The old key is of no use from then \
        on.\n\n\
        Example: pir_server rekey --file two.pir --key @key.txt\n\n\
        With --verbose a fault has a second line, 'cause: TEXT', that says what failed and where.",
    arguments: &[
        Argument::Verbose,
        Argument::Required {
            name: "file",
            value: "FILE",
            help: "The snapshot file, which is replaced",
        },
        Argument::Required {
            name: "key",
            value: "HEX",
            help: "The publisher's key from now on: 32 bytes as 64 hex digits, not all 0, or \
                @FILE; the snapshot keeps its SHA-256 alone",
        },
    ],
};

// The command `show`.
const SHOW: CommandText = CommandText {
    name: "show",
    about: "Shows what a snapshot file holds and how many bytes its retrievals take",
    example: "Prints a line each: the version; the form; how many records there are and their \
        length, in form 2 the most that one may\n\
        have and the longest that one has; the bits of a digit; the records in a\n\
        column; the rows and columns of digits; the words of a secret; for each scheme the bytes \
        of the words of a hint, a query\n\
        and an answer; for each scheme whether every retrieval is certain to give its record, \
        or depends on the noise drawn;\n\
        and if there is a log, how many publications it has and how many bytes.\n\n\
        Example: pir_server show --file two.pir\n\n\
        With --verbose a fault has a second line, 'cause: TEXT', that says what failed and where.",
    arguments: &[
        Argument::Verbose,
        Argument::Required {
            name: "file",
            value: "FILE",
            help: "The snapshot file; it stays as it is",
        },
    ],
};

// The command `compact`.
const COMPACT: CommandText = CommandText {
    name: "compact",
    about: "Puts all publications of a snapshot file's log into the file, but the last 16, while \
        no server serves it",
    example: "Prints 'compacted VERSION N': the version that the file has now, and how many \
        publications its log has after that. Clients notice\n\
        nothing: the deltas of the last 16 versions stay.\n\n\
        Example: pir_server compact --file two.pir\n\n\
        With --verbose a fault has a second line, 'cause: TEXT', that says what failed and where.",
    arguments: &[
        Argument::Verbose,
        Argument::Required {
            name: "file",
            value: "FILE",
            help: "The snapshot file, which is replaced, with its log",
        },
    ],
};

// The command `backup`.
const BACKUP: CommandText = CommandText {
    name: "backup",
    about: "Copies the last version of a snapshot file and its log into one file, also while a \
        server serves them",
    example: "Prints 'backed up COUNT VERSION'. The copy is one file, which needs no log; it is \
        read again after it was written.\n\n\
        Example: pir_server backup --file two.pir --out copy.pir\n\n\
        With --verbose a fault has a second line, 'cause: TEXT', that says what failed and where.",
    arguments: &[
        Argument::Verbose,
        Argument::Required {
            name: "file",
            value: "FILE",
            help: "The snapshot file; it stays as it is, and so does its log",
        },
        Argument::Required {
            name: "out",
            value: "FILE",
            help: "The snapshot file to write",
        },
    ],
};

// The command `serve`.
const SERVE: CommandText = CommandText {
    name: "serve",
    about: "Serves a snapshot file on 127.0.0.1, one connection after the other",
    example: "Prints 'listening PORT' once it listens. A connection that ends with a fault is \
        reported on standard error,\n\
        as 'connection: NAME', and the next one is served. Edits that were not published are lost \
        at the end.\n\n\
        Example: pir_server serve --file two.pir --port 7000 --connections 3\n\n\
        With --verbose a fault has a second line, 'cause: TEXT', that says what failed and where.",
    arguments: &[
        Argument::Verbose,
        Argument::Required {
            name: "file",
            value: "FILE",
            help: "The snapshot file; it is replaced after each connection that published a \
                version",
        },
        Argument::Required {
            name: "port",
            value: "P",
            help: "The port to listen on, 0 to 65535; 0 takes any that is free",
        },
        Argument::Required {
            name: "connections",
            value: "C",
            help: "How many connections to serve before the end",
        },
    ],
};

// The command `once`.
const ONCE: CommandText = CommandText {
    name: "once",
    about: "Serves one database over standard input and output: its frames are a Load, Queries, a \
        Bye",
    example: "The same as no command.\n\nExample: pir_server once < frames > replies",
    arguments: &[],
};

// The whole command line.
fn whole_command<'a>(alloc: Global) -> Result<Command<'a>, AllocError> {
    let mut program = Command::new(alloc, "pir_server")
        .version(VERSION)
        .about("A server of private information retrieval on this machine")
        .after_help(EXIT_STATUSES);
    for text in [
        &MAKE, &MIGRATE, &WIDEN, &REKEY, &SHOW, &COMPACT, &BACKUP, &SERVE, &RUN, &ONCE,
    ] {
        program = with_command(alloc, program, text)?;
    }
    Ok(program)
}

/// What `--version` prints after the program's name.
const VERSION: &str = "0.2.0";

const EXIT_STATUSES: &str = "Without a command: once.\n\n\
        A value @FILE of --seed or --key is read from that file; one on the command line itself \
        stands in the list of\n\
        processes, for other users of this machine to see.\n\n\
        Exit status: 0 done, 2 a bad command line, 3 a fault, 4 out of memory.\n\n\
        A fault is one line on standard error, 'fault: NAME':\
        \n  File           a file can't be opened or made, or is none, as a folder or a pipe\
        \n  Read, Write    reading or writing failed\
        \n  BadRecords     the input of make is not whole records, or not as many as --count says, \
        or lines that are none, or too many bytes\
        \n  BadLayout      no store has these sizes\
        \n  NotSnapshot, Short, BadDigest, TrailingBytes, BadSlot   a file that is no whole \
        snapshot\
        \n  BadLog         the log beside the file is damaged, or is none of its snapshot\
        \n  NotFormOne     the records that migrate is to move stand in slots already\
        \n  TooWide        no store has records of two bytes more\
        \n  NotOrdinary    the store that widen is to move is a wide one already\
        \n  BadWidth       its digits have 10 bits, and in a wide store at most 9\
        \n  Locked         another process serves or replaces the file\
        \n  Exists         something stands where make --new is to make a file\
        \n  Connect        the port can't be listened on\
        \n  Input          with --until-eof, standard input is a file or the null device\
        \n  BadInput       the input of once can't be served; its last reply is Refused 1\
        \n  TurnsUsedUp    more reads than a session has\
        \n  Memory         memory was refused (status 4)\n\n\
        With --verbose a second line 'cause: TEXT' says what failed and where.";

// What the words of `migrate` ask for.
fn migrating_of<'a>(found: &ArgMatches<'a>) -> Result<Migrating<'a>, BadLine<'a>>
    ensures { IfOk result (ReadsMigrate (found_of found.now)) }
{
    Ok(Migrating {
        file: text_at(found, "file", FILE_TAKES)?,
        out: text_at(found, "out", OUT_TAKES)?,
    })
}

// What the words of `widen` ask for.
fn widening_of<'a>(found: &ArgMatches<'a>) -> Result<Widening<'a>, BadLine<'a>>
    ensures { IfOk result (ReadsWiden (found_of found.now)) }
{
    Ok(Widening {
        file: text_at(found, "file", FILE_TAKES)?,
        out: text_at(found, "out", OUT_TAKES)?,
        seed: seed_at(found, "seed", SEED_TAKES)?,
    })
}

// What the words of `backup` ask for.
fn backing_up_of<'a>(found: &ArgMatches<'a>) -> Result<BackingUp<'a>, BadLine<'a>>
    ensures { IfOk result (ReadsBackup (found_of found.now)) }
{
    Ok(BackingUp {
        file: text_at(found, "file", FILE_TAKES)?,
        out: text_at(found, "out", OUT_TAKES)?,
    })
}

// What the words of `rekey` ask for.
fn rekeying_of<'a>(found: &ArgMatches<'a>) -> Result<Rekeying<'a>, BadLine<'a>>
    ensures { IfOk result (ReadsRekey (found_of found.now)) }
{
    Ok(Rekeying {
        file: text_at(found, "file", FILE_TAKES)?,
        key: key_at(found, "key", KEY_TAKES)?,
    })
}

// What the words of `serve` ask for.
fn serving_of<'a>(found: &ArgMatches<'a>) -> Result<Serving<'a>, BadLine<'a>>
    ensures { IfOk result (ReadsServe (found_of found.now)) }
{
    Ok(Serving {
        file: text_at(found, "file", FILE_TAKES)?,
        port: number_at(found, "port", u64::from(u16::MAX), PORT_TAKES)? as u16,
        connections: number_at(
            found,
            "connections",
            u64::from(u32::MAX),
            CONNECTIONS_TAKES,
        )? as u32,
    })
}

/// What the program's words ask for, its name first. Without others it is `once`.
pub fn task_of<'a>(alloc: Global, words: &'a [String]) -> Result<Asked<'a>, BadLine<'a>> {
    let matches = whole_command(alloc)?.try_get_matches_from(words)?;
    match matches.subcommand() {
        Some((name, found)) => asked_for(name, found),
        None => Ok(Asked {
            task: Task::Once,
            verbose: false,
        }),
    }
}

// What a command asks for, and whether the cause of its failure is to be said.
fn asked_for<'a>(name: &str, found: &ArgMatches<'a>) -> Result<Asked<'a>, BadLine<'a>> {
    let task = task_named(name, found)?;
    let verbose = found.get_flag("verbose");
    Ok(Asked { task, verbose })
}

// What the words of the command of this name ask for.
fn task_named<'a>(name: &str, found: &ArgMatches<'a>) -> Result<Task<'a>, BadLine<'a>> {
    match name {
        "make" => making_of(found).map(Task::Make),
        "migrate" => migrating_of(found).map(Task::Migrate),
        "widen" => widening_of(found).map(Task::Widen),
        "rekey" => rekeying_of(found).map(Task::Rekey),
        "show" => text_at(found, "file", FILE_TAKES).map(Task::Show),
        "compact" => text_at(found, "file", FILE_TAKES).map(Task::Compact),
        "backup" => backing_up_of(found).map(Task::BackUp),
        "serve" => serving_of(found).map(Task::Serve),
        "run" => options_of_run(found).map(Task::Run),
        _ => Ok(Task::Once),
    }
}
