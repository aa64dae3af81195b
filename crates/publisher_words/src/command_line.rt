//! The command line.

ghost use Rattle.std.specs.Prelude.{◌≡◌, IfOk, Some, codes};
ghost use Rattle.clap.specs.Matches.{first_value, found_of};
ghost use Rattle.command_words.specs.Given.{IsNumberGiven};
ghost use Rattle.publisher_words.specs.Tasks.{IsRecordGiven, ReadsAdd, ReadsPush, ReadsSet};
ghost use Rattle.publisher_words.specs.Tasks.{ReadsShow};

use crate::init_line::{INIT, InitOptions, init_options_of};
use crate::peers::{Peer, peers_at};
use clap::{ArgMatches, Command};
use command_words::{
    Argument, BadLine, CommandText, Secret, key_at, number_at, record_bytes, text_at, with_command,
};
use std::alloc::{AllocError, Global};

/// What `--dir` takes, as a bad one is reported.
pub const DIR_TAKES: &str = "--dir takes a folder's name";

/// What `--seed` takes, as a bad one is reported.
pub const SEED_TAKES: &str =
    "--seed takes 32 bytes as 64 hex digits, or @FILE with them in the file";

/// What `--key` takes, as a bad one is reported.
pub const KEY_TAKES: &str =
    "--key takes 32 bytes as 64 hex digits that are not all 0, or @FILE with them in the file";

const INDEX_TAKES: &str = "INDEX is a number from 0 to 4294967295";

const HEX_TAKES: &str = "HEX is at most 65535 bytes as two hex digits each, or - for none";

/// Which record `set` is to replace.
#[derive(Drop)]
pub struct SetOptions<'a> {
    /// The folder.
    pub dir: &'a str,
    /// The record's index.
    pub index: u32,
    /// The record's bytes.
    pub bytes: Vec<u8>,
}

/// Which record `add` is to append.
#[derive(Drop)]
pub struct AddOptions<'a> {
    /// The folder.
    pub dir: &'a str,
    /// The record's bytes.
    pub bytes: Vec<u8>,
}

/// What `show` is to show.
#[derive(Clone, Copy)]
pub struct ShowOptions<'a> {
    /// The folder.
    pub dir: &'a str,
    /// The record's index, if one is to be shown.
    pub index: Option<u32>,
}

/// What `push` is to bring to which servers.
#[derive(Drop)]
pub struct PushOptions<'a> {
    /// The folder.
    pub dir: &'a str,
    /// The publisher's key.
    pub key: Secret<'a>,
    /// The servers, one at least.
    pub to: Vec<Peer<'a>>,
    /// Whether the servers are kept at the folder's version from then on.
    pub watch: bool,
    /// Whether records are retrieved of each server, and compared.
    pub verify: bool,
}

/// Which servers are asked for their version.
#[derive(Drop)]
pub struct StatusOptions<'a> {
    /// The folder.
    pub dir: &'a str,
    /// The servers, one at least.
    pub to: Vec<Peer<'a>>,
}

/// What the words ask for.
#[derive(Drop)]
pub enum Task<'a> {
    /// A folder with a snapshot of the records on standard input.
    Init(InitOptions<'a>),
    /// The changes of the lines on standard input, in the draft of this folder.
    Import(&'a str),
    /// Another record in a draft.
    Set(SetOptions<'a>),
    /// One more record in a draft.
    Add(AddOptions<'a>),
    /// What a folder has, or a record of its current version.
    Show(ShowOptions<'a>),
    /// What the draft of this folder changes.
    Diff(&'a str),
    /// The draft of this folder as the next version.
    Publish(&'a str),
    /// The versions of a folder, brought to servers.
    Push(PushOptions<'a>),
    /// The versions of servers, beside a folder's.
    Status(StatusOptions<'a>),
}

/// What a command line asks for.
#[derive(Drop)]
pub struct Asked<'a> {
    /// What is to be done.
    pub task: Task<'a>,
    /// Whether the cause of a failure is to be said, too.
    pub verbose: bool,
}

// The option that names the folder.
const DIR: Argument = Argument::Required {
    name: "dir",
    value: "DIR",
    help: "The folder",
};

// The option that names a server.
const TO: Argument = Argument::Repeated {
    name: "to",
    value: "HOST:PORT",
    help: "A server; more than one may be given, each with a --to of its own",
};

// The command `import`.
const IMPORT: CommandText = CommandText {
    name: "import",
    about: "Puts the changes that the lines on standard input ask for into the draft",
    example: "Prints 'drafted N', N being how many records the draft changes then.\n\n\
        A line is 'INDEX HEX' for a record that is replaced, '+ HEX' for one that is appended, or \
        the same with a comma for the space; a first line\n\
        'index,hex' is skipped. HEX is the record's bytes as two hex digits each, or - for none. A \
        later line of an INDEX replaces an earlier one.\n\
        If a line is none of these, or its change can't be made, nothing is in the draft, and \
        standard error has 'line NUMBER: bad'.\n\n\
        Example: printf '0 0a\\n\
        + c8\\n\
        ' | pir_publisher import --dir mine\n\n\
        With --verbose a fault has a second line, 'cause: TEXT', that says what failed and where.",
    arguments: &[Argument::Verbose, DIR],
};

// The command `set`.
const SET: CommandText = CommandText {
    name: "set",
    about: "Replaces a record in the draft",
    example: "Prints 'drafted N', N being how many records the draft changes then.\n\n\
        Example: pir_publisher set --dir mine 0 0a\n\n\
        With --verbose a fault has a second line, 'cause: TEXT', that says what failed and where.",
    arguments: &[
        Argument::Verbose,
        DIR,
        Argument::Word {
            name: "INDEX",
            help: "Which record, counted from 0; one that the draft appended, too",
        },
        Argument::Word {
            name: "HEX",
            help: "The record's bytes as two hex digits each, or - for none",
        },
    ],
};

// The command `add`.
const ADD: CommandText = CommandText {
    name: "add",
    about: "Appends a record to the draft",
    example: "Prints 'drafted N', N being how many records the draft changes then.\n\n\
        Example: pir_publisher add --dir mine 0a\n\n\
        With --verbose a fault has a second line, 'cause: TEXT', that says what failed and where.",
    arguments: &[
        Argument::Verbose,
        DIR,
        Argument::Word {
            name: "HEX",
            help: "The record's bytes as two hex digits each, or - for none",
        },
    ],
};

// The command `show`.
const SHOW: CommandText = CommandText {
    name: "show",
    about: "Shows what a folder has, or a record of its current version",
    example: "Without INDEX prints a line each: the version; how many records it has, and their \
        length; how many of them the draft changes; the version of the\n\
        snapshot; how many publications the log has after it, and how many bytes; the form; the \
        bits of a digit; the records in a column; the rows and columns\n\
        of digits; the words of a secret. With INDEX prints that record in hex, or - if it has no \
        bytes; the draft is not looked at.\n\n\
        The log grows with each version: 'pir_server compact --file DIR/records.pir' makes it \
        shorter.\n\n\
        Example: pir_publisher show --dir mine\n\
        Example: pir_publisher show --dir mine 0\n\n\
        With --verbose a fault has a second line, 'cause: TEXT', that says what failed and where.",
    arguments: &[
        Argument::Verbose,
        DIR,
        Argument::MaybeWord {
            name: "INDEX",
            help: "Which record, counted from 0",
        },
    ],
};

// The command `diff`.
const DIFF: CommandText = CommandText {
    name: "diff",
    about: "Shows what the draft changes of the current version",
    example: "Prints a line for each record that the draft changes, by ascending index: 'INDEX \
        OLDHEX NEWHEX', or '+ HEX' for one that it appends, - being the HEX of\n\
        no bytes. Without the second of three words these are lines of an import, also into \
        another folder at the same version:\
        \n  pir_publisher diff --dir mine | awk '{print $1, $NF}' | pir_publisher import --dir \
        other\n\n\
        Example: pir_publisher diff --dir mine\n\n\
        With --verbose a fault has a second line, 'cause: TEXT', that says what failed and where.",
    arguments: &[Argument::Verbose, DIR],
};

// The command `publish`.
const PUBLISH: CommandText = CommandText {
    name: "publish",
    about: "Makes the draft the next version, in the folder's log",
    example: "Prints 'published VERSION'. The version is on the disk then, and the draft is empty. \
        No server has it yet: push brings it to them.\n\n\
        Example: pir_publisher publish --dir mine\n\n\
        With --verbose a fault has a second line, 'cause: TEXT', that says what failed and where.",
    arguments: &[Argument::Verbose, DIR],
};

// The command `push`.
const PUSH: CommandText = CommandText {
    name: "push",
    about: "Brings servers to the folder's version",
    example: "Greets each server as the publisher, side by side, and sends it the publications \
        that it lacks. Prints 'pushed HOST:PORT VERSION' for each\n\
        that has the folder's version then. One that takes no connection or says nothing is tried \
        up to three times. Prints 'left HOST:PORT CAUSE' for one that is left\n\
        as it is, and at the end 'fault: Left' if there is any. CAUSE begins with a name:\
        \n  Connect, Timeout, Ended   it takes no connection, said nothing for ten seconds, or \
        ended the connection\
        \n  Push         it refused (code 4: another key), or replied otherwise than that it is \
        done in the version awaited\
        \n  OtherStore   its seed or sizes are others: start it from a copy of the snapshot\
        \n  Ahead        it has a later version than the folder\
        \n  BeforeLog    its version is before those of the log: start it from a copy of the \
        snapshot\
        \n  Differs      it has another number of records, or with --verify another record than \
        the folder\
        \n  Unverified   with --verify: a record could not be retrieved\
        \n  Memory       memory was refused\n\n\
        Start servers with 'run --draft session': what a push that was cut short left would be \
        published by the next one otherwise.\n\n\
        With --watch this goes on until the process is killed: each second it looks for a new \
        version in the folder, a server that is away is tried again after 1 to\n\
        60 seconds, and a line is printed when that is news.\n\n\
        Example: pir_publisher push --dir mine --key @key.txt --to 127.0.0.1:7000 --to \
        127.0.0.1:7001\n\n\
        With --verbose a fault has a second line, 'cause: TEXT', that says what failed and where.",
    arguments: &[
        Argument::Verbose,
        DIR,
        Argument::Required {
            name: "key",
            value: "HEX",
            help: "The publisher's key: 32 bytes as 64 hex digits, not all 0, or @FILE",
        },
        Argument::Flag {
            name: "watch",
            help: "Goes on, and brings each version that is published to the servers",
        },
        Argument::Flag {
            name: "verify",
            help: "Retrieves of each server the records that were changed by what was pushed to \
                it, or by the last publication, and compares them with the folder's",
        },
        TO,
    ],
};

// The command `status`.
const STATUS: CommandText = CommandText {
    name: "status",
    about: "Asks servers for their versions",
    example: "Prints a table: a line of titles, and then for each server its address, its version, \
        how many versions it lacks, and how many records it has; of one that\n\
        did not tell the cause, and at the end 'fault: Connect'.\n\n\
        Example: pir_publisher status --dir mine --to 127.0.0.1:7000 --to 127.0.0.1:7001\n\n\
        With --verbose a fault has a second line, 'cause: TEXT', that says what failed and where.",
    arguments: &[Argument::Verbose, DIR, TO],
};

/// What `--version` prints after the program's name.
const VERSION: &str = "0.2.0";

const EXIT_STATUSES: &str =
    "A folder has a snapshot, records.pir, with the log of the publications since beside it, both \
        as a server's file has them, and the draft of the\n\
        next version. To start a server copy records.pir and its log, or 'pir_server backup --file \
        DIR/records.pir --out FILE'.\n\n\
        A value @FILE of --seed or --key is read from that file; one on the command line itself \
        stands in the list of\n\
        processes, for other users of this machine to see.\n\n\
        Exit status: 0 done, 2 a bad command line, 3 a fault or a bad line, 4 out of memory.\n\n\
        A fault is one line on standard error, 'fault: NAME':\
        \n  File           a file can't be opened or made, or is none, as a folder or a pipe\
        \n  Read, Write    reading or writing failed\
        \n  Exists         the folder has a snapshot, where init is to make one\
        \n  BadRecords     the input of init is not whole records, or not as many as --count says, \
        or lines that are none, or too many bytes\
        \n  BadLayout      no store has these sizes\
        \n  NotSnapshot, Short, BadDigest, TrailingBytes, BadSlot   the folder's snapshot is no \
        whole one\
        \n  BadLog         the log is damaged, or is none of the snapshot\
        \n  BadDraft       the draft is damaged, or is one of another store or another version: \
        remove it to begin a new one\
        \n  Locked         another process has the folder\
        \n  BadIndex       there is no record of this index\
        \n  BadLength      a record of the store can't have this number of bytes\
        \n  Full           the store has room for no further record\
        \n  NothingToPublish   the draft changes nothing\
        \n  VersionsUsedUp     there is no further version number\
        \n  TooLong        no publication has room for so many changes\
        \n  Left           push left a server as it is, and said why\
        \n  Connect        status got no version of a server, or there is nothing to wait for \
        sockets with\
        \n  Memory         memory was refused (status 4)\n\n\
        With --verbose a second line 'cause: TEXT' says what failed and where.";

// The whole command line.
fn whole_command<'a>(alloc: Global) -> Result<Command<'a>, AllocError> {
    let mut program = Command::new(alloc, "pir_publisher")
        .version(VERSION)
        .about("Keeps a publisher's records and versions in a folder, and brings them to servers")
        .after_help(EXIT_STATUSES)
        .subcommand_required(true);
    for text in [
        &INIT, &IMPORT, &SET, &ADD, &DIFF, &PUBLISH, &SHOW, &PUSH, &STATUS,
    ] {
        program = with_command(alloc, program, text)?;
    }
    Ok(program)
}

// The record's bytes given for `HEX`.
fn record_at<'a>(alloc: Global, found: &ArgMatches<'a>) -> Result<Vec<u8>, BadLine<'a>>
    ensures { IfOk result (λ bytes. IsRecordGiven (found_of found.now) (codes "HEX") bytes.items) }
{
    match record_bytes(alloc, text_at(found, "HEX", HEX_TAKES)?)? {
        Some(bytes) => Ok(bytes),
        None => Err(BadLine::Value(HEX_TAKES)),
    }
}

// The record given for `INDEX`.
fn index_at<'a>(found: &ArgMatches<'a>) -> Result<u32, BadLine<'a>>
    ensures { IfOk result (IsNumberGiven (found_of found.now) (codes "INDEX")) }
{
    Ok(number_at(found, "INDEX", u64::from(u32::MAX), INDEX_TAKES)? as u32)
}

// The folder given.
fn dir_at<'a>(found: &ArgMatches<'a>) -> Result<&'a str, BadLine<'a>>
    ensures { IfOk result (λ dir. first_value (found_of found.now) (codes "dir") ≡ Some dir.now) }
{
    text_at(found, "dir", DIR_TAKES)
}

// What the words of `set` ask for.
fn set_options_of<'a>(alloc: Global, found: &ArgMatches<'a>) -> Result<SetOptions<'a>, BadLine<'a>>
    ensures { IfOk result (ReadsSet (found_of found.now)) }
{
    Ok(SetOptions {
        dir: dir_at(found)?,
        index: index_at(found)?,
        bytes: record_at(alloc, found)?,
    })
}

// What the words of `add` ask for.
fn add_options_of<'a>(alloc: Global, found: &ArgMatches<'a>) -> Result<AddOptions<'a>, BadLine<'a>>
    ensures { IfOk result (ReadsAdd (found_of found.now)) }
{
    Ok(AddOptions {
        dir: dir_at(found)?,
        bytes: record_at(alloc, found)?,
    })
}

// What the words of `show` ask for.
fn show_options_of<'a>(found: &ArgMatches<'a>) -> Result<ShowOptions<'a>, BadLine<'a>>
    ensures { IfOk result (ReadsShow (found_of found.now)) }
{
    let dir = dir_at(found)?;
    match found.get_str("INDEX") {
        Some(_) => {
            let index = index_at(found)?;
            Ok(ShowOptions {
                dir,
                index: Some(index),
            })
        }
        None => Ok(ShowOptions { dir, index: None }),
    }
}

// What the words of `push` ask for.
fn push_options_of<'a>(
    alloc: Global,
    found: &ArgMatches<'a>,
) -> Result<PushOptions<'a>, BadLine<'a>>
    ensures { IfOk result (ReadsPush (found_of found.now)) }
{
    Ok(PushOptions {
        dir: dir_at(found)?,
        key: key_at(found, "key", KEY_TAKES)?,
        to: peers_at(alloc, found)?,
        watch: found.get_flag("watch"),
        verify: found.get_flag("verify"),
    })
}

// What the words of `status` ask for.
fn status_options_of<'a>(
    alloc: Global,
    found: &ArgMatches<'a>,
) -> Result<StatusOptions<'a>, BadLine<'a>>
    ensures { IfOk result (λ asking.
        first_value (found_of found.now) (codes "dir") ≡ Some asking.dir.now) }
{
    Ok(StatusOptions {
        dir: dir_at(found)?,
        to: peers_at(alloc, found)?,
    })
}

/// What the program's words ask for, its name first.
pub fn task_of<'a>(alloc: Global, words: &'a [String]) -> Result<Asked<'a>, BadLine<'a>> {
    let matches = whole_command(alloc)?.try_get_matches_from(words)?;
    match matches.subcommand() {
        Some((name, found)) => asked_for(alloc, name, found),
        None => Err(BadLine::Value("a command is needed")),
    }
}

// What a command asks for, and whether the cause of its failure is to be said.
fn asked_for<'a>(
    alloc: Global,
    name: &str,
    found: &ArgMatches<'a>,
) -> Result<Asked<'a>, BadLine<'a>> {
    let task = task_named(alloc, name, found)?;
    let verbose = found.get_flag("verbose");
    Ok(Asked { task, verbose })
}

// What the words of the command of this name ask for.
fn task_named<'a>(
    alloc: Global,
    name: &str,
    found: &ArgMatches<'a>,
) -> Result<Task<'a>, BadLine<'a>> {
    match name {
        "init" => init_options_of(found).map(Task::Init),
        "import" => dir_at(found).map(Task::Import),
        "set" => set_options_of(alloc, found).map(Task::Set),
        "add" => add_options_of(alloc, found).map(Task::Add),
        "show" => show_options_of(found).map(Task::Show),
        "diff" => dir_at(found).map(Task::Diff),
        "publish" => dir_at(found).map(Task::Publish),
        "push" => push_options_of(alloc, found).map(Task::Push),
        _ => status_options_of(alloc, found).map(Task::Status),
    }
}
