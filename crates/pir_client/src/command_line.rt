//! The command line.

ghost use Rattle.std.specs.Prelude.{◌≡◌, Some, IfOk, IfSome, codes};
ghost use Rattle.clap.specs.Matches.{found_of, first_value};
ghost use Rattle.command_words.specs.Given.{IsNumberIfGiven};
ghost use Rattle.hint_file.specs.Texts.{scheme_text};
ghost use Rattle.pir_client.specs.Tasks.{TaskFits, IsDimension, IsTimeout};
ghost use Rattle.pir_client.specs.Tasks.{IsServerGiven, IsHostGiven, ReadsGet, ReadsPut};
ghost use Rattle.pir_client.specs.Tasks.{ReadsAppend, ReadsPublish};

use crate::folder_tasks::{FolderTask, folder_get_task, forget_task, state_task};
use crate::server::Address;
use clap::{ArgMatches, Command};
use command_words::{
    Argument, BadLine, CommandText, Secret, key_at, number_at, record_bytes, seed_at, text_at,
    with_command,
};
use session_core::Scheme;
use std::alloc::{AllocError, Global};

/// The numbers of retrievals are below this one.
const NUMBERS: u64 = 1 << 62;

/// What `--port` takes, as a bad one is reported.
pub const PORT_TAKES: &str = "--port takes a number from 0 to 65535";

/// What `--seed` takes, as a bad one is reported.
pub const SEED_TAKES: &str =
    "--seed takes 32 bytes as 64 hex digits, or @FILE with them in the file";

/// What `--key` takes, as a bad one is reported.
pub const KEY_TAKES: &str =
    "--key takes 32 bytes as 64 hex digits that are not all 0, or @FILE with them in the file";

const NUMBER_TAKES: &str = "--number takes a number below 4611686018427387904";

/// The most words that a secret has.
const DIMENSIONS: u64 = 1024;

const DIMENSION_TAKES: &str = "--least-dimension takes a number from 1 to 1024";

/// The most seconds that a connection or a reply may be given.
const MOST_TIMEOUT: u64 = 86_400;

const TIMEOUT_TAKES: &str = "--timeout takes a number of seconds from 1 to 86400";

/// The server's address if none is given.
const THIS_MACHINE: &str = "127.0.0.1";

const SCHEME_TAKES: &str = "--scheme takes simple or double";

/// What an index is, as a bad one is reported.
pub const INDEX_TAKES: &str = "INDEX is a number from 0 to 4294967295";

const ONE_INDEX: &str = "without --state there is one INDEX";

const HEX_TAKES: &str = "HEX is at most 65535 bytes as two hex digits each, or - for none";

/// What the words ask for.
#[derive(Drop)]
pub enum Task<'a> {
    /// One private retrieval.
    Get {
        server: Address<'a>,
        seed: Secret<'a>,
        number: u64,
        least: Option<usize>,
        scheme: Scheme,
        index: u32,
    },
    /// One edit by the publisher.
    Put {
        server: Address<'a>,
        key: Secret<'a>,
        index: u32,
        bytes: Vec<u8>,
    },
    /// One record appended by the publisher.
    Append {
        server: Address<'a>,
        key: Secret<'a>,
        bytes: Vec<u8>,
    },
    /// A publication.
    Publish {
        server: Address<'a>,
        key: Secret<'a>,
    },
    /// What is asked of a client's folder.
    Folder(FolderTask<'a>),
    /// A script of a world on standard input.
    Rehearse,
}

/// What a command line asks for.
#[derive(Drop)]
pub struct Asked<'a> {
    /// What is to be done.
    pub task: Task<'a>,
    /// Whether the cause of a failure is to be said, too.
    pub verbose: bool,
}

// The flag by which a server is greeted as that of a wide store.
const WIDE: Argument = Argument::Flag {
    name: "wide",
    help: "Greets the server of a wide store, which refuses any other greeting with code 3",
};

// The option for how long the server may take.
const TIMEOUT: Argument = Argument::Optional {
    name: "timeout",
    value: "SECONDS",
    help: "How many seconds connecting and each whole reply may take, 1 to 86400; any time if not \
        given",
};

// The option for the publisher's server.
const PORT: Argument = Argument::Required {
    name: "port",
    value: "P",
    help: "The server's port on 127.0.0.1",
};

// The option for the publisher's key.
const KEY: Argument = Argument::Required {
    name: "key",
    value: "HEX",
    help: "The publisher's key: 32 bytes as 64 hex digits, or @FILE, as given to pir_server make",
};

// The command `get`.
const GET: CommandText = CommandText {
    name: "get",
    about: "Retrieves a record without telling the server which",
    example: "Prints 'retrieved INDEX VERSION HEX', HEX being the record's bytes, or - if it\n\
        has none.\n\n\
        With --state DIR a wide store is known by its greeting; without it --wide says that\n\
        the store is one. With --state DIR each run draws a seed of its own from the system's\n\
        random source, and keeps none. The folder keeps public hints alone, one for each scheme\n\
        and store, so that a second get need not fetch one; it may be copied, restored or\n\
        removed at any time. With --scheme auto the hints kept and the number of records decide\n\
        the scheme, and not which records they are. A server of a lower version than was seen\n\
        before is warned of beside the result. With --no-older nothing is asked of it: up to\n\
        three more connections are tried, since a balancer may lead to another server, and then\n\
        it is 'fault: Older'. A hint's parts that have come stay there, so that a get whose\n\
        connection was cut goes on with the next one.\n\n\
        With --seed and --number it is you who must never use a number twice with one seed, not\n\
        even after a get that failed: two such retrievals can tell the server what they ask.\n\n\
        Secrets of fewer than 1024 words hide INDEX less: the server chooses their number.\n\
        --least-dimension 1024 ends a get with 'fault: BadWelcome' if they are fewer, before\n\
        INDEX is asked for; without it a warning is printed, and with --state fewer than 1024\n\
        are refused.\n\n\
        Example: pir_client get --state DIR --port 7000 --scheme simple 1\n\
        Example: pir_client get --port 7000 --seed \
        1111111111111111111111111111111111111111111111111111111111111111 --number 0 --scheme \
        simple 1\n\n\
        With --verbose a fault has a second line, 'cause: TEXT', that says what failed and where.",
    arguments: &[
        Argument::Required {
            name: "port",
            value: "P",
            help: "The server's port",
        },
        Argument::InPlaceOf {
            other: "state",
            name: "seed",
            value: "HEX",
            help: "For tests and for who keeps numbers: a secret of 32 bytes, which alone hides \
                INDEX, as 64 hex digits or @FILE",
        },
        Argument::InPlaceOf {
            other: "state",
            name: "number",
            value: "N",
            help: "The number of this retrieval, below 2^62: one that this seed has never been \
                used with",
        },
        Argument::Optional {
            name: "state",
            value: "DIR",
            help: "A folder in which the hint is kept for the next time; it is made if there is \
                none, and has no secret",
        },
        Argument::FlagWithout {
            other: "seed",
            name: "no-older",
            help: "With --state: refuses servers whose version is lower than one seen before, \
                after four connections",
        },
        Argument::FlagWithout {
            other: "seed",
            name: "progress",
            help: "With --state: says on standard error how many parts of a hint have come, and \
                how long the others take",
        },
        Argument::FlagWithout {
            other: "state",
            name: "wide",
            help: "Greets the server of a wide store, which refuses any other greeting with code 3",
        },
        Argument::Optional {
            name: "host",
            value: "ADDR",
            help: "The server's address; 127.0.0.1 if none is given",
        },
        Argument::Optional {
            name: "timeout",
            value: "SECONDS",
            help: "How many seconds connecting and each whole reply may take, 1 to 86400; with \
                --state 30 if not given, else any time",
        },
        Argument::Verbose,
        Argument::Optional {
            name: "least-dimension",
            value: "N",
            help: "The least number of words, 1 to 1024, that the server's secrets may have",
        },
        Argument::Required {
            name: "scheme",
            value: "NAME",
            help: "simple or double; with --state also auto: the one that moves fewer bytes for \
                the records named",
        },
        Argument::Words {
            name: "INDEX",
            help: "Which record, counted from 0; with --state one or more",
        },
    ],
};

// The command `state`.
const STATE: CommandText = CommandText {
    name: "state",
    about: "Prints which hints a folder keeps",
    example: "Prints for each hint 'hint SCHEME VERSION' and what the server had reported last: \
        'version V', 'records COUNT', 'dimension N'; or 'hint none'.\n\n\
        Example: pir_client state --state DIR\n\n\
        With --verbose a fault has a second line, 'cause: TEXT', that says what failed and where.",
    arguments: &[
        Argument::Verbose,
        Argument::Required {
            name: "state",
            value: "DIR",
            help: "The folder",
        },
    ],
};

// The command `forget`.
const FORGET: CommandText = CommandText {
    name: "forget",
    about: "Drops a folder's hints, so that the next retrieval fetches its hint anew",
    example: "Prints 'forgotten'.\n\n\
        Example: pir_client forget --state DIR\n\n\
        With --verbose a fault has a second line, 'cause: TEXT', that says what failed and where.",
    arguments: &[
        Argument::Verbose,
        Argument::Required {
            name: "state",
            value: "DIR",
            help: "The folder",
        },
    ],
};

// The command `put`.
const PUT: CommandText = CommandText {
    name: "put",
    about: "Replaces a record in the publisher's draft, which no reader sees before publish",
    example: "Prints 'done VERSION', VERSION being the current one.\n\n\
        Example: pir_client put --port 7000 --key \
        0101010101010101010101010101010101010101010101010101010101010101 1 64\n\n\
        With --verbose a fault has a second line, 'cause: TEXT', that says what failed and where.",
    arguments: &[
        Argument::Verbose,
        WIDE,
        TIMEOUT,
        PORT,
        KEY,
        Argument::Word {
            name: "INDEX",
            help: "Which record, counted from 0",
        },
        Argument::Word {
            name: "HEX",
            help: "The record's new bytes, two hex digits each, or - for a record of none",
        },
    ],
};

// The command `append`.
const APPEND: CommandText = CommandText {
    name: "append",
    about: "Appends a record to the publisher's draft, which no reader sees before publish",
    example: "Prints 'done VERSION', VERSION being the current one.\n\n\
        Example: pir_client append --port 7000 --key \
        0101010101010101010101010101010101010101010101010101010101010101 05\n\n\
        With --verbose a fault has a second line, 'cause: TEXT', that says what failed and where.",
    arguments: &[
        Argument::Verbose,
        WIDE,
        TIMEOUT,
        PORT,
        KEY,
        Argument::Word {
            name: "HEX",
            help: "The record's bytes, two hex digits each, or - for a record of none",
        },
    ],
};

// The command `publish`.
const PUBLISH: CommandText = CommandText {
    name: "publish",
    about: "Makes the publisher's draft the next version",
    example: "Prints 'published VERSION', VERSION being the new one.\n\n\
        Example: pir_client publish --port 7000 --key \
        0101010101010101010101010101010101010101010101010101010101010101\n\n\
        With --verbose a fault has a second line, 'cause: TEXT', that says what failed and where.",
    arguments: &[Argument::Verbose, WIDE, TIMEOUT, PORT, KEY],
};

// The command `rehearse`.
const REHEARSE: CommandText = CommandText {
    name: "rehearse",
    about: "Plays a script of a publisher, a server and its clients in this process (the default)",
    example: "Reads the script from standard input and prints what comes of each line.\n\n\
        Example: pir_client rehearse < script",
    arguments: &[],
};

// The whole command line.
fn whole_command<'a>(alloc: Global) -> Result<Command<'a>, AllocError> {
    let mut program = Command::new(alloc, "pir_client")
        .version(VERSION)
        .about("A client of one pir_server")
        .after_help(EXIT_STATUSES);
    for text in [&GET, &STATE, &FORGET, &PUT, &APPEND, &PUBLISH, &REHEARSE] {
        program = with_command(alloc, program, text)?;
    }
    Ok(program)
}

/// What `--version` prints after the program's name.
const VERSION: &str = "0.2.0";

const EXIT_STATUSES: &str =
    "A value @FILE of --seed or --key is read from that file; one on the command line itself \
        stands in the list of\n\
        processes, for other users of this machine to see.\n\n\
        Exit status: 0 done, 1 refused by the server (or stale, or unreadable), 2 a bad command \
        line, 3 a fault,\n\
        4 out of memory. Whatever the status, a --number that was given to get is never to be used \
        again with its seed.\n\n\
        The server's refusals are one line on standard error, 'refused CODE':\
        \n  1 BadFrame   2 NotWelcome   3 BadProfile   4 BadKey   5 NotPublisher   6 BadIndex   7 \
        BadLength\
        \n  8 NothingToPublish   9 VersionsUsedUp   10 BadPart   11 BadQueryLength   12 Memory   \
        13 BadScheme\
        \n  14 Full\n\n\
        A fault is one line on standard error, 'fault: NAME':\
        \n  File           the file of a seed or key can't be read\
        \n  State          the folder can't be made or used, or others may use it\
        \n  Random         the system's random source gave no seed\
        \n  Damaged        the kept hint was damaged, and is dropped: ask again\
        \n  Older          --no-older, and the server's version is lower than one seen before\
        \n  Connect        the server's port can't be connected to\
        \n  Timeout        connecting or a whole reply took longer than --timeout allows\
        \n  Read, Write    reading or writing failed\
        \n  Ended          the server closed the connection\
        \n  BadWelcome     the server's greeting is none that this client accepts\
        \n  BadReply       a reply that doesn't fit what was asked\
        \n  Failed         a reply came with more after it, and then a call was made\
        \n  BadIndex       there is no such record\
        \n  TurnsUsedUp    more reads than a call has\
        \n  Memory         memory was refused (status 4)\n\n\
        With --verbose a second line 'cause: TEXT' says what failed and where.";

// What the words of `get` ask for.
fn get_task<'a>(found: &ArgMatches<'a>) -> Result<Task<'a>, BadLine<'a>>
    ensures fits { IfOk result TaskFits }
    ensures read { IfOk result (ReadsGet (found_of found.now)) }
{
    let server = server_at(found)?;
    let seed = seed_at(found, "seed", SEED_TAKES)?;
    let number = number_at(found, "number", NUMBERS - 1, NUMBER_TAKES)?;
    let scheme = scheme_given(found)?;
    let least = least_dimension(found)?;
    let index = number_at(found, "INDEX", u64::from(u32::MAX), INDEX_TAKES)? as u32;
    if has_more_words(found) {
        return Err(BadLine::Value(ONE_INDEX));
    }
    Ok(Task::Get {
        server,
        seed,
        number,
        least,
        scheme,
        index,
    })
}

// Whether several records are named.
fn has_more_words(found: &ArgMatches<'_>) -> bool {
    match found.get_strs("INDEX") {
        Some(words) => words.len() > 1,
        None => false,
    }
}

/// The scheme given.
pub fn scheme_given<'a>(found: &ArgMatches<'a>) -> Result<Scheme, BadLine<'a>>
    ensures { IfOk result (λ scheme. first_value (found_of found.now) (codes "scheme") ≡
        Some (scheme_text scheme)) }
{
    let name = text_at(found, "scheme", SCHEME_TAKES)?;
    match scheme_named(name) {
        Some(scheme) => Ok(scheme),
        None => Err(BadLine::Given(SCHEME_TAKES, name)),
    }
}

/// The scheme of a name.
pub fn scheme_named(name: &str) -> Option<Scheme>
    ensures { IfSome result (λ scheme. name.now ≡ scheme_text scheme) }
{
    match name {
        "simple" => Some(Scheme::Simple),
        "double" => Some(Scheme::Double),
        _ => None,
    }
}

/// The least dimension that is accepted, if one is given.
pub fn least_dimension<'a>(found: &ArgMatches<'a>) -> Result<Option<usize>, BadLine<'a>>
    ensures fits { IfOk result IsDimension }
    ensures read { IfOk result (IsNumberIfGiven (found_of found.now) (codes "least-dimension")) }
{
    let Some(text) = found.get_str("least-dimension") else {
        return Ok(None);
    };
    match number_at(found, "least-dimension", DIMENSIONS, DIMENSION_TAKES)? {
        0 => Err(BadLine::Given(DIMENSION_TAKES, text)),
        least => Ok(Some(least as usize)),
    }
}

/// How many seconds the server may take, if a number is given.
pub fn timeout_given<'a>(found: &ArgMatches<'a>) -> Result<Option<u64>, BadLine<'a>>
    ensures fits { IfOk result IsTimeout }
    ensures read { IfOk result (IsNumberIfGiven (found_of found.now) (codes "timeout")) }
{
    let Some(text) = found.get_str("timeout") else {
        return Ok(None);
    };
    match number_at(found, "timeout", MOST_TIMEOUT, TIMEOUT_TAKES)? {
        0 => Err(BadLine::Given(TIMEOUT_TAKES, text)),
        seconds => Ok(Some(seconds)),
    }
}

/// The server that is named by its host, if one is given, and its port.
pub fn server_at<'a>(found: &ArgMatches<'a>) -> Result<Address<'a>, BadLine<'a>>
    ensures host { IfOk result (IsHostGiven (found_of found.now)) }
    ensures given { IfOk result (IsServerGiven (found_of found.now)) }
{
    let host = found.get_str("host").unwrap_or(THIS_MACHINE);
    let server = this_machine_at(found)?;
    Ok(Address { host, ..server })
}

// The server at a port of this machine.
fn this_machine_at<'a>(found: &ArgMatches<'a>) -> Result<Address<'a>, BadLine<'a>>
    ensures { IfOk result (IsServerGiven (found_of found.now)) }
{
    let port = number_at(found, "port", u64::from(u16::MAX), PORT_TAKES)? as u16;
    let timeout = timeout_given(found)?;
    Ok(Address {
        host: THIS_MACHINE,
        port,
        timeout,
        wide: found.get_flag("wide"),
    })
}

// What the words of `put` ask for.
fn put_task<'a>(alloc: Global, found: &ArgMatches<'a>) -> Result<Task<'a>, BadLine<'a>>
    ensures fits { IfOk result TaskFits }
    ensures read { IfOk result (ReadsPut (found_of found.now)) }
{
    let server = this_machine_at(found)?;
    let key = key_at(found, "key", KEY_TAKES)?;
    let index = number_at(found, "INDEX", u64::from(u32::MAX), INDEX_TAKES)? as u32;
    match record_bytes(alloc, text_at(found, "HEX", HEX_TAKES)?)? {
        Some(bytes) => Ok(Task::Put {
            server,
            key,
            index,
            bytes,
        }),
        None => Err(BadLine::Value(HEX_TAKES)),
    }
}

// What the words of `append` ask for.
fn append_task<'a>(alloc: Global, found: &ArgMatches<'a>) -> Result<Task<'a>, BadLine<'a>>
    ensures fits { IfOk result TaskFits }
    ensures read { IfOk result (ReadsAppend (found_of found.now)) }
{
    let server = this_machine_at(found)?;
    let key = key_at(found, "key", KEY_TAKES)?;
    match record_bytes(alloc, text_at(found, "HEX", HEX_TAKES)?)? {
        Some(bytes) => Ok(Task::Append { server, key, bytes }),
        None => Err(BadLine::Value(HEX_TAKES)),
    }
}

// What the words of `publish` ask for.
fn publish_task<'a>(found: &ArgMatches<'a>) -> Result<Task<'a>, BadLine<'a>>
    ensures fits { IfOk result TaskFits }
    ensures read { IfOk result (ReadsPublish (found_of found.now)) }
{
    let server = this_machine_at(found)?;
    let key = key_at(found, "key", KEY_TAKES)?;
    Ok(Task::Publish { server, key })
}

/// What the program's words ask for, its name first. Without others it is `rehearse`.
pub fn task_of<'a>(alloc: Global, words: &'a [String]) -> Result<Asked<'a>, BadLine<'a>>
    ensures { IfOk result (λ asked. TaskFits asked.task) }
{
    let matches = whole_command(alloc)?.try_get_matches_from(words)?;
    match matches.subcommand() {
        Some((name, found)) => asked_for(alloc, name, found),
        None => Ok(Asked {
            task: Task::Rehearse,
            verbose: false,
        }),
    }
}

// What a command asks for, and whether the cause of its failure is to be said.
fn asked_for<'a>(
    alloc: Global,
    name: &str,
    found: &ArgMatches<'a>,
) -> Result<Asked<'a>, BadLine<'a>>
    ensures { IfOk result (λ asked. TaskFits asked.task) }
{
    let task = task_named(alloc, name, found)?;
    let verbose = found.get_flag("verbose");
    Ok(Asked { task, verbose })
}

// What the words of the command of this name ask for.
fn task_named<'a>(
    alloc: Global,
    name: &str,
    found: &ArgMatches<'a>,
) -> Result<Task<'a>, BadLine<'a>>
    ensures { IfOk result TaskFits }
{
    match name {
        "get" if found.contains_id("state") => folder_get_task(alloc, found).map(Task::Folder),
        "get" => get_task(found),
        "state" => state_task(found).map(Task::Folder),
        "forget" => forget_task(found).map(Task::Folder),
        "put" => put_task(alloc, found),
        "append" => append_task(alloc, found),
        "publish" => publish_task(found),
        _ => Ok(Task::Rehearse),
    }
}
