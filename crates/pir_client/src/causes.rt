//! What caused a failure, as its second line says.

use command_words::Failure;

/// What caused a failure, if its line does not say it; nothing if the line says it all.
pub fn cause_of(failure: Failure) -> Option<&'static str> {
    match failure {
        Failure::Refused(code) => Some(cause_of_refusal(code)),
        Failure::Stale(_) => Some("this version was published meanwhile; ask again"),
        Failure::Unreadable { .. } => {
            Some(
                "the record's digits fit no record: the noise was too large, or the answer is \
                    wrong",
            )
        }
        Failure::Fault(name) => cause_of_fault(name),
        Failure::Value(_) | Failure::Memory => None,
    }
}

// What the code of a refusal means.
fn cause_of_refusal(code: u8) -> &'static str {
    match code {
        1 => "BadFrame: the server can't read what was sent",
        2 => "NotWelcome: the server wants a greeting first",
        3 => "BadProfile: the server's records are of another form than this command asks for",
        4 => "BadKey: the key is not the publisher's",
        5 => "NotPublisher: only the publisher may do this",
        6 => "BadIndex: there is no record of this number",
        7 => "BadLength: a record of the store can't have this number of bytes",
        8 => "NothingToPublish: nothing was edited or appended since the last publication",
        9 => "VersionsUsedUp: there is no further version number",
        10 => "BadPart: the hint has no such part",
        11 => "BadQueryLength: the query has another number of words than the store takes",
        12 => "Memory: the server has no memory for this now; ask again",
        13 => "BadScheme: the server has no such scheme",
        14 => "Full: the store has room for no further record",
        _ => "a code that this client does not know",
    }
}

// What a fault over a connection means.
fn cause_of_fault(name: &str) -> Option<&'static str> {
    match name {
        "Ended" => Some("the server closed the connection"),
        "Read" => Some("the connection failed while a reply was read"),
        "Write" => Some("the connection failed while a call was sent"),
        "BadWelcome" => Some(
            "the greeting is none of a server of this kind, or the secrets have too few words",
        ),
        "BadReply" => Some("the server's reply doesn't fit what was asked"),
        "BadIndex" => Some("the store has no record of this number"),
        "Random" => Some("the system's random source gave no seed"),
        _ => None,
    }
}
