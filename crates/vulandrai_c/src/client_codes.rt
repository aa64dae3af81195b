//! The codes of a client's results, as include/vulandrai.h lists them.

ghost use Rattle.std.specs.Prelude.{◌≡◌};
ghost use Rattle.vulandrai_c.specs.ClientCodes as codes;

use crate::codes::{MEMORY, NOT_READY, OK, UNTAKEN};
use foreign_sessions::{CallFault, ClientFault, FeedFault, HintError, ResumeFault, SessionFault};

fn call_code(fault: CallFault) -> u32
    ensures { result ≡ codes.call_code fault }
{
    match fault {
        CallFault::NotReady => NOT_READY,
        CallFault::Busy => 2,
        CallFault::BadIndex => 3,
        CallFault::SeedUsedUp => 4,
        CallFault::Memory => MEMORY,
        CallFault::Failed => 6,
        CallFault::AlreadyWelcome => 7,
    }
}

/// The code of a client's call.
pub fn session_code(answer: Result<(), SessionFault>) -> u32
    ensures { result ≡ codes.session_code answer }
{
    match answer {
        Ok(()) => OK,
        Err(SessionFault::Untaken) => UNTAKEN,
        Err(SessionFault::Call(fault)) => call_code(fault),
    }
}

fn client_code(fault: ClientFault) -> u32
    ensures { result ≡ codes.client_code fault }
{
    match fault {
        ClientFault::BadWelcome => 16,
        ClientFault::BadReply => 17,
        ClientFault::Memory => MEMORY,
        ClientFault::Failed => 6,
    }
}

/// The code of a piece of a client's stream.
pub fn feed_code(answer: Result<(), FeedFault>) -> u32
    ensures { result ≡ codes.feed_code answer }
{
    match answer {
        Ok(()) => OK,
        Err(FeedFault::Untaken) => UNTAKEN,
        Err(FeedFault::Client(fault)) => client_code(fault),
    }
}

fn hint_code(fault: HintError) -> u32
    ensures { result ≡ codes.hint_code fault }
{
    match fault {
        HintError::Damaged => 80,
        HintError::Read => 70,
        HintError::Memory => MEMORY,
    }
}

/// The code of a resumption.
pub fn resume_code(answer: Result<bool, ResumeFault>) -> u32
    ensures { result ≡ codes.resume_code answer }
{
    match answer {
        Ok(true) => OK,
        Ok(false) => 81,
        Err(ResumeFault::File(fault)) => hint_code(fault),
        Err(ResumeFault::Call(fault)) => call_code(fault),
    }
}
