//! How a command that was not done is reported.

ghost use Rattle.pir_client.specs.Failures.{IsReported, IsCallFault, IsConverseFault};
ghost use Rattle.pir_client.specs.Failures.{IsRetrieveReported, IsFolderFault};

use crate::sessions::RetrieveError;
use client_commands::CommandError;
use client_state::FolderFault;
use command_words::Failure;
use session_core::{CallFault, ConverseFault};

/// Memory was refused.
pub const MEMORY: CommandError = CommandError::Call(CallFault::Memory);

/// A reply other than those that an ask may get.
pub const BAD_REPLY: CommandError = CommandError::Conversation(ConverseFault::BadReply);

/// The failure that is printed, with its exit status, of a command that was not done.
pub fn failure_of(fault: CommandError) -> Failure
    ensures { IsReported fault result }
{
    match fault {
        CommandError::Refused(code) => Failure::Refused(code),
        CommandError::Stale(version) => Failure::Stale(version),
        CommandError::Unreadable { index, version } => Failure::Unreadable { index, version },
        CommandError::ShortSecrets(_) => Failure::Fault("BadWelcome"),
        CommandError::Call(fault) => call_failure(fault),
        CommandError::Conversation(fault) => converse_failure(fault),
    }
}

// The failure that a refused call is.
fn call_failure(fault: CallFault) -> Failure
    ensures { IsCallFault fault result }
{
    match fault {
        CallFault::Memory => Failure::Memory,
        fault => Failure::Fault(fault.name()),
    }
}

// The failure that a conversation without an event is.
fn converse_failure(fault: ConverseFault) -> Failure
    ensures { IsConverseFault fault result }
{
    match fault {
        ConverseFault::Memory => Failure::Memory,
        fault => Failure::Fault(fault.name()),
    }
}

/// The failure that is printed of a retrieval with a folder.
pub fn retrieve_failure(fault: RetrieveError) -> Failure
    ensures { IsRetrieveReported fault result }
{
    match fault {
        RetrieveError::DamagedHint => Failure::Fault("Damaged"),
        RetrieveError::Command(fault) => failure_of(fault),
    }
}

/// The failure that is printed of a folder.
pub fn folder_failure(fault: FolderFault) -> Failure
    ensures { IsFolderFault fault result }
{
    match fault {
        FolderFault::State => Failure::Fault("State"),
        FolderFault::Memory => Failure::Memory,
    }
}
