//! What the words of `pir_publisher`'s commands ask for, and what its help says of them.
//!
//! Each command is a table (`CommandText` of `command_words`); what is read of the words is a
//! structure, and a contract says which word each field has.
//!
//! Its tests are in `tests/publisher`.
#![tactic(auto)]

mod command_line;
mod init_line;
mod peers;

pub use command_line::{
    AddOptions, Asked, KEY_TAKES, PushOptions, SetOptions, ShowOptions, StatusOptions, Task,
    task_of,
};
pub use init_line::InitOptions;
pub use peers::Peer;
