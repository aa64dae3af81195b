//! What the words of `pir_server`'s commands ask for, and what its help says of them.
//!
//! Each command is a table (`CommandText` of `command_words`); what is read of the words is a
//! structure, and a contract says which word each field has.
//!
//! Its tests are in `tests/command_line`.
#![tactic(auto)]

mod command_line;
mod make_line;
mod run_line;

pub use command_line::{
    Asked, BackingUp, KEY_TAKES, Migrating, Rekeying, SEED_TAKES, Serving, Task, Widening, task_of,
};
pub use make_line::{Making, count_of, form_of};
pub use run_line::RunOptions;
