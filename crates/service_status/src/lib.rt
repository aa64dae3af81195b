//! What a service says of itself, and when it stops.
//!
//! Its lines on standard error; the pages of those who ask for its health and its metrics, over
//! sockets of their own; and the input at whose end it stops. Nothing of this changes what is
//! served.
//!
//! Its tests are in tests/service.
#![tactic(auto)]

mod clock;
mod lines;
mod status;
mod stopping;

pub use clock::{micros_since, unix_millis};
pub use lines::{EventLog, say_line};
pub use status::{Status, StatusFault, Visitor};
pub use stopping::{INPUT, InputState, Phase, read_input, watch_input};
