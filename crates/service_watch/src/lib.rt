//! What operators see of a service, as functions of values: the lines of its log, its counts, and
//! what a request over HTTP gets.
//!
//! Its tests are in tests/service.
#![tactic(auto)]

mod counters;
mod draft_life;
mod entries;
mod figures;
mod histograms;
mod metrics;
mod moments;
mod replies;
mod requests;
mod scans;

pub use counters::{Cause, Counted, Counters};
pub use draft_life::DraftLife;
pub use entries::{Entry, LogFormat, ServiceEvent, entry_line};
pub use figures::{Figures, metrics_text};
pub use histograms::{BOUND_COUNT, Histogram};
pub use metrics::{Kind, Sample, push_family};
pub use moments::moment_text;
pub use replies::{ReplyHead, head_of_reply};
pub use requests::{Page, health, page_of, page_when, response};
pub use scans::FrameScan;
