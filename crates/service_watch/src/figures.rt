//! The content of `/metrics`.

use crate::counters::{Cause, Counted, Counters};
use crate::draft_life::DraftLife;
use crate::histograms::{BOUND_COUNT, Histogram};
use crate::metrics::{Kind, Sample, push_family};
use std::alloc::{AllocError, Global};

/// What there is to say of a service at a moment.
#[derive(Clone, Copy)]
pub struct Figures {
    /// What was counted of its connections.
    pub counters: Counters,
    /// How long answers took.
    pub answered: Histogram,
    /// How long frames waited.
    pub waited: Histogram,
    /// How many connections are open.
    pub open: u64,
    /// The version that is served.
    pub version: u64,
    /// How many records it has.
    pub records: u64,
    /// With what a draft ends.
    pub draft: DraftLife,
    /// Whether the service stops.
    pub stopping: bool,
    /// When the last publication was made, in seconds since 1970 began in UTC; 0 if none was.
    pub published_at: u64,
    /// How many microseconds it took but for its append to the log.
    pub prepared: u64,
    /// How many microseconds its append to the log took.
    pub saved: u64,
    /// How many bytes are held of unfinished frames.
    pub unfinished: u64,
    /// How many bytes are owed.
    pub owed: u64,
    /// How many lines of the log were left out.
    pub left_out: u64,
}

/// The labels of a histogram's bins.
const BINS: [&str; 13] = [
    "_bucket{le=\"0.001\"}",
    "_bucket{le=\"0.0025\"}",
    "_bucket{le=\"0.005\"}",
    "_bucket{le=\"0.01\"}",
    "_bucket{le=\"0.025\"}",
    "_bucket{le=\"0.05\"}",
    "_bucket{le=\"0.1\"}",
    "_bucket{le=\"0.25\"}",
    "_bucket{le=\"0.5\"}",
    "_bucket{le=\"1\"}",
    "_bucket{le=\"2.5\"}",
    "_bucket{le=\"10\"}",
    "_bucket{le=\"+Inf\"}",
];

/// The content of `/metrics`.
///
/// # Errors
///
/// `AllocError` if memory was refused.
pub fn metrics_text(alloc: Global, figures: &Figures) -> Result<String, AllocError> {
    let mut text = String::new(alloc);
    push_connections(alloc, &mut text, figures)?;
    push_closed(alloc, &mut text, figures)?;
    push_bytes(alloc, &mut text, figures)?;
    push_frames(alloc, &mut text, figures)?;
    push_replies(alloc, &mut text, figures)?;
    push_other_replies(alloc, &mut text, figures)?;
    push_refusals(alloc, &mut text, figures)?;
    push_histogram(
        alloc,
        &mut text,
        "vulandrai_answer_seconds",
        "How long the turns took in which a query was answered, and those before that put it off.",
        &figures.answered,
    )?;
    push_histogram(
        alloc,
        &mut text,
        "vulandrai_wait_seconds",
        "How long frames waited for the turn in which their reply was made.",
        &figures.waited,
    )?;
    push_state(alloc, &mut text, figures)?;
    push_publication(alloc, &mut text, figures)?;
    push_held(alloc, &mut text, figures)?;
    Ok(text)
}

// A value under labels.
fn counted(labels: &'static str, value: u64) -> Sample {
    Sample {
        labels,
        value,
        exponent: "",
    }
}

// A number of microseconds as seconds, under labels.
fn micros(labels: &'static str, value: u64) -> Sample {
    Sample {
        labels,
        value,
        exponent: "e-6",
    }
}

// Adds a family of bins, whose count is that of all.
fn push_histogram(
    alloc: Global,
    text: &mut String,
    name: &str,
    help: &str,
    times: &Histogram,
) -> Result<(), AllocError> {
    let mut samples = [counted("", 0); 15];
    for bin in 0..BOUND_COUNT + 1 {
        samples[bin] = counted(BINS[bin], times.at_most(bin));
    }
    samples[BOUND_COUNT + 1] = micros("_sum", times.total());
    samples[BOUND_COUNT + 2] = counted("_count", times.at_most(BOUND_COUNT));
    push_family(alloc, text, name, help, Kind::Histogram, &samples)
}

// Adds the families on connections.
fn push_connections(alloc: Global, text: &mut String, figures: &Figures) -> Result<(), AllocError> {
    let counters = &figures.counters;
    push_family(
        alloc,
        text,
        "vulandrai_connections_open",
        "Connections that are open.",
        Kind::Gauge,
        &[counted("", figures.open)],
    )?;
    push_family(
        alloc,
        text,
        "vulandrai_connections_accepted_total",
        "Connections that were accepted.",
        Kind::Counter,
        &[counted("", counters.of(Counted::Accepted))],
    )
}

// Adds the families on connections that are over.
fn push_closed(alloc: Global, text: &mut String, figures: &Figures) -> Result<(), AllocError> {
    let counters = &figures.counters;
    push_family(
        alloc,
        text,
        "vulandrai_connections_closed_total",
        "Connections that are over, by cause.",
        Kind::Counter,
        &[
            counted("{cause=\"End\"}", counters.of(Counted::Closed(Cause::End))),
            counted(
                "{cause=\"Connect\"}",
                counters.of(Counted::Closed(Cause::Connect)),
            ),
            counted(
                "{cause=\"Read\"}",
                counters.of(Counted::Closed(Cause::Read)),
            ),
            counted(
                "{cause=\"Write\"}",
                counters.of(Counted::Closed(Cause::Write)),
            ),
            counted(
                "{cause=\"Idle\"}",
                counters.of(Counted::Closed(Cause::Idle)),
            ),
            counted(
                "{cause=\"Memory\"}",
                counters.of(Counted::Closed(Cause::Memory)),
            ),
            counted(
                "{cause=\"TooMany\"}",
                counters.of(Counted::Closed(Cause::TooMany)),
            ),
        ],
    )
}

// Adds the families on bytes.
fn push_bytes(alloc: Global, text: &mut String, figures: &Figures) -> Result<(), AllocError> {
    let counters = &figures.counters;
    push_family(
        alloc,
        text,
        "vulandrai_received_bytes_total",
        "Bytes that were read from connections.",
        Kind::Counter,
        &[counted("", counters.of(Counted::BytesIn))],
    )?;
    push_family(
        alloc,
        text,
        "vulandrai_sent_bytes_total",
        "Bytes that were written to connections.",
        Kind::Counter,
        &[counted("", counters.of(Counted::BytesOut))],
    )
}

// Adds the family on frames.
fn push_frames(alloc: Global, text: &mut String, figures: &Figures) -> Result<(), AllocError> {
    let counters = &figures.counters;
    push_family(
        alloc,
        text,
        "vulandrai_frames_total",
        "Frames that came whole, by kind.",
        Kind::Counter,
        &[
            counted("{kind=\"load\"}", counters.of(Counted::Frame(1))),
            counted("{kind=\"hello\"}", counters.of(Counted::Frame(2))),
            counted("{kind=\"hint_ask\"}", counters.of(Counted::Frame(3))),
            counted("{kind=\"delta_ask\"}", counters.of(Counted::Frame(4))),
            counted("{kind=\"query\"}", counters.of(Counted::Frame(5))),
            counted("{kind=\"edit\"}", counters.of(Counted::Frame(6))),
            counted("{kind=\"publish\"}", counters.of(Counted::Frame(7))),
            counted("{kind=\"bye\"}", counters.of(Counted::Frame(8))),
            counted("{kind=\"append\"}", counters.of(Counted::Frame(9))),
            counted("{kind=\"changes_ask\"}", counters.of(Counted::Frame(10))),
            counted("{kind=\"other\"}", counters.of(Counted::Frame(0))),
        ],
    )
}

// Adds the families on answers, and on what is stale.
fn push_replies(alloc: Global, text: &mut String, figures: &Figures) -> Result<(), AllocError> {
    let counters = &figures.counters;
    push_family(
        alloc,
        text,
        "vulandrai_answers_total",
        "Queries that were answered, by scheme.",
        Kind::Counter,
        &[
            counted("{scheme=\"simple\"}", counters.of(Counted::Reply(0x85, 0))),
            counted("{scheme=\"double\"}", counters.of(Counted::Reply(0x85, 1))),
        ],
    )?;
    push_family(
        alloc,
        text,
        "vulandrai_stale_total",
        "Frames that named a version which is not served any more.",
        Kind::Counter,
        &[counted("", counters.of(Counted::Reply(0x86, 0)))],
    )
}

// Adds the family on other replies.
fn push_other_replies(
    alloc: Global,
    text: &mut String,
    figures: &Figures,
) -> Result<(), AllocError> {
    let counters = &figures.counters;
    push_family(
        alloc,
        text,
        "vulandrai_replies_total",
        "Replies that are no answer, no refusal and not stale, by kind.",
        Kind::Counter,
        &[
            counted("{kind=\"welcome\"}", counters.of(Counted::Reply(0x82, 0))),
            counted(
                "{kind=\"hint_part_simple\"}",
                counters.of(Counted::Reply(0x83, 0)),
            ),
            counted(
                "{kind=\"hint_part_double\"}",
                counters.of(Counted::Reply(0x83, 1)),
            ),
            counted("{kind=\"delta\"}", counters.of(Counted::Reply(0x84, 0))),
            counted("{kind=\"done\"}", counters.of(Counted::Reply(0x87, 0))),
            counted("{kind=\"no_delta\"}", counters.of(Counted::Reply(0x88, 0))),
            counted("{kind=\"changes\"}", counters.of(Counted::Reply(0x8a, 0))),
        ],
    )
}

// Adds the family on refusals.
fn push_refusals(alloc: Global, text: &mut String, figures: &Figures) -> Result<(), AllocError> {
    let counters = &figures.counters;
    push_family(
        alloc,
        text,
        "vulandrai_refused_total",
        "Frames that were refused, by code.",
        Kind::Counter,
        &[
            counted("{code=\"1\"}", counters.of(Counted::Reply(0x8f, 1))),
            counted("{code=\"2\"}", counters.of(Counted::Reply(0x8f, 2))),
            counted("{code=\"3\"}", counters.of(Counted::Reply(0x8f, 3))),
            counted("{code=\"4\"}", counters.of(Counted::Reply(0x8f, 4))),
            counted("{code=\"5\"}", counters.of(Counted::Reply(0x8f, 5))),
            counted("{code=\"6\"}", counters.of(Counted::Reply(0x8f, 6))),
            counted("{code=\"7\"}", counters.of(Counted::Reply(0x8f, 7))),
            counted("{code=\"8\"}", counters.of(Counted::Reply(0x8f, 8))),
            counted("{code=\"9\"}", counters.of(Counted::Reply(0x8f, 9))),
            counted("{code=\"10\"}", counters.of(Counted::Reply(0x8f, 10))),
            counted("{code=\"11\"}", counters.of(Counted::Reply(0x8f, 11))),
            counted("{code=\"12\"}", counters.of(Counted::Reply(0x8f, 12))),
            counted("{code=\"13\"}", counters.of(Counted::Reply(0x8f, 13))),
            counted("{code=\"14\"}", counters.of(Counted::Reply(0x8f, 14))),
        ],
    )
}

// Adds the families on what is served.
fn push_state(alloc: Global, text: &mut String, figures: &Figures) -> Result<(), AllocError> {
    push_family(
        alloc,
        text,
        "vulandrai_version",
        "The version that is served.",
        Kind::Gauge,
        &[counted("", figures.version)],
    )?;
    push_family(
        alloc,
        text,
        "vulandrai_records",
        "Records of the version that is served.",
        Kind::Gauge,
        &[counted("", figures.records)],
    )?;
    push_family(
        alloc,
        text,
        "vulandrai_stopping",
        "1 while the service stops, and accepts nothing more.",
        Kind::Gauge,
        &[counted("", u64::from(figures.stopping))],
    )
}

// Adds the families on the last publication.
fn push_publication(alloc: Global, text: &mut String, figures: &Figures) -> Result<(), AllocError> {
    push_family(
        alloc,
        text,
        "vulandrai_publication_timestamp_seconds",
        "When the last publication was made, in seconds since 1970; 0 if none was.",
        Kind::Gauge,
        &[counted("", figures.published_at)],
    )?;
    push_family(
        alloc,
        text,
        "vulandrai_publication_prepared_seconds",
        "How long the turn of the last publication took, without the append to the log.",
        Kind::Gauge,
        &[micros("", figures.prepared)],
    )?;
    push_family(
        alloc,
        text,
        "vulandrai_publication_saved_seconds",
        "How long the append of the last publication to the log took.",
        Kind::Gauge,
        &[micros("", figures.saved)],
    )
}

// Adds the families on what is held and left out.
fn push_held(alloc: Global, text: &mut String, figures: &Figures) -> Result<(), AllocError> {
    push_family(
        alloc,
        text,
        "vulandrai_unfinished_bytes",
        "Bytes that are held of unfinished frames.",
        Kind::Gauge,
        &[counted("", figures.unfinished)],
    )?;
    push_family(
        alloc,
        text,
        "vulandrai_owed_bytes",
        "Bytes of replies that were not taken yet.",
        Kind::Gauge,
        &[counted("", figures.owed)],
    )?;
    push_family(
        alloc,
        text,
        "vulandrai_log_lines_left_out_total",
        "Lines of the log that were left out.",
        Kind::Counter,
        &[counted("", figures.left_out)],
    )
}
