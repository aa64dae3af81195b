//! How much of an input has been read, on standard error.

ghost use Rattle.std.specs.Prelude.{◌≡◌, ◌≤◌, IfOk, string_bytes};
ghost use Rattle.server_files.specs.Progress.{progress_line, seconds_left};

use std::alloc::{AllocError, Global};
use std::io;
use std::io::Read;
use std::time::Instant;

/// How many milliseconds pass at least before the first line, and between two.
const BETWEEN: u128 = 1000;

/// When something began, and when the last line was printed, or else the first thing began.
#[derive(Drop)]
pub struct Pace<'a> {
    rt: &'a HostRuntime,
    began: Instant,
    said: Instant,
}

impl<'a> Pace<'a> {
    /// Something begins. None if the system has no clock.
    pub fn new(rt: &'a HostRuntime) -> Option<Pace<'a>> {
        let Ok(began) = Instant::now(rt) else {
            return None;
        };
        Some(Pace {
            rt,
            began,
            said: began,
        })
    }

    /// Something else begins. The last line stays the last one.
    pub fn begin(&mut self) {
        if let Ok(now) = Instant::now(self.rt) {
            self.began = now;
        }
    }

    /// Whether a second has passed since the last line. If so, the next second begins now.
    pub fn is_due(&mut self) -> bool {
        let Ok(now) = Instant::now(self.rt) else {
            return false;
        };
        let is_due = match self.said.elapsed(self.rt) {
            Ok(passed) => passed.as_millis() >= BETWEEN,
            Err(_) => false,
        };
        if is_due {
            self.said = now;
        }
        is_due
    }

    /// How many seconds the rest takes, rounded up, if it goes on as the part that is done.
    pub fn left(&self, done: u64, whole: u64) -> Option<u128> {
        let Ok(passed) = self.began.elapsed(self.rt) else {
            return None;
        };
        if done == 0 {
            return None;
        }
        let passed = passed.as_millis().min(u128::from(u64::MAX)) as u64;
        Some(seconds_left(passed, done, whole))
    }
}

/// How much there is to read, if that is known.
#[derive(Clone, Copy)]
pub enum InputSize {
    /// So many bytes.
    Bytes(u64),
    /// So many lines.
    Lines(u64),
    /// What that is shows only at the end.
    Unknown,
}

/// How much of an input has been read.
#[derive(Drop)]
pub struct ReadProgress<'a> {
    pace: Pace<'a>,
    whole: InputSize,
    bytes: u64,
    lines: u64,
}

impl<'a> ReadProgress<'a> {
    /// Of an input of this size nothing has been read. None if the system has no clock.
    pub fn new(rt: &'a HostRuntime, whole: InputSize) -> Option<ReadProgress<'a>> {
        let Some(pace) = Pace::new(rt) else {
            return None;
        };
        Some(ReadProgress {
            pace,
            whole,
            bytes: 0,
            lines: 0,
        })
    }

    // Counts a piece that was read, and says so once a second.
    fn take(&mut self, piece: &[u8]) {
        self.bytes = self.bytes.saturating_add(piece.len() as u64);
        if matches!(self.whole, InputSize::Lines(_)) {
            let ends = piece.iter().filter(|byte| **byte == b'\n').count();
            self.lines = self.lines.saturating_add(ends as u64);
        }
        if self.pace.is_due() {
            self.say();
        }
    }

    // Prints a line.
    fn say(&self) {
        let rt = self.pace.rt;
        if let Ok(line) = progress_line(rt.alloc(), self.bytes, self.left()) {
            let _ = eprintln!(rt; "{line}");
        }
    }

    // How many seconds are left, if that can be known.
    fn left(&self) -> Option<u128> {
        match self.whole {
            InputSize::Bytes(whole) => self.pace.left(self.bytes, whole),
            InputSize::Lines(whole) => self.pace.left(self.lines, whole),
            InputSize::Unknown => None,
        }
    }
}

// How many seconds the rest takes, rounded up, if a part of the whole took so many milliseconds.
fn seconds_left(passed: u64, done: u64, whole: u64) -> u128
    requires { 1 ≤ done }
    ensures { result ≡ seconds_left passed done whole }
{
    let rest = u128::from(whole.saturating_sub(done));
    (u128::from(passed) * rest / u128::from(done) + 999) / 1000
}

// The line after so many bytes.
fn progress_line(alloc: Global, bytes: u64, left: Option<u128>) -> Result<String, AllocError>
    ensures { IfOk result (λ line. string_bytes line ≡ progress_line bytes left) }
{
    match left {
        None => format!(in alloc; "input: {bytes} bytes"),
        Some(left) => format!(in alloc; "input: {bytes} bytes, {left} s left"),
    }
}

/// A reader whose reads are counted, and told of if that is wanted.
#[derive(Drop)]
pub struct WatchedReader<'a, R> {
    reader: R,
    progress: Option<ReadProgress<'a>>,
}

impl<'a, R: Read> WatchedReader<'a, R> {
    /// A reader, and what reports on it, if anything does.
    pub fn new(reader: R, progress: Option<ReadProgress<'a>>) -> WatchedReader<'a, R>
        ensures { result.reader ≡ reader }
    {
        WatchedReader { reader, progress }
    }

    /// The reader, with what it has left.
    pub fn into_reader(self) -> R
        ensures { result ≡ self.entry.reader }
    {
        let WatchedReader { reader, .. } = self;
        reader
    }
}

impl<R: Read> Read for WatchedReader<'_, R> {
    ghost remaining = { λ watched. R.remaining watched.reader };

    fn read(&mut self, buffer: &mut [u8]) -> io::Result<usize> {
        match self.reader.read(buffer) {
            Ok(n) => {
                if let Some(progress) = &mut self.progress {
                    progress.take(&buffer[..n]);
                }
                Ok(n)
            }
            Err(fault) => Err(fault),
        }
    }
}
