//! How far a job has come.
use std::io::Write;
use std::time::{Duration, Instant};

/// A line is written over at most each so many milliseconds.
const APART: u64 = 250;

/// How many bytes of a text were put, told in one line that is written over: in percent, and how
/// many million bytes a second.
#[derive(Drop)]
pub(crate) struct Progress<'a> {
    rt: &'a HostRuntime,
    total: u64,
    done: u64,
    percent: u64,
    // Where the system has no clock, there are none of these.
    begun: Option<Instant>,
    told: Option<Instant>,
}

impl<'a> Progress<'a> {
    /// So many bytes are to be put; none is yet.
    pub(crate) fn new(rt: &'a HostRuntime, total: u64) -> Progress<'a> {
        let begun = Instant::now(rt).ok();
        Progress {
            rt,
            total,
            done: 0,
            percent: 0,
            begun,
            told: begun,
        }
    }

    // How many hundredths of all are put.
    fn reached(&self) -> u64 {
        if self.done >= self.total {
            return 100;
        }
        (u128::from(self.done) * 100 / u128::from(self.total)) as u64
    }

    /// So many bytes more were put.
    pub(crate) fn pass(&mut self, count: usize) {
        self.done = self.done.saturating_add(count as u64);
        let now = Instant::now(self.rt).ok();
        let is_due = match (self.told, now) {
            (Some(told), Some(now)) => now.duration_since(told) >= Duration::from_millis(APART),
            _ => self.reached() > self.percent,
        };
        if is_due {
            self.told = now;
            self.tell(now, "");
        }
    }

    /// No further byte is put. Where none was, nothing is told.
    pub(crate) fn end(&mut self) {
        if self.done > 0 {
            let now = Instant::now(self.rt).ok();
            self.tell(now, "\n");
        }
    }

    // Million bytes a second.
    fn rate(&self, now: Option<Instant>) -> u64 {
        let (Some(begun), Some(now)) = (self.begun, now) else {
            return 0;
        };
        match u64::try_from(now.duration_since(begun).as_micros()) {
            Ok(micros) if micros > 0 => self.done / micros,
            _ => 0,
        }
    }

    fn tell(&mut self, now: Option<Instant>, end: &str) {
        self.percent = self.reached();
        let percent = self.percent;
        let rate = self.rate(now);
        if let Ok(text) = format!(in self.rt.alloc(); "\r{percent:3}% {rate:6} MB/s{end}") {
            let _ = self.rt.stderr().write_all(text.as_str().as_bytes());
        }
    }
}
