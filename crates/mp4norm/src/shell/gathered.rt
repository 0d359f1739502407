//! Lines that are put together.

use mp4_boxes::Refusal;
use mp4_store::Sink;
use std::alloc::AllocError;
use std::io::IsTerminal;
use std::time::{Duration, Instant};

/// So many bytes are gathered at most.
const ROOM: usize = 32_000;

/// What is gathered is put with the next line once so many seconds have passed.
const APART: u64 = 1;

/// A sink whose lines are gathered, so that those which come fast are put at once. Whoever reads
/// them has what came a second before; where each line is to be there by itself, as on a terminal,
/// nothing is gathered.
#[derive(Drop)]
pub(crate) struct GatheredLines<'a, K> {
    rt: &'a HostRuntime,
    sink: K,
    held: Vec<u8>,
    // When something was last put. Where the system has no clock, nothing is gathered.
    last: Option<Instant>,
}

impl<'a, K: Sink + Drop> GatheredLines<'a, K> {
    /// Nothing is gathered yet; nothing ever is, where it isn't to be.
    pub(crate) fn new(
        rt: &'a HostRuntime,
        sink: K,
        gathers: bool,
    ) -> Result<GatheredLines<'a, K>, AllocError> {
        let is_alone = !gathers || rt.stdout().is_terminal();
        let mut held = Vec::new(rt.alloc());
        held.reserve(ROOM)?;
        let last = if is_alone {
            None
        } else {
            Instant::now(rt).ok()
        };
        Ok(GatheredLines {
            rt,
            sink,
            held,
            last,
        })
    }
}

impl<'a, K: Sink> GatheredLines<'a, K> {
    // Whether lines may be kept a while longer.
    fn may_wait(&self) -> bool {
        match (self.last, Instant::now(self.rt)) {
            (Some(last), Ok(now)) => now.duration_since(last) < Duration::from_secs(APART),
            _ => false,
        }
    }

    /// Puts what is gathered.
    pub(crate) fn flush(&mut self) -> Result<(), Refusal> {
        if self.held.is_empty() {
            return Ok(());
        }
        let put = self.sink.put(self.held.as_slice());
        self.held.clear();
        if self.last.is_some() {
            self.last = Instant::now(self.rt).ok();
        }
        put?;
        Ok(())
    }

    /// Takes a line.
    pub(crate) fn add(&mut self, line: &[u8]) -> Result<(), Refusal> {
        if line.len() > ROOM - self.held.len().min(ROOM) {
            self.flush()?;
        }
        if line.len() > ROOM {
            self.sink.put(line)?;
            return Ok(());
        }
        self.held.extend_from_slice(line)?;
        if self.may_wait() {
            return Ok(());
        }
        self.flush()
    }

    /// The sink, once what is gathered is put.
    pub(crate) fn sink(&mut self) -> Result<&mut K, Refusal> {
        self.flush()?;
        Ok(&mut self.sink)
    }
}
