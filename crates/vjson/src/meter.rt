//! An input that says on a terminal how much of it was read.

use std::io;
use std::io::{Read, Write};
use std::time::Instant;

// How many milliseconds pass at least between two lines.
const PAUSE: u128 = 200;

/// An input, and how much of it was read.
#[derive(Drop)]
pub struct Meter<'r, I> {
    rt: &'r HostRuntime,
    input: I,
    // The seconds after which the first line is written; `None` for no lines.
    delay: Option<u64>,
    start: Option<Instant>,
    // When the last line was written, in milliseconds from the start.
    last: Option<u128>,
    bytes: u64,
}

impl<'r, I> Meter<'r, I> {
    pub fn new(rt: &'r HostRuntime, delay: Option<u64>, input: I) -> Meter<'r, I> {
        let start = match delay {
            Some(_) => Instant::now(rt).ok(),
            None => None,
        };
        Meter {
            rt,
            input,
            delay,
            start,
            last: None,
            bytes: 0,
        }
    }

    // Adds to what was read, and writes a line where it is time; at the end it takes the line away.
    fn add(&mut self, count: usize) {
        let (Some(start), Some(delay)) = (self.start, self.delay) else {
            return;
        };
        self.bytes = self
            .bytes
            .saturating_add(u64::try_from(count).unwrap_or(u64::MAX));
        let Ok(passed) = start.elapsed(self.rt) else {
            return;
        };
        let now = passed.as_millis();
        if count == 0 {
            if self.last.is_some() {
                let _ = self.rt.stderr().write_all(b"\r\x1b[K");
            }
            return;
        }
        if passed.as_secs() < delay
            || self
                .last
                .is_some_and(|last| now < last.saturating_add(PAUSE))
        {
            return;
        }
        self.last = Some(now);
        let megabytes = self.bytes / 1_000_000;
        let _ = write!(self.rt.stderr(), "\rvjson: {megabytes} MB read\x1b[K");
    }
}

impl<'r, I: Read> Read for Meter<'r, I> {
    fn read(&mut self, buf: &mut [u8]) -> io::Result<usize> {
        let result = self.input.read(buf);
        if let Ok(count) = &result {
            self.add(*count);
        }
        result
    }
}
