//! A reader, a writer and stamps that log their calls.
ghost use Rattle.std.specs.Prelude.{Some};

use pawn_book::Stamp;
use std::cell::Cell;
use std::io;
use std::io::{ErrorKind, Read, Write};

/// The calls of a session in order, as hexadecimal digits: 1 is a read, 2 a stamp, and 3 a write. Calls of the same
/// kind that follow each other are one digit.
#[derive(Drop)]
pub struct Log {
    calls: Cell<u64>,
}

impl Log {
    pub fn new() -> Log {
        Log {
            calls: Cell::new(0),
        }
    }

    pub fn calls(&self) -> u64 {
        self.calls.get()
    }

    fn note(&self, call: u64) {
        let calls = self.calls.get();
        if calls % 16 != call {
            self.calls.set(calls.wrapping_mul(16).wrapping_add(call));
        }
    }
}

/// The calls of a reader or a writer. If it is slow, a call moves one byte. Only call number `fails_at` fails; the
/// first call has number 1.
#[derive(Clone, Copy)]
pub struct Calls {
    pub slow: bool,
    pub fails_at: u32,
    pub made: u32,
}

impl Calls {
    /// Counts one more call. Returns whether it fails.
    fn fails(&mut self) -> bool {
        self.made = self.made.saturating_add(1);
        self.made == self.fails_at
    }
}

/// A reader of these bytes.
#[derive(Drop)]
pub struct Source<'a> {
    pub bytes: &'a [u8],
    pub calls: Calls,
    pub log: &'a Log,
}

impl Read for Source<'_> {
    ghost remaining = { λ r. Some r.bytes.now };

    fn read(&mut self, buf: &mut [u8]) -> io::Result<usize> {
        self.log.note(1);
        if self.calls.fails() {
            return Err(io::Error::from(ErrorKind::Interrupted));
        }
        if self.calls.slow && !buf.is_empty() {
            return self.bytes.read(&mut buf[..1]);
        }
        self.bytes.read(buf)
    }
}

/// A writer. A failing write writes nothing or returns an error.
#[derive(Drop)]
pub struct Sink<'a> {
    pub taken: Vec<u8>,
    pub takes_nothing: bool,
    pub calls: Calls,
    pub log: &'a Log,
}

impl Write for Sink<'_> {
    ghost contents = { λ w. Some w.taken.items };

    fn write(&mut self, buf: &[u8]) -> io::Result<usize> {
        self.log.note(3);
        if self.calls.fails() {
            if self.takes_nothing {
                return Ok(0);
            }
            return Err(io::Error::from(ErrorKind::Interrupted));
        }
        let n = if self.calls.slow {
            buf.len().min(1)
        } else {
            buf.len()
        };
        self.taken.extend_from_slice(&buf[..n])?;
        Ok(n)
    }

    fn flush(&mut self) -> io::Result<()> {
        Ok(())
    }
}

/// An iterator over these stamps, in order.
#[derive(Drop)]
pub struct Stamps<'a> {
    pub stamps: &'a [Stamp],
    pub log: &'a Log,
}

impl Iterator for Stamps<'_> {
    type Item = Stamp;

    fn next(&mut self) -> Option<Stamp> {
        self.log.note(2);
        let [stamp, rest @ ..] = self.stamps else {
            return None;
        };
        self.stamps = rest;
        Some(*stamp)
    }
}
