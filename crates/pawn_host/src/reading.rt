//! A reader whose reads are counted.
ghost use Rattle.pawn_host.specs.Limits.{most_reads};
ghost use Rattle.std.specs.Io.{ReadsAtMost};
ghost use Rattle.std.specs.Io.KnownBytes.{ReadConsumes};
ghost use Rattle.std.specs.Prelude.{◌≡◌, ◌+◌, ◌<◌, ◌≤◌, true, false, is_err, ◌||◌};

use crate::limits::MOST_READS;
use std::io;
use std::io::Read;

/// A reader that counts its reads, and remembers whether one failed.
#[derive(Drop)]
pub struct Reading<R> {
    inner: R,
    count: u32,
    failed: bool,
    ghost within: { count ≤ most_reads },
    ghost fresh: { count ≡ 0 → failed ≡ false },
}

impl<R> Reading<R> {
    ghost use Rattle.pawn_host.specs.Ends.{reading_inner, reads, read_failed, left_of};

    /// Wraps a reader. No read was made yet.
    pub fn new(inner: R) -> Self
        ensures inner { reading_inner result ≡ inner }
        ensures reads { reads result ≡ 0 }
        ensures failed { read_failed result ≡ false }
    {
        Reading {
            inner,
            count: 0,
            failed: false,
        }
    }

    /// Returns how many reads were made, at most 100,000.
    pub fn reads(&self) -> u32
        ensures answer { result ≡ reads self.now }
    {
        self.count
    }

    /// Returns whether a read returned an error.
    pub fn failed(&self) -> bool
        ensures answer { result ≡ read_failed self.now }
    {
        self.failed
    }
}

impl<R: Read> Reading<R> {
    ghost use Rattle.pawn_host.specs.Ends.{reads, read_failed, left_of};

    /// Makes one read of the inner reader, and counts it.
    ///
    /// The caller ensures that fewer than 100,000 reads were made.
    pub fn read(&mut self, buf: &mut [u8]) -> io::Result<usize>
        requires few { reads self.old < MOST_READS }
        ensures bound { ReadsAtMost result buf.new }
        ensures bytes { ReadConsumes (left_of R.remaining self.old) (left_of R.remaining self.new) result buf.new }
        ensures counted { reads self.new ≡ reads self.old + 1 }
        ensures failed { read_failed self.new ≡ (read_failed self.old || is_err result) }
    {
        self.count += 1;
        let answer = self.inner.read(buf);
        if answer.is_err() {
            self.failed = true;
        }
        answer
    }
}
