//! A writer that remembers whether it failed, and functions that write to it.
ghost use Rattle.pawn_book.specs.declared.visit.Flow.TheVariants.{Go, Stop};
ghost use Rattle.pawn_writing.specs.Ends.{writing_inner, write_failed, written_bytes, is_write_failure, Puts};
ghost use Rattle.std.specs.Io.{WritesAtMost};
ghost use Rattle.std.specs.Io.KnownBytes.{Appends, WriteAppends};
ghost use Rattle.std.specs.List.{flat_map};
ghost use Rattle.std.specs.Prelude.{◌≡◌, ◌+◌, ◌<◌, ◌≤◌, true, false, ◌||◌, length, take, if◌then◌else◌};

use pawn_book::Flow;
use std::io;
use std::io::Write;

/// A writer that remembers whether a write to it has failed.
#[derive(Drop)]
pub struct Writing<W> {
    inner: W,
    failed: bool,
}

impl<W> Writing<W> {
    /// Wraps a writer. It has not failed yet.
    pub fn new(inner: W) -> Self
        ensures inner { writing_inner result ≡ inner }
        ensures failed { write_failed result ≡ false }
    {
        Writing {
            inner,
            failed: false,
        }
    }

    /// Returns whether a write has failed: it returned an error, or it wrote no byte although some were passed.
    pub fn has_failed(&self) -> bool
        ensures answer { result ≡ write_failed self.now }
    {
        self.failed
    }

    /// Returns what this writer answers as a visitor: `Stop` once it has failed, otherwise `Go`.
    pub fn flow(&self) -> Flow
        ensures answer { result ≡ (if write_failed self.now then Stop else Go) }
    {
        if self.failed { Flow::Stop } else { Flow::Go }
    }

    /// Returns the inner writer.
    pub fn into_inner(self) -> W
        ensures answer { result ≡ writing_inner self }
    {
        self.inner
    }
}

impl<W: Write> Writing<W> {
    /// Makes one write to the inner writer. Returns the inner writer's answer, and remembers a failure.
    ///
    /// By contract, as many bytes were written as the answer states, and none on an error [`bytes`], and a failure is
    /// remembered [`failed`]. No contract of a writer can state that the inner writer is called exactly once, even
    /// after a failure. That is only tested.
    pub fn write(&mut self, bytes: &[u8]) -> io::Result<usize>
        ensures bound { WritesAtMost result bytes.now }
        ensures bytes { WriteAppends (written_bytes W.contents self.old) (written_bytes W.contents self.new) result bytes.now }
        ensures failed { write_failed self.new ≡ (write_failed self.old || is_write_failure result bytes.now) }
    {
        let answer = self.inner.write(bytes);
        match &answer {
            Ok(n) => {
                if *n == 0 && !bytes.is_empty() {
                    self.failed = true;
                }
            }
            Err(_) => self.failed = true,
        }
        answer
    }
}

/// Writes these bytes, in as many writes as the writer needs, until all are written or the writer fails. Returns how
/// many bytes were written. After a failed write no other is made; no contract of a writer can state this, so it is
/// only tested.
///
/// The caller ensures that the writer has not failed before.
pub fn send<W: Write>(writer: &mut Writing<W>, bytes: &[u8]) -> usize
    requires fine { write_failed writer.old ≡ false }
    ensures bound { result ≤ length bytes.now }
    ensures bytes { Appends (written_bytes W.contents writer.old) (written_bytes W.contents writer.new) (take result bytes.now) }
    ensures done { result ≡ length bytes.now → write_failed writer.new ≡ false }
    ensures failed { result < length bytes.now → write_failed writer.new ≡ true }
{
    let mut sent = 0;
    while sent < bytes.len() {
        match writer.write(&bytes[sent..]) {
            Ok(0) => return sent,
            Ok(n) => sent += n,
            Err(_) => return sent,
        }
    }
    sent
}

/// Writes these bytes, unless the writer has failed before. If `has_failed` is false afterwards, all of them were
/// written. Allocates no memory.
pub fn put<W: Write>(writer: &mut Writing<W>, bytes: &[u8])
    ensures puts { Puts W.contents writer.old bytes.now writer.new }
{
    if !writer.has_failed() {
        send(writer, bytes);
    }
}

/// Writes these pieces one after another, as `put` does. Allocates no memory.
pub fn put_all<W: Write>(writer: &mut Writing<W>, pieces: &[&[u8]])
    ensures puts { Puts W.contents writer.old (flat_map (λ p. p.now) pieces.now) writer.new }
{
    for piece in pieces {
        put(writer, piece);
    }
}
