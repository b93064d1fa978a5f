//! The bytes of a stream that were read and are not answered yet.
ghost use Rattle.std.specs.Prelude.{◌≡◌, ◌≤◌, ◌++◌, [], drop, length, IfOk, vec_len};

use std::alloc::{AllocError, Global};

/// The bytes that were read from a stream, and how many of them are answered. Answered bytes are dropped when the next
/// piece is added and not after each answer, so that bytes are not moved once for every request that arrived with them.
#[derive(Drop)]
pub(crate) struct Buffer {
    bytes: Vec<u8>,
    /// How many of the bytes are answered.
    start: usize,
    ghost within: { start ≤ vec_len bytes },
}

impl Buffer {
    ghost use Rattle.pawn_host.specs.Unanswered.{unanswered};

    /// Makes a buffer for a stream from which nothing was read yet.
    pub fn new(alloc: Global) -> Self
        ensures nothing { unanswered result ≡ [] }
    {
        Buffer {
            bytes: Vec::new(alloc),
            start: 0,
        }
    }

    /// Returns the bytes that are not answered yet.
    pub fn as_slice(&self) -> &[u8]
        ensures value { result.now ≡ unanswered self.now }
    {
        &self.bytes[self.start..]
    }

    /// Adds a piece that was read.
    pub fn add(&mut self, piece: &[u8]) -> Result<(), AllocError>
        ensures value { IfOk result (λ _. unanswered self.new ≡ unanswered self.old ++ piece.now) }
    {
        drop(self.bytes.drain(..self.start));
        self.start = 0;
        self.bytes.extend_from_slice(piece)
    }

    /// Marks the first `n` bytes as answered.
    pub fn answer(&mut self, n: usize)
        requires within { n ≤ length (unanswered self.old) }
        ensures rest { unanswered self.new ≡ drop n (unanswered self.old) }
    {
        self.start += n;
    }
}
