//! Tests of readers that fail inside a text.
ghost use Rattle.std.specs.Prelude.{Some};

use super::EXAMPLE;
use pawn_csv::{Cause, read_book};
use std::alloc::Global;
use std::io;
use std::io::{ErrorKind, Read};
use std::test::Fail;

/// A reader that returns these bytes, and then fails.
#[derive(Drop)]
struct Torn<'a> {
    bytes: &'a [u8],
}

impl Read for Torn<'_> {
    ghost remaining = { λ r. Some r.bytes.now };

    fn read(&mut self, buf: &mut [u8]) -> io::Result<usize> {
        if self.bytes.is_empty() {
            return Err(io::Error::from(ErrorKind::BrokenPipe));
        }
        self.bytes.read(buf)
    }
}

/// Returns whether reading the text fails with `Read` at this row.
fn is_torn(alloc: Global, bytes: &[u8], row: u64) -> bool {
    match read_book(alloc, Torn { bytes }) {
        Ok(_) => false,
        Err(fault) => fault.cause == Cause::Read && fault.row == row,
    }
}

/// The fault of a reader is reported at the row after the complete ones.
#[test]
fn a_reader_that_fails_is_told_of_at_the_row(rt: HostRuntime) -> Result<(), Fail> {
    let alloc = rt.alloc();
    let mut row = 1u64;
    assert!(rt; is_torn(alloc, b"", row));
    let text = EXAMPLE.as_bytes();
    for end in 1..=text.len() {
        let front = text.get(..end).ok_or("no such byte")?;
        if front.ends_with(b"\n") {
            row = row.saturating_add(1);
        }
        assert!(rt; is_torn(alloc, front, row), "{end} bytes");
    }
    Ok(())
}
