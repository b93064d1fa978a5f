//! Tests of exporting a book without terms and pledges.
ghost use Rattle.std.specs.Prelude.{Some};

use crate::acting::acted;
use pawn_book::{Caller, Capacity, Name, NewBook, Number, Request, RequestDay, Secret, Stamp};
use pawn_csv::{RowWriter, ViewFault, export};
use pawn_list_keeper::ListKeep;
use std::alloc::Global;
use std::io;
use std::io::{ErrorKind, Write};
use std::test::Fail;

const TEXT: &str = book_text!("B,2,0,0,,,,,,,,,,,\n");

/// A writer that writes one byte, and then fails.
#[derive(Drop)]
struct OneByte {
    taken: Vec<u8>,
}

impl Write for OneByte {
    ghost contents = { λ w. Some w.taken.items };

    fn write(&mut self, buf: &[u8]) -> io::Result<usize> {
        if !self.taken.is_empty() {
            return Err(io::Error::from(ErrorKind::BrokenPipe));
        }
        let most = buf.len().min(1);
        self.taken.extend_from_slice(&buf[..most])?;
        Ok(most)
    }

    fn flush(&mut self) -> io::Result<()> {
        Ok(())
    }
}

fn number(n: u64) -> Result<Number, Fail> {
    Ok(Number::new(n).ok_or("no number")?)
}

/// Returns the request to make book 7, with the operator's key.
fn making(alloc: Global, key: Secret) -> Result<Request, Fail> {
    let (book, capacity) = (number(7)?, Capacity::new(1).ok_or("no capacity")?);
    let new_book = NewBook {
        key,
        name: Name::of_str(alloc, "High Street")?.ok_or("no name")?,
        capacity,
    };
    let caller = Caller::Operator { key, new_book };
    Ok(Request { book, caller })
}

/// Makes book 7.
fn makes(alloc: Global, keep: &mut ListKeep) -> Result<(), Fail> {
    let (key, day) = (Secret::of_word(2), RequestDay::of_text(b"2024-01-31")?);
    let answer = {
        let request = making(alloc, key)?;
        acted(alloc, keep, key, &Stamp { day, word: 3 }, &request)
    };
    match answer {
        Some(Ok(_)) => Ok(()),
        _ => Err(Fail::from("no book")),
    }
}

/// Returns a keeper that has book 7.
fn one_book(alloc: Global) -> Result<ListKeep, Fail> {
    let mut keep = ListKeep::new(alloc, 100);
    match makes(alloc, &mut keep) {
        Ok(()) => Ok(keep),
        Err(fail) => Err(fail),
    }
}

#[test]
fn a_book_that_stands_is_exported(rt: HostRuntime) -> Result<(), Fail> {
    let (seven, eight) = (number(7)?, number(8)?);
    let mut keep = one_book(rt.alloc())?;
    for (book, came, text) in [(seven, Ok(()), TEXT), (eight, Err(ViewFault::Unknown), "")] {
        let mut rows = RowWriter::new(rt.alloc(), Vec::new(rt.alloc()));
        assert!(rt; export(&mut keep, book, &mut rows) == came);
        assert_eq!(rt; rows.into_inner().as_slice(), text.as_bytes());
    }
    Ok(())
}

#[test]
fn what_a_writer_took_before_it_failed_is_a_front(rt: HostRuntime) -> Result<(), Fail> {
    let book = number(7)?;
    let mut keep = one_book(rt.alloc())?;
    let taken = Vec::new(rt.alloc());
    let mut rows = RowWriter::new(rt.alloc(), OneByte { taken });
    assert!(rt; export(&mut keep, book, &mut rows) == Err(ViewFault::Write));
    assert_eq!(rt; rows.into_inner().taken.as_slice(), b"r".as_slice());
    Ok(())
}
