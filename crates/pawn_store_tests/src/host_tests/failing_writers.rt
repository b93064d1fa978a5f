//! Tests of writers that fail at only one call, with statements over a list and over tables.
ghost use Rattle.std.specs.Prelude.{Some};

use super::turns::TURNS;
use super::{ROWS, bytes_of, service_of, service_over, stamp};
use pawn_book::{Keep, Number};
use pawn_host::Service;
use pawn_store::keep_in_memory;
use pawn_view::show_statement;
use pawn_writing::{ViewFault, Writing, put, send};
use std::alloc::Global;
use std::io;
use std::io::{ErrorKind, Write};
use std::process::Abort;
use std::test::Fail;

const STATEMENT: &[u8] =
    b"Pledge 1\nArticle Gold ring\nKind fixed 100.00\nTaken 2024-01-31\nEnds 2024-07-31\nStatus inside\nPrincipal 100.00\nCharges 0.00\nOwing 100.00\nHeld no\n\
        Booking none\n";

const REPAY: &str = "POST /books/7/pledges/1/repay HTTP/1.1";

const BROKER: &str = "Pledge-Key: 22222222-2222-2222-2222-222222222222";

/// How a call fails: with an error, or by writing no byte although some were passed.
#[derive(Clone, Copy)]
enum Failure {
    Error,
    Nothing,
}

/// A writer that writes at most `most` bytes in a call, fails at only one call, and counts its calls.
#[derive(Drop)]
struct Flaky {
    taken: Vec<u8>,
    most: usize,
    calls: usize,
    failing: usize,
    failure: Failure,
}

impl Write for Flaky {
    ghost contents = { λ w. Some w.taken.items };

    fn write(&mut self, buf: &[u8]) -> io::Result<usize> {
        self.calls = self.calls.saturating_add(1);
        if self.calls == self.failing {
            return match self.failure {
                Failure::Error => Err(io::Error::from(ErrorKind::BrokenPipe)),
                Failure::Nothing => Ok(0),
            };
        }
        let most = buf.len().min(self.most);
        self.taken.extend_from_slice(&buf[..most])?;
        Ok(most)
    }

    fn flush(&mut self) -> io::Result<()> {
        Ok(())
    }
}

fn failing_at(alloc: Global, failing: usize, failure: Failure) -> Writing<Flaky> {
    Writing::new(Flaky {
        taken: Vec::new(alloc),
        most: 7,
        calls: 0,
        failing,
        failure,
    })
}

/// Takes the ring of the first turns into book 7.
fn takes_ring<K: Keep>(rt: &impl Abort, service: &mut Service<K>) {
    for turn in TURNS.iter().take(3) {
        service.answer_one(&stamp(rt, turn.word), turn.request.as_bytes());
    }
}

/// Writes the statement of the only pledge.
fn states<K: Keep>(
    rt: &impl Abort,
    keep: &mut K,
    writer: &mut Writing<Flaky>,
) -> Result<Result<(), ViewFault>, Fail> {
    let book = Number::new(7).ok_or("no number")?;
    let pledge = Number::new(1).ok_or("no number")?;
    if writer.has_failed() {
        return Ok(Err(ViewFault::Write));
    }
    let day = stamp(rt, 0).day.day();
    Ok(show_statement(keep, book, pledge, day, writer))
}

/// Returns the writer after the whole statement, with the text and the number of calls.
fn whole_of<K: Keep>(rt: &impl Abort, alloc: Global, keep: &mut K) -> Result<Flaky, Fail> {
    let mut writer = failing_at(alloc, 0, Failure::Error);
    let came = states(rt, keep, &mut writer)?;
    assert!(rt; came == Ok(()));
    Ok(writer.into_inner())
}

/// Makes this call fail, and checks that the statement ends there, with a prefix of it written.
fn stops_at<K: Keep>(
    rt: &impl Abort,
    alloc: Global,
    keep: &mut K,
    whole: &[u8],
    at: usize,
    failure: Failure,
) -> Result<(), Fail> {
    let mut writer = failing_at(alloc, at, failure);
    let came = states(rt, keep, &mut writer)?;
    let failed = writer.has_failed();
    let end = writer.into_inner();
    let is_front = end.taken.len() < whole.len() && whole.starts_with(end.taken.as_slice());
    assert!(rt;
        (came, failed) == (Err(ViewFault::Write), true),
        "call {at}"
    );
    assert!(rt; end.calls == at && is_front, "call {at}");
    Ok(())
}

/// Checks the whole statement. Returns how many calls it takes.
fn calls_of<K: Keep>(rt: &impl Abort, alloc: Global, keep: &mut K) -> Result<usize, Fail> {
    let whole = whole_of(rt, alloc, keep)?;
    assert_eq!(rt; whole.taken.as_slice(), STATEMENT);
    assert!(rt; whole.calls > 20);
    Ok(whole.calls)
}

/// Makes each call fail in turn, in both ways.
fn stops_at_each<K: Keep>(rt: &impl Abort, alloc: Global, keep: &mut K) -> Result<(), Fail> {
    for at in 1..=calls_of(rt, alloc, keep)? {
        stops_at(rt, alloc, keep, STATEMENT, at, Failure::Error)?;
        stops_at(rt, alloc, keep, STATEMENT, at, Failure::Nothing)?;
    }
    Ok(())
}

#[test]
fn no_failed_write_is_tried_again(rt: HostRuntime) -> Result<(), Fail> {
    let mut service = service_of(&rt, rt.alloc(), ROWS);
    takes_ring(&rt, &mut service);
    stops_at_each(&rt, rt.alloc(), &mut service.keep)
}

/// Returns the request that enters a repayment of one penny with this number.
fn repayment(alloc: Global, seq: u32) -> Result<String, Fail> {
    let body = format!(in alloc; "{{\"pence\":1,\"seq\":{seq}}}")?;
    let (to, by, length) = (REPAY, BROKER, body.len());
    Ok(format!(in alloc; "{to}\r\n{by}\r\nContent-Length: {length}\r\n\r\n{body}")?)
}

/// Enters this many repayments of one penny, each by a request.
fn repays<K: Keep>(
    rt: &impl Abort,
    alloc: Global,
    service: &mut Service<K>,
    times: u32,
) -> Result<(), Fail> {
    for seq in 1..=times {
        let request = repayment(alloc, seq)?;
        let answer = service.answer_one(&stamp(rt, 9), request.as_bytes());
        assert!(rt;
            bytes_of(&answer).starts_with(b"HTTP/1.1 200 OK"),
            "entry {seq}"
        );
    }
    Ok(())
}

/// Checks that the whole statement has this text.
fn has_text<K: Keep>(
    rt: &impl Abort,
    alloc: Global,
    keep: &mut K,
    text: &[u8],
) -> Result<(), Fail> {
    let whole = whole_of(rt, alloc, keep)?;
    assert!(rt; whole.taken.as_slice() == text, "the next statement");
    Ok(())
}

/// Makes a write fail among the last lines of a statement, which come from the second page of its entries. After that
/// the same statement is written completely.
fn states_again<K: Keep>(rt: &impl Abort, alloc: Global, keep: &mut K) -> Result<(), Fail> {
    let whole = whole_of(rt, alloc, keep)?;
    let (text, at) = (whole.taken.as_slice(), whole.calls.saturating_sub(10));
    stops_at(rt, alloc, keep, text, at, Failure::Error)?;
    has_text(rt, alloc, keep, text)
}

/// Makes a write fail, has the statement written again, and then makes a change.
fn goes_on<K: Keep>(rt: &impl Abort, alloc: Global, service: &mut Service<K>) -> Result<(), Fail> {
    takes_ring(rt, service);
    repays(rt, alloc, service, 70)?;
    states_again(rt, alloc, &mut service.keep)?;
    let declare = TURNS[4];
    let answer = service.answer_one(&stamp(rt, declare.word), declare.request.as_bytes());
    assert_eq!(rt; bytes_of(&answer), declare.reply.as_bytes());
    Ok(())
}

#[test]
fn a_writer_that_fails_leaves_the_tables(rt: HostRuntime) -> Result<(), Fail> {
    let keep = keep_in_memory(rt.alloc(), 100).ok().ok_or("no store")?;
    goes_on(&rt, rt.alloc(), &mut service_over(&rt, rt.alloc(), keep))
}

/// Returns how many bytes a write took, or the kind of the inner writer's error.
fn answer_of(answer: io::Result<usize>) -> Result<usize, ErrorKind> {
    match answer {
        Ok(n) => Ok(n),
        Err(error) => Err(error.kind()),
    }
}

/// Makes writes to a writer that writes seven bytes in a call, and whose second call has this result.
fn writes_once(rt: &impl Abort, writer: &mut Writing<Flaky>, second: Result<usize, ErrorKind>) {
    let first = (answer_of(writer.write(b"Pledge 12")), writer.has_failed());
    assert_eq!(rt; first, (Ok(7), false));
    assert_eq!(rt;
        (answer_of(writer.write(b"12")), writer.has_failed()),
        (second, true)
    );
    put(writer, b"12");
    assert_eq!(rt;
        (answer_of(writer.write(b"12")), writer.has_failed()),
        (Ok(2), true)
    );
}

#[test]
fn each_write_is_one_call(rt: HostRuntime) {
    for (failure, second) in [
        (Failure::Error, Err(ErrorKind::BrokenPipe)),
        (Failure::Nothing, Ok(0usize)),
    ] {
        let mut writer = failing_at(rt.alloc(), 2, failure);
        writes_once(&rt, &mut writer, second);
        let end = writer.into_inner();
        assert_eq!(rt;
            (end.calls, end.taken.as_slice()),
            (3, b"Pledge 12".as_slice())
        );
    }
}

#[test]
fn a_sending_stops_at_the_failure(rt: HostRuntime) {
    for failure in [Failure::Error, Failure::Nothing] {
        let mut writer = failing_at(rt.alloc(), 3, failure);
        assert!(rt; !writer.has_failed());
        assert_eq!(rt; send(&mut writer, STATEMENT), 14);
        let end = writer.into_inner();
        assert_eq!(rt; end.calls, 3);
        assert_eq!(rt; end.taken.as_slice(), &STATEMENT[..14]);
    }
}
