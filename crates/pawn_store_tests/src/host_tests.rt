//! Tests of whole requests and their replies: by `run` over lists and over tables, at the row limit, over a log that
//! stops, and over streams and writers that are slow or fail.

// The text of a book, with the header and these rows, optionally after the head of a request.
macro_rules! book_text {
    ($rows:literal $(, after $head:literal)?) => {
        concat!(
            $($head,)?
            "row,c1,c2,c3,c4,c5,c6,c7,c8,c9,c10,c11,c12,c13,c14\n",
            $rows
        )
    };
}

mod at_the_limit;
mod briefs;
mod ends;
mod failing_writers;
mod stops;
mod turns;
mod visits;

use ends::{Calls, Log, Sink, Source, Stamps};
use pawn_book::{Keep, RequestDay, Secret, Stamp};
use pawn_host::{Answer, Cause, Ended, IoFault, Reading, Service, SessionEnd};
use pawn_list_keeper::ListKeep;
use pawn_store::{keep_in_memory, run_over_tables};
use pawn_writing::Writing;
use std::alloc::Global;
use std::process::Abort;
use std::test::Fail;
use turns::{DAY, TURNS};

const ASKED: &[u8] = b"GET /books/7/held HTTP/1.1\r\nHost: x\r\n\r\n";

const NO_RECEIPT: &[u8] =
    b"HTTP/1.1 400 Bad Request\r\nContent-Length: 31\r\nContent-Type: application/json\r\n\r\n{\"code\":712,\"name\":\"NoReceipt\"}";

const BAD_HEAD: &[u8] =
    b"HTTP/1.1 400 Bad Request\r\nContent-Length: 29\r\nContent-Type: application/json\r\n\r\n{\"code\":701,\"name\":\"BadHead\"}";

/// A request after which its connection closes.
const CLOSING: &[u8] = b"GET /books/7/held HTTP/1.0\r\n\r\n";

/// A request with a field that closes its connection, and a byte after the request.
const CLOSING_FIELD: &[u8] = b"GET /books/7/held HTTP/1.1\r\nConnection: CLOSE\r\n\r\n}";

/// A head, and half of its body.
const HALF_BODY: &[u8] = b"POST / HTTP/1.1\r\nContent-Length: 2\r\n\r\n{";

/// Enough rows for all turns.
const ROWS: u64 = 100;

/// Returns a service over a list, with room for this many rows.
fn service_of(rt: &impl Abort, alloc: Global, rows: u64) -> Service<ListKeep> {
    service_over(rt, alloc, ListKeep::new(alloc, rows.min(2000)))
}

fn service_over<K: Keep + Drop>(rt: &impl Abort, alloc: Global, keep: K) -> Service<K> {
    let operator = Secret::of_word(0x11111111_1111_1111_1111_111111111111);
    match Service::new(alloc, keep, operator) {
        Ok(service) => service,
        Err(_) => panic!(rt; "no memory"),
    }
}

/// Returns the stamp of a request on this day, with this word.
fn stamp_on(rt: &impl Abort, day: &str, word: u128) -> Stamp {
    match RequestDay::of_text(day.as_bytes()) {
        Ok(day) => Stamp { day, word },
        Err(_) => panic!(rt; "no day: {day}"),
    }
}

/// Returns the stamp of a turn with this word.
fn stamp(rt: &impl Abort, word: u128) -> Stamp {
    stamp_on(rt, DAY, word)
}

/// Returns the bytes of an answer; none if the answer is `Memory`.
fn bytes_of(answer: &Answer) -> &[u8] {
    match answer {
        Answer::Bytes(bytes) => bytes.as_slice(),
        Answer::Memory => b"",
    }
}

/// Checks that the answers of a run are the replies to the turns.
fn check_each(rt: &impl Abort, answers: &[Answer]) {
    assert_eq!(rt; answers.len(), TURNS.len());
    let mut place = 1usize;
    for (answer, turn) in answers.iter().zip(&TURNS) {
        assert_eq!(rt; bytes_of(answer), turn.reply.as_bytes(), "turn {place}");
        place = place.saturating_add(1);
    }
}

/// Returns the turns as items of a run.
fn items_of_turns(rt: &impl Abort, alloc: Global) -> Result<Vec<(Stamp, Vec<u8>)>, Fail> {
    let mut items = Vec::new(alloc);
    for turn in TURNS {
        items.push((
            stamp(rt, turn.word),
            Vec::from_slice(alloc, turn.request.as_bytes())?,
        ))?;
    }
    Ok(items)
}

/// Returns the answers of a run over a list.
fn run_over_list(
    rt: &impl Abort,
    alloc: Global,
    items: &[(Stamp, Vec<u8>)],
) -> Result<Vec<Answer>, Fail> {
    Ok(service_of(rt, alloc, ROWS).run(items)?)
}

/// Returns the answers of a run over the tables of a new store in memory.
fn run_in_memory(
    rt: &impl Abort,
    alloc: Global,
    items: &[(Stamp, Vec<u8>)],
) -> Result<Vec<Answer>, Fail> {
    let keep = keep_in_memory(alloc, 100).ok().ok_or("no store")?;
    Ok(run_over_tables(&mut service_over(rt, alloc, keep), items)?)
}

/// Checks that both keepers answer the turns with their replies.
fn both_tell(rt: &impl Abort, alloc: Global, items: &[(Stamp, Vec<u8>)]) -> Result<(), Fail> {
    check_each(rt, run_over_list(rt, alloc, items)?.as_slice());
    check_each(rt, run_in_memory(rt, alloc, items)?.as_slice());
    Ok(())
}

#[test]
fn the_turns_are_answered_over_lists_and_over_tables(rt: HostRuntime) -> Result<(), Fail> {
    let items = items_of_turns(&rt, rt.alloc())?;
    both_tell(&rt, rt.alloc(), items.as_slice())
}

/// How the reader and the writer of a stream behave: whether a call moves only one byte, and at which call each fails,
/// if any.
#[derive(Clone, Copy)]
struct Behaviour {
    slow: bool,
    read_fails: u32,
    write_fails: u32,
    takes_nothing: bool,
}

const SOUND: Behaviour = Behaviour {
    slow: false,
    read_fails: 0,
    write_fails: 0,
    takes_nothing: false,
};

const SLOW: Behaviour = Behaviour {
    slow: true,
    ..SOUND
};

/// The result of a stream, the bytes that were written, how many bytes its reader still holds, and the order in which
/// the reader, the stamps and the writer were called.
#[derive(Drop)]
struct Came {
    came: Result<Ended, IoFault>,
    written: Vec<u8>,
    left: usize,
    reads: u32,
    writes: u32,
    calls: u64,
}

/// Answers a stream over a list, with these stamps.
fn answered(
    rt: &impl Abort,
    alloc: Global,
    stream: &[u8],
    stamps: &[Stamp],
    behaviour: Behaviour,
) -> Came {
    let mut service = service_of(rt, alloc, ROWS);
    let log = Log::new();
    let mut source = Source {
        bytes: stream,
        calls: Calls {
            slow: behaviour.slow,
            fails_at: behaviour.read_fails,
            made: 0,
        },
        log: &log,
    };
    let mut sink = Sink {
        taken: Vec::new(alloc),
        takes_nothing: behaviour.takes_nothing,
        calls: Calls {
            slow: behaviour.slow,
            fails_at: behaviour.write_fails,
            made: 0,
        },
        log: &log,
    };
    let mut stamps = Stamps { stamps, log: &log };
    let came = service.answer_all(
        &mut Reading::new(&mut source),
        &mut Writing::new(&mut sink),
        &mut stamps,
    );
    Came {
        came,
        written: sink.taken,
        left: source.bytes.len(),
        reads: source.calls.made,
        writes: sink.calls.made,
        calls: log.calls(),
    }
}

/// Returns these bytes repeated, with others after them.
fn repeated(alloc: Global, bytes: &[u8], times: u32, rest: &[u8]) -> Result<Vec<u8>, Fail> {
    let mut all = Vec::new(alloc);
    for _ in 0..times {
        all.extend_from_slice(bytes)?;
    }
    all.extend_from_slice(rest)?;
    Ok(all)
}

/// A stream of requests and a rest: how its session should end, how many requests it acts on, and what it writes after
/// their replies.
#[derive(Clone, Copy)]
struct Stream {
    requests: u32,
    rest: &'static [u8],
    how: SessionEnd,
    acted: u32,
    last: &'static [u8],
}

/// Returns a stream after whose replies nothing is written.
fn ending(requests: u32, rest: &'static [u8], how: SessionEnd, acted: u32) -> Stream {
    Stream {
        requests,
        rest,
        how,
        acted,
        last: b"",
    }
}

/// Checks that a stream ends as it should.
fn ends_as(rt: &impl Abort, alloc: Global, stamps: &[Stamp], wanted: Stream) -> Result<(), Fail> {
    let stream = repeated(alloc, ASKED, wanted.requests, wanted.rest)?;
    let replies = repeated(alloc, NO_RECEIPT, wanted.acted, wanted.last)?;
    let all = answered(rt, alloc, stream.as_slice(), stamps, SOUND);
    let (how, acted) = (wanted.how, wanted.acted);
    assert!(rt; all.came == Ok(Ended { how, acted }));
    assert!(rt;
        all.written.as_slice() == replies.as_slice(),
        "the replies to {acted}"
    );
    Ok(())
}

#[test]
fn a_session_tells_how_its_stream_ended(rt: HostRuntime) -> Result<(), Fail> {
    let stamps = [stamp(&rt, 1); 2];
    let faulted = Stream {
        requests: 1,
        rest: b"}",
        how: SessionEnd::Faulted,
        acted: 1,
        last: BAD_HEAD,
    };
    for wanted in [
        ending(0, b"", SessionEnd::End, 0),
        ending(2, b"", SessionEnd::End, 2),
        ending(3, b"", SessionEnd::NoStamp, 2),
        ending(1, b"GET /books/7/he", SessionEnd::Cut, 1),
        ending(1, HALF_BODY, SessionEnd::Cut, 1),
        ending(0, CLOSING_FIELD, SessionEnd::Closed, 1),
        ending(1, CLOSING, SessionEnd::Closed, 2),
        faulted,
    ] {
        ends_as(&rt, rt.alloc(), &stamps, wanted)?;
    }
    Ok(())
}

#[test]
fn a_thousand_requests_are_answered_and_no_more(rt: HostRuntime) -> Result<(), Fail> {
    let stamps = [stamp(&rt, 1); 1001];
    for wanted in [
        ending(999, b"", SessionEnd::End, 999),
        ending(999, CLOSING, SessionEnd::Closed, 1000),
        ending(1000, b"", SessionEnd::Limit, 1000),
        ending(1001, b"", SessionEnd::Limit, 1000),
        ending(1000, b"}", SessionEnd::Limit, 1000),
    ] {
        ends_as(&rt, rt.alloc(), &stamps, wanted)?;
    }
    Ok(())
}

#[test]
fn what_comes_behind_the_last_request_stays_with_the_reader(rt: HostRuntime) -> Result<(), Fail> {
    let alloc = rt.alloc();
    let stamps = [stamp(&rt, 1); 1000];
    for (requests, last, reads) in [
        (1u32, CLOSING, 1usize),
        (1, b"} / HTTP/1.1\r\n\r\n", 1),
        (1000, b"", 5),
    ] {
        let mut stream = repeated(alloc, ASKED, requests, last)?;
        stream.extend_from_slice(&[b'x'; 110_000])?;
        let all = answered(&rt, alloc, stream.as_slice(), &stamps, SOUND);
        assert_eq!(rt; all.left, stream.len().saturating_sub(reads * 8192));
    }
    Ok(())
}

#[test]
fn a_stamp_then_a_reply_then_the_next_read(rt: HostRuntime) -> Result<(), Fail> {
    let stream = repeated(rt.alloc(), ASKED, 2, b"")?;
    let stamps = [stamp(&rt, 1); 2];
    let all = answered(&rt, rt.alloc(), stream.as_slice(), &stamps, SLOW);
    assert_eq!(rt; all.calls, 0x0123_1231);
    Ok(())
}

/// Answers a stream of two requests.
fn two_answered(rt: &impl Abort, alloc: Global, behaviour: Behaviour) -> Result<Came, Fail> {
    let stream = repeated(alloc, ASKED, 2, b"")?;
    let stamps = [stamp(rt, 1); 3];
    Ok(answered(rt, alloc, stream.as_slice(), &stamps, behaviour))
}

/// Checks that a session was broken off for this cause after this many requests, and that this many bytes were written.
fn breaks_off(rt: &impl Abort, all: &Came, cause: Cause, acted: u32, sent: u128) {
    assert!(rt; all.came == Err(IoFault { cause, acted, sent }));
    assert_eq!(rt; all.written.len() as u128, sent);
}

#[test]
fn a_session_breaks_off_at_the_read_that_fails(rt: HostRuntime) -> Result<(), Fail> {
    for read_fails in 1..80u32 {
        let behaviour = Behaviour { read_fails, ..SLOW };
        let all = two_answered(&rt, rt.alloc(), behaviour)?;
        let acted = (read_fails - 1) / ASKED.len() as u32;
        let sent = u128::from(acted) * NO_RECEIPT.len() as u128;
        breaks_off(&rt, &all, Cause::Read, acted, sent);
        assert_eq!(rt; all.reads, read_fails);
    }
    Ok(())
}

#[test]
fn a_session_breaks_off_at_the_write_that_fails(rt: HostRuntime) -> Result<(), Fail> {
    for write_fails in 1..223u32 {
        for takes_nothing in [false, true] {
            let behaviour = Behaviour {
                write_fails,
                takes_nothing,
                ..SLOW
            };
            let all = two_answered(&rt, rt.alloc(), behaviour)?;
            let acted = (write_fails - 1) / NO_RECEIPT.len() as u32 + 1;
            breaks_off(&rt, &all, Cause::Write, acted, u128::from(write_fails - 1));
            assert_eq!(rt; all.writes, write_fails);
        }
    }
    Ok(())
}

#[test]
fn a_session_breaks_off_after_a_hundred_thousand_reads(rt: HostRuntime) -> Result<(), Fail> {
    let alloc = rt.alloc();
    let head = b"POST /books/7 HTTP/1.1\r\nContent-Length: 100000\r\n\r\n";
    let mut stream = Vec::from_slice(alloc, head)?;
    stream.extend_from_slice(&[b' '; 100_000])?;
    let all = answered(&rt, alloc, stream.as_slice(), &[], SLOW);
    breaks_off(&rt, &all, Cause::Reads, 0, 0);
    assert_eq!(rt; all.reads, 100_000);
    Ok(())
}
