//! One session: the service reads the requests of a stream, answers them and writes the replies, one after the other.
ghost use Rattle.pawn_host.specs.Common.{Keeps, prepend_known, write_failed, written_bytes};
ghost use Rattle.pawn_host.specs.Ends.{left_of, read_failed, reads};
ghost use Rattle.pawn_host.specs.Finding.{CountsReads, FindsHead, FindsRest, HasHead, IsCausedBy, IsFetched, HasReadMore};
ghost use Rattle.pawn_host.specs.Finding.{StopsBy};
ghost use Rattle.pawn_host.specs.Keeps.{ForEachStart, StaysOpen, answer_bytes};
ghost use Rattle.pawn_host.specs.Limits.{most_request_bytes};
ghost use Rattle.pawn_host.specs.Session.{AreTaken, IsFinished, IsOver, IsReadWhileWanted, IsSession, IsWithinMost};
ghost use Rattle.pawn_host.specs.Unanswered.{unanswered};
ghost use Rattle.std.specs.Prelude.{◌≡◌, ◌+◌, ◌≤◌, IfSome, IfOk, IfErr, OnOk, length, ◌*◌, ◌^◌, false};

use crate::buffer::Buffer;
use crate::limits::{MOST_READS, MOST_REQUESTS};
use crate::reading::Reading;
use crate::service::{Answer, Service};
use pawn_book::{Keep, Stamp};
use pawn_reply::{HeadFault, fault_reply, memory_reply};
use pawn_wire::{HeadFacts, HeadRead, read_head};
use pawn_writing::{Writing, send};
use std::io::{Read, Write};

/// How a session ended.
#[derive(Clone, Copy, PartialEq, Eq)]
pub enum SessionEnd {
    /// The stream ended between two requests.
    End,
    /// The stream ended inside a request.
    Cut,
    /// A request asked for the connection to be closed after its reply, or was one of HTTP/1.0.
    Closed,
    /// The rest of the stream can't begin a request. Its fault was sent as the last reply.
    Faulted,
    /// 1,000 requests were answered.
    Limit,
    /// A further request has arrived, but there is no stamp for it.
    NoStamp,
    /// Memory ran out while a further request was read. `MEMORY_REPLY` was sent as the last reply.
    Memory,
}

/// A session that ended: how it ended, and how many requests were acted on.
#[derive(Clone, Copy, PartialEq, Eq)]
pub struct Ended {
    /// How the session ended.
    pub how: SessionEnd,
    /// How many requests were acted on, at most 1,000.
    pub acted: u32,
}

/// Why a session was broken off.
#[derive(Clone, Copy, Debug, PartialEq, Eq)]
pub enum Cause {
    /// A read failed.
    Read,
    /// A write failed.
    Write,
    /// All of the 100,000 reads were made.
    Reads,
}

/// A session that was broken off: the cause, how many requests were acted on, and how many bytes of all replies were
/// written, including a last reply that reports a fault or that memory ran out.
#[derive(Clone, Copy, Debug, PartialEq, Eq)]
pub struct IoFault {
    /// Why the session was broken off.
    pub cause: Cause,
    /// How many requests were acted on, at most 1,000.
    pub acted: u32,
    /// How many bytes of all replies were written.
    pub sent: u128,
}

/// The result of one read: bytes were added to the buffer, the stream is over, the read failed, no reads are left, or
/// memory ran out.
#[derive(Clone, Copy)]
enum ReadMore {
    More,
    Done,
    Failed,
    OutOfReads,
    NoRoom,
}

/// Why there is no further request: the stream is over, is cut off inside a request, or has a fault; memory ran out; or
/// the session is broken off.
#[derive(Clone, Copy)]
enum Rest {
    AtEnd,
    CutOff,
    Faulty(HeadFault),
    NoMemory,
    Stopped(Cause),
}

/// Makes one read, and adds its bytes to the buffer. When no reads are left, the result is `OutOfReads` even if the
/// stream is over, because only another read would show that.
fn read_more<R: Read>(reader: &mut Reading<R>, buffer: &mut Buffer) -> ReadMore
    ensures read { HasReadMore result (left_of R.remaining reader.old) (left_of R.remaining reader.new) (unanswered buffer.old) (unanswered buffer.new) }
    ensures by { CountsReads result (read_failed reader.old) (read_failed reader.new) (reads reader.old) (reads reader.new) }
{
    if reader.reads() >= MOST_READS {
        return ReadMore::OutOfReads;
    }
    let mut piece = [0u8; 8192];
    let Ok(n) = reader.read(&mut piece) else {
        return ReadMore::Failed;
    };
    if n == 0 {
        return ReadMore::Done;
    }
    match buffer.add(&piece[..n]) {
        Ok(()) => ReadMore::More,
        Err(_) => ReadMore::NoRoom,
    }
}

/// Reads until a whole head is in the buffer.
fn await_head<R: Read>(reader: &mut Reading<R>, buffer: &mut Buffer) -> Result<HeadFacts, Rest>
    ensures head { IfOk result (HasHead (unanswered buffer.new)) }
    ensures small { IfOk result (λ h. h.len + h.body ≤ most_request_bytes) }
    ensures kept { IfOk result (λ _. Keeps (prepend_known (unanswered buffer.old) (left_of R.remaining reader.old))
        (prepend_known (unanswered buffer.new) (left_of R.remaining reader.new))) }
    ensures rest { IfSome (prepend_known (unanswered buffer.old) (left_of R.remaining reader.old)) (λ s. IfErr result (FindsRest s)) }
    ensures stops { StopsBy result (read_failed reader.old) (read_failed reader.new) (reads reader.new) }
    ensures fetched { IsFetched result (unanswered buffer.old) (unanswered buffer.new)
        (left_of R.remaining reader.old) (left_of R.remaining reader.new) (reads reader.old) (reads reader.new) }
{
    loop {
        match read_head(buffer.as_slice()) {
            HeadRead::Whole(head) => return Ok(head),
            HeadRead::Fault(fault) => return Err(Rest::Faulty(fault)),
            HeadRead::Partial => (),
        }
        match read_more(reader, buffer) {
            ReadMore::More => (),
            ReadMore::Done => {
                return Err(if buffer.as_slice().is_empty() {
                    Rest::AtEnd
                } else {
                    Rest::CutOff
                });
            }
            ReadMore::Failed => return Err(Rest::Stopped(Cause::Read)),
            ReadMore::OutOfReads => return Err(Rest::Stopped(Cause::Reads)),
            ReadMore::NoRoom => return Err(Rest::NoMemory),
        }
    }
}

/// Returns the length in bytes of a request with this head, including its body.
fn request_len(head: &HeadFacts) -> usize
    requires small { head.now.len + head.now.body ≤ most_request_bytes }
    ensures answer { result ≡ head.now.len + head.now.body }
{
    head.len + head.body
}

/// Reads until the request with this head is completely in the buffer.
fn await_body<R: Read>(
    reader: &mut Reading<R>,
    buffer: &mut Buffer,
    head: HeadFacts,
) -> Result<HeadFacts, Rest>
    requires head { HasHead (unanswered buffer.old) head }
    requires small { head.len + head.body ≤ most_request_bytes }
    ensures head { IfOk result (HasHead (unanswered buffer.new)) }
    ensures small { IfOk result (λ h. h.len + h.body ≤ most_request_bytes) }
    ensures buffered { IfOk result (λ h. h.len + h.body ≤ length (unanswered buffer.new)) }
    ensures kept { IfOk result (λ _. Keeps (prepend_known (unanswered buffer.old) (left_of R.remaining reader.old))
        (prepend_known (unanswered buffer.new) (left_of R.remaining reader.new))) }
    ensures found { IfSome (prepend_known (unanswered buffer.old) (left_of R.remaining reader.old)) (λ s. FindsHead s result) }
    ensures stops { StopsBy result (read_failed reader.old) (read_failed reader.new) (reads reader.new) }
    ensures fetched { IsFetched result (unanswered buffer.old) (unanswered buffer.new)
        (left_of R.remaining reader.old) (left_of R.remaining reader.new) (reads reader.old) (reads reader.new) }
{
    let needed = request_len(&head);
    while buffer.as_slice().len() < needed {
        match read_more(reader, buffer) {
            ReadMore::More => (),
            ReadMore::Done => return Err(Rest::CutOff),
            ReadMore::Failed => return Err(Rest::Stopped(Cause::Read)),
            ReadMore::OutOfReads => return Err(Rest::Stopped(Cause::Reads)),
            ReadMore::NoRoom => return Err(Rest::NoMemory),
        }
    }
    Ok(head)
}

/// Reads until the next request is completely in the buffer.
fn next_request<R: Read>(reader: &mut Reading<R>, buffer: &mut Buffer) -> Result<HeadFacts, Rest>
    ensures head { IfOk result (HasHead (unanswered buffer.new)) }
    ensures small { IfOk result (λ h. h.len + h.body ≤ most_request_bytes) }
    ensures buffered { IfOk result (λ h. h.len + h.body ≤ length (unanswered buffer.new)) }
    ensures kept { IfOk result (λ _. Keeps (prepend_known (unanswered buffer.old) (left_of R.remaining reader.old))
        (prepend_known (unanswered buffer.new) (left_of R.remaining reader.new))) }
    ensures found { IfSome (prepend_known (unanswered buffer.old) (left_of R.remaining reader.old)) (λ s. FindsHead s result) }
    ensures stops { StopsBy result (read_failed reader.old) (read_failed reader.new) (reads reader.new) }
    ensures fetched { IsFetched result (unanswered buffer.old) (unanswered buffer.new)
        (left_of R.remaining reader.old) (left_of R.remaining reader.new) (reads reader.old) (reads reader.new) }
{
    match await_head(reader, buffer) {
        Ok(head) => await_body(reader, buffer, head),
        Err(rest) => Err(rest),
    }
}

/// Returns the bytes to be written for an answer.
fn answer_slice(answer: &Answer) -> &[u8]
    ensures bytes { result.now ≡ answer_bytes answer.now }
{
    match answer {
        Answer::Bytes(bytes) => bytes.as_slice(),
        Answer::Memory => memory_reply(),
    }
}

/// Writes the last text of a session and ends the session. Breaks it off if the writer fails.
fn write_last<W: Write>(
    writer: &mut Writing<W>,
    text: &[u8],
    how: SessionEnd,
    acted: u32,
    sent: u128,
) -> Result<Ended, IoFault>
    requires fine { write_failed writer.old ≡ false }
    requires room { sent ≤ acted * 2 ^ 64 }
    ensures finished { IsFinished how acted sent text.now (written_bytes W.contents writer.old)
        (written_bytes W.contents writer.new) (write_failed writer.new) result }
{
    let count = send(writer, text);
    if count < text.len() {
        return Err(IoFault {
            cause: Cause::Write,
            acted,
            sent: sent + count as u128,
        });
    }
    Ok(Ended { how, acted })
}

/// Ends a session in which no further request was found, with a last reply if one is due.
fn finish<W: Write>(
    writer: &mut Writing<W>,
    rest: Rest,
    acted: u32,
    sent: u128,
) -> Result<Ended, IoFault>
    requires fine { write_failed writer.old ≡ false }
    requires room { sent ≤ acted * 2 ^ 64 }
    ensures over { IsOver rest acted sent (written_bytes W.contents writer.old) (written_bytes W.contents writer.new) (write_failed writer.new) result }
{
    match rest {
        Rest::AtEnd => write_last(writer, &[], SessionEnd::End, acted, sent),
        Rest::CutOff => write_last(writer, &[], SessionEnd::Cut, acted, sent),
        Rest::Faulty(fault) => write_last(
            writer,
            fault_reply(fault),
            SessionEnd::Faulted,
            acted,
            sent,
        ),
        Rest::NoMemory => write_last(writer, memory_reply(), SessionEnd::Memory, acted, sent),
        Rest::Stopped(cause) => Err(IoFault { cause, acted, sent }),
    }
}

impl<K: Keep> Service<K> {
    /// Answers the requests of a stream in their order, and writes each reply before it reads the next request. A stamp
    /// is taken for each request after its last byte was read, and none for a fault, a cut or an end. At most 1,000
    /// requests are answered. At most 100,000 reads are made, and each only while a further request is due and not
    /// complete. After a request that closes the connection nothing more is read. A failed read or write is not
    /// retried. If the result is `Ok`, neither the reader nor the writer has failed.
    ///
    /// The caller ensures that the reader is new and that the writer has not failed before.
    pub fn answer_all<R: Read, W: Write, I: Iterator<Item = Stamp>>(
        &mut self,
        reader: &mut Reading<R>,
        writer: &mut Writing<W>,
        stamps: &mut I,
    ) -> Result<Ended, IoFault>
        requires fresh { reads reader.old ≡ 0 }
        requires fine { write_failed writer.old ≡ false }
        requires can { I.can_next stamps.old }
        ensures stays { StaysOpen K.keeping self.old self.new }
        ensures session { ForEachStart K.keeping self.old self.new (λ start. IsSession I.next_gives (record {
          start = start;
          stamps = stamps.old;
          stream =
              left_of R.remaining reader.old;
          written = written_bytes W.contents writer.old;
        }) stamps.new (written_bytes W.contents writer.new) result) }
        ensures stamps { AreTaken I.next_gives stamps.old stamps.new result }
        ensures room { IsWithinMost result }
        ensures whole { OnOk result ((read_failed reader.new ≡ false) × (write_failed writer.new ≡ false)) }
        ensures cause { IfErr result (λ fault. IsCausedBy fault.cause (read_failed reader.new) (reads reader.new) (write_failed writer.new)) }
        ensures reads { IsReadWhileWanted (reads reader.new) (left_of R.remaining reader.old) (left_of R.remaining reader.new) }
    {
        let mut buffer = Buffer::new(self.alloc);
        let mut sent = 0u128;
        for acted in 0..MOST_REQUESTS {
            let head = match next_request(reader, &mut buffer) {
                Ok(head) => head,
                Err(rest) => return finish(writer, rest, acted, sent),
            };
            let Some(stamp) = stamps.next() else {
                let how = SessionEnd::NoStamp;
                return Ok(Ended { how, acted });
            };
            let needed = request_len(&head);
            let answer = self.answer_one(&stamp, &buffer.as_slice()[..needed]);
            let text = answer_slice(&answer);
            let count = send(writer, text);
            let acted = acted + 1;
            sent += count as u128;
            if count < text.len() {
                let cause = Cause::Write;
                return Err(IoFault { cause, acted, sent });
            }
            if head.closes {
                let how = SessionEnd::Closed;
                return Ok(Ended { how, acted });
            }
            buffer.answer(needed);
        }
        let how = SessionEnd::Limit;
        let acted = MOST_REQUESTS;
        Ok(Ended { how, acted })
    }
}
