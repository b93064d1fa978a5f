//! Builds the bytes of replies.
ghost use Rattle.pawn_pledge.specs.Receipt.{receipt_text};
ghost use Rattle.pawn_reply.specs.Bodies.{book_text, filled_text, opened_text, version_text};
ghost use Rattle.pawn_reply.specs.Done.{commanded_text};
ghost use Rattle.pawn_reply.specs.Fault.{wire_fault};
ghost use Rattle.pawn_reply.specs.Reply.{done_text, fault_text, head_text, json_text, memory_text, out_text};
ghost use Rattle.pawn_reply.specs.Reply.{refused_text, reply_text};
ghost use Rattle.std.specs.Prelude.{◌≡◌, IfOk, string_bytes};

use crate::detail::Detail;
use crate::fault::{HeadFault, WireFault};
use crate::status::status_of;
use crate::{bodies, done};
use http::StatusCode;
use pawn_book::{Done, Number, Receipt, Refusal, Reply};
use std::alloc::{AllocError, Global};

/// The content of a reply.
#[derive(Drop)]
pub enum Out {
    /// The request was done, and this is the reply to it.
    Done(Reply),
    /// The request was refused.
    Refused(Refusal),
    /// The bytes are not a valid request.
    Fault(WireFault),
    /// Lines of text, as `text/plain`.
    Plain(Vec<u8>),
    /// The rows of a book as comma-separated columns, as `text/csv`.
    Csv(Vec<u8>),
}

/// The content type of lines of text.
const PLAIN: &str = "text/plain; charset=utf-8";

/// The content type of a book's rows.
const CSV: &str = "text/csv; charset=utf-8";

/// The bytes of the reply when memory runs out: status 503, code 491. It is a constant, so sending it allocates no
/// memory.
pub const MEMORY_REPLY: &[u8] =
    b"HTTP/1.1 503 Service Unavailable\r\nContent-Length: 28\r\nContent-Type: application/json\r\n\r\n{\"code\":491,\"name\":\"Memory\"}";

/// The reply to `HeadFault::BadHead`.
const BAD_HEAD_REPLY: &[u8] =
    b"HTTP/1.1 400 Bad Request\r\nContent-Length: 29\r\nContent-Type: application/json\r\n\r\n{\"code\":701,\"name\":\"BadHead\"}";

/// The reply to `HeadFault::Transfer`.
const TRANSFER_REPLY: &[u8] =
    b"HTTP/1.1 400 Bad Request\r\nContent-Length: 30\r\nContent-Type: application/json\r\n\r\n{\"code\":703,\"name\":\"Transfer\"}";

/// The reply to `HeadFault::BadLength`.
const BAD_LENGTH_REPLY: &[u8] =
    b"HTTP/1.1 400 Bad Request\r\nContent-Length: 31\r\nContent-Type: application/json\r\n\r\n{\"code\":704,\"name\":\"BadLength\"}";

/// The reply to `HeadFault::BodyTooLong`.
const BODY_TOO_LONG_REPLY: &[u8] =
    b"HTTP/1.1 400 Bad Request\r\nContent-Length: 33\r\nContent-Type: application/json\r\n\r\n{\"code\":705,\"name\":\"BodyTooLong\"}";

/// Returns the reply when memory runs out: `MEMORY_REPLY`.
pub fn memory_reply() -> &'static [u8]
    ensures text { result.now ≡ memory_text }
{
    MEMORY_REPLY
}

/// Returns the reply to a head that can't begin a request. It is a constant, so this allocates no memory.
pub fn fault_reply(fault: HeadFault) -> &'static [u8]
    ensures text { result.now ≡ fault_text (wire_fault fault) }
{
    match fault {
        HeadFault::BadHead => BAD_HEAD_REPLY,
        HeadFault::Transfer => TRANSFER_REPLY,
        HeadFault::BadLength => BAD_LENGTH_REPLY,
        HeadFault::BodyTooLong => BODY_TOO_LONG_REPLY,
    }
}

/// Returns the head of a reply. `length` is the length of the body in bytes, and `kind` is its content type.
fn head(alloc: Global, status: StatusCode, length: usize, kind: &str) -> Result<String, AllocError>
    ensures text { IfOk result (λ s. string_bytes s ≡ head_text status length kind.now) }
{
    format!(in alloc;
        "HTTP/1.1 {status}\r\nContent-Length: {length}\r\nContent-Type: {kind}\r\n\r\n"
    )
}

/// Returns a whole reply. `kind` is the content type of the body.
fn reply(alloc: Global, status: StatusCode, kind: &str, body: &[u8]) -> Result<Vec<u8>, AllocError>
    ensures text { IfOk result (λ v. v.items ≡ reply_text status kind.now body.now) }
{
    let head = head(alloc, status, body.len(), kind)?;
    let mut bytes = Vec::from_slice(alloc, head.as_bytes())?;
    bytes.extend_from_slice(body)?;
    Ok(bytes)
}

/// Returns a whole reply whose body is JSON.
fn json_reply(alloc: Global, status: StatusCode, body: &str) -> Result<Vec<u8>, AllocError>
    ensures text { IfOk result (λ v. v.items ≡ json_text status body.now) }
{
    reply(alloc, status, "application/json", body.as_bytes())
}

/// Returns the reply to a refusal or a fault.
fn refusal_reply(
    alloc: Global,
    code: u16,
    name: &str,
    detail: Option<Detail>,
) -> Result<Vec<u8>, AllocError>
    ensures text { IfOk result (λ v. v.items ≡ refused_text code name.now detail) }
{
    let body = bodies::refusal(alloc, code, name, detail)?;
    json_reply(alloc, status_of(code), body.as_str())
}

/// Returns the reply to a request that made a book.
fn book_reply(alloc: Global, book: Number) -> Result<Vec<u8>, AllocError>
    ensures text { IfOk result (λ v. v.items ≡ json_text 200 (book_text book)) }
{
    let body = bodies::book(alloc, book.get())?;
    json_reply(alloc, StatusCode::OK, body.as_str())
}

/// Returns the reply to a request that put terms.
fn version_reply(alloc: Global, version: u64) -> Result<Vec<u8>, AllocError>
    ensures text { IfOk result (λ v. v.items ≡ json_text 200 (version_text version)) }
{
    let body = bodies::version(alloc, version)?;
    json_reply(alloc, StatusCode::OK, body.as_str())
}

/// Returns the reply to an import.
fn filled_reply(alloc: Global, pledges: u64) -> Result<Vec<u8>, AllocError>
    ensures text { IfOk result (λ v. v.items ≡ json_text 200 (filled_text pledges)) }
{
    let body = bodies::filled(alloc, pledges)?;
    json_reply(alloc, StatusCode::OK, body.as_str())
}

/// Returns the reply to a request that took a pledge.
fn opening_reply(alloc: Global, receipt: Receipt) -> Result<Vec<u8>, AllocError>
    ensures text { IfOk result (λ v. v.items ≡ json_text 200 (opened_text receipt.number (receipt_text receipt))) }
{
    let number = receipt.number.get();
    let text = receipt.text(alloc)?;
    let body = bodies::opening(alloc, number, text.as_str())?;
    json_reply(alloc, StatusCode::OK, body.as_str())
}

/// Returns the reply to a command.
fn command_reply(alloc: Global, number: Number, done: Done) -> Result<Vec<u8>, AllocError>
    ensures text { IfOk result (λ v. v.items ≡ json_text 200 (commanded_text number done)) }
{
    let body = done::done_body(alloc, number, done)?;
    json_reply(alloc, StatusCode::OK, body.as_str())
}

/// Returns the reply to a request that was done.
fn done_reply(alloc: Global, reply: Reply) -> Result<Vec<u8>, AllocError>
    ensures text { IfOk result (λ v. v.items ≡ json_text 200 (done_text reply)) }
{
    match reply {
        Reply::BookMade(book) => book_reply(alloc, book),
        Reply::TermsPut(version) => version_reply(alloc, version),
        Reply::BookFilled(pledges) => filled_reply(alloc, pledges),
        Reply::Opened(receipt) => opening_reply(alloc, receipt),
        Reply::Commanded { number, done } => command_reply(alloc, number, done),
    }
}

/// Returns the bytes of a reply: a head with its status and with the length and type of its body, and then the body.
/// Fails only if memory runs out.
pub fn write_reply(alloc: Global, out: &Out) -> Result<Vec<u8>, AllocError>
    ensures text { IfOk result (λ v. v.items ≡ out_text out.now) }
{
    match out {
        Out::Done(reply) => done_reply(alloc, *reply),
        Out::Refused(refusal) => {
            let total = refusal.total().map(Detail::Total);
            refusal_reply(alloc, refusal.code(), refusal.name(), total)
        }
        Out::Fault(fault) => refusal_reply(alloc, fault.code(), fault.name(), fault.detail()),
        Out::Plain(text) => reply(alloc, StatusCode::OK, PLAIN, text),
        Out::Csv(text) => reply(alloc, StatusCode::OK, CSV, text),
    }
}

/// Puts the head of a reply before a text, in the memory of the text.
fn put_head(alloc: Global, kind: &str, mut text: Vec<u8>) -> Result<Vec<u8>, AllocError>
    ensures text { IfOk result (λ v. v.items ≡ reply_text 200 kind.now text.items) }
{
    let head = head(alloc, StatusCode::OK, text.len(), kind)?;
    text.extend_from_slice(head.as_bytes())?;
    text.as_mut_slice().rotate_right(head.len());
    Ok(text)
}

/// Returns the same bytes as `write_reply`. A text is not copied: the reply is made in its memory, so that a long text
/// is in memory once. Fails only if memory runs out.
pub fn into_reply(alloc: Global, out: Out) -> Result<Vec<u8>, AllocError>
    ensures text { IfOk result (λ v. v.items ≡ out_text out) }
{
    match out {
        Out::Plain(text) => put_head(alloc, PLAIN, text),
        Out::Csv(text) => put_head(alloc, CSV, text),
        other => write_reply(alloc, &other),
    }
}
