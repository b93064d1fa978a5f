//! Reads bytes as requests.
ghost use Rattle.pawn_wire.specs.Chain.{OrMemory, Says};
ghost use Rattle.pawn_wire.specs.Common.{Broker, Import};
ghost use Rattle.pawn_wire.specs.Fields.{pairs_of};
ghost use Rattle.pawn_wire.specs.Request.{HoldsRows, IsAsked, IsOutlined, IsRequestRead, outline_by};
ghost use Rattle.std.specs.Prelude.{◌≡◌};

use crate::callers::{Asks, Sent, who_asks};
use crate::fields::Fields;
use crate::head::body_length;
use crate::limits::{MOST_FIELDS, MOST_HEAD};
use crate::router::Router;
use crate::target::target_of;
use httparse::Status;
use httparse::spans::{EMPTY_HEADER_SPAN, parse_request};
use pawn_book::{BrokerRequest, Caller, Number, Request, Secret};
use pawn_csv::{ReplayableRows, read_book};
use pawn_reply::WireFault;
use std::alloc::Global;

/// A request as read so far: its book, the caller and what is asked. The rows of an import are not read yet.
#[derive(Drop)]
struct Outline {
    book: Number,
    asks: Asks,
}

/// Reads a request from the parts of a head and a body, except for the rows of an import.
fn outline_by(
    alloc: Global,
    router: &Router,
    method: &[u8],
    target: &[u8],
    sent: &Sent<'_>,
) -> Result<Outline, WireFault>
    ensures value { Says result (outline_by method.now target.now (pairs_of sent.now.fields) sent.now.body.now) }
{
    let length = body_length(&sent.fields)?;
    if length != sent.body.len() {
        return Err(WireFault::BadLength);
    }
    let Some(asked) = target_of(router, target) else {
        return Err(WireFault::NoRoute);
    };
    if !asked.target.takes(method) {
        return Err(WireFault::WrongMethod);
    }
    let asks = who_asks(alloc, asked.target, sent)?;
    Ok(Outline {
        book: asked.book,
        asks,
    })
}

/// Returns the rows of the book that a body holds as comma-separated text.
fn rows(alloc: Global, body: &[u8]) -> Result<ReplayableRows, WireFault>
    ensures rows { OrMemory (HoldsRows body.now) result }
{
    match read_book(alloc, body) {
        Ok(rows) => Ok(rows),
        Err(fault) => Err(WireFault::from(fault)),
    }
}

/// Returns the broker who asks to fill a book with these rows.
fn import_of_rows(key: Secret, import_key: Secret, rows: ReplayableRows) -> Caller
    ensures value { result ≡ Broker key (Import import_key rows) }
{
    let asked = BrokerRequest::Import { import_key, rows };
    Caller::Broker { key, asked }
}

/// Completes an outline to a request. An import gets the rows that the body holds.
fn request_of(alloc: Global, outline: Outline, body: &[u8]) -> Result<Request, WireFault>
    ensures value { OrMemory (IsAsked body.now outline.book outline.asks) result }
{
    let Outline { book, asks } = outline;
    let caller = match asks {
        Asks::Whole(caller) => caller,
        Asks::Import { key, import_key } => import_of_rows(key, import_key, rows(alloc, body)?),
    };
    Ok(Request { book, caller })
}

/// Reads a whole request from the parts of a head and a body.
fn request_by(
    alloc: Global,
    router: &Router,
    method: &[u8],
    target: &[u8],
    sent: &Sent<'_>,
) -> Result<Request, WireFault>
    ensures value { OrMemory (IsOutlined sent.now.body.now (outline_by method.now target.now (pairs_of sent.now.fields) sent.now.body.now)) result }
{
    let outline = outline_by(alloc, router, method, target, sent)?;
    request_of(alloc, outline, sent.body)
}

/// Reads bytes as one whole request with nothing after it. The error is the first fault that applies, in the order that
/// `WireFault` describes, or `Memory`. If the request takes no body, the content of the body is not checked.
pub fn read_request(alloc: Global, router: &Router, bytes: &[u8]) -> Result<Request, WireFault>
    ensures read { IsRequestRead bytes.now result }
{
    let front = &bytes[..bytes.len().min(MOST_HEAD)];
    let mut spans = [EMPTY_HEADER_SPAN; MOST_FIELDS];
    match parse_request(front, &mut spans) {
        Ok(Status::Complete(head)) => {
            let fields = Fields::new(front, &spans[..head.headers]);
            let sent = Sent {
                fields,
                body: &bytes[head.len..],
            };
            request_by(
                alloc,
                router,
                head.method.of(front),
                head.path.of(front),
                &sent,
            )
        }
        Ok(Status::Partial) => Err(WireFault::BadHead),
        Err(_) => Err(WireFault::BadHead),
    }
}
