//! Reads the heads of requests.
ghost use Rattle.pawn_wire.specs.Fields.{pairs_of};
ghost use Rattle.pawn_wire.specs.Head.{IfWhole, IsHeadRead, body_length, closes_by};
ghost use Rattle.pawn_wire.specs.Limits.{most_body, most_head};
ghost use Rattle.std.specs.Prelude.{◌≡◌, ◌+◌, ◌≤◌};

use crate::fields::{Fields, Found};
use crate::limits::{MOST_BODY, MOST_FIELDS, MOST_HEAD};
use crate::numeral::decimal;
use httparse::Status;
use httparse::spans::{EMPTY_HEADER_SPAN, RequestSpans, parse_request};
use pawn_reply::HeadFault;

/// What the head of a request determines.
#[derive(Clone, Copy)]
pub struct HeadFacts {
    /// The length of the head in bytes. The body begins after it.
    pub len: usize,
    /// The length of the body in bytes.
    pub body: usize,
    /// Whether the connection closes after the reply.
    pub closes: bool,
}

/// What was found at the beginning of the bytes that have arrived so far.
#[derive(Clone, Copy)]
pub enum HeadRead {
    /// A whole head.
    Whole(HeadFacts),
    /// A head that is not complete yet. Line ends alone count as one too, because the parser skips them before a head.
    Partial,
    /// No head, or a head that can't begin a request.
    Fault(HeadFault),
}

/// Reads the head at the beginning of the bytes. A head has the version HTTP/1.0 or 1.1, has at most 64 fields, and
/// ends within the first 8,192 bytes. Whether a head is at fault depends on these bytes only, however many have
/// arrived.
pub fn read_head(bytes: &[u8]) -> HeadRead
    ensures head { IsHeadRead bytes.now result }
    ensures within { IfWhole result (λ f. f.len + f.body ≤ most_head + most_body) }
{
    let front = &bytes[..bytes.len().min(MOST_HEAD)];
    let mut spans = [EMPTY_HEADER_SPAN; MOST_FIELDS];
    match parse_request(front, &mut spans) {
        Ok(Status::Complete(head)) => {
            let fields = Fields::new(front, &spans[..head.headers]);
            match body_length(&fields) {
                Ok(body) => HeadRead::Whole(HeadFacts {
                    len: head.len,
                    body,
                    closes: closes(&head, &fields),
                }),
                Err(fault) => HeadRead::Fault(fault),
            }
        }
        Ok(Status::Partial) if bytes.len() < MOST_HEAD => HeadRead::Partial,
        _ => HeadRead::Fault(HeadFault::BadHead),
    }
}

/// Returns the length of the body in bytes, according to the fields.
pub(crate) fn body_length(fields: &Fields<'_>) -> Result<usize, HeadFault>
    ensures value { result ≡ body_length (pairs_of fields.now) }
{
    let Found::Missing = fields.find(b"transfer-encoding") else {
        return Err(HeadFault::Transfer);
    };
    match fields.find(b"content-length") {
        Found::Missing => Ok(0),
        Found::One(value) => match decimal(value) {
            Some(length) if length <= MOST_BODY => Ok(length as usize),
            Some(_) => Err(HeadFault::BodyTooLong),
            None => Err(HeadFault::BadLength),
        },
        Found::Several => Err(HeadFault::BadLength),
    }
}

/// Returns whether the connection closes after the reply.
fn closes(head: &RequestSpans, fields: &Fields<'_>) -> bool
    ensures value { result ≡ closes_by head.now.version (pairs_of fields.now) }
{
    head.version == 0 || fields.has_value(b"connection", b"close")
}
