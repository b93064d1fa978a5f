//! The JSON bodies of requests.
ghost use Rattle.pawn_wire.specs.Body.{day_or_null, kind_named, kind_of, new_book_of, new_terms_of, opening_of};
ghost use Rattle.pawn_wire.specs.Body.{optional_day_at};
ghost use Rattle.pawn_wire.specs.Chain.{GivesPart};
ghost use Rattle.pawn_wire.specs.Common.{MOST_BOOKINGS, view};
ghost use Rattle.pawn_wire.specs.Member.{in_range};
ghost use Rattle.pawn_wire.specs.Types.{BadBody};
ghost use Rattle.std.specs.Prelude.{◌≡◌};

use crate::member;
use pawn_book::{Capacity, Kind, NewBook, NewTerms, Opening, Rates, RequestDay};
use pawn_reply::WireFault;
use serde_json::Value;
use std::alloc::Global;

/// Returns the capacity of this many confirmed visits in a window, if it is within the limits.
fn capacity_of(bookings: u64) -> Option<Capacity>
    ensures value { result ≡ in_range 1 MOST_BOOKINGS bookings }
{
    Capacity::new(bookings)
}

/// Reads a new book: its capacity, its key and its name.
pub(crate) fn new_book(alloc: Global, body: &Value) -> Result<NewBook, WireFault>
    ensures value { GivesPart BadBody result (new_book_of (view body.now)) }
{
    let bookings = member::number(body, "capacity").ok_or(WireFault::BadBody)?;
    let capacity = capacity_of(bookings).ok_or(WireFault::BadBody)?;
    let key = member::key(body, "key").ok_or(WireFault::BadBody)?;
    let name = member::text(alloc, body, "name")?;
    Ok(NewBook {
        key,
        name,
        capacity,
    })
}

/// Reads new terms: their version, the rate of interest in millionths a day, and the charges for safe keeping up to the
/// end of the period and after it, in millionths of a penny a day. `None` if a member is missing or malformed.
pub(crate) fn new_terms(body: &Value) -> Option<NewTerms>
    ensures value { result ≡ new_terms_of (view body.now) }
{
    let keep_after = member::number(body, "keep_after")?;
    let keep_before = member::number(body, "keep_before")?;
    let rate = member::number(body, "rate")?;
    let version = member::number(body, "version")?;
    let rates = Rates {
        rate,
        keep_before,
        keep_after,
    };
    Some(NewTerms { version, rates })
}

/// Returns the kind with this name (`fixed` or `running`) and with this sum or limit, in pence.
fn kind_named(word: &str, pence: u64) -> Option<Kind>
    ensures value { result ≡ kind_named word.now pence }
{
    match word {
        "fixed" => Some(Kind::Fixed(pence)),
        "running" => Some(Kind::Running(pence)),
        _ => None,
    }
}

/// Reads the kind of a pledge: fixed with its sum, or running with its limit, in pence.
fn kind(body: &Value) -> Option<Kind>
    ensures value { result ≡ kind_of (view body.now) }
{
    let word = member::string(body, "kind")?;
    let pence = member::number(body, "pence")?;
    kind_named(word, pence)
}

/// Reads a member that is a day or null. `Some(None)` if it is null, and `None` if it is neither.
fn day_or_null(member: &Value) -> Option<Option<RequestDay>>
    ensures value { result ≡ day_or_null (view member.now) }
{
    if member.is_null() {
        return Some(None);
    }
    match member.as_str() {
        Some(text) => match member::day_said(text) {
            Some(day) => Some(Some(day)),
            None => None,
        },
        None => None,
    }
}

/// Reads a member that is a day or null, or is missing. `Some(None)` if it is null or missing, and `None` if it is
/// malformed.
fn optional_day(body: &Value, name: &str) -> Option<Option<RequestDay>>
    ensures value { result ≡ optional_day_at name.now (view body.now) }
{
    match body.get(name) {
        None => Some(None),
        Some(member) => day_or_null(member),
    }
}

/// Reads a pledge to be taken: reference, article, kind, an agreed end if any, and whether five days of grace follow
/// the period.
pub(crate) fn opening(alloc: Global, body: &Value) -> Result<Opening, WireFault>
    ensures value { GivesPart BadBody result (opening_of (view body.now)) }
{
    let agreed = optional_day(body, "agreed").ok_or(WireFault::BadBody)?;
    let article = member::text(alloc, body, "article")?;
    let five_days = member::flag(body, "five_days").ok_or(WireFault::BadBody)?;
    let kind = kind(body).ok_or(WireFault::BadBody)?;
    let reference = member::text(alloc, body, "ref")?;
    Ok(Opening {
        reference,
        article,
        kind,
        agreed,
        five_days,
    })
}
