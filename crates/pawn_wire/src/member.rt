//! Reads JSON bodies and their members. A member that is missing or malformed reads as `None`.
ghost use Rattle.pawn_wire.specs.Chain.{GivesPart};
ghost use Rattle.pawn_wire.specs.Member.{JsonOf, day_at, flag_at, key_at, number_at, string_at, text_at};
ghost use Rattle.pawn_wire.specs.Named.{day_said};
ghost use Rattle.pawn_wire.specs.Types.{BadBody};
ghost use Rattle.serde_json.specs.View.{view};
ghost use Rattle.std.specs.Prelude.{◌≡◌, option_copied};

use crate::limits::MOST_NUMERAL;
use pawn_book::{Day, RequestDay, Secret, Text};
use pawn_reply::WireFault;
use serde_json::Value;
use std::alloc::Global;

/// Parses a body as JSON. Fails with `BadBody` if it is not JSON.
pub(crate) fn json(alloc: Global, body: &[u8]) -> Result<Value, WireFault>
    ensures value { JsonOf body.now result }
{
    match Value::from_slice(alloc, body) {
        Ok(value) => Ok(value),
        Err(error) => {
            if error.is_memory() {
                Err(WireFault::Memory)
            } else {
                Err(WireFault::BadBody)
            }
        }
    }
}

/// Reads the member of this name as a whole number of at most 12 digits.
pub(crate) fn number(body: &Value, name: &str) -> Option<u64>
    ensures value { result ≡ number_at name.now (view body.now) }
{
    match body.get(name).and_then(Value::as_u64) {
        Some(n) if n <= MOST_NUMERAL => Some(n),
        _ => None,
    }
}

/// Reads the member of this name as a text of any length.
pub(crate) fn string<'v>(body: &'v Value, name: &str) -> Option<&'v str>
    ensures value { option_copied result ≡ string_at name.now (view body.now) }
{
    body.get(name).and_then(Value::as_str)
}

/// Reads the member of this name as a boolean.
pub(crate) fn flag(body: &Value, name: &str) -> Option<bool>
    ensures value { result ≡ flag_at name.now (view body.now) }
{
    body.get(name).and_then(Value::as_bool)
}

/// Reads the member of this name as a text of 1 to `MOST` bytes without control characters.
pub(crate) fn text<const MOST: usize>(
    alloc: Global,
    body: &Value,
    name: &str,
) -> Result<Text<MOST>, WireFault>
    ensures value { GivesPart BadBody result (text_at MOST name.now (view body.now)) }
{
    let Some(text) = string(body, name) else {
        return Err(WireFault::BadBody);
    };
    Text::of_str(alloc, text)?.ok_or(WireFault::BadBody)
}

/// Reads the member of this name as a key.
pub(crate) fn key(body: &Value, name: &str) -> Option<Secret>
    ensures value { result ≡ key_at name.now (view body.now) }
{
    match string(body, name) {
        Some(text) => Secret::of_text(text.as_bytes()),
        None => None,
    }
}

/// Returns the day that a text such as `2024-01-31` names, if a request may name it.
pub(crate) fn day_said(text: &str) -> Option<RequestDay>
    ensures value { result ≡ day_said text.now }
{
    match Day::of_text(text.as_bytes()) {
        Ok(day) => RequestDay::of_day(day).ok(),
        Err(_) => None,
    }
}

/// Reads the member of this name as a day.
pub(crate) fn day(body: &Value, name: &str) -> Option<RequestDay>
    ensures value { result ≡ day_at name.now (view body.now) }
{
    match string(body, name) {
        Some(text) => day_said(text),
        None => None,
    }
}
