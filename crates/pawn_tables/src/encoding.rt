//! How values are encoded as cells of a row. `cells` decodes them.
ghost use Rattle.std.specs.Prelude.{◌≡◌, ◌<◌, ◌^◌, IfOk};
ghost use Rattle.pawn_tables.specs.Rows as spec;

use pawn_book::{BookingState, Closing, Issue, KeepError, Kind, RequestDay, Sort, StoreFault};
use sqlite_value::value::Value;

/// The error for a value that does not fit in a cell; a database that fails is reported by the same error.
pub const DATABASE_FAILED: KeepError = KeepError::Store(StoreFault::Database);

/// The number as the 32-bit number that a statement binds. `DATABASE_FAILED` if it does not fit.
pub fn in_32_bits(number: u64) -> Result<u32, KeepError>
    ensures value { IfOk result (λ n. n ≡ number) }
    ensures in_range { IfOk result (λ n. n < 2 ^ 32) }
{
    match u32::try_from(number) {
        Ok(n) => Ok(n),
        Err(_) => Err(DATABASE_FAILED),
    }
}

/// The number that encodes a flag: 0 for false, 1 for true.
pub fn flag_number(flag: bool) -> u32
    ensures value { result ≡ spec.flag_number flag }
{
    if flag { 1 } else { 0 }
}

/// The number that encodes a kind of credit: 0 for a fixed sum, 1 for a running account.
pub fn kind_number(kind: Kind) -> u32
    ensures value { result ≡ spec.kind_number kind }
{
    match kind {
        Kind::Fixed(_) => 0,
        Kind::Running(_) => 1,
    }
}

/// The number that encodes a kind of entry: 0 for a drawing, 1 for a repayment.
pub fn sort_number(sort: Sort) -> u32
    ensures value { result ≡ spec.sort_number sort }
{
    match sort {
        Sort::Draw => 0,
        Sort::Repay => 1,
    }
}

/// The number that encodes how a secret was issued: 0 with the pledge, 1 on a sworn declaration, 2 on a written
/// statement.
pub fn issue_number(issue: Issue) -> u32
    ensures value { result ≡ spec.issue_number issue }
{
    match issue {
        Issue::Opening => 0,
        Issue::Sworn => 1,
        Issue::Written => 2,
    }
}

/// The number that encodes a booking's state: 0 for asked, 1 for confirmed, 2 for refused, 3 for cancelled.
pub fn state_number(state: BookingState) -> u32
    ensures value { result ≡ spec.state_number state }
{
    match state {
        BookingState::Asked => 0,
        BookingState::Confirmed => 1,
        BookingState::Refused => 2,
        BookingState::Cancelled => 3,
    }
}

/// A number as a cell, or NULL if there is none.
fn optional(number: Option<u32>) -> Value
    ensures value { result ≡ spec.or_null spec.number number }
{
    match number {
        Some(n) => Value::Int(n as i64),
        None => Value::Null,
    }
}

/// The cell for the agreed end of a period: its day number, or NULL if none was agreed.
pub fn agreed_value(agreed: Option<RequestDay>) -> Value
    ensures value { result ≡ spec.or_null spec.number agreed }
{
    match agreed {
        Some(day) => optional(Some(day.day().count())),
        None => optional(None),
    }
}

/// The number that encodes a closing: 0 for open, 1 for redeemed, 2 for sold.
pub fn closed_number(closing: Closing) -> u32
    ensures value { result ≡ spec.closed_number closing }
{
    match closing {
        Closing::Open => 0,
        Closing::Redeemed { .. } => 1,
        Closing::Sold { .. } => 2,
    }
}

/// The cell for the day of a closing: its day number, or NULL while the pledge is open.
pub fn closed_day(closing: Closing) -> Value
    ensures value { result ≡ spec.or_null spec.number (spec.closed_day closing) }
{
    match closing {
        Closing::Open => optional(None),
        Closing::Redeemed { day, paid: _ } => optional(Some(day.count())),
        Closing::Sold { day, net: _ } => optional(Some(day.count())),
    }
}

/// A sum of pence as a cell. A sum that is paid can need more than 32 bits. `DATABASE_FAILED` if 63 bits cannot hold it.
fn sum_value(pence: u64) -> Result<Value, KeepError>
    ensures value { IfOk result (λ sum. sum ≡ spec.number pence) }
{
    match i64::try_from(pence) {
        Ok(sum) => Ok(Value::Int(sum)),
        Err(_) => Err(DATABASE_FAILED),
    }
}

/// The cell for the sum that was paid or that a sale brought, in pence, or NULL while the pledge is open.
/// `DATABASE_FAILED` if 63 bits cannot hold it.
pub fn closed_amount(closing: Closing) -> Result<Value, KeepError>
    ensures value { IfOk result (λ amount. amount ≡ spec.or_null spec.number (spec.closed_amount closing)) }
{
    match closing {
        Closing::Open => Ok(optional(None)),
        Closing::Redeemed { day: _, paid } => sum_value(paid),
        Closing::Sold { day: _, net } => sum_value(net),
    }
}
