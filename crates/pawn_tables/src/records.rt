//! Decodes the single rows of a pledge and the terms of a book.
ghost use Rattle.pawn_tables.specs.Common.{IsDayNumber, IsChecked, Rates, credit_of, Kind, Totals, Booking, Closing};
ghost use Rattle.pawn_tables.specs.Common.{Row as Cells};
ghost use Rattle.pawn_tables.specs.Finding.{IsRead};
ghost use Rattle.pawn_tables.specs.Rows.{at_most_one, booking_cells, closed_amount, closed_day, closed_number};
ghost use Rattle.pawn_tables.specs.Rows.{kind_number, terms_cells, totals_cells};
ghost use Rattle.std.specs.Prelude.{◌≡◌, ◌++◌, Option, IfSome, ⊤};

use crate::cells::{NO_RECORD, day_at, day_of, number_at, state_of};
use pawn_book::{Booking, Closing, Day, KeepError, Kind, Opening, Rates, Terms};
use pawn_debt::Totals;
use sqlite::Row;

/// A row of the table `pledges`, decoded.
#[derive(Drop)]
pub(crate) struct PledgeRow {
    pub opening: Opening,
    pub taken: Day,
    pub version: u64,
    /// The day number of the end of the period.
    pub ends: u64,
    pub held: bool,
    pub last: Day,
    pub closing: Closing,
}

/// The kind of credit, from its number and the sum or limit in pence. `NoRecord` for another number than 0 and 1.
pub(crate) fn kind_of(number: u64, credit: u64) -> Result<Kind, KeepError>
    ensures read { (k : Kind) → number ≡ kind_number k → credit ≡ credit_of k → IsRead result k ⊤ }
{
    match number {
        0 => Ok(Kind::Fixed(credit)),
        1 => Ok(Kind::Running(credit)),
        _ => Err(NO_RECORD),
    }
}

/// The day with this number, if there is a number. `NoRecord` if it is not from 2000-01-01 to 2299-12-31.
pub(crate) fn optional_day(number: Option<u64>) -> Result<Option<Day>, KeepError>
    ensures read { IsRead result number (IfSome number IsDayNumber) }
{
    let Some(number) = number else {
        return Ok(None);
    };
    Ok(Some(day_of(number)?))
}

/// The closing of a pledge, from its number, its day, and its amount in pence. `NoRecord` if they do not fit together.
pub(crate) fn closing_of(
    closed: u64,
    day: Option<Day>,
    amount: Option<u64>,
) -> Result<Closing, KeepError>
    ensures read { (c : Closing) → closed ≡ closed_number c → day ≡ closed_day c → amount ≡ closed_amount c → IsRead result c ⊤ }
{
    match (closed, day, amount) {
        (0, None, None) => Ok(Closing::Open),
        (1, Some(day), Some(paid)) => Ok(Closing::Redeemed { day, paid }),
        (2, Some(day), Some(net)) => Ok(Closing::Sold { day, net }),
        _ => Err(NO_RECORD),
    }
}

/// The booking that a row encodes.
pub(crate) fn booking_of(row: &Row) -> Result<Booking, KeepError>
    ensures read { (k : Booking) (more : Cells) → row.now ≡ booking_cells k ++ more → IsRead result k (IsDayNumber k.day) }
{
    let day = day_at(row, 0)?;
    let window = number_at(row, 1)?;
    let state = state_of(number_at(row, 2)?)?;
    Ok(Booking { day, window, state })
}

/// The totals that a row encodes.
fn totals_of(row: &Row) -> Result<Totals, KeepError>
    ensures read { (t : Totals) → row.now ≡ totals_cells t → IsRead result t (IsDayNumber t.day) }
{
    let day = day_at(row, 0)?;
    let principal = number_at(row, 1)?;
    let millionths = number_at(row, 2)?;
    Ok(Totals {
        day,
        principal,
        millionths,
    })
}

/// The three numbers of the terms that a row encodes, unchecked.
fn rates_of(row: &Row) -> Result<Rates, KeepError>
    ensures read { (t : Rates) → row.now ≡ terms_cells t → IsRead result t ⊤ }
{
    let rate = number_at(row, 0)?;
    let keep_before = number_at(row, 1)?;
    let keep_after = number_at(row, 2)?;
    Ok(Rates {
        rate,
        keep_before,
        keep_after,
    })
}

/// The terms that a row encodes. `NoRecord` if they are not within their limits.
fn terms_of(row: &Row) -> Result<Terms, KeepError>
    ensures read { (t : Rates) → row.now ≡ terms_cells t → IsRead result t (IsChecked t) }
{
    let rates = rates_of(row)?;
    match rates.check() {
        Ok(terms) => Ok(terms),
        Err(_) => Err(NO_RECORD),
    }
}

/// The booking that the first row encodes, if there is a row.
pub(crate) fn first_booking(rows: &[Row]) -> Result<Option<Booking>, KeepError>
    ensures read { (k : Option Booking) → rows.now ≡ at_most_one booking_cells k → IsRead result k (IfSome k (λ b. IsDayNumber b.day)) }
{
    let [row, ..] = rows else {
        return Ok(None);
    };
    Ok(Some(booking_of(row)?))
}

/// The totals that the first row encodes, if there is a row.
pub(crate) fn first_totals(rows: &[Row]) -> Result<Option<Totals>, KeepError>
    ensures read { (t : Option Totals) → rows.now ≡ at_most_one totals_cells t → IsRead result t (IfSome t (λ u. IsDayNumber u.day)) }
{
    let [row, ..] = rows else {
        return Ok(None);
    };
    Ok(Some(totals_of(row)?))
}

/// The terms that the first row encodes, if there is a row.
pub(crate) fn first_terms(rows: &[Row]) -> Result<Option<Terms>, KeepError>
    ensures read { (t : Option Rates) → rows.now ≡ at_most_one terms_cells t → IsRead result t (IfSome t IsChecked) }
{
    let [row, ..] = rows else {
        return Ok(None);
    };
    Ok(Some(terms_of(row)?))
}
