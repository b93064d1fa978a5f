//! Decodes the row of a pledge.
ghost use Rattle.pawn_tables.specs.Common.{IsDayNumber, PledgeItem, PledgeValue, Row as Cells};
ghost use Rattle.pawn_tables.specs.Finding.{IsRead};
ghost use Rattle.pawn_tables.specs.Kinds.{IsOwnDecodable, own_cells, own_row};
ghost use Rattle.pawn_tables.specs.PledgeRows.{IsRowDecodable, IsOpeningDecodable, row_of};
ghost use Rattle.pawn_tables.specs.Rows.{at_most_one, closed_day, pledge_cells};
ghost use Rattle.std.specs.Prelude.{◌≡◌, ◌++◌, Option, IfSome, option_map};

use crate::cells::{day_at, flag_at, number_at, optional_at, optional_request_day, text_at};
use crate::records::{PledgeRow, closing_of, kind_of, optional_day};
use pawn_book::{Closing, KeepError, Opening};
use sqlite::Row;
use std::alloc::Global;

/// The opening that the row of a pledge encodes.
fn opening_at(alloc: Global, row: &Row) -> Result<Opening, KeepError>
    ensures read { (q : PledgeItem) (more : Cells) → row.now ≡ own_cells q ++ more → IsRead result q.opening (IsOpeningDecodable q.opening) }
{
    let number = number_at(row, 2)?;
    let credit = number_at(row, 3)?;
    let kind = kind_of(number, credit)?;
    let agreed = optional_request_day(optional_at(row, 5)?)?;
    let five_days = flag_at(row, 6)?;
    let reference = text_at(alloc, row, 0)?;
    let article = text_at(alloc, row, 1)?;
    Ok(Opening {
        reference,
        article,
        kind,
        agreed,
        five_days,
    })
}

/// The closing that the row of a pledge encodes.
fn closing_at(row: &Row) -> Result<Closing, KeepError>
    ensures read { (q : PledgeItem) (more : Cells) → row.now ≡ own_cells q ++ more → IsRead result q.closing (IfSome (closed_day q.closing) IsDayNumber) }
{
    let closed = number_at(row, 11)?;
    let day = optional_day(optional_at(row, 12)?)?;
    let amount = optional_at(row, 13)?;
    closing_of(closed, day, amount)
}

/// The row of a pledge, decoded.
pub(crate) fn pledge_row(alloc: Global, row: &Row) -> Result<PledgeRow, KeepError>
    ensures read { (q : PledgeItem) (more : Cells) → row.now ≡ own_cells q ++ more → IsRead result (own_row q) (IsOwnDecodable q) }
{
    let taken = day_at(row, 4)?;
    let version = number_at(row, 7)?;
    let ends = number_at(row, 8)?;
    let held = flag_at(row, 9)?;
    let last = day_at(row, 10)?;
    let closing = closing_at(row)?;
    let opening = opening_at(alloc, row)?;
    Ok(PledgeRow {
        opening,
        taken,
        version,
        ends,
        held,
        last,
        closing,
    })
}

/// The first row of a pledge, decoded, if there is a row.
pub(crate) fn first_pledge(alloc: Global, rows: &[Row]) -> Result<Option<PledgeRow>, KeepError>
    ensures read { (p : Option PledgeValue) → rows.now ≡ at_most_one pledge_cells p → IsRead result (option_map row_of p) (IfSome p IsRowDecodable) }
{
    let [row, ..] = rows else {
        return Ok(None);
    };
    Ok(Some(pledge_row(alloc, row)?))
}
