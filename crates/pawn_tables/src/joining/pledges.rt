//! Joins what was read of a pledge into the pledge, and compares the stored totals and end with those that follow.
ghost use Rattle.pawn_tables.specs.Common.{totals_of, PledgeValue, debt_of, end_of, IsReachable};
ghost use Rattle.pawn_tables.specs.Finding.{IsRead};
ghost use Rattle.pawn_tables.specs.PledgeRows.{AreLists, AreRelated, row_of};
ghost use Rattle.std.specs.Prelude.{◌≡◌, ◌↔◌, IfOk, IfSome, IsTrue, Some};

use crate::cells::NO_RECORD;
use crate::joining::{PledgeLists, RelatedRows};
use crate::records::PledgeRow;
use pawn_book::{Agreement, Booking, KeepError, Number, Parts, Pledge, Standing, Terms};
use pawn_debt::Totals;

/// Whether the stored end of the period and totals are those that follow from the pledge's record.
fn agrees(pledge: &Pledge, ends: u64, totals: Totals) -> bool
    ensures answer { IsTrue result ↔ ((ends ≡ end_of pledge.now) × (totals ≡ totals_of (debt_of pledge.now))) }
{
    let end = u64::from(pledge.ends().count());
    let owed = pledge.totals();
    end == ends && owed == totals
}

/// The day number of the end of the period, as it is stored.
pub(super) fn ends_of(row: &PledgeRow) -> u64
    ensures value { result ≡ row.now.ends }
{
    row.ends
}

/// The agreement and the standing (the fields that can change) of a pledge, from what was read.
pub(super) fn record_of(
    number: Number,
    row: PledgeRow,
    terms: Terms,
    booking: Option<Booking>,
) -> (Agreement, Standing)
    ensures value { (p : PledgeValue) → number ≡ p.agreement.number → row ≡ row_of p
        → terms ≡ p.agreement.terms → booking ≡ p.standing.booking → (result.0 ≡ p.agreement) × (result.1 ≡ p.standing) }
{
    let PledgeRow {
        opening,
        taken,
        version,
        ends: _,
        held,
        last,
        closing,
    } = row;
    let agreement = Agreement {
        number,
        opening,
        taken,
        version,
        terms: terms.rates(),
    };
    let standing = Standing {
        held,
        booking,
        last,
        closing,
    };
    (agreement, standing)
}

/// The record of a pledge, from what was read.
fn joined_parts(
    number: Number,
    row: PledgeRow,
    terms: Terms,
    booking: Option<Booking>,
    lists: PledgeLists,
) -> Parts
    ensures value { (p : PledgeValue) → number ≡ p.agreement.number → row ≡ row_of p
        → terms ≡ p.agreement.terms → booking ≡ p.standing.booking → AreLists lists p → result ≡ p }
{
    let (agreement, standing) = record_of(number, row, terms, booking);
    let PledgeLists {
        entries,
        secrets,
        extensions,
    } = lists;
    Parts {
        agreement,
        entries,
        secrets,
        extensions,
        standing,
    }
}

/// The terms, the booking and the totals of a pledge; `None` if terms or totals are missing.
pub(super) fn joined_rows(related: RelatedRows) -> Option<(Terms, Option<Booking>, Totals)>
    ensures value { (p : PledgeValue) → AreRelated related p → result ≡ Some (p.agreement.terms, p.standing.booking, totals_of (debt_of p)) }
    ensures totals { IfSome result (λ parts. related.totals ≡ Some parts.2) }
{
    match (related.terms, related.totals) {
        (Some(terms), Some(totals)) => Some((terms, related.booking, totals)),
        _ => None,
    }
}

/// The pledge, if the stored end and totals are those that follow from its record; otherwise `NoRecord`.
fn expect_totals(pledge: Pledge, ends: u64, totals: Totals) -> Result<Pledge, KeepError>
    ensures read { IsRead result pledge ((ends ≡ end_of pledge) × (totals ≡ totals_of (debt_of pledge))) }
    ensures agrees { IfOk result (λ p. (ends ≡ end_of p) × (totals ≡ totals_of (debt_of p))) }
{
    if agrees(&pledge, ends, totals) {
        Ok(pledge)
    } else {
        Err(NO_RECORD)
    }
}

/// The pledge, from what was read of it. `NoRecord` if terms or totals are missing, if no pledge can have this record,
/// or if the stored end or totals are not those that follow from it.
pub(crate) fn join_pledge(
    number: Number,
    row: PledgeRow,
    related: RelatedRows,
    lists: PledgeLists,
) -> Result<Pledge, KeepError>
    ensures read { (p : PledgeValue) → number ≡ p.agreement.number → row ≡ row_of p → AreRelated related p → AreLists lists p
        → IsRead result p (IsReachable p) }
    ensures ends { IfOk result (λ p. row.ends ≡ end_of p) }
    ensures totals { IfOk result (λ p. related.totals ≡ Some (totals_of (debt_of p))) }
    ensures reachable { IfOk result IsReachable }
{
    let Some((terms, booking, totals)) = joined_rows(related) else {
        return Err(NO_RECORD);
    };
    let ends = ends_of(&row);
    let parts = joined_parts(number, row, terms, booking, lists);
    let Ok(pledge) = Pledge::of_parts(parts) else {
        return Err(NO_RECORD);
    };
    expect_totals(pledge, ends, totals)
}
