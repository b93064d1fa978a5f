//! Writes the single rows of a pledge: its own row, its booking and its totals.
ghost use Rattle.pawn_saving.specs.RowWrites.{AddsRow, KeepsSchema, PutsOver, Replaces};
ghost use Rattle.pawn_tables.specs.At.{at_pledge};
ghost use Rattle.pawn_tables.specs.Common.{state, Totals, PledgeValue, Booking, Lends};
ghost use Rattle.pawn_tables.specs.Rows.{booking_cells, pledge_cells, totals_cells, under};
ghost use Rattle.pawn_tables.specs.Schema.{bookings_tree, pledges_tree, totals_tree};
ghost use Rattle.std.specs.Prelude.{◌≡◌, IfOk, Option, is_ok, option_map, pos};

use pawn_book::{Booking, KeepError, Pledge};
use pawn_debt::Totals;
use pawn_tables::texts::{PUT_BOOKING, PUT_PLEDGE, PUT_TOTALS, SET_PLEDGE, SET_TOTALS};
use pawn_tables::{
    DATABASE_FAILED, agreed_value, closed_amount, closed_day, closed_number, flag_number,
    in_32_bits, kind_number, state_number, write,
};
use sqlite::{Alter, Transaction, params};

/// Inserts the row of a new pledge in `pledges`.
pub(crate) fn put_row<S: Alter>(
    tx: &mut Transaction<'_, S>,
    book: u32,
    number: u32,
    pledge: &Pledge,
) -> Result<(), KeepError>
    ensures wrote { AddsRow (state S.Store tx.old.conn.now) (state S.Store tx.new.conn.now) result pledges_tree (under book number (pledge_cells pledge.now)) }
    ensures lent { Lends S.Store tx.old.conn tx.new.conn (is_ok result) }
{
    let agreement = pledge.agreement();
    let standing = pledge.standing();
    let credit = in_32_bits(agreement.opening.kind.credit())?;
    let version = in_32_bits(agreement.version)?;
    let amount = closed_amount(standing.closing)?;
    let reference = agreement.opening.reference.as_str();
    let article = agreement.opening.article.as_str();
    let kind = kind_number(agreement.opening.kind);
    let taken = agreement.taken.count();
    let agreed = agreed_value(agreement.opening.agreed);
    let five = flag_number(agreement.opening.five_days);
    let ends = pledge.ends().count();
    let held = flag_number(standing.held);
    let last = standing.last.count();
    let closed = closed_number(standing.closing);
    let closed_on = closed_day(standing.closing);
    write(
        tx,
        PUT_PLEDGE,
        params![
            book, number, reference, article, kind, credit, taken, &agreed, five, version, ends,
            held, last, closed, &closed_on, &amount
        ],
    )
}

/// Updates what can change in a pledge's row: its end, whether it is on hold, the day of its last change, and its
/// closing. A row that already has these values is not written.
pub(crate) fn set_row<S: Alter>(
    tx: &mut Transaction<'_, S>,
    book: u32,
    number: u32,
    pledge: &Pledge,
) -> Result<(), KeepError>
    ensures wrote { (before : PledgeValue) → before.agreement ≡ pledge.now.agreement → Replaces (state S.Store tx.old.conn.now) (state S.Store tx.new.conn.now)
        result pledges_tree (at_pledge book number) (under book number (pledge_cells before)) (under book number (pledge_cells pledge.now)) }
    ensures lent { Lends S.Store tx.old.conn tx.new.conn (is_ok result) }
{
    let standing = pledge.standing();
    let amount = closed_amount(standing.closing)?;
    let ends = pledge.ends().count();
    let held = flag_number(standing.held);
    let last = standing.last.count();
    let closed = closed_number(standing.closing);
    let closed_on = closed_day(standing.closing);
    write(
        tx,
        SET_PLEDGE,
        params![book, number, ends, held, last, closed, &closed_on, &amount],
    )
}

/// Inserts the booking of a pledge, or replaces the stored one.
pub(crate) fn put_booking<S: Alter>(
    tx: &mut Transaction<'_, S>,
    book: u32,
    number: u32,
    booking: Booking,
) -> Result<(), KeepError>
    ensures wrote { (before : Option Booking) → PutsOver (state S.Store tx.old.conn.now) (state S.Store tx.new.conn.now) result bookings_tree
        (at_pledge book number) (option_map (λ k. under book number (booking_cells k)) before) (under book number (booking_cells booking)) }
    ensures lent { Lends S.Store tx.old.conn tx.new.conn (is_ok result) }
{
    let day = booking.day.count();
    let window = in_32_bits(booking.window)?;
    let state = state_number(booking.state);
    write(tx, PUT_BOOKING, params![book, number, day, window, state])
}

/// The charges, in millionths of a penny, as the signed number that a statement binds.
fn charges_of(millionths: u64) -> Result<i64, KeepError>
    ensures value { IfOk result (λ n. n ≡ pos millionths) }
{
    match i64::try_from(millionths) {
        Ok(n) => Ok(n),
        Err(_) => Err(DATABASE_FAILED),
    }
}

/// Inserts the totals of a pledge that has none stored: the day, the principal in pence and the charges in millionths
/// of a penny.
pub fn put_totals<S: Alter>(
    tx: &mut Transaction<'_, S>,
    book: u32,
    number: u32,
    totals: &Totals,
) -> Result<(), KeepError>
    ensures wrote { AddsRow (state S.Store tx.old.conn.now) (state S.Store tx.new.conn.now) result totals_tree (under book number (totals_cells totals.now)) }
    ensures schema { KeepsSchema (state S.Store tx.old.conn.now) (state S.Store tx.new.conn.now) result }
    ensures lent { Lends S.Store tx.old.conn tx.new.conn (is_ok result) }
{
    let day = totals.day.count();
    let principal = in_32_bits(totals.principal)?;
    let charges = charges_of(totals.millionths)?;
    write(
        tx,
        PUT_TOTALS,
        params![book, number, day, principal, charges],
    )
}

/// Updates the totals of a stored pledge. A row that already has these values is not written.
pub(crate) fn set_totals<S: Alter>(
    tx: &mut Transaction<'_, S>,
    book: u32,
    number: u32,
    totals: &Totals,
) -> Result<(), KeepError>
    ensures wrote { (before : Totals) → Replaces (state S.Store tx.old.conn.now) (state S.Store tx.new.conn.now) result totals_tree
        (at_pledge book number) (under book number (totals_cells before)) (under book number (totals_cells totals.now)) }
    ensures lent { Lends S.Store tx.old.conn tx.new.conn (is_ok result) }
{
    let day = totals.day.count();
    let principal = in_32_bits(totals.principal)?;
    let charges = charges_of(totals.millionths)?;
    write(
        tx,
        SET_TOTALS,
        params![book, number, day, principal, charges],
    )
}
