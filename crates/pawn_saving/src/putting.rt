//! Writes a pledge that is not stored yet, and the parts that it shares with one that is.
ghost use Rattle.pawn_saving.specs.Common.{pledge_row_count};
ghost use Rattle.pawn_saving.specs.Putting.{AddRows, AddRelated, AddsPledge, PutsFor, lists_past};
ghost use Rattle.pawn_saving.specs.RowWrites.{Carries};
ghost use Rattle.pawn_tables.specs.At.{at_pledge};
ghost use Rattle.pawn_tables.specs.Common.{state, Booking, Lends};
ghost use Rattle.pawn_tables.specs.Rows.{at_most_one, booking_cells, under};
ghost use Rattle.pawn_tables.specs.Schema.{bookings_tree};
ghost use Rattle.std.specs.Prelude.{◌≡◌, ◌+◌, if◌then◌else◌, None, Option, IfOk, drop, is_ok};

use crate::lengths::{Lengths, lengths_of};
use crate::list_inserts::{next_place, put_entries, put_extensions, put_secrets};
use crate::pledges::{put_booking, put_row, put_totals};
use pawn_book::{Booking, KeepError, Pledge};
use pawn_tables::in_32_bits;
use sqlite::{Alter, Transaction};

/// The elements after the first `so_many`; none if there are only so many or fewer.
fn behind<T>(items: &[T], so_many: u32) -> &[T]
    ensures value { result.now ≡ drop so_many items.now }
{
    match items.get(so_many as usize..) {
        Some(rest) => rest,
        None => &[],
    }
}

/// How many counted rows a pledge has: its own, its entries, its secrets and its booking. Extensions and totals are not
/// counted.
pub(crate) fn rows_within(lengths: Lengths, is_booked: bool) -> Result<u32, KeepError>
    ensures value { IfOk result (λ n. n ≡ 1 + lengths.entries + lengths.secrets + (if is_booked then 1 else 0)) }
{
    let bookings = if is_booked { 1 } else { 0 };
    in_32_bits(1 + lengths.entries as u64 + lengths.secrets as u64 + bookings)
}

/// How many counted rows this pledge has.
pub(crate) fn row_count(pledge: &Pledge) -> Result<u32, KeepError>
    ensures value { IfOk result (λ n. n ≡ pledge_row_count pledge.now) }
{
    let lengths = lengths_of(pledge)?;
    rows_within(lengths, pledge.standing().booking.is_some())
}

/// Inserts those rows of a pledge's lists that come after the first `lengths` of each list.
#[tactic(auto, using(crate::proofs::Basics::lent_then, crate::proofs::RowsInOrder::lent_carried, crate::proofs::RowsInOrder::both_carried))]
pub(crate) fn put_lists<S: Alter>(
    tx: &mut Transaction<'_, S>,
    book: u32,
    number: u32,
    pledge: &Pledge,
    lengths: Lengths,
) -> Result<(), KeepError>
    ensures wrote { AddRows (state S.Store tx.old.conn.now) (state S.Store tx.new.conn.now) result (lists_past lengths book number pledge.now) }
    ensures carried { Carries S.Store tx.old.conn tx.new.conn (is_ok result) }
{
    let secrets = next_place(lengths.secrets)?;
    let extensions = next_place(lengths.extensions)?;
    put_entries(tx, book, number, behind(pledge.entries(), lengths.entries))?;
    put_secrets(
        tx,
        book,
        number,
        secrets,
        behind(pledge.secrets(), lengths.secrets),
    )?;
    put_extensions(
        tx,
        book,
        number,
        extensions,
        behind(pledge.extensions(), lengths.extensions),
    )
}

/// Inserts the booking of a pledge, or replaces the stored one. Nothing is written if the pledge has no booking.
pub(crate) fn put_any_booking<S: Alter>(
    tx: &mut Transaction<'_, S>,
    book: u32,
    number: u32,
    booking: Option<Booking>,
) -> Result<(), KeepError>
    ensures wrote { (before : Option Booking) → (booking ≡ None → before ≡ None)
        → PutsFor (state S.Store tx.old.conn.now) (state S.Store tx.new.conn.now) result bookings_tree (at_pledge book number)
        (at_most_one (λ k. under book number (booking_cells k)) before) (at_most_one (λ k. under book number (booking_cells k)) booking) }
    ensures carried { Carries S.Store tx.old.conn tx.new.conn (is_ok result) }
{
    match booking {
        Some(booking) => put_booking(tx, book, number, booking),
        None => Ok(()),
    }
}

/// Inserts the single rows of a new pledge: its own, its totals and its booking, if it has one.
#[tactic(auto, using(crate::proofs::Basics::lent_then, crate::proofs::RowsInOrder::lent_carried, crate::proofs::RowsInOrder::both_carried))]
pub(crate) fn put_related<S: Alter>(
    tx: &mut Transaction<'_, S>,
    book: u32,
    number: u32,
    pledge: &Pledge,
) -> Result<(), KeepError>
    ensures wrote { AddRelated (state S.Store tx.old.conn.now) (state S.Store tx.new.conn.now) result book number pledge.now }
    ensures lent { Lends S.Store tx.old.conn tx.new.conn (is_ok result) }
{
    put_row(tx, book, number, pledge)?;
    put_totals(tx, book, number, &pledge.totals())?;
    put_any_booking(tx, book, number, pledge.standing().booking)
}

/// Inserts all rows of a pledge that has none stored. Returns how many of them are counted.
#[tactic(auto, using(crate::proofs::Basics::lent_then, crate::proofs::RowsInOrder::lent_carried, crate::proofs::RowsInOrder::both_carried))]
pub(crate) fn put_whole<S: Alter>(
    tx: &mut Transaction<'_, S>,
    book: u32,
    number: u32,
    pledge: &Pledge,
) -> Result<u32, KeepError>
    ensures wrote { AddsPledge (state S.Store tx.old.conn.now) (state S.Store tx.new.conn.now) result book number pledge.now }
    ensures lent { Lends S.Store tx.old.conn tx.new.conn (is_ok result) }
{
    let added = row_count(pledge)?;
    put_related(tx, book, number, pledge)?;
    put_lists(
        tx,
        book,
        number,
        pledge,
        Lengths {
            entries: 0,
            secrets: 0,
            extensions: 0,
        },
    )?;
    Ok(added)
}
