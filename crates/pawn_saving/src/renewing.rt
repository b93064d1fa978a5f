//! Writes a pledge of an existing book: the next one, or one that is stored already.
ghost use Rattle.pawn_saving.specs.Common.{pledge_row_count, PutPledge};
ghost use Rattle.pawn_saving.specs.Counted.{WritesWhere};
ghost use Rattle.pawn_saving.specs.Putting.{RenewRelated};
ghost use Rattle.pawn_saving.specs.Stored.{IsStored};
ghost use Rattle.pawn_tables.specs.Common.{get, state, PledgeValue, pledge_in, Lends};
ghost use Rattle.std.specs.Prelude.{◌≡◌, ◌+◌, None, Some, IfOk, is_ok};

use crate::books::set_pledges_count;
use crate::pledges::{set_row, set_totals};
use crate::putting::{put_any_booking, put_lists, put_whole, row_count, rows_within};
use crate::stored::Stored;
use pawn_book::{KeepError, Number, Pledge};
use pawn_tables::DATABASE_FAILED;
use sqlite::{Alter, Transaction};

/// Writes the next pledge of a book. Returns how many counted rows that adds.
#[tactic(auto, using(crate::proofs::Basics::lent_then))]
pub(crate) fn add_pledge<S: Alter>(
    tx: &mut Transaction<'_, S>,
    book: Number,
    number: Number,
    pledge: &Pledge,
) -> Result<u32, KeepError>
    ensures wrote { WritesWhere (state S.Store tx.old.conn.now) (state S.Store tx.new.conn.now) (λ h. pledge_in (get h.books book) number ≡ None)
        (PutPledge book number pledge.now) result }
    ensures lent { Lends S.Store tx.old.conn tx.new.conn (is_ok result) }
{
    let added = put_whole(tx, book.get(), number.get(), pledge)?;
    set_pledges_count(tx, book.get(), number.get())?;
    Ok(added)
}

/// Updates the single rows of a stored pledge: its own, its totals and its booking.
#[tactic(auto, using(crate::proofs::Basics::lent_then, crate::proofs::RowsInOrder::lent_carried))]
fn set_related<S: Alter>(
    tx: &mut Transaction<'_, S>,
    book: u32,
    number: u32,
    pledge: &Pledge,
) -> Result<(), KeepError>
    ensures wrote { (before : PledgeValue) → before.agreement ≡ pledge.now.agreement → (pledge.now.standing.booking ≡ None → before.standing.booking ≡ None)
        → RenewRelated (state S.Store tx.old.conn.now) (state S.Store tx.new.conn.now) result book number before pledge.now }
    ensures lent { Lends S.Store tx.old.conn tx.new.conn (is_ok result) }
{
    set_row(tx, book, number, pledge)?;
    set_totals(tx, book, number, &pledge.totals())?;
    put_any_booking(tx, book, number, pledge.standing().booking)
}

/// How many more counted rows a pledge has than are stored of it. `DATABASE_FAILED` if it has fewer, or if a booking is
/// stored and the pledge has none: no command removes a booking.
fn rows_added(stored: Stored, pledge: &Pledge) -> Result<u32, KeepError>
    ensures value { IfOk result (λ added. (before : PledgeValue) → IsStored stored (Some before)
        → pledge_row_count pledge.now ≡ pledge_row_count before + added) }
    ensures booked { IfOk result (λ added. (before : PledgeValue) → IsStored stored (Some before)
        → pledge.now.standing.booking ≡ None → before.standing.booking ≡ None) }
{
    if stored.is_booked && pledge.standing().booking.is_none() {
        return Err(DATABASE_FAILED);
    }
    let stood = rows_within(stored.lengths, stored.is_booked)?;
    match row_count(pledge)?.checked_sub(stood) {
        Some(added) => Ok(added),
        None => Err(DATABASE_FAILED),
    }
}

/// Updates a stored pledge to its new content. Returns how many counted rows that adds.
#[tactic(auto, using(crate::proofs::Basics::lent_then, crate::proofs::RowsInOrder::lent_carried))]
pub(crate) fn renew_pledge<S: Alter>(
    tx: &mut Transaction<'_, S>,
    book: Number,
    number: Number,
    stored: Stored,
    pledge: &Pledge,
) -> Result<u32, KeepError>
    ensures wrote { (before : PledgeValue) → IsStored stored (Some before) → WritesWhere (state S.Store tx.old.conn.now) (state S.Store tx.new.conn.now)
        (λ h. pledge_in (get h.books book) number ≡ Some before) (PutPledge book number pledge.now) result }
    ensures lent { Lends S.Store tx.old.conn tx.new.conn (is_ok result) }
{
    let added = rows_added(stored, pledge)?;
    set_related(tx, book.get(), number.get(), pledge)?;
    put_lists(tx, book.get(), number.get(), pledge, stored.lengths)?;
    Ok(added)
}
