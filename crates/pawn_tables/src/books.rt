//! Reads of one number or row: a book's head, the pledge with a reference, counts, the next book.
#![tactic(auto, using(crate::proofs::StatementFinds::unread, crate::proofs::StatementFinds::unread_debts))]

ghost use Rattle.pawn_tables.specs.Common.{get, state, book_head, confirmed_count, rows, IsNextBook, number_of};
ghost use Rattle.pawn_tables.specs.Common.{pledges_of, HasUnsoundBook, IsUnsoundAt, Lends};
ghost use Rattle.pawn_tables.specs.Finding.{FindsBy, FindsOf};
ghost use Rattle.pawn_tables.specs.StandsFor.{ListDebts};
ghost use Rattle.std.specs.Prelude.{◌≡◌, is_ok, option_map};

use crate::heads::{first_head, first_number, only_count, only_number};
use crate::queries::run_query;
use crate::texts::{COUNT_CONFIRMED, FIND_NEXT_BOOK, FIND_REFERENCE, READ_HEAD, READ_ROWS};
use pawn_book::{BookHead, Day, KeepError, Number, StoreFault};
use sqlite::{Alter, Transaction, params};
use std::alloc::Global;

/// The head of a book, if there is such a book. The error is `NoRecord` only if the book is not sound.
pub fn head_in<S: Alter>(
    tx: &mut Transaction<'_, S>,
    alloc: Global,
    book: u32,
) -> Result<Option<BookHead>, KeepError>
    ensures finds { FindsBy S.Store tx.old.conn tx.new.conn (IsUnsoundAt book) result (λ h head. head ≡ option_map book_head (get h.books book)) }
    ensures lent { Lends S.Store tx.old.conn tx.new.conn (is_ok result) }
{
    let rows = run_query(tx, READ_HEAD, params![book])?;
    first_head(alloc, &rows)
}

/// The number of the first pledge of a book with a reference, if there is one. The error is `NoRecord` only if the book
/// is not sound.
pub fn ref_in<S: Alter>(
    tx: &mut Transaction<'_, S>,
    book: u32,
    reference: &str,
) -> Result<Option<Number>, KeepError>
    ensures finds { FindsBy S.Store tx.old.conn tx.new.conn (IsUnsoundAt book) result (λ h number. number ≡ number_of (get h.books book) reference.now) }
    ensures lent { Lends S.Store tx.old.conn tx.new.conn (is_ok result) }
{
    let rows = run_query(tx, FIND_REFERENCE, params![book, reference])?;
    first_number(&rows)
}

/// How many pledges of a book have a confirmed booking for a day and a window, 0 to 15. The error is `Database` if the
/// window does not fit in 32 bits, and `NoRecord` only if the book is not sound.
pub fn confirmed_in<S: Alter>(
    tx: &mut Transaction<'_, S>,
    book: u32,
    day: Day,
    window: u64,
) -> Result<u64, KeepError>
    ensures finds { FindsBy S.Store tx.old.conn tx.new.conn (IsUnsoundAt book) result
        (λ h count. count ≡ confirmed_count (pledges_of (get h.books book)) day window) }
    ensures lent { Lends S.Store tx.old.conn tx.new.conn (is_ok result) }
{
    let Ok(slot) = u32::try_from(window) else {
        return Err(KeepError::Store(StoreFault::Database));
    };
    let day = day.count();
    let rows = run_query(tx, COUNT_CONFIRMED, params![book, day, slot])?;
    only_count(&rows)
}

/// The least book number that is greater than `above`, if there is one. The error is `NoRecord` only if some book is
/// not sound.
pub fn next_in<S: Alter>(
    tx: &mut Transaction<'_, S>,
    above: u32,
) -> Result<Option<Number>, KeepError>
    ensures finds { FindsBy S.Store tx.old.conn tx.new.conn HasUnsoundBook result (λ h next. IsNextBook h above next) }
    ensures debts { FindsOf ListDebts HasUnsoundBook (state S.Store tx.old.conn.now) (state S.Store tx.new.conn.now) result
        (λ h next. IsNextBook h above next) }
    ensures lent { Lends S.Store tx.old.conn tx.new.conn (is_ok result) }
{
    let rows = run_query(tx, FIND_NEXT_BOOK, params![above])?;
    first_number(&rows)
}

/// How many counted rows all books have together: the count that the store keeps in `meta`. The error is `NoRecord`
/// only if some book is not sound.
pub fn rows_in<S: Alter>(tx: &mut Transaction<'_, S>) -> Result<u64, KeepError>
    ensures finds { FindsBy S.Store tx.old.conn tx.new.conn HasUnsoundBook result (λ h count. count ≡ rows h) }
    ensures lent { Lends S.Store tx.old.conn tx.new.conn (is_ok result) }
{
    let rows = run_query(tx, READ_ROWS, &[])?;
    only_number(&rows)
}
