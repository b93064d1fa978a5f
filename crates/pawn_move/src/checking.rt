//! Checks that all debts are reachable, for a store of schema 2.
ghost use Rattle.pawn_move.specs.Moving.{AreAllOwed, AreOwedIn, IsNextChecked, ListFirstDebts};
ghost use Rattle.pawn_opening.specs.Common.{state, Lends};
ghost use Rattle.pawn_saving.specs.RowWrites.{Carries};
ghost use Rattle.pawn_tables.specs.Common.{get, HasUnsoundBook, IsUnsoundAt};
ghost use Rattle.pawn_tables.specs.Finding.{FindsOf};
ghost use Rattle.std.specs.Prelude.{◌≡◌, None, is_ok};

use crate::debts::totals_for;
use crate::totals_inserts::BEYOND;
use pawn_book::{KeepError, Number};
use pawn_tables::next_in;
use sqlite::{Alter, Transaction};
use std::alloc::Global;

/// Checks the debts of all pledges of a book. The error is `NoRecord` if commands cannot produce one of them. Nothing
/// is written.
pub(crate) fn check_book<S: Alter>(
    tx: &mut Transaction<'_, S>,
    alloc: Global,
    book: u32,
) -> Result<(), KeepError>
    ensures checks { FindsOf ListFirstDebts (IsUnsoundAt book) (state S.Store tx.old.conn.now)
        (state S.Store tx.new.conn.now) result (λ h done. AreOwedIn h book) }
    ensures carried { Carries S.Store tx.old.conn tx.new.conn (is_ok result) }
{
    for place in 0..u32::MAX {
        let totals = totals_for(tx, alloc, book, place + 1)?;
        if totals.is_none() {
            return Ok(());
        }
    }
    Err(BEYOND)
}

/// Checks the debts of the book with the least number that is greater than `above`. Returns its number; `None` if there
/// is no such book.
pub(crate) fn check_next<S: Alter>(
    tx: &mut Transaction<'_, S>,
    alloc: Global,
    above: u32,
) -> Result<Option<Number>, KeepError>
    ensures checks { FindsOf ListFirstDebts HasUnsoundBook (state S.Store tx.old.conn.now)
        (state S.Store tx.new.conn.now) result (λ h next. IsNextChecked h above next) }
    ensures lent { Lends S.Store tx.old.conn tx.new.conn (is_ok result) }
{
    let Some(book) = next_in(tx, above)? else {
        return Ok(None);
    };
    check_book(tx, alloc, book.get())?;
    Ok(Some(book))
}

/// Checks the debts of all books. The error is `NoRecord` if commands cannot produce one of them. Nothing is written.
pub(crate) fn check_books<S: Alter>(
    tx: &mut Transaction<'_, S>,
    alloc: Global,
) -> Result<(), KeepError>
    ensures checks { FindsOf ListFirstDebts HasUnsoundBook (state S.Store tx.old.conn.now)
        (state S.Store tx.new.conn.now) result (λ h done. get h.books 0 ≡ None → AreAllOwed h) }
    ensures carried { Carries S.Store tx.old.conn tx.new.conn (is_ok result) }
{
    let mut above = 0;
    for _ in 0..u32::MAX {
        let Some(book) = check_next(tx, alloc, above)? else {
            return Ok(());
        };
        above = book.get();
    }
    Err(BEYOND)
}
