//! Inserts the totals of all pledges, for a store of schema 1.
ghost use Rattle.pawn_move.specs.Moving.{AreOwedIn, IsNextChecked, PutsAll, PutsTotals, rows_if_any, totals_of_book};
ghost use Rattle.pawn_opening.specs.Common.{state, Lends};
ghost use Rattle.pawn_saving.specs.RowWrites.{Carries};
ghost use Rattle.pawn_tables.specs.Common.{NoRecord};
ghost use Rattle.std.specs.Prelude.{◌≢◌, is_ok};
ghost use Rattle.pawn_book.specs.declared.fault.KeepError.TheVariants as Keeper;

use crate::debts::totals_for;
use pawn_book::{KeepError, Number, StoreFault};
use pawn_saving::put_totals;
use pawn_tables::next_in;
use sqlite::{Alter, Transaction};
use std::alloc::Global;

/// The error for more pledges or books than 32 bits can number, and for a database that fails.
pub(crate) const BEYOND: KeepError = KeepError::Store(StoreFault::Database);

/// The error of a statement that writes: `NoRecord`, which no such statement reports, becomes `Database`.
fn unwritten(error: KeepError) -> KeepError
    ensures no_row { result ≢ Keeper.Store NoRecord }
{
    match error {
        KeepError::Memory => KeepError::Memory,
        KeepError::Store(_) => BEYOND,
    }
}

/// Inserts the totals of all pledges of a book. The error is `NoRecord` only if some book is not sound.
#[tactic(auto, using(crate::proofs::Basics::lent_then))]
pub(crate) fn put_book<S: Alter>(
    tx: &mut Transaction<'_, S>,
    alloc: Global,
    book: u32,
) -> Result<(), KeepError>
    ensures puts { PutsTotals (state S.Store tx.old.conn.now) (state S.Store tx.new.conn.now) result
        (λ h done. totals_of_book h book) (λ h done. AreOwedIn h book) }
    ensures carried { Carries S.Store tx.old.conn tx.new.conn (is_ok result) }
{
    for place in 0..u32::MAX {
        let Some(totals) = totals_for(tx, alloc, book, place + 1)? else {
            return Ok(());
        };
        match put_totals(tx, book, place + 1, &totals) {
            Ok(()) => {}
            Err(error) => return Err(unwritten(error)),
        }
    }
    Err(BEYOND)
}

/// Inserts the totals for the book with the least number that is greater than `above`. Returns its number; `None` if
/// there is no such book.
pub(crate) fn put_next<S: Alter>(
    tx: &mut Transaction<'_, S>,
    alloc: Global,
    above: u32,
) -> Result<Option<Number>, KeepError>
    ensures puts { PutsTotals (state S.Store tx.old.conn.now) (state S.Store tx.new.conn.now) result
        (λ h next. rows_if_any next (totals_of_book h)) (λ h next. IsNextChecked h above next) }
    ensures lent { Lends S.Store tx.old.conn tx.new.conn (is_ok result) }
{
    let Some(book) = next_in(tx, above)? else {
        return Ok(None);
    };
    put_book(tx, alloc, book.get())?;
    Ok(Some(book))
}

/// Inserts the totals of all pledges of all books. The error is `NoRecord` only if some book is not sound.
pub fn put_books<S: Alter>(tx: &mut Transaction<'_, S>, alloc: Global) -> Result<(), KeepError>
    ensures puts { PutsAll (state S.Store tx.old.conn.now) (state S.Store tx.new.conn.now) result }
    ensures carried { Carries S.Store tx.old.conn tx.new.conn (is_ok result) }
{
    let mut above = 0;
    for _ in 0..u32::MAX {
        let Some(book) = put_next(tx, alloc, above)? else {
            return Ok(());
        };
        above = book.get();
    }
    Err(BEYOND)
}
