//! Saves a change in one transaction.
ghost use Rattle.pawn_book.specs.Keeping.{OfHost, Saves};
ghost use Rattle.pawn_saving.specs.Common.{CanSave};
ghost use Rattle.pawn_saving.specs.Counted.{WritesChange, WritesRows};
ghost use Rattle.pawn_tables.specs.Common.{state, Lends};
ghost use Rattle.pawn_tables.specs.Keeps.{keeping_by};
ghost use Rattle.std.specs.Prelude.{◌≡◌, ◌≢◌, false, is_ok};
ghost use Rattle.pawn_book.specs.declared.fault.SaveError.TheVariants as Save;

use crate::changes::{add_terms, make_book, put_pledge};
use crate::counting::count_within;
use crate::import_writes::import_book;
use pawn_book::{Change, KeepError, SaveError, StoreFault};
use pawn_tables::keeper_error;
use sqlite::{Alter, Connection, Transaction};

/// A keeper's error as the error of a save. It is never `Full`.
fn unsaved(error: KeepError) -> SaveError
    ensures not_full { result ≢ Save.Full }
{
    match error {
        KeepError::Memory => SaveError::Memory,
        KeepError::Store(fault) => SaveError::Store(fault),
    }
}

/// Writes a change. Returns how many counted rows that adds.
fn write_rows<S: Alter>(tx: &mut Transaction<'_, S>, change: &Change) -> Result<u32, KeepError>
    ensures wrote { WritesRows (state S.Store tx.old.conn.now) (state S.Store tx.new.conn.now) change.now result }
    ensures lent { Lends S.Store tx.old.conn tx.new.conn (is_ok result) }
{
    match change {
        Change::MakeBook { book, new_book } => make_book(tx, *book, new_book),
        Change::AddTerms {
            book,
            version,
            terms,
        } => add_terms(tx, *book, *version, *terms),
        Change::PutPledge {
            book,
            number,
            pledge,
        } => put_pledge(tx, *book, *number, pledge),
        Change::ImportBook {
            book,
            import_key,
            rows,
        } => import_book(tx, *book, *import_key, rows),
    }
}

/// Writes a change within the transaction and counts its rows. The error is `Full` if the count then exceeds the limit.
/// After an error the caller must roll back.
#[tactic(auto, using(crate::proofs::Basics::lent_then))]
pub(crate) fn write_change<S: Alter>(
    tx: &mut Transaction<'_, S>,
    change: &Change,
) -> Result<(), SaveError>
    ensures wrote { WritesChange (state S.Store tx.old.conn.now) (state S.Store tx.new.conn.now) change.now result }
    ensures lent { Lends S.Store tx.old.conn tx.new.conn (is_ok result) }
{
    let added = match write_rows(tx, change) {
        Ok(added) => added,
        Err(error) => return Err(unsaved(error)),
    };
    match count_within(tx, added) {
        Ok(true) => Ok(()),
        Ok(false) => Err(SaveError::Full),
        Err(error) => Err(unsaved(error)),
    }
}

/// Saves a change in one transaction, which has ended when the call returns. The error is `Full` if the store would
/// have more counted rows than its limit, and `Memory` or `Store` if the database failed. It is also `Store` if a
/// transaction is already under way.
pub fn save<S: Alter>(conn: &mut Connection<S>, change: &Change) -> Result<(), SaveError>
    requires can_save { (keeping_by (λ c. state S.Store c)).usable conn.old → OfHost
        (keeping_by (λ c. state S.Store c)) conn.old conn.old (λ h. CanSave h change.now) }
    ensures ended { conn.old.in_transaction ≡ false → conn.new.in_transaction ≡ false }
    ensures saves { Saves (keeping_by (λ c. state S.Store c)) conn.old conn.new change.now result }
{
    if !conn.is_autocommit() {
        return Err(SaveError::Store(StoreFault::Database));
    }
    let mut tx = conn.transaction();
    match write_change(&mut tx, change) {
        Ok(()) => match tx.commit() {
            Ok(()) => Ok(()),
            Err(error) => Err(unsaved(keeper_error(error))),
        },
        Err(error) => {
            tx.rollback();
            Err(error)
        }
    }
}
