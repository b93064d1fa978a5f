//! Runs a statement that writes.
ghost use Rattle.pawn_tables.specs.Common.{state, Executes, HasCleanDisk, bound, NoRecord, Lends};
ghost use Rattle.std.specs.Prelude.{◌≢◌, ℕ, IsTrue, OnOk, Ok, Err, is_ok};
ghost use Rattle.pawn_book.specs.declared.fault.KeepError.TheVariants as Keeper;

use crate::cells::keeper_error;
use one_table::run;
use pawn_book::KeepError;
use sqlite::{Alter, Transaction};
use sqlite_value::value::ValueRef;

/// Runs a statement that returns no rows, in a borrowed transaction. The error is `Memory` or `Database`, never
/// `NoRecord`.
pub fn write<S: Alter>(
    tx: &mut Transaction<'_, S>,
    sql: &str,
    params: &[ValueRef<'_>],
) -> Result<(), KeepError>
    ensures ran { HasCleanDisk (state S.Store tx.new.conn.now) → IsTrue (state S.Store tx.old.conn.now).in_transaction → OnOk result
        ((count : ℕ) × Executes sql.now (bound params.now) (state S.Store tx.old.conn.now) (state S.Store tx.new.conn.now) (Ok count)) }
    ensures no_row { result ≢ Err (Keeper.Store NoRecord) }
    ensures lent { Lends S.Store tx.old.conn tx.new.conn (is_ok result) }
{
    match run(tx, sql, params) {
        Ok(()) => Ok(()),
        Err(error) => Err(keeper_error(error)),
    }
}
