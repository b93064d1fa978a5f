//! Runs a query or another statement in a borrowed transaction.
ghost use Rattle.one_table.specs.Lending.{Lends};
ghost use Rattle.sqlite.specs.Held.{state};
ghost use Rattle.sqlite.specs.State.{Executes, HasCleanDisk, Shown, IsLive};
ghost use Rattle.sqlite.specs.Values.{bound};
ghost use Rattle.std.specs.Prelude.{◌≡◌, ℕ, IfOk, IsTrue, OnOk, Ok, false, is_ok};

use sqlite::{Alter, Connection, Error, Row, Transaction};
use sqlite_value::value::ValueRef;

/// Runs a query in a borrowed transaction, and returns the rows. If the query succeeds, the transaction is still open;
/// if it fails, the transaction may have ended. The error is the database's.
pub fn ask<S: Alter>(
    tx: &mut Transaction<'_, S>,
    sql: &str,
    params: &[ValueRef<'_>],
) -> Result<Vec<Row>, Error>
    ensures shown { HasCleanDisk (state S.Store tx.new.conn.now) → IfOk result
        (λ rows. Shown sql.now (bound params.now) (state S.Store tx.old.conn.now) (state S.Store tx.new.conn.now) rows.items) }
    ensures lent { Lends S.Store tx.old.conn tx.new.conn (is_ok result) }
{
    match tx.query_all(sql, params) {
        Ok(rows) => Ok(rows),
        Err(error) => Err(error),
    }
}

/// Runs a statement that returns no rows in a borrowed transaction. If the statement succeeds, the transaction is still
/// open; if it fails, the transaction may have ended. The error is the database's.
pub fn run<S: Alter>(
    tx: &mut Transaction<'_, S>,
    sql: &str,
    params: &[ValueRef<'_>],
) -> Result<(), Error>
    ensures ran { HasCleanDisk (state S.Store tx.new.conn.now) → IsTrue (state S.Store tx.old.conn.now).in_transaction → OnOk result
        ((count : ℕ) × Executes sql.now (bound params.now) (state S.Store tx.old.conn.now) (state S.Store tx.new.conn.now) (Ok count)) }
    ensures lent { Lends S.Store tx.old.conn tx.new.conn (is_ok result) }
{
    match tx.execute(sql, params) {
        Ok(_) => Ok(()),
        Err(error) => Err(error),
    }
}

/// Proves that a connection is live and that, if it is open and outside a transaction, its content is what it has
/// committed. The library promises this only in the contracts of `is_autocommit` and `schema`; the body calls both and
/// drops their answers.
pub fn know_settled<S: Alter>(conn: &Connection<S>)
    ensures settled { (state S.Store conn.now).in_transaction ≡ false → IsTrue (state S.Store conn.now).is_open
        → (state S.Store conn.now).now ≡ (state S.Store conn.now).committed }
    ensures live { IsLive (state S.Store conn.now) }
{
    let _ = conn.is_autocommit();
    let _ = conn.schema();
}
