//! Prepares a connection's store for use.
ghost use Rattle.pawn_opening.specs.Common.{state, most_rows};
ghost use Rattle.pawn_opening.specs.Opened.{LaysOut, Prepares};
ghost use Rattle.pawn_opening.specs.Refusing.{IsEmptyStore};
ghost use Rattle.std.specs.Prelude.{◌≡◌, ◌↔◌, ◌≤◌, false, IsTrue};

use crate::fault::{OpenFault, opening_fault};
use crate::first_content::make_first_content;
use crate::indexing::add_indexes;
use crate::recognising::recognise;
use one_table::know_settled;
use sqlite::{Alter, Connection};

/// Makes the program's tables, indexes and notes in an empty store, in one transaction. The error is `Store` or
/// `Memory`.
fn lay_out<S: Alter>(conn: &mut Connection<S>, limit: u32) -> Result<(), OpenFault>
    requires rests { conn.old.in_transaction ≡ false }
    ensures laid_out { LaysOut (state S.Store conn.old) (state S.Store conn.new) limit result }
{
    know_settled(conn);
    let mut tx = conn.transaction();
    if let Err(error) = make_first_content(&mut tx, limit) {
        tx.rollback();
        return Err(opening_fault(error));
    }
    match tx.commit() {
        Ok(()) => Ok(()),
        Err(error) => Err(opening_fault(error)),
    }
}

/// Whether the store has no table, index or view.
fn is_empty<S: Alter>(conn: &Connection<S>) -> bool
    ensures empty { IsTrue result ↔ IsEmptyStore (state S.Store conn.now).now }
{
    let schema = conn.schema();
    schema.tables.is_empty() && schema.indexes.is_empty() && schema.views.is_empty()
}

/// Prepares the store of a connection for use. No transaction may be under way. An empty store gets the program's
/// tables, and `limit` as its limit on counted rows, 1 to 10,000,000, in one transaction. A store that notes the
/// program's schema keeps its stored limit; the indexes that it lacks are made in one transaction that changes no row.
/// Its rows are not checked.
///
/// # Errors
/// `OldSchema` with its number if the store notes an older schema. `NotOurs` if it is not empty and notes no schema, or
/// a newer one. `Store` if the store failed, and `Memory` if out of memory.
pub fn prepare<S: Alter>(conn: &mut Connection<S>, limit: u32) -> Result<(), OpenFault>
    requires rests { conn.old.in_transaction ≡ false }
    requires least { 1 ≤ limit }
    requires most { limit ≤ most_rows }
    ensures prepared { Prepares (state S.Store conn.old) (state S.Store conn.new) limit result }
{
    know_settled(conn);
    if is_empty(conn) {
        lay_out(conn, limit)
    } else {
        recognise(conn)?;
        add_indexes(conn)
    }
}
