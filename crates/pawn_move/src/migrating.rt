//! Migrates a store in one transaction.
ghost use Rattle.pawn_move.specs.Migrating.{Migrates, MigratesIndexed, MigratesOwed, MovesStore, MovesStoreIndexed};
ghost use Rattle.pawn_move.specs.Migrating.{MovesStoreOwed};
ghost use Rattle.pawn_move.specs.Moving.{Moves, MovesIndexed, MovesOwed};
ghost use Rattle.pawn_opening.specs.Common.{state, Lends};
ghost use Rattle.std.specs.Prelude.{◌≡◌, ◌⊎◌, false, is_ok};

use crate::checking::check_books;
use crate::fault::{MoveFault, unmoved};
use crate::making::{finish, make_extensions, make_totals};
use crate::noted_schema::schema_of;
use crate::totals_inserts::put_books;
use one_table::know_settled;
use pawn_book::KeepError;
use pawn_opening::{Lacking, SCHEMA, add_indexes, indexes_lacking};
use pawn_tables::keeper_error;
use sqlite::{Alter, Connection, Transaction};
use std::alloc::Global;

/// Migrates tables of schema 1 or 2 to the program's within a borrowed transaction, and makes the indexes in `lacking`.
/// The error is `NoRecord` if a row cannot be decoded, or if commands cannot produce some debt.
#[tactic(auto, using(crate::proofs::Basics::lent_then))]
fn move_tables<S: Alter>(
    tx: &mut Transaction<'_, S>,
    alloc: Global,
    from: u32,
    lacking: Option<Lacking>,
) -> Result<(), KeepError>
    requires older { (from ≡ 1) ⊎ (from ≡ 2) }
    ensures moves { Moves from (state S.Store tx.old.conn.now) (state S.Store tx.new.conn.now) result }
    ensures checks { MovesOwed from (state S.Store tx.old.conn.now) (state S.Store tx.new.conn.now) result }
    ensures indexed { MovesIndexed from lacking (state S.Store tx.old.conn.now) (state S.Store tx.new.conn.now) result }
    ensures lent { Lends S.Store tx.old.conn tx.new.conn (is_ok result) }
{
    if from == 1 {
        make_totals(tx)?;
        make_extensions(tx)?;
        put_books(tx, alloc)?;
        finish(tx, lacking)
    } else {
        make_extensions(tx)?;
        check_books(tx, alloc)?;
        finish(tx, lacking)
    }
}

/// Migrates a store of schema 1 or 2 to the program's, in one transaction. After an error the store is as before.
fn move_store<S: Alter>(conn: &mut Connection<S>, alloc: Global, from: u32) -> Result<(), KeepError>
    requires rests { conn.old.in_transaction ≡ false }
    requires older { (from ≡ 1) ⊎ (from ≡ 2) }
    ensures moves { MovesStore from (state S.Store conn.old) (state S.Store conn.new) result }
    ensures checks { MovesStoreOwed from (state S.Store conn.old) (state S.Store conn.new) result }
    ensures indexed { MovesStoreIndexed from (state S.Store conn.old) (state S.Store conn.new) result }
{
    know_settled(conn);
    let lacking = indexes_lacking(conn);
    let mut tx = conn.transaction();
    if let Err(error) = move_tables(&mut tx, alloc, from, lacking) {
        tx.rollback();
        return Err(error);
    }
    match tx.commit() {
        Ok(()) => Ok(()),
        Err(error) => Err(keeper_error(error)),
    }
}

/// Migrates a store to the program's schema, in one transaction. No transaction may be under way on the connection.
/// Returns the number of the schema that the store had, and that of the program's. Whatever schema it had, the store then
/// has the indexes that it lacked; one of the program's schema gets nothing else. A store that is refused is as before.
/// What is proved of a migration from schema 1 or 2 assumes that no book has the number 0; no request makes one.
///
/// # Errors
/// `NotOurs` for an empty store, and for one that notes no schema or the number 0. `NewerSchema` if it notes a newer
/// schema. `Damaged` if it notes an older one, and a stored row cannot be decoded or commands cannot produce the debt of
/// some pledge. `Store` if the store failed, and `Memory` if out of memory.
pub fn migrate<S: Alter>(alloc: Global, conn: &mut Connection<S>) -> Result<(u32, u32), MoveFault>
    requires rests { conn.old.in_transaction ≡ false }
    ensures migrates { Migrates (state S.Store conn.old) (state S.Store conn.new) result }
    ensures checks { MigratesOwed (state S.Store conn.old) (state S.Store conn.new) result }
    ensures indexed { MigratesIndexed (state S.Store conn.old) (state S.Store conn.new) result }
{
    know_settled(conn);
    let from = schema_of(conn)?;
    if from == SCHEMA {
        if let Err(why) = add_indexes(conn) {
            return Err(MoveFault::of_opening(why));
        }
        return Ok((from, SCHEMA));
    }
    match move_store(conn, alloc, from) {
        Ok(()) => Ok((from, SCHEMA)),
        Err(error) => Err(unmoved(error)),
    }
}
