//! The program's two indexes, which a store that lacks them gets when it is opened.
ghost use Rattle.pawn_opening.specs.Common.{state, Lends};
ghost use Rattle.pawn_opening.specs.Indexing.{AddsIndexes, lacking};
ghost use Rattle.pawn_opening.specs.Opened.{IndexesStore};
ghost use Rattle.sqlite_schema.specs.Names.{index_named};
ghost use Rattle.std.specs.Prelude.{◌≡◌, ◌↔◌, false, IsTrue, is_ok, is_some};

use crate::fault::{OpenFault, opening_fault};
use one_table::{know_settled, run};
use pawn_tables::texts::{MAKE_BOOKINGS_BY_TIME, MAKE_PLEDGES_BY_END};
use sqlite::{Alter, Connection, Error, Transaction};

/// Which of the program's two indexes a store lacks.
#[derive(Clone, Copy)]
pub enum Lacking {
    /// `pledges_by_end`, for the search for the periods that end on a day.
    PledgesByEnd,
    /// `bookings_by_time`, for the search for the bookings of a day.
    BookingsByTime,
    /// Both of them.
    Both,
}

/// Makes the given indexes within a borrowed transaction. The rows of each table do not change.
///
/// # Errors
/// The database's own error: the name of an index is taken, a table or a column is missing, the store failed, or out of
/// memory.
#[tactic(auto, using(crate::proofs::Basics::lent_then))]
pub fn make_indexes<S: Alter>(tx: &mut Transaction<'_, S>, which: Lacking) -> Result<(), Error>
    ensures adds { AddsIndexes which (state S.Store tx.old.conn.now) (state S.Store tx.new.conn.now) result }
    ensures lent { Lends S.Store tx.old.conn tx.new.conn (is_ok result) }
{
    match which {
        Lacking::PledgesByEnd => run(tx, MAKE_PLEDGES_BY_END, &[]),
        Lacking::BookingsByTime => run(tx, MAKE_BOOKINGS_BY_TIME, &[]),
        Lacking::Both => {
            run(tx, MAKE_PLEDGES_BY_END, &[])?;
            run(tx, MAKE_BOOKINGS_BY_TIME, &[])
        }
    }
}

/// Which of the program's indexes a store lacks; `None` if it has both. An index is recognised by its name only,
/// whatever it indexes. As in SQL, the case of ASCII letters does not matter.
pub fn indexes_lacking<S: Alter>(conn: &Connection<S>) -> Option<Lacking>
    ensures value { result ≡ lacking (state S.Store conn.now).now.schema }
{
    let schema = conn.schema();
    let by_end = schema.index_named(b"pledges_by_end").is_some();
    let by_time = schema.index_named(b"bookings_by_time").is_some();
    match (by_end, by_time) {
        (true, true) => None,
        (false, true) => Some(Lacking::PledgesByEnd),
        (true, false) => Some(Lacking::BookingsByTime),
        (false, false) => Some(Lacking::Both),
    }
}

/// Makes the program's indexes that a store lacks, in one transaction that changes no row. Nothing is written if the
/// store has both.
///
/// # Errors
/// `Store` if the store failed, and `Memory` if out of memory. The store then has the content that it had before.
pub fn add_indexes<S: Alter>(conn: &mut Connection<S>) -> Result<(), OpenFault>
    requires rests { conn.old.in_transaction ≡ false }
    ensures indexed { IndexesStore (state S.Store conn.old) (state S.Store conn.new) result }
{
    know_settled(conn);
    let Some(which) = indexes_lacking(conn) else {
        return Ok(());
    };
    let mut tx = conn.transaction();
    if let Err(error) = make_indexes(&mut tx, which) {
        tx.rollback();
        return Err(opening_fault(error));
    }
    match tx.commit() {
        Ok(()) => Ok(()),
        Err(error) => Err(opening_fault(error)),
    }
}
